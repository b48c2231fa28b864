//! Command lines, and what the program answers.
use crate::command::answer;
use crate::fault::Fault;
use std::test::Fail;

/// What a command line comes to.
#[derive(Debug, Clone, Copy, PartialEq, Eq)]
enum End {
    Answered,
    /// By its number, which the rules give and the program prints: that is what is tested.
    Refused(u8),
    /// The words are wrong.
    Unread,
    /// No memory, or no output.
    Broken,
}

use End::{Answered, Refused, Unread};

fn told(rt: &HostRuntime, line: &str) -> Result<String, Fault> {
    let words: Vec<&str> = line.split_whitespace().collect(rt.alloc())?;
    answer(rt.alloc(), &words)
}

fn end_of(rt: &HostRuntime, line: &str) -> End {
    match told(rt, line) {
        Ok(_) => Answered,
        Err(Fault::Refused(refusal)) => Refused(refusal.number()),
        Err(Fault::Amount(_)) => Refused(2),
        Err(Fault::Usage(_)) => Unread,
        Err(Fault::Memory | Fault::Output(_)) => End::Broken,
    }
}

const LINES: [(&str, End); 36] = [
    ("demo", Answered),
    ("--help", Answered),
    ("adjust --help", Answered),
    ("adjust futures CDF 2000 --cash 3", Answered),
    (
        "adjust options CNA 2000 --lot-cash 2000 --ratio 1.1",
        Answered,
    ),
    // Words that say nothing.
    ("", Unread),
    ("settle", Unread),
    ("demo again", Unread),
    ("adjust", Unread),
    ("adjust bonds CDF 2000", Unread),
    ("adjust futures CDF many", Unread),
    ("adjust futures CDF 2000 --cash", Unread),
    ("adjust futures CDF 2000 --tax 3", Unread),
    ("adjust futures CDF 2000 --until 2022-02-29", Unread),
    ("adjust futures CDF 2000 --cash 3 --cash 4", Unread),
    ("adjust futures CDF 2000 --until 1999-12-31", Unread),
    // Refusals, each by its number.
    ("adjust futures CDO 2000 --cash 3", Refused(1)),
    ("adjust futures CDFF 2000 --cash 3", Refused(1)),
    ("adjust futures CDF 2000 --into 7 --prefix D", Refused(1)),
    ("adjust futures CDF 2000 --cash 3.0000001", Refused(2)),
    ("adjust futures CDF 2000.00001 --cash 3", Refused(2)),
    ("adjust futures CDF 99999999999 --cash 3", Refused(2)),
    ("adjust futures CDF 40000.0001 --cash 3", Refused(2)),
    ("adjust futures CDF 2000", Refused(4)),
    ("adjust futures CDF 2000 --rate 0.1 --at 20", Refused(4)),
    (
        "adjust futures CDF 2000 --rate 0.1 --at 20 --until 2022-06-20 --day 2022-06-21",
        Refused(6),
    ),
    (
        "adjust futures CDF 2000 --cash 78 --price 78.00",
        Refused(7),
    ),
    ("adjust options CNI 2000 --cash 1", Refused(21)),
    ("adjust options CNO 20000 --ratio 1.1", Refused(22)),
    (
        "adjust futures CNF 2000 --rate 0.1 --at 20 --until 2022-08-03 --claim fixed",
        Refused(23),
    ),
    // Refusals that compete: the smallest number.
    ("adjust futures CDO 99999999 --cash 3", Refused(1)),
    (
        "adjust futures CDF 2000 --cash 3.0000001 --into 7 --prefix D",
        Refused(1),
    ),
    ("adjust futures CDF 50000", Refused(2)),
    ("adjust futures CDF 2000 --lot-cash 100000001", Refused(2)),
    ("adjust futures CDF 2000 --price 78 --rate 0.1", Refused(4)),
    (
        "adjust futures CN9 2000 --ratio 0.5 --cash 78 --price 78",
        Refused(7),
    ),
];

#[test]
fn command_lines(rt: HostRuntime) {
    for (line, end) in LINES {
        assert_eq!(rt; end_of(&rt, line), end);
    }
}

// The exchange's notice of June 2022.
#[test]
fn a_notice(rt: HostRuntime) -> Result<(), Fail> {
    let line =
        "adjust futures CSF 2000 --cash 1.6 --rate 0.06994366435 --at 30.00 --until 2022-08-03";
    let text = told(&rt, line)?;
    assert_eq!(rt;
        text.as_str(),
        "\
code              CSF becomes CS1
shares in a lot   2,000, as before
cash in the lot   none, as before
entry             +3,200 dollars to each lot bought, -3,200 dollars to each lot sold
claim             on 139.8873 shares at 30.00, payable until 2022-08-03
"
    );
    Ok(())
}
