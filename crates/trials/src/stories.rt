//! Small stories with the equities of their accounts, and the questions.
use crate::script::Label::{Fit, Misfit};
use crate::script::Step::{Day, Equity, Lists, Lots, Marks, Opens, Terms, Trades};
use crate::script::{Answer, FUTURES, LOT, Label, OPTIONS, Step, Style, follow};
use book::book::Book;
use std::process::Abort;
use terms::family::Family;
use terms::futures::Futures;
use terms::options::Options;

const CS: Label = Fit(b"CS0", 8_236);

/// A lot is worth 80,000 dollars at 40.00, 82,000 at 41.00, 84,000 at 42.00, 79,000 at 39.50 and
/// 78,000 at 39.00.
static IN_FUTURES: [(Step, Answer); 21] = [
    (Opens(8_201, 101), Ok(())),
    (Opens(8_201, 102), Ok(())),
    (Opens(8_201, 103), Ok(())),
    (Lists(8_201, CS, 1605, LOT, 4_000), Ok(())),
    (Equity(101, 0), Ok(())),
    (Lots(101, CS, 0), Ok(())),
    // 3 x (80,000 - 82,000) dollars.
    (Trades(8_206, CS, 101, 102, 4_100, 3), Ok(())),
    (Day(8_206), Ok(())),
    (Equity(101, -6_000_000_000), Ok(())),
    (Equity(102, 6_000_000_000), Ok(())),
    // 3 x (84,000 - 82,000) dollars.
    (Marks(8_207, CS, 4_200), Ok(())),
    (Equity(101, 6_000_000_000), Ok(())),
    (Equity(102, -6_000_000_000), Ok(())),
    // 3 x (79,000 - 82,000) dollars.
    (Marks(8_208, CS, 3_950), Ok(())),
    (Day(8_208), Ok(())),
    (Equity(101, -9_000_000_000), Ok(())),
    (Equity(102, 9_000_000_000), Ok(())),
    // 79,000 - 78,000 dollars, to the buyer.
    (Trades(8_208, CS, 103, 101, 3_900, 1), Ok(())),
    (Equity(103, 1_000_000_000), Ok(())),
    (Equity(101, -10_000_000_000), Ok(())),
    (Equity(102, 9_000_000_000), Ok(())),
];

/// Premiums, on 2,000 shares: 82,000 dollars at 41.00, 78,000 at 39.00.
static IN_OPTIONS: [(Step, Answer); 18] = [
    (Opens(8_201, 101), Ok(())),
    (Opens(8_201, 102), Ok(())),
    (Opens(8_201, 103), Ok(())),
    (Lists(8_201, CS, 1605, LOT, 4_000), Ok(())),
    (Equity(101, 0), Ok(())),
    (Trades(8_206, CS, 101, 102, 4_100, 3), Ok(())),
    (Day(8_206), Ok(())),
    (Equity(101, -246_000_000_000), Ok(())),
    (Equity(102, 246_000_000_000), Ok(())),
    (Marks(8_207, CS, 4_200), Ok(())),
    (Marks(8_208, CS, 3_950), Ok(())),
    (Day(8_208), Ok(())),
    (Equity(101, -246_000_000_000), Ok(())),
    (Equity(102, 246_000_000_000), Ok(())),
    (Trades(8_208, CS, 103, 101, 3_900, 1), Ok(())),
    (Equity(103, -78_000_000_000), Ok(())),
    (Equity(101, -168_000_000_000), Ok(())),
    (Equity(102, 246_000_000_000), Ok(())),
];

/// After either story.
static QUESTIONS: [(Step, Answer); 29] = [
    (Terms(CS, 1605, LOT), Ok(())),
    (Lots(101, CS, 2), Ok(())),
    (Lots(102, CS, -3), Ok(())),
    (Lots(103, CS, 1), Ok(())),
    // Terms: 1, 2, 3, 12, and the smaller of two.
    (Terms(Fit(b"cS0", 8_236), 0, 0), Err(1)),
    (Terms(Fit(b"CSx", 8_236), 0, 0), Err(1)),
    (Terms(Fit(b"CS0", 60_001), 0, 0), Err(2)),
    (Terms(Misfit(b"CS0", 8_236), 0, 0), Err(3)),
    (Terms(Fit(b"CS0", 8_235), 0, 0), Err(12)),
    (Terms(Fit(b"CS1", 8_236), 0, 0), Err(12)),
    (Terms(Fit(b"CT0", 8_236), 0, 0), Err(12)),
    (Terms(Misfit(b"cS0", 60_001), 0, 0), Err(1)),
    (Terms(Misfit(b"CS0", 60_001), 0, 0), Err(2)),
    (Terms(Misfit(b"CS0", 8_235), 0, 0), Err(3)),
    // Lots: 1, 2, 3, 12, 16, and the smaller of two.
    (Lots(101, Fit(b"C0S", 8_236), 0), Err(1)),
    (Lots(101, Fit(b"CSx", 8_236), 0), Err(1)),
    (Lots(101, Fit(b"CS0", 60_001), 0), Err(2)),
    (Lots(0, CS, 0), Err(2)),
    (Lots(101, Misfit(b"CS0", 8_236), 0), Err(3)),
    (Lots(101, Fit(b"CS0", 8_235), 0), Err(12)),
    (Lots(104, CS, 0), Err(16)),
    (Lots(0, Misfit(b"cS0", 8_236), 0), Err(1)),
    (Lots(0, Misfit(b"CS0", 8_236), 0), Err(2)),
    (Lots(104, Misfit(b"CS0", 8_235), 0), Err(3)),
    (Lots(104, Fit(b"CS0", 8_235), 0), Err(12)),
    // Equity: 2 and 16.
    (Equity(0, 0), Err(2)),
    (Equity(104, 0), Err(16)),
    (Equity(4_294_967_295, 0), Err(16)),
    (Day(8_208), Ok(())),
];

fn tell<F: Family>(rt: &impl Abort, style: &Style, story: &[(Step, Answer)]) {
    let mut book = Book::<F>::new();
    follow(rt, &mut book, style, story);
    follow(rt, &mut book, style, &QUESTIONS);
}

#[test]
fn stories(rt: HostRuntime) {
    for style in &FUTURES {
        tell::<Futures>(&rt, style, &IN_FUTURES);
    }
    for style in &OPTIONS {
        tell::<Options>(&rt, style, &IN_OPTIONS);
    }
}
