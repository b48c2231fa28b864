//! The edges of the day, of a line's numbers and of what an event takes in; letters, and the largest
//! values.
use crate::answers::{Answer, answer};
use std::process::Abort;
use terms::claim::Claim;
use terms::code::{Prefix, Series};
use terms::event::{Event, Rights, Successor};
use terms::family::Family;
use terms::futures::Futures;
use terms::lot::Lot;
use terms::options::Options;
use terms::right::Right;
use terms::terms::Terms;
use terms::units;

const TODAY: u16 = 8_000;

const STOCK: u32 = 1605;

/// A line with every number within its unit.
const LINE: Terms = Terms {
    series: Series {
        prefix: Prefix {
            first: b'C',
            second: b'N',
        },
        level: 0,
        expiry: 9_000,
        right: Right::Without,
        strike: 0,
    },
    stock: STOCK,
    units: 20_000_000,
    strike_lot: 20_000_000,
    cash: 0,
    claim: Claim::Absent,
};

/// New shares, which move the code in both families.
const SHARES: Event = Event {
    stock: STOCK,
    cash: 0,
    ratio: 1_100_000_000,
    rights: Rights::NONE,
    successor: Successor::NONE,
};

/// The same with rights whose deadline is before the day.
const LATE: Event = Event {
    rights: Rights {
        rate: 1,
        price: 1,
        deadline: 7_999,
    },
    ..SHARES
};

/// A day, an event's stock, and the answer by the event alone.
const ALONE: [(u16, u32, Answer); 4] = [
    (60_000, STOCK, Ok(())),
    (60_001, STOCK, Err(2)),
    (60_000, 0, Err(2)),
    (0, 4_294_967_295, Ok(())),
];

#[test]
fn events_alone(rt: HostRuntime) {
    for &(day, stock, expected) in &ALONE {
        let event = Event { stock, ..SHARES };
        assert_eq!(rt; answer(event.judge(day)), expected);
    }
}

fn open(units: u32, price: u32, deadline: u16) -> Claim {
    Claim::Open {
        units,
        price,
        deadline,
    }
}

fn in_series(series: Series) -> Terms {
    Terms { series, ..LINE }
}

fn with_claim(claim: Claim) -> Terms {
    Terms { claim, ..LINE }
}

// Where the first number stands whose line is not within its units as it is told.
fn first_misjudged<T: Copy, F: Fn(T) -> Terms>(line: F, cases: &[(T, bool)]) -> Option<usize>
    requires { F.IsAlwaysCallable line }
{
    cases.iter().position(|&(number, within)| line(number).is_within_units() != within)
}

/// Numbers of share units, each with whether a lot may have so many.
const LOT_UNITS: [(u32, bool); 4] = [
    (0, false),
    (1, true),
    (400_000_000, true),
    (400_000_001, false),
];

// A line with one number of its lot changed.
#[test]
fn lots_within(rt: HostRuntime) {
    assert_eq!(rt;
        first_misjudged(|stock| Terms { stock, ..LINE }, &[(0, false), (1, true)]),
        None
    );
    assert_eq!(rt;
        first_misjudged(|units| Terms { units, ..LINE }, &LOT_UNITS),
        None
    );
    assert_eq!(rt;
        first_misjudged(|strike_lot| Terms { strike_lot, ..LINE }, &LOT_UNITS),
        None
    );
    assert_eq!(rt;
        first_misjudged(
            |cash| Terms { cash, ..LINE },
            &[(100_000_000, true), (100_000_001, false)],
        ),
        None
    );
}

// A line with one number of its series changed.
#[test]
fn series_within(rt: HostRuntime) {
    assert_eq!(rt;
        first_misjudged(
            |level| in_series(Series {
                level,
                ..LINE.series
            }),
            &[(9, true), (10, false)],
        ),
        None
    );
    assert_eq!(rt;
        first_misjudged(
            |expiry| in_series(Series {
                expiry,
                ..LINE.series
            }),
            &[(60_000, true), (60_001, false)],
        ),
        None
    );
    assert_eq!(rt;
        first_misjudged(
            |strike| in_series(Series {
                strike,
                ..LINE.series
            }),
            &[(1_000_000, true), (1_000_001, false)],
        ),
        None
    );
}

// A line with a claim.
#[test]
fn claims_within(rt: HostRuntime) {
    assert_eq!(rt;
        first_misjudged(
            |units| with_claim(open(units, 1, 1)),
            &[(0, true), (400_000_000, true), (400_000_001, false)],
        ),
        None
    );
    assert_eq!(rt;
        first_misjudged(
            |price| with_claim(open(1, price, 1)),
            &[(0, false), (1, true), (1_000_000, true), (1_000_001, false)],
        ),
        None
    );
    assert_eq!(rt;
        first_misjudged(
            |deadline| with_claim(open(1, 1, deadline)),
            &[(60_000, true), (60_001, false)],
        ),
        None
    );
    assert_eq!(rt;
        first_misjudged(
            |dollars| with_claim(Claim::Fixed { dollars }),
            &[(400_000_000, true), (400_000_001, false)],
        ),
        None
    );
}

/// A day, an event, a line's stock, expiry and level; whether the event takes the line in, and the
/// answer.
#[derive(Clone, Copy)]
struct Meeting(u16, Event, u32, u16, u8, bool, Answer);

const MEETINGS: [Meeting; 12] = [
    // 12: the line expires on the day or before it, or is of another stock.
    Meeting(TODAY, SHARES, STOCK, 7_999, 0, false, Err(12)),
    Meeting(TODAY, SHARES, STOCK, 8_000, 0, false, Err(12)),
    Meeting(TODAY, SHARES, STOCK, 8_001, 0, true, Ok(())),
    Meeting(TODAY, SHARES, 1606, 8_001, 0, false, Err(12)),
    // 12 comes before 21, and 6 before 12.
    Meeting(TODAY, SHARES, STOCK, 8_001, 9, true, Err(21)),
    Meeting(TODAY, SHARES, STOCK, 8_000, 9, false, Err(12)),
    Meeting(TODAY, SHARES, 1606, 8_001, 9, false, Err(12)),
    Meeting(TODAY, LATE, STOCK, 8_000, 0, false, Err(6)),
    Meeting(TODAY, LATE, 1606, 8_001, 9, false, Err(6)),
    // The last days.
    Meeting(59_999, SHARES, STOCK, 60_000, 0, true, Ok(())),
    Meeting(60_000, SHARES, STOCK, 60_000, 0, false, Err(12)),
    Meeting(60_001, SHARES, STOCK, 60_000, 0, false, Err(2)),
];

#[test]
fn taken_in(rt: HostRuntime) {
    for &Meeting(day, event, stock, expiry, level, taken_in, expected) in &MEETINGS {
        let series = Series {
            level,
            expiry,
            ..LINE.series
        };
        let line = Terms {
            series,
            stock,
            ..LINE
        };
        assert_eq!(rt; line.is_taken_in(day, &event), taken_in);
        assert_eq!(rt; answer(line.adjust::<Futures>(day, &event)), expected);
        assert_eq!(rt; answer(line.adjust::<Options>(day, &event)), expected);
    }
}

/// Lots in one trade, and whether there may be so many.
const LOTS: [(u16, bool); 4] = [(0, false), (1, true), (4_000, true), (4_001, false)];

#[test]
fn lots(rt: HostRuntime) {
    for &(lots, may) in &LOTS {
        assert_eq!(rt; units::is_lots(lots), may);
    }
}

// The letters of levels 0 to 9, written and read back; there is none after them.
fn check_letters<F: Family>(rt: &impl Abort, letters: &[u8; 10]) {
    for (level, &letter) in (0..10).zip(letters) {
        let letter = char::from(letter);
        assert_eq!(rt; F::letter(level), Some(letter));
        assert_eq!(rt; F::level(letter), Some(level));
    }
    assert_eq!(rt; F::letter(10), None);
}

#[test]
fn letters(rt: HostRuntime) {
    check_letters::<Futures>(&rt, b"F123456789");
    check_letters::<Options>(&rt, b"OABCDEFGHI");
}

// At the largest price and claim, and for the put at the smallest price.
#[test]
fn largest_values(rt: HostRuntime) {
    let future = Lot {
        right: Right::Without,
        strike: 0,
        units: 400_000_000,
        strike_lot: 400_000_000,
        cash: 100_000_000,
    };
    let call = Lot {
        right: Right::Call,
        strike: 1,
        strike_lot: 1,
        ..future
    };
    let put = Lot {
        right: Right::Put,
        strike: 1_000_000,
        units: 1,
        strike_lot: 400_000_000,
        cash: 0,
    };
    assert_eq!(rt;
        Futures::trade_value(&future, 1_000_000),
        400_000_000_000_000
    );
    assert_eq!(rt;
        Futures::mark_value(&future, 1_000_000),
        400_000_000_000_000
    );
    assert_eq!(rt;
        Futures::final_value(&future, 1_000_000, 400_000_000),
        800_000_000_000_000
    );
    assert_eq!(rt; Options::trade_value(&put, 1_000_000), 400_000_000_000_000);
    assert_eq!(rt;
        Options::final_value(&call, 1_000_000, 400_000_000),
        899_999_999_999_999
    );
    assert_eq!(rt; Options::final_value(&put, 1, 0), 399_999_999_999_999);
}
