//! A merger into a prefix, or into a stock, that is live already.
use crate::script::Label::Level;
use crate::script::Step::{
    Adjusts, Dollars, Expires, Fixes, Holds, Lists, Lots, Opens, TakesIn, Terms, Trades,
};
use crate::script::{
    Answer, Does, LOT, Label, NONE, OPTIONS, STAYS, Step, follow, play_after_in_all,
    play_each_in_all,
};
use book::book::Book;
use terms::claim::Claim;
use terms::options::Options;
use terms::units::ONE;

/// A merger of one stock into another, with its prefix.
const A_INTO_V: Does = Does(7, 0, ONE, NONE, (8, b"VV"));

const A_INTO_W: Does = Does(7, 0, ONE, NONE, (9, b"WW"));

/// Stock 7 (AA) has two months; 8 (VV) an adjusted line in the first of them and a standard one in the
/// second; 9 (WW) a standard one in a third; 10 (XX) a month that expires on day 100 and one that does
/// not; 11 (HH) an open claim.
static BEGINNING: [(Step, Answer); 13] = [
    (Opens(90, 101), Ok(())),
    (Opens(90, 102), Ok(())),
    (Lists(90, Level(b"AA00", 200), 7, LOT, 5_000), Ok(())),
    (Lists(90, Level(b"AA00", 201), 7, LOT, 5_000), Ok(())),
    (Lists(90, Level(b"VV00", 200), 8, LOT, 5_000), Ok(())),
    (Lists(90, Level(b"WW00", 202), 9, LOT, 5_000), Ok(())),
    (Lists(90, Level(b"XX00", 100), 10, LOT, 5_000), Ok(())),
    (Lists(90, Level(b"XX00", 200), 10, LOT, 5_000), Ok(())),
    (Lists(90, Level(b"HH00", 201), 11, LOT, 5_000), Ok(())),
    (
        TakesIn(91, Does(8, 0, 1_100_000_000, NONE, STAYS), 1),
        Ok(()),
    ),
    (TakesIn(91, Does(11, 0, ONE, (1, 1, 150), STAYS), 1), Ok(())),
    (Lists(92, Level(b"VV00", 201), 8, LOT, 5_000), Ok(())),
    (Opens(100, 103), Ok(())),
];

static REFUSED: [(Step, Answer); 24] = [
    // 13: AA0 would become VV1, which is live in one of the two months; so would XX0.
    (Adjusts(100, A_INTO_V), Err(13)),
    (Adjusts(199, A_INTO_V), Err(13)),
    (
        Adjusts(100, Does(7, 1, 800_000_000, NONE, (8, b"VV"))),
        Err(13),
    ),
    (Adjusts(100, Does(10, 0, ONE, NONE, (8, b"VV"))), Err(13)),
    // 14: the prefix has another stock, the stock has another prefix.
    (Adjusts(100, Does(7, 0, ONE, NONE, (70, b"WW"))), Err(14)),
    (Adjusts(100, Does(7, 0, ONE, NONE, (8, b"WW"))), Err(14)),
    (Adjusts(100, Does(7, 0, ONE, NONE, (9, b"ZZ"))), Err(14)),
    (Adjusts(100, Does(7, 0, ONE, NONE, (9, b"AA"))), Err(14)),
    (Adjusts(100, Does(7, 0, ONE, NONE, (10, b"AA"))), Err(14)),
    (Adjusts(100, Does(9, 0, ONE, NONE, (90, b"AA"))), Err(14)),
    // 14: the month that is not taken in keeps the prefix.
    (Adjusts(100, Does(10, 0, ONE, NONE, (70, b"XX"))), Err(14)),
    // 23: an open claim.
    (Adjusts(100, Does(11, 0, ONE, NONE, (70, b"ZZ"))), Err(23)),
    // 4, 6, 11 and 12 before 13 and 14.
    (Adjusts(100, Does(8, 0, ONE, NONE, (8, b"WW"))), Err(4)),
    (
        Adjusts(100, Does(7, 0, ONE, (1, 1, 99), (8, b"VV"))),
        Err(6),
    ),
    (Adjusts(99, A_INTO_V), Err(11)),
    (Adjusts(99, Does(7, 0, ONE, NONE, (70, b"WW"))), Err(11)),
    (Adjusts(100, Does(77, 0, ONE, NONE, (70, b"WW"))), Err(12)),
    // 13 before 14: the name is live, and the prefix has another stock.
    (Adjusts(100, Does(7, 0, ONE, NONE, (70, b"VV"))), Err(13)),
    // 13 and 14 before 20: the month of day 100 has expired.
    (Adjusts(101, Does(10, 0, ONE, NONE, (8, b"VV"))), Err(13)),
    (Adjusts(101, Does(10, 0, ONE, NONE, (70, b"XX"))), Err(14)),
    (Adjusts(101, Does(10, 0, ONE, NONE, (70, b"ZZ"))), Err(20)),
    // 13 before 22, 14 before 22 and 23.
    (Adjusts(100, Does(7, 0, 1, NONE, (8, b"VV"))), Err(13)),
    (Adjusts(100, Does(7, 0, 1, NONE, (70, b"WW"))), Err(14)),
    (Adjusts(100, Does(11, 0, ONE, NONE, (70, b"WW"))), Err(14)),
];

static ACCEPTED: [(Step, Answer); 9] = [
    // Into a prefix that is live with the same stock, where no name is met.
    (TakesIn(100, A_INTO_W, 2), Ok(())),
    (TakesIn(100, Does(9, 0, ONE, NONE, (8, b"VV")), 1), Ok(())),
    (TakesIn(100, Does(9, 0, ONE, NONE, (7, b"AA")), 1), Ok(())),
    // VV1 becomes WW2, VV0 becomes WW1.
    (TakesIn(100, Does(8, 0, ONE, NONE, (9, b"WW")), 2), Ok(())),
    // VV1 becomes AA2 and VV0 AA1, beside AA0 in both months.
    (TakesIn(100, Does(8, 0, ONE, NONE, (7, b"AA")), 2), Ok(())),
    // Into a new stock, with a new prefix and with the old one.
    (TakesIn(100, Does(7, 0, ONE, NONE, (70, b"ZZ")), 2), Ok(())),
    (TakesIn(100, Does(7, 0, ONE, NONE, (70, b"AA")), 2), Ok(())),
    (TakesIn(100, Does(8, 0, ONE, NONE, (80, b"VV")), 2), Ok(())),
    // The month that expires on the day keeps XX and the old stock.
    (TakesIn(100, Does(10, 0, ONE, NONE, (70, b"ZZ")), 1), Ok(())),
];

#[test]
fn refused_mergers(rt: HostRuntime) {
    play_after_in_all(&rt, &BEGINNING, &REFUSED);
}

#[test]
fn accepted_mergers(rt: HostRuntime) {
    play_each_in_all(&rt, &BEGINNING, &ACCEPTED);
}

/// On the day when the first month expires it is taken in no more, and the second meets no name. After
/// the merger the prefix of the second month is the survivor's; the old one is free for another stock
/// when the first month is gone.
static THEN: [(Step, Answer); 15] = [
    (Trades(100, Level(b"AA00", 201), 101, 102, 5_000, 2), Ok(())),
    (Adjusts(199, A_INTO_V), Err(13)),
    (TakesIn(200, A_INTO_V, 1), Ok(())),
    (Expires(200, Level(b"VV11", 200), 5_000, 5_000), Ok(())),
    (Terms(Level(b"AA00", 200), 7, LOT), Ok(())),
    (Terms(Level(b"VV00", 201), 8, LOT), Ok(())),
    (
        Holds(Level(b"VV11", 201), 8, LOT, LOT, 0, Claim::Absent),
        Ok(()),
    ),
    (Lots(101, Level(b"VV11", 201), 2), Ok(())),
    (Lots(101, Level(b"VV00", 201), 0), Ok(())),
    (Lists(200, Level(b"AA00", 210), 70, LOT, 5_000), Err(14)),
    (Expires(200, Level(b"AA00", 200), 5_000, 5_000), Ok(())),
    (Lists(200, Level(b"AA00", 210), 8, LOT, 5_000), Err(14)),
    (Lists(200, Level(b"AA00", 210), 70, LOT, 5_000), Ok(())),
    (Adjusts(200, Does(70, 0, ONE, NONE, (8, b"AA"))), Err(14)),
    (Dollars(102, [0, 200_000, 200_000]), Ok(())),
];

#[test]
fn the_month_that_expires_on_the_day_is_not_merged(rt: HostRuntime) {
    play_after_in_all(&rt, &BEGINNING, &THEN);
}

/// A fixed claim goes over to the new stock, and pays its dollars there.
static FIXED: [(Step, Answer); 10] = [
    (Opens(90, 101), Ok(())),
    (Opens(90, 102), Ok(())),
    (Lists(90, Level(b"AA00", 200), 7, LOT, 5_000), Ok(())),
    (Trades(90, Level(b"AA00", 200), 101, 102, 5_000, 1), Ok(())),
    (
        TakesIn(91, Does(7, 0, ONE, (50_000_000, 1_630, 95), STAYS), 1),
        Ok(()),
    ),
    (Adjusts(95, A_INTO_V), Err(23)),
    (Fixes(95, 7, 95, 2_030), Ok(())),
    (TakesIn(95, A_INTO_V, 1), Ok(())),
    (
        Holds(
            Level(b"VV22", 200),
            8,
            LOT,
            LOT,
            0,
            Claim::Fixed { dollars: 400 },
        ),
        Ok(()),
    ),
    (Expires(200, Level(b"VV22", 200), 5_000, 1), Ok(())),
];

/// Futures: 100,400 - 100,000. Calls: 100,400 - 100,000 as well.
static PAID: [(Step, Answer); 1] = [(Dollars(101, [400, -99_600, -100_000]), Ok(()))];

#[test]
fn a_fixed_claim_goes_over(rt: HostRuntime) {
    play_after_in_all(&rt, &FIXED, &PAID);
}

/// A put of the survivor is in the way of a put at its strike, and neither of a call nor of a put at
/// another.
#[test]
fn names_that_differ_in_right_or_strike(rt: HostRuntime) {
    let mut book = Book::<Options>::new();
    follow(&rt, &mut book, &OPTIONS[1], &SURVIVOR);
    follow(&rt, &mut book, &OPTIONS[0], &MERGED);
    follow(&rt, &mut book, &OPTIONS[4], &MERGED);
    follow(&rt, &mut book, &OPTIONS[1], &MET);
}

static SURVIVOR: [(Step, Answer); 2] = [
    (Lists(90, Level(b"VV00", 200), 8, LOT, 5_000), Ok(())),
    (
        TakesIn(91, Does(8, 0, 1_100_000_000, NONE, STAYS), 1),
        Ok(()),
    ),
];

static MERGED: [(Step, Answer); 3] = [
    (Lists(92, Level(b"AA00", 200), 7, LOT, 5_000), Ok(())),
    (TakesIn(92, A_INTO_V, 1), Ok(())),
    (
        Holds(Level(b"VV11", 200), 8, LOT, LOT, 0, Claim::Absent),
        Ok(()),
    ),
];

static MET: [(Step, Answer); 3] = [
    (
        Holds(Level(b"VV11", 200), 8, 22_000_000, LOT, 0, Claim::Absent),
        Ok(()),
    ),
    (Lists(92, Level(b"AA00", 200), 7, LOT, 5_000), Ok(())),
    (Adjusts(92, A_INTO_V), Err(13)),
];
