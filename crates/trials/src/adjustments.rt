//! Each refusal of an adjustment, refusals that compete, and every limit of an event.
use crate::script::Label::Level;
use crate::script::Step::{Adjusts, Fixes, Lists, Opens, TakesIn, Trades};
use crate::script::{
    Answer, Does, FUTURES, LOT, Label, NO_PREFIX, NONE, OPTIONS, STAYS, Step, play_after,
    play_after_in_all, play_each_in_all,
};
use terms::futures::Futures;
use terms::options::Options;
use terms::units::ONE;

const PAYS: Does = Does(7, 1_000_000, ONE, NONE, STAYS);

/// A line of 2,000 shares keeps them, for the fraction of a unit is dropped; its code moves.
const LIFTS: Does = Does(7, 0, 1_000_000_001, NONE, STAYS);

const LIFTS_11: Does = Does(11, 0, 1_000_000_001, NONE, STAYS);

const LIFTS_12: Does = Does(12, 0, 1_000_000_001, NONE, STAYS);

const OFFERS: Does = Does(7, 0, ONE, (100_000_000, 2_000, 150), STAYS);

const MERGES: Does = Does(7, 0, ONE, NONE, (70, b"ZA"));

/// Stock 7 has a line of 2,000 shares; 9 one that expires on day 100, which is the book's; 10 one that
/// expired on 99; 11 one of each kind, on 99 and 200, at level 9; 12 one at level 9 with an open claim;
/// 13 one with an open claim; 14 one with a fixed claim; 15 one of a single unit; 16 one of 200,000,000.
static BEGINNING: [(Step, Answer); 34] = [
    (Opens(90, 101), Ok(())),
    (Opens(90, 102), Ok(())),
    (Lists(90, Level(b"AA00", 200), 7, LOT, 5_000), Ok(())),
    (Trades(90, Level(b"AA00", 200), 101, 102, 5_000, 1), Ok(())),
    (Lists(90, Level(b"CC00", 100), 9, LOT, 5_000), Ok(())),
    (Lists(90, Level(b"DD00", 99), 10, LOT, 5_000), Ok(())),
    (Lists(90, Level(b"EE00", 99), 11, LOT, 5_000), Ok(())),
    (Lists(90, Level(b"EE00", 200), 11, LOT, 5_000), Ok(())),
    (Lists(90, Level(b"GG00", 200), 12, LOT, 5_000), Ok(())),
    (Lists(90, Level(b"HH00", 200), 13, LOT, 5_000), Ok(())),
    (Lists(90, Level(b"II00", 200), 14, LOT, 5_000), Ok(())),
    (Lists(90, Level(b"JJ00", 200), 15, 1, 5_000), Ok(())),
    (
        Lists(90, Level(b"KK00", 200), 16, 200_000_000, 5_000),
        Ok(()),
    ),
    (TakesIn(91, LIFTS_11, 2), Ok(())),
    (TakesIn(91, LIFTS_11, 2), Ok(())),
    (TakesIn(91, LIFTS_11, 2), Ok(())),
    (TakesIn(91, LIFTS_11, 2), Ok(())),
    (TakesIn(91, LIFTS_11, 2), Ok(())),
    (TakesIn(91, LIFTS_11, 2), Ok(())),
    (TakesIn(91, LIFTS_11, 2), Ok(())),
    (TakesIn(91, LIFTS_11, 2), Ok(())),
    (TakesIn(91, LIFTS_11, 2), Ok(())),
    (TakesIn(91, LIFTS_12, 1), Ok(())),
    (TakesIn(91, LIFTS_12, 1), Ok(())),
    (TakesIn(91, LIFTS_12, 1), Ok(())),
    (TakesIn(91, LIFTS_12, 1), Ok(())),
    (TakesIn(91, LIFTS_12, 1), Ok(())),
    (TakesIn(91, LIFTS_12, 1), Ok(())),
    (TakesIn(91, LIFTS_12, 1), Ok(())),
    (TakesIn(91, LIFTS_12, 1), Ok(())),
    (
        TakesIn(91, Does(12, 0, ONE, (100_000_000, 2_000, 150), STAYS), 1),
        Ok(()),
    ),
    (
        TakesIn(91, Does(13, 0, ONE, (100_000_000, 2_000, 150), STAYS), 1),
        Ok(()),
    ),
    (
        TakesIn(91, Does(14, 0, ONE, (100_000_000, 2_000, 100), STAYS), 1),
        Ok(()),
    ),
    (Fixes(100, 14, 100, 5_000), Ok(())),
];

static ALONE: [(Step, Answer); 46] = [
    // 1: a prefix that is given is malformed, whether or not a stock stands beside it.
    (Adjusts(100, Does(7, 1, ONE, NONE, (70, b"zA"))), Err(1)),
    (Adjusts(100, Does(7, 1, ONE, NONE, (70, b"Za"))), Err(1)),
    (Adjusts(100, Does(7, 1, ONE, NONE, (70, b"@A"))), Err(1)),
    (Adjusts(100, Does(7, 1, ONE, NONE, (70, b"Z["))), Err(1)),
    (Adjusts(100, Does(7, 1, ONE, NONE, (70, b"Z\0"))), Err(1)),
    (Adjusts(100, Does(7, 1, ONE, NONE, (70, b"\0Z"))), Err(1)),
    (Adjusts(100, Does(7, 1, ONE, NONE, (0, b"Z1"))), Err(1)),
    // 2: each number.
    (Adjusts(60_001, PAYS), Err(2)),
    (Adjusts(100, Does(0, 1, ONE, NONE, STAYS)), Err(2)),
    (Adjusts(100, Does(7, 500_000_001, ONE, NONE, STAYS)), Err(2)),
    (Adjusts(100, Does(7, 1, 0, NONE, STAYS)), Err(2)),
    (
        Adjusts(100, Does(7, 1, 10_000_000_001, NONE, STAYS)),
        Err(2),
    ),
    (
        Adjusts(100, Does(7, 1, ONE, (1_000_000_001, 1, 100), STAYS)),
        Err(2),
    ),
    (
        Adjusts(100, Does(7, 1, ONE, (1, 1_000_001, 100), STAYS)),
        Err(2),
    ),
    (Adjusts(100, Does(7, 1, ONE, (1, 1, 60_001), STAYS)), Err(2)),
    // 4: no effect; rights in part; a new stock in part; its own stock as the new one.
    (Adjusts(100, Does(7, 0, ONE, NONE, STAYS)), Err(4)),
    (Adjusts(100, Does(7, 1, ONE, (1, 0, 0), STAYS)), Err(4)),
    (Adjusts(100, Does(7, 1, ONE, (0, 1, 0), STAYS)), Err(4)),
    (Adjusts(100, Does(7, 1, ONE, (0, 0, 150), STAYS)), Err(4)),
    (Adjusts(100, Does(7, 1, ONE, (0, 1, 150), STAYS)), Err(4)),
    (Adjusts(100, Does(7, 1, ONE, (1, 0, 150), STAYS)), Err(4)),
    (Adjusts(100, Does(7, 1, ONE, (1, 1, 0), STAYS)), Err(4)),
    (Adjusts(100, Does(7, 1, ONE, NONE, (70, NO_PREFIX))), Err(4)),
    (Adjusts(100, Does(7, 1, ONE, NONE, (0, b"ZA"))), Err(4)),
    (Adjusts(100, Does(7, 1, ONE, NONE, (7, b"ZA"))), Err(4)),
    (Adjusts(100, Does(7, 1, ONE, NONE, (7, b"AA"))), Err(4)),
    // 6 and 11.
    (Adjusts(100, Does(7, 1, ONE, (1, 1, 99), STAYS)), Err(6)),
    (Adjusts(99, PAYS), Err(11)),
    // 12: no line; one that expires on the day; one that has expired.
    (Adjusts(100, Does(77, 1, ONE, NONE, STAYS)), Err(12)),
    (
        Adjusts(100, Does(4_294_967_295, 1, ONE, NONE, STAYS)),
        Err(12),
    ),
    (Adjusts(100, Does(9, 1, ONE, NONE, STAYS)), Err(12)),
    (Adjusts(100, Does(10, 1, ONE, NONE, STAYS)), Err(12)),
    (Adjusts(200, PAYS), Err(12)),
    (Adjusts(201, PAYS), Err(12)),
    (Adjusts(60_000, PAYS), Err(12)),
    // 20: one that has expired beside one that has not.
    (Adjusts(100, Does(11, 1, ONE, NONE, STAYS)), Err(20)),
    // 21: shares, rights and a new stock.
    (Adjusts(100, LIFTS_12), Err(21)),
    (Adjusts(100, Does(12, 0, 900_000_000, NONE, STAYS)), Err(21)),
    // 22: no unit, and more than any largest lot.
    (Adjusts(100, Does(15, 0, 999_999_999, NONE, STAYS)), Err(22)),
    (Adjusts(100, Does(7, 0, 49, NONE, STAYS)), Err(22)),
    (Adjusts(100, Does(7, 0, 1, NONE, STAYS)), Err(22)),
    (
        Adjusts(100, Does(16, 0, 2_000_000_005, NONE, STAYS)),
        Err(22),
    ),
    (
        Adjusts(100, Does(16, 0, 10_000_000_000, NONE, STAYS)),
        Err(22),
    ),
    // 23: rights meet an open claim and a fixed one, a new stock an open one.
    (
        Adjusts(100, Does(13, 0, ONE, (100_000_000, 2_000, 150), STAYS)),
        Err(23),
    ),
    (
        Adjusts(100, Does(14, 0, ONE, (100_000_000, 2_000, 150), STAYS)),
        Err(23),
    ),
    (Adjusts(100, Does(13, 0, ONE, NONE, (70, b"ZA"))), Err(23)),
];

static COMPETING: [(Step, Answer); 30] = [
    // 1 before 2, 4, 6, 11 and 12.
    (
        Adjusts(
            60_001,
            Does(0, 500_000_001, 0, (1_000_000_001, 0, 1), (0, b"zA")),
        ),
        Err(1),
    ),
    (
        Adjusts(99, Does(77, 0, ONE, (0, 1, 1), (70, b"\0A"))),
        Err(1),
    ),
    // 2 before 4, 6, 11, 12, 20 and 21.
    (Adjusts(100, Does(0, 0, ONE, NONE, STAYS)), Err(2)),
    (
        Adjusts(100, Does(7, 0, ONE, (1_000_000_001, 0, 0), STAYS)),
        Err(2),
    ),
    (
        Adjusts(100, Does(7, 1, ONE, (1_000_000_001, 1, 99), STAYS)),
        Err(2),
    ),
    (Adjusts(99, Does(7, 1, 0, NONE, STAYS)), Err(2)),
    (Adjusts(100, Does(77, 1, 0, NONE, STAYS)), Err(2)),
    (
        Adjusts(100, Does(11, 1, 10_000_000_001, NONE, STAYS)),
        Err(2),
    ),
    (
        Adjusts(100, Does(12, 1, 10_000_000_001, NONE, STAYS)),
        Err(2),
    ),
    // 4 before 6, 11, 12 and 20.
    (Adjusts(100, Does(7, 1, ONE, (0, 1, 99), STAYS)), Err(4)),
    (
        Adjusts(100, Does(7, 1, ONE, (1, 1, 99), (7, b"ZA"))),
        Err(4),
    ),
    (Adjusts(99, Does(7, 0, ONE, NONE, STAYS)), Err(4)),
    (Adjusts(100, Does(77, 0, ONE, NONE, STAYS)), Err(4)),
    (Adjusts(100, Does(11, 0, ONE, NONE, STAYS)), Err(4)),
    // 6 before 11, 12, 20, 21 and 23.
    (Adjusts(99, Does(7, 1, ONE, (1, 1, 98), STAYS)), Err(6)),
    (Adjusts(100, Does(77, 1, ONE, (1, 1, 99), STAYS)), Err(6)),
    (Adjusts(100, Does(11, 1, ONE, (1, 1, 99), STAYS)), Err(6)),
    (Adjusts(100, Does(12, 1, ONE, (1, 1, 99), STAYS)), Err(6)),
    (Adjusts(100, Does(13, 1, ONE, (1, 1, 99), STAYS)), Err(6)),
    // 11 before 12, 21, 22 and 23.
    (Adjusts(99, Does(77, 1, ONE, NONE, STAYS)), Err(11)),
    (Adjusts(99, LIFTS_12), Err(11)),
    (Adjusts(99, Does(7, 1, 1, NONE, STAYS)), Err(11)),
    (
        Adjusts(99, Does(13, 0, ONE, (100_000_000, 2_000, 150), STAYS)),
        Err(11),
    ),
    // 20 before 21, and before 22 and 21.
    (Adjusts(100, LIFTS_11), Err(20)),
    (Adjusts(100, Does(11, 0, 1, NONE, STAYS)), Err(20)),
    // 21 before 22 and 23, 22 before 23.
    (Adjusts(100, Does(12, 0, 1, NONE, STAYS)), Err(21)),
    (
        Adjusts(100, Does(12, 0, ONE, (100_000_000, 2_000, 150), STAYS)),
        Err(21),
    ),
    (Adjusts(100, Does(12, 0, ONE, NONE, (70, b"ZA"))), Err(21)),
    (
        Adjusts(100, Does(13, 0, 1, (100_000_000, 2_000, 150), STAYS)),
        Err(22),
    ),
    (
        Adjusts(100, Does(14, 0, 49, (100_000_000, 2_000, 150), STAYS)),
        Err(22),
    ),
];

/// Events at the edges of their limits. The last day for an event is the one before the expiry.
static EDGES: [(Step, Answer); 21] = [
    (TakesIn(100, Does(7, 1, ONE, NONE, STAYS), 1), Ok(())),
    (
        TakesIn(100, Does(7, 500_000_000, ONE, NONE, STAYS), 1),
        Ok(()),
    ),
    (TakesIn(100, Does(7, 1_000_000, 50, NONE, STAYS), 1), Ok(())),
    (
        TakesIn(100, Does(7, 1_000_000, 999_999_999, NONE, STAYS), 1),
        Ok(()),
    ),
    (
        TakesIn(100, Does(7, 1_000_000, 10_000_000_000, NONE, STAYS), 1),
        Ok(()),
    ),
    (
        TakesIn(100, Does(15, 0, 10_000_000_000, NONE, STAYS), 1),
        Ok(()),
    ),
    (TakesIn(100, Does(16, 0, 5, NONE, STAYS), 1), Ok(())),
    (
        TakesIn(100, Does(16, 0, 1_000_000_004, NONE, STAYS), 1),
        Ok(()),
    ),
    (
        TakesIn(100, Does(7, 1_000_000, ONE, (1, 1, 100), STAYS), 1),
        Ok(()),
    ),
    (
        TakesIn(
            100,
            Does(7, 1_000_000, ONE, (1_000_000_000, 1_000_000, 60_000), STAYS),
            1,
        ),
        Ok(()),
    ),
    (
        TakesIn(100, Does(16, 0, ONE, (1_000_000_000, 1, 199), STAYS), 1),
        Ok(()),
    ),
    (
        TakesIn(100, Does(7, 1_000_000, ONE, (1, 1, 200), STAYS), 1),
        Ok(()),
    ),
    (
        TakesIn(100, Does(7, 1_000_000, ONE, NONE, (1, b"AZ")), 1),
        Ok(()),
    ),
    (
        TakesIn(
            100,
            Does(7, 1_000_000, ONE, NONE, (4_294_967_295, b"ZZ")),
            1,
        ),
        Ok(()),
    ),
    (TakesIn(100, MERGES, 1), Ok(())),
    (TakesIn(100, OFFERS, 1), Ok(())),
    (TakesIn(100, LIFTS, 1), Ok(())),
    (TakesIn(101, PAYS, 1), Ok(())),
    (TakesIn(199, PAYS, 1), Ok(())),
    // A claim is in the way of neither cash nor, once it is fixed, a new stock.
    (TakesIn(100, Does(13, 1, ONE, NONE, STAYS), 1), Ok(())),
    (TakesIn(100, Does(14, 0, ONE, NONE, (70, b"ZA")), 1), Ok(())),
];

/// The largest lot is 400,000,000 units in futures, 200,000,000 in options. Cash alone moves the code of
/// options and not of futures.
static IN_FUTURES: [(Step, Answer); 3] = [
    (
        TakesIn(100, Does(12, 1_000_000, ONE, NONE, STAYS), 1),
        Ok(()),
    ),
    (
        TakesIn(100, Does(16, 0, 2_000_000_004, NONE, STAYS), 1),
        Ok(()),
    ),
    (
        Adjusts(100, Does(16, 0, 2_000_000_005, NONE, STAYS)),
        Err(22),
    ),
];

static IN_OPTIONS: [(Step, Answer); 3] = [
    (Adjusts(100, Does(12, 1_000_000, ONE, NONE, STAYS)), Err(21)),
    (
        TakesIn(100, Does(16, 0, 1_000_000_004, NONE, STAYS), 1),
        Ok(()),
    ),
    (
        Adjusts(100, Does(16, 0, 1_000_000_005, NONE, STAYS)),
        Err(22),
    ),
];

#[test]
fn each_refusal_alone(rt: HostRuntime) {
    play_after_in_all(&rt, &BEGINNING, &ALONE);
}

#[test]
fn the_smaller_number_wins(rt: HostRuntime) {
    play_after_in_all(&rt, &BEGINNING, &COMPETING);
}

#[test]
fn events_at_their_limits(rt: HostRuntime) {
    play_each_in_all(&rt, &BEGINNING, &EDGES);
}

#[test]
fn what_the_families_judge_apart(rt: HostRuntime) {
    play_after::<Futures>(&rt, &FUTURES[0], &BEGINNING, &IN_FUTURES);
    play_after::<Options>(&rt, &OPTIONS[0], &BEGINNING, &IN_OPTIONS);
    play_after::<Options>(&rt, &OPTIONS[1], &BEGINNING, &IN_OPTIONS);
}
