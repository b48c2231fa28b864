//! The day of an event and the expiries around it, and events that come again and again.
use crate::script::Label::Level;
use crate::script::Step::{
    Adjusts, Bare, Dollars, Expires, Fixes, Holds, Lists, Lots, Marks, Opens, TakesIn, Terms,
    Trades,
};
use crate::script::{Answer, Does, LOT, Label, NONE, STAYS, Step, play_in_all};
use terms::claim::Claim;
use terms::units::ONE;

/// A dividend and shares, from 16 July 2003 (day 1,292). In the exchange's description of option
/// adjustments the month that expires on that day stays as it is, the others are adjusted, and standard
/// lines are listed beside them. A lot of 1,000 shares gets 200 shares and 1,000 dollars. (100 dollars are
/// printed; 1 dollar on 1,000 shares is 1,000.) At 58.00 before, the reference price is 47.50.
const BOTH: Does = Does(1303, 1_000_000, 1_200_000_000, NONE, STAYS);

const THOUSAND: u32 = 10_000_000;

const JULY: Label = Level(b"AA00", 1_292);

const AUGUST: Label = Level(b"AA00", 1_327);

const AUGUST_LATER: Label = Level(b"AA11", 1_327);

/// The strike comes to 50,000 dollars.
static ON_THE_DAY: [(Step, Answer); 22] = [
    (Opens(1_270, 101), Ok(())),
    (Opens(1_270, 102), Ok(())),
    (Lists(1_270, JULY, 1303, THOUSAND, 5_800), Ok(())),
    (Lists(1_270, AUGUST, 1303, THOUSAND, 5_800), Ok(())),
    (Trades(1_270, JULY, 101, 102, 5_800, 1), Ok(())),
    (Trades(1_270, AUGUST, 101, 102, 5_800, 1), Ok(())),
    (TakesIn(1_292, BOTH, 1), Ok(())),
    (Terms(JULY, 1303, THOUSAND), Ok(())),
    (
        Holds(
            AUGUST_LATER,
            1303,
            12_000_000,
            THOUSAND,
            1_000,
            Claim::Absent,
        ),
        Ok(()),
    ),
    (Lots(101, JULY, 1), Ok(())),
    (Lots(101, AUGUST_LATER, 1), Ok(())),
    (Dollars(101, [1_000, -116_000, -116_000]), Ok(())),
    (Lists(1_292, AUGUST, 1303, THOUSAND, 4_750), Ok(())),
    (Terms(AUGUST, 1303, THOUSAND), Ok(())),
    // 47.50 x 1,200 = 57,000 = 58,000 - 1,000.
    (Marks(1_292, AUGUST_LATER, 4_750), Ok(())),
    (Dollars(101, [0, -116_000, -116_000]), Ok(())),
    // 58 x 1,000, with no cash.
    (Expires(1_292, JULY, 5_800, 5_800), Ok(())),
    (Dollars(101, [0, -108_000, -116_000]), Ok(())),
    (Bare(0), Ok(())),
    // 40 x 1,200 = 48,000. Futures: 48,000 - 57,000. Puts: 50,000 - 48,000 - 1,000.
    (Expires(1_327, AUGUST_LATER, 4_000, 4_000), Ok(())),
    (Dollars(101, [-9_000, -108_000, -115_000]), Ok(())),
    (Dollars(102, [9_000, 108_000, 115_000]), Ok(())),
];

/// A month whose expiry call is late stands in the way of the others, until it comes.
static LAPSED: [(Step, Answer); 14] = [
    (Lists(1_270, JULY, 1303, THOUSAND, 5_800), Ok(())),
    (Adjusts(1_293, BOTH), Err(12)),
    (Lists(1_270, AUGUST, 1303, THOUSAND, 5_800), Ok(())),
    (Adjusts(1_293, BOTH), Err(20)),
    (TakesIn(1_291, BOTH, 2), Ok(())),
    (Terms(JULY, 1303, THOUSAND), Err(12)),
    (TakesIn(1_292, BOTH, 1), Ok(())),
    (Adjusts(1_293, BOTH), Err(20)),
    (Expires(1_293, Level(b"AA11", 1_292), 5_800, 5_800), Ok(())),
    (TakesIn(1_326, BOTH, 1), Ok(())),
    // 12,000,000, 14,400,000 and 17,280,000 units; 1,000, 1,200 and 1,440 dollars.
    (
        Holds(
            Level(b"AA33", 1_327),
            1303,
            17_280_000,
            THOUSAND,
            3_640,
            Claim::Absent,
        ),
        Ok(()),
    ),
    (Adjusts(1_327, BOTH), Err(12)),
    (Expires(1_327, Level(b"AA33", 1_327), 5_800, 5_800), Ok(())),
    (Adjusts(1_327, BOTH), Err(12)),
];

#[test]
fn a_line_that_expires_on_the_day_stays_as_it_is(rt: HostRuntime) {
    play_in_all(&rt, &ON_THE_DAY);
}

#[test]
fn a_line_past_its_expiry_stands_in_the_way(rt: HostRuntime) {
    play_in_all(&rt, &LAPSED);
}

const LARGEST: Label = Level(b"AA09", 200);

/// Nine times as much cash as may be paid, on the largest lot of options: 20,000 shares at 500 dollars
/// are 10,000,000 dollars. A tenth time there is no letter.
static NINE_TIMES: [(Step, Answer); 14] = [
    (Opens(90, 101), Ok(())),
    (Opens(90, 102), Ok(())),
    (Lists(90, Level(b"AA00", 200), 7, 200_000_000, 1), Ok(())),
    (TakesIn(91, MOST, 1), Ok(())),
    (TakesIn(91, MOST, 1), Ok(())),
    (TakesIn(91, MOST, 1), Ok(())),
    (TakesIn(91, MOST, 1), Ok(())),
    (TakesIn(91, MOST, 1), Ok(())),
    (TakesIn(91, MOST, 1), Ok(())),
    (TakesIn(91, MOST, 1), Ok(())),
    (TakesIn(91, MOST, 1), Ok(())),
    (TakesIn(91, MOST, 1), Ok(())),
    (
        Holds(
            LARGEST,
            7,
            200_000_000,
            200_000_000,
            90_000_000,
            Claim::Absent,
        ),
        Ok(()),
    ),
    (Trades(91, LARGEST, 101, 102, 1, 4_000), Ok(())),
];

const MOST: Does = Does(7, 500_000_000, ONE, NONE, STAYS);

#[test]
fn the_most_cash_nine_times(rt: HostRuntime) {
    play_in_all(&rt, &NINE_TIMES);
}

const TINY_RIGHTS: Does = Does(7, 1_000_000, ONE, (49, 1, 100), STAYS);

/// Rights on 0 units are a claim all the same: in the way of others, and to be fixed.
static NO_UNITS: [(Step, Answer); 7] = [
    (Lists(90, Level(b"AA00", 200), 7, LOT, 5_000), Ok(())),
    (TakesIn(91, TINY_RIGHTS, 1), Ok(())),
    (
        Holds(
            Level(b"AA11", 200),
            7,
            LOT,
            LOT,
            2_000,
            Claim::Open {
                units: 0,
                price: 1,
                deadline: 100,
            },
        ),
        Ok(()),
    ),
    (Adjusts(92, TINY_RIGHTS), Err(23)),
    (Expires(200, Level(b"AA11", 200), 1, 1), Err(25)),
    (Fixes(100, 7, 100, 1_000_000), Ok(())),
    (
        Holds(
            Level(b"AA11", 200),
            7,
            LOT,
            LOT,
            2_000,
            Claim::Fixed { dollars: 0 },
        ),
        Ok(()),
    ),
];

#[test]
fn a_claim_on_no_units_is_a_claim(rt: HostRuntime) {
    play_in_all(&rt, &NO_UNITS);
}
