//! Each refusal of a fixing, refusals that compete, and the dollars of a claim at their limits.
use crate::script::Label::Level;
use crate::script::Step::{
    Day, Dollars, Expires, Fixes, Holds, Lists, Marks, Opens, TakesIn, Trades,
};
use crate::script::{
    Answer, Does, FUTURES, LOT, Label, STAYS, Step, play, play_after_in_all, play_each_in_all,
    play_in_all,
};
use terms::claim::Claim;
use terms::futures::Futures;
use terms::units::ONE;

const OFFER: (u64, u32, u16) = (100_000_000, 2_000, 150);

/// On 200 shares at 20.00.
const OPEN: Claim = Claim::Open {
    units: 2_000_000,
    price: 2_000,
    deadline: 150,
};

const AA: Label = Level(b"AA11", 200);

const BB: Label = Level(b"BB11", 149);

/// Stock 7 has a claim on a line that expires after the deadline, 8 one on a line that expires the day
/// before it, 9 none. The book's day is 160.
static BEGINNING: [(Step, Answer); 9] = [
    (Opens(90, 101), Ok(())),
    (Opens(90, 102), Ok(())),
    (Lists(90, Level(b"AA00", 200), 7, LOT, 5_000), Ok(())),
    (Lists(90, Level(b"BB00", 149), 8, LOT, 5_000), Ok(())),
    (Lists(90, Level(b"CC00", 200), 9, LOT, 5_000), Ok(())),
    (TakesIn(91, Does(7, 0, ONE, OFFER, STAYS), 1), Ok(())),
    (TakesIn(91, Does(8, 0, ONE, OFFER, STAYS), 1), Ok(())),
    (Trades(91, AA, 101, 102, 5_000, 1), Ok(())),
    (Opens(160, 103), Ok(())),
];

static REFUSED: [(Step, Answer); 29] = [
    // 2: each number.
    (Fixes(60_001, 7, 150, 2_100), Err(2)),
    (Fixes(160, 0, 150, 2_100), Err(2)),
    (Fixes(160, 7, 60_001, 2_100), Err(2)),
    (Fixes(160, 7, 150, 0), Err(2)),
    (Fixes(160, 7, 150, 1_000_001), Err(2)),
    // 6 and 11.
    (Fixes(160, 7, 161, 2_100), Err(6)),
    (Fixes(160, 7, 60_000, 2_100), Err(6)),
    (Fixes(159, 7, 150, 2_100), Err(11)),
    (Fixes(150, 7, 150, 2_100), Err(11)),
    // 24: no such stock, no claim, a line that expires before the deadline, another deadline.
    (Fixes(160, 77, 150, 2_100), Err(24)),
    (Fixes(160, 4_294_967_295, 150, 2_100), Err(24)),
    (Fixes(160, 9, 150, 2_100), Err(24)),
    (Fixes(160, 8, 150, 2_100), Err(24)),
    (Fixes(160, 7, 149, 2_100), Err(24)),
    (Fixes(160, 7, 151, 2_100), Err(24)),
    (Fixes(160, 7, 160, 2_100), Err(24)),
    (Fixes(160, 7, 0, 2_100), Err(24)),
    (Fixes(60_000, 7, 60_000, 2_100), Err(24)),
    // 2 before 6, 11 and 24.
    (Fixes(160, 7, 161, 0), Err(2)),
    (Fixes(60_001, 7, 60_001, 2_100), Err(2)),
    (Fixes(159, 7, 150, 0), Err(2)),
    (Fixes(160, 0, 150, 1_000_001), Err(2)),
    (Fixes(160, 77, 150, 0), Err(2)),
    // 6 before 11 and 24, 11 before 24.
    (Fixes(159, 7, 160, 2_100), Err(6)),
    (Fixes(160, 77, 161, 2_100), Err(6)),
    (Fixes(160, 8, 161, 2_100), Err(6)),
    (Fixes(159, 77, 150, 2_100), Err(11)),
    (Fixes(159, 8, 150, 2_100), Err(11)),
    (Day(160), Ok(())),
];

/// A fixing may come late, even when the line has expired.
static ACCEPTED: [(Step, Answer); 7] = [
    (Fixes(160, 7, 150, 1), Ok(())),
    (Fixes(160, 7, 150, 2_000), Ok(())),
    (Fixes(160, 7, 150, 1_000_000), Ok(())),
    (Fixes(161, 7, 150, 2_100), Ok(())),
    (Fixes(200, 7, 150, 2_100), Ok(())),
    (Fixes(201, 7, 150, 2_100), Ok(())),
    (Fixes(60_000, 7, 150, 2_100), Ok(())),
];

/// A fixing moves no equity, and takes its day.
static ONCE: [(Step, Answer); 10] = [
    (Holds(AA, 7, LOT, LOT, 0, OPEN), Ok(())),
    (Fixes(170, 7, 150, 2_199), Ok(())),
    (Day(170), Ok(())),
    // 1.99 x 200.
    (
        Holds(AA, 7, LOT, LOT, 0, Claim::Fixed { dollars: 398 }),
        Ok(()),
    ),
    (Holds(BB, 8, LOT, LOT, 0, OPEN), Ok(())),
    (Dollars(101, [0, -100_000, -100_000]), Ok(())),
    (Fixes(170, 7, 150, 2_199), Err(24)),
    (Marks(170, AA, 5_000), Ok(())),
    (Dollars(101, [0, -100_000, -100_000]), Ok(())),
    (Fixes(169, 7, 150, 2_199), Err(11)),
];

#[test]
fn each_refusal_and_the_smaller_number(rt: HostRuntime) {
    play_after_in_all(&rt, &BEGINNING, &REFUSED);
}

#[test]
fn closes_and_days_at_their_limits(rt: HostRuntime) {
    play_each_in_all(&rt, &BEGINNING, &ACCEPTED);
}

#[test]
fn a_claim_is_fixed_once(rt: HostRuntime) {
    play_after_in_all(&rt, &BEGINNING, &ONCE);
}

/// A claim on as many units as the lot has, at 0.01, and the highest close: 9,999.99 x 20,000 dollars.
static DEAREST: [(Step, Answer); 8] = [
    (Opens(90, 101), Ok(())),
    (Opens(90, 102), Ok(())),
    (Lists(90, Level(b"AA00", 200), 7, 200_000_000, 1), Ok(())),
    (
        TakesIn(91, Does(7, 0, ONE, (1_000_000_000, 1, 150), STAYS), 1),
        Ok(()),
    ),
    (Trades(91, AA, 101, 102, 1, 1), Ok(())),
    (Fixes(150, 7, 150, 1_000_000), Ok(())),
    (
        Holds(
            AA,
            7,
            200_000_000,
            200_000_000,
            0,
            Claim::Fixed {
                dollars: 199_999_800,
            },
        ),
        Ok(()),
    ),
    (Expires(200, AA, 1, 1), Ok(())),
];

/// Futures: the claim alone. Calls: 20,000 shares at 0.01 and the claim, less 20,000 at 50.00 and the
/// premium of 200 dollars.
static DEAREST_PAID: [(Step, Answer); 1] = [(
    Dollars(101, [199_999_800, 198_999_800, -200]),
    Ok(()),
)];

/// Twice as many units fit in futures: 9,999.99 x 40,000 dollars.
static DEAREST_FUTURES: [(Step, Answer); 5] = [
    (Lists(90, Level(b"AA00", 200), 7, 400_000_000, 1), Ok(())),
    (
        TakesIn(91, Does(7, 0, ONE, (1_000_000_000, 1, 150), STAYS), 1),
        Ok(()),
    ),
    (Fixes(150, 7, 150, 1_000_000), Ok(())),
    (
        Holds(
            AA,
            7,
            400_000_000,
            400_000_000,
            0,
            Claim::Fixed {
                dollars: 399_999_600,
            },
        ),
        Ok(()),
    ),
    (Expires(200, AA, 1, 1), Ok(())),
];

/// On 1,000,000 units a cent is a dollar, on 999,999 it is none. (One line has 100 shares, the other
/// 0.0001 less.)
static SMALLEST: [(Step, Answer); 7] = [
    (Lists(90, Level(b"AA00", 200), 7, 1_000_000, 1), Ok(())),
    (Lists(90, Level(b"AA00", 201), 7, 999_999, 1), Ok(())),
    (
        TakesIn(91, Does(7, 0, ONE, (1_000_000_000, 1_630, 150), STAYS), 2),
        Ok(()),
    ),
    (Fixes(150, 7, 150, 1_631), Ok(())),
    (
        Holds(AA, 7, 1_000_000, 1_000_000, 0, Claim::Fixed { dollars: 1 }),
        Ok(()),
    ),
    (
        Holds(
            Level(b"AA11", 201),
            7,
            999_999,
            999_999,
            0,
            Claim::Fixed { dollars: 0 },
        ),
        Ok(()),
    ),
    (Expires(200, AA, 1, 1), Ok(())),
];

#[test]
fn the_dearest_and_the_smallest_claims(rt: HostRuntime) {
    play_after_in_all(&rt, &DEAREST, &DEAREST_PAID);
    play::<Futures>(&rt, &FUTURES[0], &DEAREST_FUTURES);
    play_in_all(&rt, &SMALLEST);
}
