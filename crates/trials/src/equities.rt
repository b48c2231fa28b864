//! Equities at their limits, and the largest lots.
use crate::script::Label::Fit;
use crate::script::Step::{Day, Equity, Lists, Lots, Marks, Opens, Trades};
use crate::script::{Answer, FUTURES, Label, OPTIONS, Step, play};
use terms::futures::Futures;
use terms::options::Options;

/// The limit on either side, in micros.
const MOST: i64 = 4_000_000_000_000_000_000;

const ONE: Label = Fit(b"AA0", 200);

const TWO: Label = Fit(b"AA0", 201);

const THREE: Label = Fit(b"AA0", 202);

const FOUR: Label = Fit(b"AA0", 203);

const FIVE: Label = Fit(b"AA0", 204);

/// A line of one unit.
const TINY: Label = Fit(b"AA0", 205);

/// Account 1 buys three lines and account 2 sells three, two of them to account 1. From 0.01 to
/// 10,000.00 a lot of 400,000,000 units gains 999,999 x 400,000,000 = 399,999,600,000,000 micros,
/// and 4,000 lots gain 1,599,998,400,000,000,000. Twice that leaves 800,003,200,000,000,000 to the
/// limit, which is what 4,000 lots gain from 0.01 to 5,000.03.
static IN_FUTURES: [(Step, Answer); 51] = [
    (Opens(1, 1), Ok(())),
    (Opens(1, 2), Ok(())),
    (Opens(1, 3), Ok(())),
    (Opens(1, 4), Ok(())),
    (Lists(1, ONE, 1, 400_000_001, 1), Err(2)),
    (Lists(1, ONE, 1, 400_000_000, 1), Ok(())),
    (Lists(1, TWO, 1, 400_000_000, 1), Ok(())),
    (Lists(1, THREE, 1, 400_000_000, 1), Ok(())),
    (Lists(1, FOUR, 1, 400_000_000, 1), Ok(())),
    (Lists(1, TINY, 1, 1, 1), Ok(())),
    (Trades(1, ONE, 1, 2, 1, 4_000), Ok(())),
    (Trades(1, TWO, 1, 2, 1, 4_000), Ok(())),
    (Trades(1, THREE, 1, 3, 1, 4_000), Ok(())),
    (Trades(1, FOUR, 4, 2, 1, 4_000), Ok(())),
    (Marks(2, ONE, 1_000_000), Ok(())),
    (Equity(1, 1_599_998_400_000_000_000), Ok(())),
    (Marks(2, TWO, 1_000_000), Ok(())),
    (Equity(1, 3_199_996_800_000_000_000), Ok(())),
    (Equity(2, -3_199_996_800_000_000_000), Ok(())),
    // A mark takes one account past the limit above, and one past the limit below.
    (Marks(3, THREE, 1_000_000), Err(27)),
    (Marks(3, THREE, 500_004), Err(27)),
    (Marks(3, FOUR, 1_000_000), Err(27)),
    (Marks(3, FOUR, 500_004), Err(27)),
    (Day(2), Ok(())),
    (Equity(1, 3_199_996_800_000_000_000), Ok(())),
    (Marks(2, THREE, 500_003), Ok(())),
    (Marks(2, FOUR, 500_003), Ok(())),
    (Equity(1, MOST), Ok(())),
    (Equity(2, -MOST), Ok(())),
    (Equity(3, -800_003_200_000_000_000), Ok(())),
    (Equity(4, 800_003_200_000_000_000), Ok(())),
    (Marks(2, THREE, 500_003), Ok(())),
    // So does a trade by one micro: the seller above, the buyer below.
    (Trades(3, TINY, 3, 1, 2, 1), Err(27)),
    (Trades(3, TINY, 2, 4, 2, 1), Err(27)),
    (Trades(3, THREE, 3, 1, 500_004, 1), Err(27)),
    (Day(2), Ok(())),
    (Lots(1, TINY, 0), Ok(())),
    (Trades(2, TINY, 3, 1, 1, 1), Ok(())),
    (Trades(2, TINY, 1, 2, 2, 1), Ok(())),
    (Equity(1, 3_999_999_999_999_999_999), Ok(())),
    (Equity(2, -3_999_999_999_999_999_999), Ok(())),
    (Trades(2, TINY, 3, 1, 2, 1), Ok(())),
    (Equity(1, MOST), Ok(())),
    (Trades(2, TINY, 3, 1, 2, 1), Err(27)),
    (Lots(1, TINY, -1), Ok(())),
    (Lots(2, TINY, -1), Ok(())),
    (Lots(3, TINY, 2), Ok(())),
    // Competing: 26 before 27, above and below, and 19 before 27.
    (Trades(2, THREE, 1, 4, 500_002, 1), Err(26)),
    (Trades(2, FOUR, 3, 2, 500_002, 1), Err(26)),
    (Marks(203, THREE, 500_004), Err(19)),
    (Trades(203, THREE, 3, 1, 500_004, 1), Err(19)),
];

/// The premium for 4,000 lots of 200,000,000 units at 10,000.00 is 800,000,000,000,000,000 micros,
/// a fifth of the limit.
static IN_OPTIONS: [(Step, Answer); 40] = [
    (Opens(1, 1), Ok(())),
    (Opens(1, 2), Ok(())),
    (Opens(1, 3), Ok(())),
    (Lists(1, ONE, 1, 200_000_001, 1), Err(2)),
    (Lists(1, ONE, 1, 400_000_000, 1), Err(2)),
    (Lists(1, ONE, 1, 200_000_000, 1), Ok(())),
    (Lists(1, TWO, 1, 200_000_000, 1_000_000), Ok(())),
    (Lists(1, THREE, 1, 200_000_000, 1), Ok(())),
    (Lists(1, FOUR, 1, 200_000_000, 1), Ok(())),
    (Lists(1, FIVE, 1, 200_000_000, 1), Ok(())),
    (Lists(1, TINY, 1, 1, 1), Ok(())),
    (Trades(1, ONE, 1, 2, 1_000_000, 4_000), Ok(())),
    (Trades(1, TWO, 1, 2, 1_000_000, 4_000), Ok(())),
    (Equity(1, -1_600_000_000_000_000_000), Ok(())),
    (Equity(2, 1_600_000_000_000_000_000), Ok(())),
    (Trades(1, THREE, 1, 2, 1_000_000, 4_000), Ok(())),
    (Trades(1, FOUR, 1, 2, 1_000_000, 4_000), Ok(())),
    (Trades(1, TINY, 1, 2, 1, 1), Ok(())),
    // The fifth of them would end one micro past the limit, on both sides.
    (Trades(1, FIVE, 1, 2, 1_000_000, 4_000), Err(27)),
    (Equity(1, -3_200_000_000_000_000_001), Ok(())),
    (Equity(2, 3_200_000_000_000_000_001), Ok(())),
    (Trades(1, TINY, 2, 1, 1, 1), Ok(())),
    (Trades(1, FIVE, 1, 2, 1_000_000, 4_000), Ok(())),
    (Equity(1, -MOST), Ok(())),
    (Equity(2, MOST), Ok(())),
    // One micro more, for the buyer alone and for the seller alone.
    (Trades(2, TINY, 1, 3, 1, 1), Err(27)),
    (Trades(2, TINY, 3, 2, 1, 1), Err(27)),
    (Day(1), Ok(())),
    // Competing: 26 before 27.
    (Trades(2, ONE, 1, 3, 1, 1), Err(26)),
    (Trades(2, ONE, 3, 2, 1, 1), Err(26)),
    // Marks move nothing.
    (Marks(2, ONE, 1_000_000), Ok(())),
    (Marks(2, TWO, 1), Ok(())),
    (Equity(1, -MOST), Ok(())),
    // Away from the limit and back.
    (Trades(2, TINY, 3, 1, 1, 1), Ok(())),
    (Trades(2, TINY, 2, 3, 1, 1), Ok(())),
    (Equity(1, -3_999_999_999_999_999_999), Ok(())),
    (Equity(2, 3_999_999_999_999_999_999), Ok(())),
    (Equity(3, 0), Ok(())),
    (Trades(2, TINY, 1, 2, 1, 2), Err(27)),
    (Trades(2, TINY, 1, 2, 1, 1), Ok(())),
];

#[test]
fn limits(rt: HostRuntime) {
    play::<Futures>(&rt, &FUTURES[0], &IN_FUTURES);
    play::<Options>(&rt, &OPTIONS[0], &IN_OPTIONS);
}
