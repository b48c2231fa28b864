//! Equities at their limits through adjustments over many lines, and through expiries.
use crate::script::Label::Level;
use crate::script::Step::{
    Adjusts, Day, Equity, Expires, Fixes, Lists, Lots, Marks, Opens, TakesIn, Trades,
};
use crate::script::{
    Answer, Does, FUTURES, Label, NONE, OPTIONS, STAYS, Step, follow, play, play_after,
};
use book::book::Book;
use terms::futures::Futures;
use terms::options::Options;
use terms::units::ONE;

/// The limit on either side, in micros.
const MOST: i64 = 4_000_000_000_000_000_000;

/// 500 dollars on 40,000 shares: 20,000,000 dollars, 20,000,000,000,000 micros, to each lot.
const PAYS: Does = Does(1, 500_000_000, ONE, NONE, STAYS);

const FIRST: Label = Level(b"AA00", 200);

const LAST: Label = Level(b"AA00", 247);

/// In the first 47 of 48 lines account 1 has bought 4,000 lots of account 2: the event pays
/// 47 x 80,000,000,000,000,000 micros. A mark of 1,250.00 pays 4,000 lots 200,000,000,000,000,000. To
/// the limit there are 40,000,000,000,000,000, which is what it pays 2,000 lots of the last line.
static MANY_LINES: [(Step, Answer); 31] = [
    (Marks(1, FIRST, 125_001), Ok(())),
    (Equity(1, 200_000_000_000_000_000), Ok(())),
    (Trades(1, LAST, 1, 2, 1, 2_000), Ok(())),
    // One lot more: of account 1 above the limit, then of account 2 below it.
    (Trades(1, LAST, 1, 3, 1, 1), Ok(())),
    (Adjusts(2, PAYS), Err(27)),
    (Trades(1, LAST, 3, 1, 1, 1), Ok(())),
    (Trades(1, LAST, 3, 2, 1, 1), Ok(())),
    (Adjusts(2, PAYS), Err(27)),
    (Trades(1, LAST, 2, 3, 1, 1), Ok(())),
    (Day(1), Ok(())),
    (Equity(1, 200_000_000_000_000_000), Ok(())),
    (TakesIn(2, PAYS, 48), Ok(())),
    (Equity(1, MOST), Ok(())),
    (Equity(2, -MOST), Ok(())),
    (Equity(3, 0), Ok(())),
    // A dollar to the lot is too much, 0.96 dollars are none.
    (Adjusts(2, Does(1, 25, ONE, NONE, STAYS)), Err(27)),
    (TakesIn(2, Does(1, 24, ONE, NONE, STAYS), 48), Ok(())),
    (Equity(1, MOST), Ok(())),
    // 22 before 27: too large a lot.
    (Adjusts(2, Does(1, 25, 1_000_000_005, NONE, STAYS)), Err(22)),
    // 23 before 27: the claims of an earlier offer. They book nothing.
    (TakesIn(2, Does(1, 0, ONE, (1, 1, 150), STAYS), 48), Ok(())),
    (Equity(2, -MOST), Ok(())),
    (Adjusts(2, Does(1, 25, ONE, (1, 1, 150), STAYS)), Err(23)),
    (Adjusts(2, Does(1, 25, ONE, NONE, STAYS)), Err(27)),
    (Adjusts(2, Does(1, 25, ONE, NONE, (2, b"BB"))), Err(23)),
    // 6, 11, 12 and 20 before 27: the first line has expired on day 201.
    (Adjusts(2, Does(1, 25, ONE, (1, 1, 1), STAYS)), Err(6)),
    (Adjusts(1, Does(1, 25, ONE, NONE, STAYS)), Err(11)),
    (Adjusts(247, Does(1, 25, ONE, NONE, STAYS)), Err(12)),
    (Adjusts(201, Does(1, 25, ONE, NONE, STAYS)), Err(20)),
    (Adjusts(200, Does(1, 25, ONE, NONE, STAYS)), Err(27)),
    (Lots(1, Level(b"AA11", 247), 2_000), Ok(())),
    (Day(2), Ok(())),
];

#[test]
fn the_last_lot_that_an_event_can_pay(rt: HostRuntime) {
    let mut book = Book::<Futures>::new();
    let style = &FUTURES[0];
    let accounts = [
        (Opens(1, 1), Ok(())),
        (Opens(1, 2), Ok(())),
        (Opens(1, 3), Ok(())),
    ];
    follow(&rt, &mut book, style, &accounts);
    for expiry in 200..248u16 {
        let label = Level(b"AA00", expiry);
        let steps = [(Lists(1, label, 1, 400_000_000, 1), Ok(()))];
        follow(&rt, &mut book, style, &steps);
    }
    for expiry in 200..247u16 {
        let label = Level(b"AA00", expiry);
        let steps = [(Trades(1, label, 1, 2, 1, 4_000), Ok(()))];
        follow(&rt, &mut book, style, &steps);
    }
    follow(&rt, &mut book, style, &MANY_LINES);
}

const AA_1: Label = Level(b"AA00", 200);

const AA_2: Label = Level(b"AA00", 201);

const AA_3: Label = Level(b"AA00", 202);

const UPPER: Label = Level(b"BB00", 200);

const LOWER: Label = Level(b"BB00", 201);

const SMALL: Does = Does(2, 500_000_000, ONE, NONE, STAYS);

/// A lot of 400,000,000 units keeps them, for 0.4 more are dropped; its code moves.
const LIFTS: Does = Does(2, 0, 1_000_000_001, NONE, STAYS);

/// From 0.01 to 10,000.00 4,000 lots gain 1,599,998,400,000,000,000 micros, and twice that and the gain
/// from 0.01 to 5,000.03 is the limit. What an equity is between the lines does not count: lots bought
/// in one line and sold in the other come to nothing, whichever stands above.
static ON_THE_WAY: [(Step, Answer); 44] = [
    (Opens(1, 1), Ok(())),
    (Opens(1, 2), Ok(())),
    (Opens(1, 3), Ok(())),
    (Lists(1, AA_1, 1, 400_000_000, 1), Ok(())),
    (Lists(1, AA_2, 1, 400_000_000, 1), Ok(())),
    (Lists(1, AA_3, 1, 400_000_000, 1), Ok(())),
    (Lists(1, UPPER, 2, 400_000_000, 1), Ok(())),
    (Lists(1, LOWER, 2, 400_000_000, 1), Ok(())),
    (Trades(1, AA_1, 1, 2, 1, 4_000), Ok(())),
    (Trades(1, AA_2, 1, 2, 1, 4_000), Ok(())),
    (Trades(1, AA_3, 1, 2, 1, 4_000), Ok(())),
    (Marks(1, AA_1, 1_000_000), Ok(())),
    (Marks(1, AA_2, 1_000_000), Ok(())),
    (Marks(1, AA_3, 500_003), Ok(())),
    (Equity(1, MOST), Ok(())),
    (Equity(2, -MOST), Ok(())),
    // Account 1 gains above and loses below, account 2 the other way round.
    (Trades(1, UPPER, 1, 2, 1, 4_000), Ok(())),
    (Trades(1, LOWER, 2, 1, 1, 4_000), Ok(())),
    (TakesIn(2, SMALL, 2), Ok(())),
    (Equity(1, MOST), Ok(())),
    (Equity(2, -MOST), Ok(())),
    // The other way round: 8,000 lots in two trades.
    (Trades(2, UPPER, 2, 1, 1, 4_000), Ok(())),
    (Trades(2, UPPER, 2, 1, 1, 4_000), Ok(())),
    (Trades(2, LOWER, 1, 2, 1, 4_000), Ok(())),
    (Trades(2, LOWER, 1, 2, 1, 4_000), Ok(())),
    (TakesIn(3, SMALL, 2), Ok(())),
    (Equity(1, MOST), Ok(())),
    // With one lot less sold above, account 1 would end above the limit.
    (Trades(3, UPPER, 1, 3, 1, 1), Ok(())),
    (Adjusts(3, SMALL), Err(27)),
    (Equity(2, -MOST), Ok(())),
    // 14 before 27: the prefix has another stock. 13 before it: AA1 is live, when all of AA has moved.
    (
        Adjusts(3, Does(2, 500_000_000, ONE, NONE, (9, b"AA"))),
        Err(14),
    ),
    (
        TakesIn(3, Does(1, 0, 1_000_000_001, NONE, STAYS), 3),
        Ok(()),
    ),
    (
        Adjusts(3, Does(2, 500_000_000, ONE, NONE, (1, b"AA"))),
        Err(13),
    ),
    // 21 before 27, at level 9, where cash alone is 27 still.
    (TakesIn(3, LIFTS, 2), Ok(())),
    (TakesIn(3, LIFTS, 2), Ok(())),
    (TakesIn(3, LIFTS, 2), Ok(())),
    (TakesIn(3, LIFTS, 2), Ok(())),
    (TakesIn(3, LIFTS, 2), Ok(())),
    (TakesIn(3, LIFTS, 2), Ok(())),
    (TakesIn(3, LIFTS, 2), Ok(())),
    (TakesIn(3, LIFTS, 2), Ok(())),
    (TakesIn(3, LIFTS, 2), Ok(())),
    (
        Adjusts(3, Does(2, 500_000_000, 1_000_000_001, NONE, STAYS)),
        Err(21),
    ),
    (Adjusts(3, SMALL), Err(27)),
];

#[test]
fn what_an_equity_is_on_the_way_does_not_count(rt: HostRuntime) {
    play::<Futures>(&rt, &FUTURES[0], &ON_THE_WAY);
}

/// Its 400,000,000 units gain 800,000,000 micros with two cents.
const ENDS: Label = Level(b"CC00", 200);

const ENDS_LATER: Label = Level(b"CC11", 200);

/// A cent below the gain that would reach the limit, there are 4,000 x 400,000,000 micros to it: as much
/// as two cents on 2,000 lots.
static AT_EXPIRY: [(Step, Answer); 36] = [
    (Opens(1, 1), Ok(())),
    (Opens(1, 2), Ok(())),
    (Opens(1, 3), Ok(())),
    (Lists(1, AA_1, 1, 400_000_000, 1), Ok(())),
    (Lists(1, AA_2, 1, 400_000_000, 1), Ok(())),
    (Lists(1, AA_3, 1, 400_000_000, 1), Ok(())),
    (Lists(1, ENDS, 3, 400_000_000, 1), Ok(())),
    (Trades(1, AA_1, 1, 2, 1, 4_000), Ok(())),
    (Trades(1, AA_2, 1, 2, 1, 4_000), Ok(())),
    (Trades(1, AA_3, 1, 2, 1, 4_000), Ok(())),
    (Marks(1, AA_1, 1_000_000), Ok(())),
    (Marks(1, AA_2, 1_000_000), Ok(())),
    (Marks(1, AA_3, 500_002), Ok(())),
    (Equity(1, 3_999_998_400_000_000_000), Ok(())),
    // A claim on no units, due on the expiry.
    (TakesIn(1, Does(3, 0, ONE, (1, 1, 200), STAYS), 1), Ok(())),
    (Trades(1, ENDS_LATER, 1, 2, 1, 2_000), Ok(())),
    (Trades(1, ENDS_LATER, 1, 3, 1, 1), Ok(())),
    // 19 and 25 before 27.
    (Expires(199, ENDS_LATER, 3, 1), Err(19)),
    (Expires(200, ENDS_LATER, 3, 1), Err(25)),
    (Fixes(200, 3, 200, 1), Ok(())),
    (Expires(200, ENDS_LATER, 3, 1), Err(27)),
    (Expires(60_000, ENDS_LATER, 3, 1), Err(27)),
    // 2 and 11 before 27.
    (Expires(200, ENDS_LATER, 3, 0), Err(2)),
    (Expires(199, ENDS_LATER, 3, 1), Err(11)),
    // One lot less for account 1; then one more sold by account 2.
    (Trades(200, ENDS_LATER, 3, 1, 1, 1), Ok(())),
    (Trades(200, ENDS_LATER, 3, 2, 1, 1), Ok(())),
    (Expires(200, ENDS_LATER, 3, 1), Err(27)),
    (Lots(2, ENDS_LATER, -2_001), Ok(())),
    (Trades(200, ENDS_LATER, 2, 3, 1, 1), Ok(())),
    (Expires(200, ENDS_LATER, 4, 1), Err(27)),
    (Expires(200, ENDS_LATER, 3, 1), Ok(())),
    (Equity(1, MOST), Ok(())),
    (Equity(2, -MOST), Ok(())),
    (Equity(3, 0), Ok(())),
    (Lots(1, ENDS_LATER, 0), Err(12)),
    (Day(200), Ok(())),
];

#[test]
fn the_last_lot_that_an_expiry_can_pay(rt: HostRuntime) {
    play::<Futures>(&rt, &FUTURES[0], &AT_EXPIRY);
}

/// One unit to the lot: an option is worth a micro where the price is a cent beyond the strike.
const TINY: Label = Level(b"TT00", 200);

/// The premium for 4,000 lots of 200,000,000 units at 10,000.00 is a fifth of the limit. An adjustment
/// of options books nothing, so it is not in the way, however much it pays.
static IN_OPTIONS: [(Step, Answer); 20] = [
    (Opens(1, 1), Ok(())),
    (Opens(1, 2), Ok(())),
    (Opens(1, 3), Ok(())),
    (Lists(1, Level(b"AA00", 201), 1, 200_000_000, 1), Ok(())),
    (Lists(1, Level(b"AA00", 202), 1, 200_000_000, 1), Ok(())),
    (Lists(1, Level(b"AA00", 203), 1, 200_000_000, 1), Ok(())),
    (Lists(1, Level(b"AA00", 204), 1, 200_000_000, 1), Ok(())),
    (Lists(1, Level(b"AA00", 205), 1, 200_000_000, 1), Ok(())),
    (Lists(1, TINY, 2, 1, 1), Ok(())),
    (
        Trades(1, Level(b"AA00", 201), 1, 2, 1_000_000, 4_000),
        Ok(()),
    ),
    (
        Trades(1, Level(b"AA00", 202), 1, 2, 1_000_000, 4_000),
        Ok(()),
    ),
    (
        Trades(1, Level(b"AA00", 203), 1, 2, 1_000_000, 4_000),
        Ok(()),
    ),
    (
        Trades(1, Level(b"AA00", 204), 1, 2, 1_000_000, 4_000),
        Ok(()),
    ),
    (
        Trades(1, Level(b"AA00", 205), 1, 2, 1_000_000, 4_000),
        Ok(()),
    ),
    (Equity(1, -MOST), Ok(())),
    (TakesIn(1, PAYS, 5), Ok(())),
    (Equity(1, -MOST), Ok(())),
    (Equity(2, MOST), Ok(())),
    // Account 1 sells a lot for a micro, and account 2 buys one.
    (Trades(1, TINY, 3, 1, 1, 1), Ok(())),
    (Trades(1, TINY, 2, 3, 1, 1), Ok(())),
];

/// Two micros to the lot are past the limit, one is not.
static WITH_CALLS: [(Step, Answer); 6] = [
    (Equity(1, -3_999_999_999_999_999_999), Ok(())),
    (Equity(2, 3_999_999_999_999_999_999), Ok(())),
    (Expires(200, TINY, 5_002, 1), Err(27)),
    (Expires(200, TINY, 5_001, 1), Ok(())),
    (Equity(1, -MOST), Ok(())),
    (Equity(2, MOST), Ok(())),
];

static WITH_PUTS: [(Step, Answer); 6] = [
    (Equity(1, -3_999_999_999_999_999_999), Ok(())),
    (Equity(2, 3_999_999_999_999_999_999), Ok(())),
    (Expires(200, TINY, 4_998, 1), Err(27)),
    (Expires(200, TINY, 4_999, 1), Ok(())),
    (Equity(1, -MOST), Ok(())),
    (Equity(2, MOST), Ok(())),
];

#[test]
fn options_at_the_limit(rt: HostRuntime) {
    play_after::<Options>(&rt, &OPTIONS[0], &IN_OPTIONS, &WITH_CALLS);
    play_after::<Options>(&rt, &OPTIONS[1], &IN_OPTIONS, &WITH_PUTS);
}
