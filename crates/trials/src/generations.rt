//! Lines of one stock and month that differ in their letters move together: each has its own letter,
//! shares and cash afterwards, and each account's lots are with the right one, whichever line stands in
//! the upper place.
use crate::script::Label::Level;
use crate::script::Step::{
    Dollars, Expires, Holds, Lists, Lots, Marks, Opens, Stands, TakesIn, Terms, Trades,
};
use crate::script::{
    Answer, Does, FUTURES, LOT, Label, NONE, OPTIONS, STAYS, Step, Style, follow,
    play_after_in_all, play_in_all,
};
use book::book::Book;
use std::process::Abort;
use terms::claim::Claim;
use terms::family::Family;
use terms::futures::Futures;
use terms::options::Options;
use terms::units::ONE;

/// From 2,000 to 2,200 shares.
const FIRST: Does = Does(7, 0, 1_100_000_000, NONE, STAYS);

/// A fifth more shares, and 1.50 dollars on each old one.
const SECOND: Does = Does(7, 1_500_000, 1_200_000_000, NONE, STAYS);

const NEW: Label = Level(b"AA00", 200);

const ONCE: Label = Level(b"AA11", 200);

const TWICE: Label = Level(b"AA22", 200);

const THRICE: Label = Level(b"AA33", 200);

/// A line of another stock, in the place above.
const ABOVE: Label = Level(b"ZZ00", 95);

/// Of the older line account 101 buys 3 lots, of the younger it sells 2, at 50.00 each.
static OLDER_ABOVE: [(Step, Answer); 9] = [
    (Opens(90, 101), Ok(())),
    (Opens(90, 102), Ok(())),
    (Lists(90, NEW, 7, LOT, 5_000), Ok(())),
    (Trades(90, NEW, 101, 102, 5_000, 3), Ok(())),
    (TakesIn(91, FIRST, 1), Ok(())),
    (Lists(95, NEW, 7, LOT, 5_000), Ok(())),
    (Trades(95, NEW, 102, 101, 5_000, 2), Ok(())),
    (Stands(0, ONCE), Ok(())),
    (Stands(1, NEW), Ok(())),
];

static OLDER_BELOW: [(Step, Answer); 12] = [
    (Opens(90, 101), Ok(())),
    (Opens(90, 102), Ok(())),
    (Lists(90, ABOVE, 8, LOT, 5_000), Ok(())),
    (Lists(90, NEW, 7, LOT, 5_000), Ok(())),
    (Trades(90, NEW, 101, 102, 5_000, 3), Ok(())),
    (TakesIn(91, FIRST, 1), Ok(())),
    (Stands(1, ONCE), Ok(())),
    (Expires(95, ABOVE, 5_000, 5_000), Ok(())),
    (Lists(95, NEW, 7, LOT, 5_000), Ok(())),
    (Trades(95, NEW, 102, 101, 5_000, 2), Ok(())),
    (Stands(0, NEW), Ok(())),
    (Stands(1, ONCE), Ok(())),
];

/// The older lot had 2,200 shares: 2,640 now, and 3,300 dollars. The younger had 2,000: 2,400 now, and
/// 3,000 dollars.
static TOGETHER: [(Step, Answer); 19] = [
    (Dollars(101, [0, -100_000, -100_000]), Ok(())),
    (TakesIn(100, SECOND, 2), Ok(())),
    (Terms(NEW, 7, LOT), Err(12)),
    (
        Holds(ONCE, 7, 24_000_000, LOT, 3_000, Claim::Absent),
        Ok(()),
    ),
    (
        Holds(TWICE, 7, 26_400_000, LOT, 3_300, Claim::Absent),
        Ok(()),
    ),
    (Lots(101, TWICE, 3), Ok(())),
    (Lots(102, TWICE, -3), Ok(())),
    (Lots(101, ONCE, -2), Ok(())),
    (Lots(102, ONCE, 2), Ok(())),
    // 3 x 3,300 - 2 x 3,000.
    (Dollars(101, [3_900, -100_000, -100_000]), Ok(())),
    // 42 x 2,640 = 110,880: 3 x 10,880.
    (Marks(101, TWICE, 4_200), Ok(())),
    (Dollars(101, [36_540, -100_000, -100_000]), Ok(())),
    // 40 x 2,400 = 96,000. Sold: 2 x 4,000 in futures, -2 x (100,000 - 99,000) with puts.
    (Expires(200, ONCE, 4_000, 4_000), Ok(())),
    (Dollars(101, [44_540, -100_000, -102_000]), Ok(())),
    // 45 x 2,640 = 118,800. Futures: 3 x 7,920. Calls: 3 x (118,800 + 3,300 - 100,000).
    (Expires(200, TWICE, 4_500, 4_500), Ok(())),
    (Dollars(101, [68_300, -33_700, -102_000]), Ok(())),
    (Dollars(102, [-68_300, 33_700, 102_000]), Ok(())),
    (Lots(101, ONCE, 0), Err(12)),
    (Lots(101, TWICE, 0), Err(12)),
];

/// One lot above the limit is refused of the moved lines too.
static FULL_HANDS: [(Step, Answer); 6] = [
    (TakesIn(100, SECOND, 2), Ok(())),
    (Trades(100, TWICE, 101, 102, 1, 3_998), Err(26)),
    (Trades(100, TWICE, 101, 102, 1, 3_997), Ok(())),
    (Trades(100, ONCE, 102, 101, 1, 3_999), Err(26)),
    (Trades(100, ONCE, 102, 101, 1, 3_998), Ok(())),
    (Lots(102, ONCE, 4_000), Ok(())),
];

#[test]
fn the_older_letter_in_the_upper_place(rt: HostRuntime) {
    play_after_in_all(&rt, &OLDER_ABOVE, &TOGETHER);
    play_after_in_all(&rt, &OLDER_ABOVE, &FULL_HANDS);
}

#[test]
fn the_older_letter_in_the_lower_place(rt: HostRuntime) {
    play_after_in_all(&rt, &OLDER_BELOW, &TOGETHER);
    play_after_in_all(&rt, &OLDER_BELOW, &FULL_HANDS);
}

/// Another month, and another stock.
const LATER: Label = Level(b"AA00", 300);

const LATER_ONCE: Label = Level(b"AA11", 300);

const OTHER: Label = Level(b"YY00", 200);

/// Three letters, the youngest above, the oldest between; another month of the stock moves with them,
/// another stock does not. 2,000 shares become 2,200, 2,640 and 3,168, for the third event is as the
/// second.
static THREE: [(Step, Answer); 35] = [
    (Opens(90, 101), Ok(())),
    (Opens(90, 102), Ok(())),
    (Lists(90, ABOVE, 8, LOT, 5_000), Ok(())),
    (Lists(90, NEW, 7, LOT, 5_000), Ok(())),
    (Trades(90, NEW, 101, 102, 5_000, 1), Ok(())),
    (TakesIn(91, FIRST, 1), Ok(())),
    (Lists(91, NEW, 7, LOT, 5_000), Ok(())),
    (Trades(91, NEW, 101, 102, 5_000, 2), Ok(())),
    (TakesIn(92, SECOND, 2), Ok(())),
    (Expires(95, ABOVE, 5_000, 5_000), Ok(())),
    (Lists(95, NEW, 7, LOT, 5_000), Ok(())),
    (Trades(95, NEW, 101, 102, 5_000, 4), Ok(())),
    (Lists(95, LATER, 7, LOT, 5_000), Ok(())),
    (Trades(95, LATER, 102, 101, 5_000, 1), Ok(())),
    (Lists(95, OTHER, 9, LOT, 5_000), Ok(())),
    (Trades(95, OTHER, 102, 101, 5_000, 5), Ok(())),
    (Stands(0, NEW), Ok(())),
    (Stands(1, TWICE), Ok(())),
    (Stands(2, ONCE), Ok(())),
    // At the second event: 3,300 + 2 x 3,000. Premiums: -1 - 2 - 4 + 1 + 5 = -1.
    (Dollars(101, [9_300, -100_000, -100_000]), Ok(())),
    (TakesIn(100, SECOND, 4), Ok(())),
    (Stands(0, ONCE), Ok(())),
    (Stands(1, THRICE), Ok(())),
    (Stands(2, TWICE), Ok(())),
    (Stands(3, LATER_ONCE), Ok(())),
    (Stands(4, OTHER), Ok(())),
    // 2,640 x 1.50 = 3,960; 2,400 x 1.50 = 3,600; 2,000 x 1.50 = 3,000.
    (
        Holds(THRICE, 7, 31_680_000, LOT, 7_260, Claim::Absent),
        Ok(()),
    ),
    (
        Holds(TWICE, 7, 28_800_000, LOT, 6_600, Claim::Absent),
        Ok(()),
    ),
    (
        Holds(ONCE, 7, 24_000_000, LOT, 3_000, Claim::Absent),
        Ok(()),
    ),
    (
        Holds(LATER_ONCE, 7, 24_000_000, LOT, 3_000, Claim::Absent),
        Ok(()),
    ),
    (Terms(OTHER, 9, LOT), Ok(())),
    (Lots(101, THRICE, 1), Ok(())),
    (Lots(101, TWICE, 2), Ok(())),
    (Lots(101, ONCE, 4), Ok(())),
    // 9,300 + 3,960 + 2 x 3,600 + 4 x 3,000 - 3,000.
    (Dollars(101, [29_460, -100_000, -100_000]), Ok(())),
];

#[test]
fn three_letters_and_another_month(rt: HostRuntime) {
    play_in_all(&rt, &THREE);
}

// Lists a line of a month.
fn list<F: Family>(rt: &impl Abort, book: &mut Book<F>, style: &Style, expiry: u16) {
    let label = Level(b"AA00", expiry);
    let steps = [
        (Lists(91, label, 7, LOT, 5_000), Ok(())),
        (Trades(91, label, 101, 102, 5_000, 1), Ok(())),
    ];
    follow(rt, book, style, &steps);
}

// All 48 lines move, two of each of 24 months.
fn move_all<F: Family>(rt: &impl Abort, style: &Style) {
    let mut book = Book::<F>::new();
    follow(
        rt,
        &mut book,
        style,
        &[(Opens(90, 101), Ok(())), (Opens(90, 102), Ok(()))],
    );
    for expiry in 200..224u16 {
        list(rt, &mut book, style, expiry);
    }
    follow(rt, &mut book, style, &[(TakesIn(91, FIRST, 24), Ok(()))]);
    for expiry in 200..224u16 {
        list(rt, &mut book, style, expiry);
    }
    follow(rt, &mut book, style, &[(TakesIn(92, SECOND, 48), Ok(()))]);
    for expiry in 200..224u16 {
        let once = Level(b"AA11", expiry);
        let twice = Level(b"AA22", expiry);
        let steps = [
            (
                Holds(once, 7, 24_000_000, LOT, 3_000, Claim::Absent),
                Ok(()),
            ),
            (
                Holds(twice, 7, 26_400_000, LOT, 3_300, Claim::Absent),
                Ok(()),
            ),
            (Lots(101, once, 1), Ok(())),
            (Lots(102, twice, -1), Ok(())),
        ];
        follow(rt, &mut book, style, &steps);
    }
    // 24 x 3,000 + 24 x 3,300 dollars; 48 premiums of 100,000.
    let premiums = -4_800_000;
    let sums = [(Dollars(101, [151_200, premiums, premiums]), Ok(()))];
    follow(rt, &mut book, style, &sums);
}

#[test]
fn all_lines_at_once(rt: HostRuntime) {
    move_all::<Futures>(&rt, &FUTURES[0]);
    move_all::<Options>(&rt, &OPTIONS[0]);
    move_all::<Options>(&rt, &OPTIONS[1]);
}

/// Cash alone leaves the letters of futures and moves those of options.
static CASH_ALONE: [(Step, Answer); 8] = [
    (TakesIn(100, PAYS, 2), Ok(())),
    (
        Holds(Level(b"AA01", 200), 7, LOT, LOT, 2_000, Claim::Absent),
        Ok(()),
    ),
    (
        Holds(
            Level(b"AA12", 200),
            7,
            22_000_000,
            LOT,
            2_200,
            Claim::Absent,
        ),
        Ok(()),
    ),
    (Lots(101, Level(b"AA12", 200), 3), Ok(())),
    (Lots(101, Level(b"AA01", 200), -2), Ok(())),
    // 3 x 2,200 - 2 x 2,000.
    (Dollars(101, [2_600, -100_000, -100_000]), Ok(())),
    (Stands(0, Level(b"AA12", 200)), Ok(())),
    (Stands(1, Level(b"AA01", 200)), Ok(())),
];

const PAYS: Does = Does(7, 1_000_000, ONE, NONE, STAYS);

#[test]
fn cash_alone(rt: HostRuntime) {
    play_after_in_all(&rt, &OLDER_ABOVE, &CASH_ALONE);
}
