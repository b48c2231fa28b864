//! Each refusal of an expiry, refusals that compete, and the places that expired lines leave.
use crate::script::Label::{Fit, Level, Misfit};
use crate::script::Step::{
    Bare, Day, Dollars, Expires, Fixes, Lists, Lots, Marks, Opens, Stands, TakesIn, Terms, Trades,
};
use crate::script::{
    Answer, Does, FUTURES, LOT, Label, OPTIONS, STAYS, Step, Style, follow, play_after,
    play_each_in_all, play_in_all,
};
use book::book::Book;
use std::process::Abort;
use terms::family::Family;
use terms::futures::Futures;
use terms::options::Options;
use terms::units::ONE;

const AA: Label = Level(b"AA00", 200);

/// Its claim is due on the expiry.
const DUE: Label = Level(b"BB11", 200);

/// Its claim is due on the day after the expiry.
const EARLY: Label = Level(b"CC11", 200);

/// It expires later, and its claim is due before the book's day.
const LATER: Label = Level(b"DD11", 300);

/// The book's day is 200.
static BEGINNING: [(Step, Answer); 12] = [
    (Opens(90, 101), Ok(())),
    (Opens(90, 102), Ok(())),
    (Lists(90, AA, 7, LOT, 5_000), Ok(())),
    (Lists(90, Level(b"BB00", 200), 8, LOT, 5_000), Ok(())),
    (Lists(90, Level(b"CC00", 200), 9, LOT, 5_000), Ok(())),
    (Lists(90, Level(b"DD00", 300), 10, LOT, 5_000), Ok(())),
    (TakesIn(91, Does(8, 0, ONE, (1, 1, 200), STAYS), 1), Ok(())),
    (TakesIn(91, Does(9, 0, ONE, (1, 1, 201), STAYS), 1), Ok(())),
    (TakesIn(91, Does(10, 0, ONE, (1, 1, 150), STAYS), 1), Ok(())),
    (Lists(91, Level(b"EE00", 201), 11, LOT, 5_000), Ok(())),
    (Trades(91, AA, 101, 102, 5_000, 1), Ok(())),
    (Opens(200, 103), Ok(())),
];

static REFUSED: [(Step, Answer); 45] = [
    // 1: the prefix, the letter.
    (Expires(200, Fit(b"aA0", 200), 5_000, 5_000), Err(1)),
    (Expires(200, Fit(b"A[0", 200), 5_000, 5_000), Err(1)),
    (Expires(200, Fit(b"A@0", 200), 5_000, 5_000), Err(1)),
    (Expires(200, Fit(b"AAx", 200), 5_000, 5_000), Err(1)),
    // 2: each number; the close where no claim needs it, too.
    (Expires(60_001, AA, 5_000, 5_000), Err(2)),
    (Expires(200, Level(b"AA00", 60_001), 5_000, 5_000), Err(2)),
    (Expires(200, AA, 0, 5_000), Err(2)),
    (Expires(200, AA, 1_000_001, 5_000), Err(2)),
    (Expires(200, AA, 5_000, 0), Err(2)),
    (Expires(200, AA, 5_000, 1_000_001), Err(2)),
    // 3, 11 and 12.
    (Expires(200, Misfit(b"AA0", 200), 5_000, 5_000), Err(3)),
    (Expires(199, AA, 5_000, 5_000), Err(11)),
    (Expires(200, Level(b"AA00", 199), 5_000, 5_000), Err(12)),
    (Expires(200, Level(b"AA11", 200), 5_000, 5_000), Err(12)),
    (Expires(200, Level(b"AB00", 200), 5_000, 5_000), Err(12)),
    (Expires(200, Level(b"BB00", 200), 5_000, 5_000), Err(12)),
    // 19: the day before the expiry.
    (Expires(200, Level(b"EE00", 201), 5_000, 5_000), Err(19)),
    // 25: due on the expiry, and before it; a later day does not help.
    (Expires(200, DUE, 5_000, 5_000), Err(25)),
    (Expires(201, DUE, 5_000, 5_000), Err(25)),
    (Expires(60_000, DUE, 5_000, 5_000), Err(25)),
    (Expires(300, LATER, 5_000, 5_000), Err(25)),
    // 1 before 2 and 3.
    (Expires(60_001, Fit(b"aA0", 200), 0, 0), Err(1)),
    (Expires(200, Misfit(b"AAx", 200), 5_000, 5_000), Err(1)),
    (Expires(199, Fit(b"A00", 200), 5_000, 5_000), Err(1)),
    // 2 before 3, 11, 12, 19 and 25.
    (Expires(200, Misfit(b"AA0", 200), 0, 5_000), Err(2)),
    (Expires(199, AA, 5_000, 0), Err(2)),
    (Expires(200, Level(b"AB00", 200), 5_000, 1_000_001), Err(2)),
    (Expires(200, Level(b"EE00", 201), 0, 5_000), Err(2)),
    (Expires(200, DUE, 5_000, 0), Err(2)),
    // 3 before 11, 12 and 19.
    (Expires(199, Misfit(b"AA0", 200), 5_000, 5_000), Err(3)),
    (Expires(200, Misfit(b"AB0", 200), 5_000, 5_000), Err(3)),
    (Expires(200, Misfit(b"EE0", 201), 5_000, 5_000), Err(3)),
    // 11 before 12, 19 and 25.
    (Expires(199, Level(b"AB00", 200), 5_000, 5_000), Err(11)),
    (Expires(199, Level(b"EE00", 201), 5_000, 5_000), Err(11)),
    (Expires(199, DUE, 5_000, 5_000), Err(11)),
    // 12 before 19: a name whose expiry is to come.
    (Expires(200, Level(b"AA00", 201), 5_000, 5_000), Err(12)),
    (Expires(200, Level(b"DD00", 300), 5_000, 5_000), Err(12)),
    // 19 before 25.
    (Expires(200, LATER, 5_000, 5_000), Err(19)),
    (Expires(299, LATER, 5_000, 5_000), Err(19)),
    (Day(200), Ok(())),
    // All of it is there still.
    (Stands(0, AA), Ok(())),
    (Stands(1, DUE), Ok(())),
    (Stands(2, EARLY), Ok(())),
    (Stands(3, LATER), Ok(())),
    (Lots(101, AA, 1), Ok(())),
];

#[test]
fn each_refusal_and_the_smaller_number(rt: HostRuntime) {
    for style in &FUTURES {
        play_after::<Futures>(&rt, style, &BEGINNING, &REFUSED);
    }
    for style in &OPTIONS {
        play_after::<Options>(&rt, style, &BEGINNING, &REFUSED);
    }
}

/// An expiry may come on the day or on any later one.
static ACCEPTED: [(Step, Answer); 9] = [
    (Expires(200, AA, 1, 1), Ok(())),
    (Expires(200, AA, 1_000_000, 1_000_000), Ok(())),
    (Expires(201, AA, 5_000, 5_000), Ok(())),
    (Expires(60_000, AA, 5_000, 5_000), Ok(())),
    (Expires(200, EARLY, 5_000, 5_000), Ok(())),
    // The deadline is the next day: a late call finds the claim open still.
    (Expires(201, EARLY, 5_000, 5_000), Ok(())),
    (Expires(60_000, EARLY, 5_000, 5_000), Ok(())),
    (Expires(201, Level(b"EE00", 201), 5_000, 5_000), Ok(())),
    (Fixes(200, 8, 200, 5_000), Ok(())),
];

#[test]
fn prices_and_days_at_their_limits(rt: HostRuntime) {
    play_each_in_all(&rt, &BEGINNING, &ACCEPTED);
}

/// The last day of all.
static LAST_DAY: [(Step, Answer); 6] = [
    (Lists(59_999, Level(b"AA00", 60_000), 7, LOT, 5_000), Ok(())),
    (
        TakesIn(59_999, Does(7, 0, ONE, (1, 1, 60_000), STAYS), 1),
        Ok(()),
    ),
    (Fixes(60_000, 7, 60_000, 1), Ok(())),
    (Marks(60_000, Level(b"AA11", 60_000), 1), Ok(())),
    (Expires(60_000, Level(b"AA11", 60_000), 1, 1), Ok(())),
    (Bare(0), Ok(())),
];

#[test]
fn the_last_day(rt: HostRuntime) {
    play_in_all(&rt, &LAST_DAY);
}

const BB: Label = Level(b"BB00", 201);

const CC: Label = Level(b"CC00", 202);

const DD: Label = Level(b"DD00", 300);

const EE: Label = Level(b"EE00", 300);

/// 100,000 dollars a lot at 50.00. Account 101 buys 1 lot of AA, 2 of BB, 3 of CC.
static PLACES: [(Step, Answer); 38] = [
    (Opens(90, 101), Ok(())),
    (Opens(90, 102), Ok(())),
    (Lists(90, AA, 7, LOT, 5_000), Ok(())),
    (Lists(90, BB, 8, LOT, 5_000), Ok(())),
    (Lists(90, CC, 9, LOT, 5_000), Ok(())),
    (Bare(3), Ok(())),
    (Trades(90, AA, 101, 102, 5_000, 1), Ok(())),
    (Trades(90, BB, 101, 102, 5_000, 2), Ok(())),
    (Trades(90, CC, 101, 102, 5_000, 3), Ok(())),
    // BB goes first, though AA expires before it: 2 x 4,000 in futures, 2 x 4,000 with calls.
    (Expires(201, BB, 5_200, 5_200), Ok(())),
    (Bare(1), Ok(())),
    (Stands(0, AA), Ok(())),
    (Stands(2, CC), Ok(())),
    (Lots(101, BB, 0), Err(12)),
    (Terms(BB, 8, LOT), Err(12)),
    (Lots(101, AA, 1), Ok(())),
    (Lots(101, CC, 3), Ok(())),
    (Dollars(101, [8_000, -592_000, -600_000]), Ok(())),
    // The next listing stands in its place, without its lots.
    (Lists(201, DD, 10, LOT, 5_000), Ok(())),
    (Stands(1, DD), Ok(())),
    (Lots(101, DD, 0), Ok(())),
    (Lots(102, DD, 0), Ok(())),
    (Trades(201, DD, 102, 101, 5_000, 4), Ok(())),
    // AA and CC: 1 x 2,000 and 3 x -2,000 in futures, 2,000 with calls, 3 x 2,000 with puts.
    (Expires(202, AA, 5_100, 5_100), Ok(())),
    (Expires(202, CC, 4_900, 4_900), Ok(())),
    (Dollars(101, [4_000, -190_000, -194_000]), Ok(())),
    (Bare(0), Ok(())),
    (Bare(2), Ok(())),
    (Lots(101, DD, -4), Ok(())),
    // The first free place, then the next; the names are free too.
    (Lists(202, EE, 11, LOT, 5_000), Ok(())),
    (Stands(0, EE), Ok(())),
    (Lists(202, Level(b"BB00", 300), 8, LOT, 5_000), Ok(())),
    (Stands(2, Level(b"BB00", 300)), Ok(())),
    (Lists(202, Level(b"BB00", 301), 8, LOT, 5_000), Ok(())),
    (Stands(3, Level(b"BB00", 301)), Ok(())),
    (Lots(101, EE, 0), Ok(())),
    (Lots(102, Level(b"BB00", 300), 0), Ok(())),
    (Dollars(102, [-4_000, 190_000, 194_000]), Ok(())),
];

#[test]
fn a_freed_place_is_taken_without_lots(rt: HostRuntime) {
    play_in_all(&rt, &PLACES);
}

/// With 48 lines, which expire on the days 200 to 247.
static FULL: [(Step, Answer); 13] = [
    (Lists(247, Level(b"AA00", 300), 7, LOT, 5_000), Err(15)),
    (Expires(247, Level(b"AA00", 247), 5_000, 5_000), Ok(())),
    (Bare(47), Ok(())),
    (Lists(247, Level(b"AA00", 300), 7, LOT, 5_000), Ok(())),
    (Stands(47, Level(b"AA00", 300)), Ok(())),
    (Lists(247, Level(b"AA00", 301), 7, LOT, 5_000), Err(15)),
    (Expires(247, Level(b"AA00", 220), 5_000, 5_000), Ok(())),
    (Expires(247, Level(b"AA00", 210), 5_000, 5_000), Ok(())),
    (Lists(247, Level(b"AA00", 301), 7, LOT, 5_000), Ok(())),
    (Stands(10, Level(b"AA00", 301)), Ok(())),
    (Lists(247, Level(b"AA00", 302), 7, LOT, 5_000), Ok(())),
    (Stands(20, Level(b"AA00", 302)), Ok(())),
    (Lists(247, Level(b"AA00", 303), 7, LOT, 5_000), Err(15)),
];

fn fill<F: Family>(rt: &impl Abort, style: &Style) {
    let mut book = Book::<F>::new();
    for expiry in 200..248u16 {
        let steps = [(Lists(90, Level(b"AA00", expiry), 7, LOT, 5_000), Ok(()))];
        follow(rt, &mut book, style, &steps);
    }
    follow(rt, &mut book, style, &FULL);
}

#[test]
fn a_full_book_has_room_after_an_expiry(rt: HostRuntime) {
    fill::<Futures>(&rt, &FUTURES[0]);
    fill::<Options>(&rt, &OPTIONS[0]);
    fill::<Options>(&rt, &OPTIONS[1]);
}
