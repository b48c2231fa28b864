//! Each refusal of the four calls, refusals that compete, and full books.
use crate::script::Label::{Fit, Misfit};
use crate::script::Step::{Day, Lists, Lots, Marks, Opens, Terms, Trades};
use crate::script::{Answer, FUTURES, LOT, Label, OPTIONS, Step, Style, follow, play};
use book::book::Book;
use std::process::Abort;
use terms::family::Family;
use terms::futures::Futures;
use terms::options::Options;

const CS: Label = Fit(b"CS0", 200);

/// A line that expires on the day after its listing.
const SHORT: Label = Fit(b"CS0", 101);

static CALLS: [(Step, Answer); 127] = [
    // Opening.
    (Opens(100, 0), Err(2)),
    (Opens(60_001, 1), Err(2)),
    (Day(0), Ok(())),
    (Opens(100, 1), Ok(())),
    (Day(100), Ok(())),
    (Opens(99, 2), Err(11)),
    (Opens(100, 1), Err(17)),
    (Opens(100, 2), Ok(())),
    (Opens(100, 4_294_967_295), Ok(())),
    // Competing: 2 before 11 and 17, 11 before 17.
    (Opens(99, 0), Err(2)),
    (Opens(60_001, 1), Err(2)),
    (Opens(99, 1), Err(11)),
    // Listing: 1, a prefix, a letter of another family, a letter that is not standard.
    (Lists(100, Fit(b"cS0", 200), 1605, LOT, 4_000), Err(1)),
    (Lists(100, Fit(b"C@0", 200), 1605, LOT, 4_000), Err(1)),
    (Lists(100, Fit(b"[S0", 200), 1605, LOT, 4_000), Err(1)),
    (Lists(100, Fit(b"CSx", 200), 1605, LOT, 4_000), Err(1)),
    (Lists(100, Fit(b"CS1", 200), 1605, LOT, 4_000), Err(1)),
    // 2, each number.
    (Lists(60_001, CS, 1605, LOT, 4_000), Err(2)),
    (Lists(100, Fit(b"CS0", 60_001), 1605, LOT, 4_000), Err(2)),
    (Lists(100, CS, 0, LOT, 4_000), Err(2)),
    (Lists(100, CS, 1605, 0, 4_000), Err(2)),
    (Lists(100, CS, 1605, 400_000_001, 4_000), Err(2)),
    (Lists(100, CS, 1605, LOT, 0), Err(2)),
    (Lists(100, CS, 1605, LOT, 1_000_001), Err(2)),
    // 3, 11 and 19.
    (Lists(100, Misfit(b"CS0", 200), 1605, LOT, 4_000), Err(3)),
    (Lists(99, CS, 1605, LOT, 4_000), Err(11)),
    (Lists(100, Fit(b"CS0", 100), 1605, LOT, 4_000), Err(19)),
    (Lists(100, Fit(b"CS0", 99), 1605, LOT, 4_000), Err(19)),
    (Terms(CS, 1605, LOT), Err(12)),
    (Lists(100, CS, 1605, LOT, 4_000), Ok(())),
    (Terms(CS, 1605, LOT), Ok(())),
    // 13, and 14 for another stock and for another prefix.
    (Lists(100, CS, 1605, LOT, 4_000), Err(13)),
    (Lists(100, CS, 1605, 1, 1), Err(13)),
    (Lists(100, Fit(b"CS0", 201), 1606, LOT, 4_000), Err(14)),
    (Lists(100, Fit(b"CT0", 201), 1605, LOT, 4_000), Err(14)),
    (Lists(100, Fit(b"CT0", 200), 1606, 1, 1_000_000), Ok(())),
    (Lists(100, SHORT, 1605, LOT, 4_000), Ok(())),
    (Terms(Fit(b"CT0", 200), 1606, 1), Ok(())),
    // Competing: 1 before 2 and 3, 2 before 3, 3 before 11, 11 before 13 and 14, 13 before 14, 14
    // before 19, and then 13 before 19.
    (Lists(60_001, Fit(b"cS0", 200), 0, 0, 0), Err(1)),
    (Lists(100, Misfit(b"CS1", 200), 1605, LOT, 4_000), Err(1)),
    (Lists(99, Misfit(b"CS0", 200), 1605, 0, 4_000), Err(2)),
    (Lists(99, Misfit(b"CS0", 200), 1605, LOT, 4_000), Err(3)),
    (Lists(99, CS, 1606, LOT, 4_000), Err(11)),
    (Lists(100, CS, 1606, LOT, 4_000), Err(13)),
    (Lists(100, Fit(b"CS0", 100), 1606, LOT, 4_000), Err(14)),
    (Day(100), Ok(())),
    (Opens(101, 3), Ok(())),
    (Lists(101, SHORT, 1605, LOT, 4_000), Err(13)),
    (Lists(102, SHORT, 1605, LOT, 4_000), Err(13)),
    // Trade: 1 and each number of 2.
    (Trades(101, Fit(b"cS0", 200), 1, 2, 4_000, 1), Err(1)),
    (Trades(101, Fit(b"C[0", 200), 1, 2, 4_000, 1), Err(1)),
    (Trades(101, Fit(b"CSx", 200), 1, 2, 4_000, 1), Err(1)),
    (Trades(60_001, CS, 1, 2, 4_000, 1), Err(2)),
    (Trades(101, Fit(b"CS0", 60_001), 1, 2, 4_000, 1), Err(2)),
    (Trades(101, CS, 0, 2, 4_000, 1), Err(2)),
    (Trades(101, CS, 1, 0, 4_000, 1), Err(2)),
    (Trades(101, CS, 1, 2, 0, 1), Err(2)),
    (Trades(101, CS, 1, 2, 1_000_001, 1), Err(2)),
    (Trades(101, CS, 1, 2, 4_000, 0), Err(2)),
    (Trades(101, CS, 1, 2, 4_000, 4_001), Err(2)),
    (Trades(101, CS, 1, 2, 4_000, 65_535), Err(2)),
    // 3, 5, 11, 12 and 16.
    (Trades(101, Misfit(b"CS0", 200), 1, 2, 4_000, 1), Err(3)),
    (Trades(101, CS, 1, 1, 4_000, 1), Err(5)),
    (Trades(100, CS, 1, 2, 4_000, 1), Err(11)),
    (Trades(101, Fit(b"CS0", 202), 1, 2, 4_000, 1), Err(12)),
    (Trades(101, Fit(b"CS1", 200), 1, 2, 4_000, 1), Err(12)),
    (Trades(101, Fit(b"CU0", 200), 1, 2, 4_000, 1), Err(12)),
    (Trades(101, CS, 9, 2, 4_000, 1), Err(16)),
    (Trades(101, CS, 1, 9, 4_000, 1), Err(16)),
    // 19: the expiry day itself is in time.
    (Trades(102, SHORT, 1, 2, 4_000, 1), Err(19)),
    (Lots(1, SHORT, 0), Ok(())),
    (Trades(101, SHORT, 1, 2, 4_000, 1), Ok(())),
    (Lots(1, SHORT, 1), Ok(())),
    (Lots(2, SHORT, -1), Ok(())),
    (Lots(1, CS, 0), Ok(())),
    // 26: on the buyer's side, on the seller's, on both; and back through 0.
    (Trades(101, CS, 1, 2, 4_000, 4_000), Ok(())),
    (Trades(101, CS, 1, 3, 4_000, 1), Err(26)),
    (Trades(101, CS, 3, 2, 4_000, 1), Err(26)),
    (Trades(101, CS, 1, 2, 4_000, 4_000), Err(26)),
    (Lots(1, CS, 4_000), Ok(())),
    (Lots(2, CS, -4_000), Ok(())),
    (Lots(3, CS, 0), Ok(())),
    (Trades(101, CS, 2, 1, 4_000, 1), Ok(())),
    (Trades(101, CS, 1, 3, 4_000, 2), Err(26)),
    (Trades(101, CS, 1, 3, 4_000, 1), Ok(())),
    (Trades(101, CS, 2, 1, 4_000, 4_000), Ok(())),
    (Lots(1, CS, 0), Ok(())),
    (Lots(2, CS, 1), Ok(())),
    (Lots(3, CS, -1), Ok(())),
    (Lots(4_294_967_295, CS, 0), Ok(())),
    // Competing: 1 before 2, 3 and 5, 2 before 3, 5 and 11, 3 before 5, 5 before 11, 12 and 16, 11
    // before 12 and 16, 12 before 16, 16 before 19, 19 before 26.
    (Trades(60_001, Misfit(b"CSx", 200), 0, 0, 0, 0), Err(1)),
    (Trades(100, Misfit(b"CS0", 200), 1, 1, 4_000, 0), Err(2)),
    (Trades(101, CS, 0, 0, 4_000, 1), Err(2)),
    (Trades(100, Misfit(b"CS0", 200), 1, 1, 4_000, 1), Err(3)),
    (Trades(100, CS, 9, 9, 4_000, 1), Err(5)),
    (Trades(101, Fit(b"CS0", 202), 1, 1, 4_000, 1), Err(5)),
    (Trades(100, Fit(b"CS0", 202), 9, 2, 4_000, 1), Err(11)),
    (Trades(101, Fit(b"CS0", 202), 9, 8, 4_000, 1), Err(12)),
    (Trades(102, SHORT, 1, 9, 4_000, 1), Err(16)),
    (Trades(102, SHORT, 1, 2, 4_000, 4_000), Err(19)),
    // Mark: 1, each number of 2, 3, 11, 12, and 19 with the expiry day in time.
    (Marks(101, Fit(b"CSx", 200), 4_000), Err(1)),
    (Marks(101, Fit(b"C0S", 200), 4_000), Err(1)),
    (Marks(60_001, CS, 4_000), Err(2)),
    (Marks(101, Fit(b"CS0", 60_001), 4_000), Err(2)),
    (Marks(101, CS, 0), Err(2)),
    (Marks(101, CS, 1_000_001), Err(2)),
    (Marks(101, Misfit(b"CS0", 200), 4_000), Err(3)),
    (Marks(100, CS, 4_000), Err(11)),
    (Marks(101, Fit(b"CS0", 202), 4_000), Err(12)),
    (Marks(101, Fit(b"CS1", 200), 4_000), Err(12)),
    (Marks(102, SHORT, 4_000), Err(19)),
    (Marks(101, SHORT, 1), Ok(())),
    (Marks(101, CS, 1_000_000), Ok(())),
    // Competing: 1 before 2 and 3, 2 before 3 and 11, 3 before 11 and 12, 11 before 12, 12 before
    // 19.
    (Marks(60_001, Misfit(b"cS0", 200), 0), Err(1)),
    (Marks(100, Misfit(b"CS0", 200), 0), Err(2)),
    (Marks(100, Misfit(b"CS0", 202), 4_000), Err(3)),
    (Marks(100, Fit(b"CS0", 202), 4_000), Err(11)),
    (Marks(201, Fit(b"CS0", 199), 4_000), Err(12)),
    // The last days: of a line, and of all.
    (Day(101), Ok(())),
    (Marks(200, CS, 4_000), Ok(())),
    (Trades(200, CS, 1, 2, 4_000, 1), Ok(())),
    (Trades(201, CS, 1, 2, 4_000, 1), Err(19)),
    (Day(200), Ok(())),
    (Opens(60_000, 5), Ok(())),
    (Opens(59_999, 6), Err(11)),
    (Marks(60_000, CS, 4_000), Err(19)),
    (Day(60_000), Ok(())),
];

#[test]
fn calls(rt: HostRuntime) {
    for style in &FUTURES {
        play::<Futures>(&rt, style, &CALLS);
    }
    for style in &OPTIONS {
        play::<Options>(&rt, style, &CALLS);
    }
}

/// With 48 lines, which expire on the days 200 to 247, and the accounts 1 to 64.
static FULL: [(Step, Answer); 14] = [
    // Competing: 11, 13 and 14 before 15, 15 before 19; 11 and 17 before 18.
    (Lists(99, Fit(b"CS0", 300), 1605, LOT, 4_000), Err(11)),
    (Lists(100, CS, 1605, LOT, 4_000), Err(13)),
    (Lists(100, Fit(b"CS0", 300), 1606, LOT, 4_000), Err(14)),
    (Lists(100, Fit(b"CS0", 100), 1605, LOT, 4_000), Err(15)),
    (Opens(99, 65), Err(11)),
    (Opens(100, 64), Err(17)),
    (Opens(100, 65), Err(18)),
    // The last line and the last account are as good as any.
    (Terms(Fit(b"CS0", 247), 1605, LOT), Ok(())),
    (Terms(Fit(b"CS0", 248), 1605, LOT), Err(12)),
    (Trades(100, Fit(b"CS0", 247), 64, 1, 4_000, 7), Ok(())),
    (Lots(64, Fit(b"CS0", 247), 7), Ok(())),
    (Lots(1, Fit(b"CS0", 247), -7), Ok(())),
    (Lots(64, Fit(b"CS0", 246), 0), Ok(())),
    (Lots(65, Fit(b"CS0", 247), 0), Err(16)),
];

// Lists lines and opens accounts, more than there is room for. (The count is a value here: it makes
// an expiry and an account.)
fn fill<F: Family>(rt: &impl Abort, style: &Style) {
    let mut book = Book::<F>::new();
    for i in 0..66u16 {
        let listed = if i < 48 { Ok(()) } else { Err(15) };
        let opened = if i < 64 { Ok(()) } else { Err(18) };
        let steps = [
            (Lists(100, Fit(b"CS0", 200 + i), 1605, LOT, 4_000), listed),
            (Opens(100, 1 + u32::from(i)), opened),
        ];
        follow(rt, &mut book, style, &steps);
    }
    follow(rt, &mut book, style, &FULL);
}

/// A line beside others of its code and expiry that differ in right or strike.
static RIVAL: [(Step, Answer); 3] = [
    (Terms(CS, 1605, LOT), Err(12)),
    (Lists(100, CS, 1605, LOT, 4_000), Ok(())),
    (Lists(100, CS, 1605, LOT, 4_000), Err(13)),
];

#[test]
fn full_books(rt: HostRuntime) {
    fill::<Futures>(&rt, &FUTURES[0]);
    fill::<Options>(&rt, &OPTIONS[0]);
    let mut book = Book::<Options>::new();
    for style in &OPTIONS {
        follow(&rt, &mut book, style, &RIVAL);
    }
}
