//! The exchange's slides on adjusted futures: with the prices printed there, neither side gains or loses
//! by an event, and a subscription right is worth as much to one who sells as to one who waits for the
//! expiry.
use crate::script::Label::Level;
use crate::script::Step::{
    Bare, Dollars, Expires, Fixes, Holds, Lists, Marks, Opens, TakesIn, Terms, Trades,
};
use crate::script::{Answer, Does, FUTURES, LOT, Label, NONE, STAYS, Step, follow, play};
use book::book::Book;
use std::process::Abort;
use terms::claim::Claim;
use terms::futures::Futures;
use terms::units::ONE;

/// The line before and after, its stock, the price before, what happens, the stock, shares and
/// reference price after.
#[derive(Clone, Copy)]
struct Slide(Label, Label, u32, u32, Does, u32, u32, u32);

const SLIDES: [Slide; 6] = [
    // 3 dollars: (75 - 78) x 2,000 + 6,000 = 0.
    Slide(
        Level(b"CD00", 4_500),
        Level(b"CD00", 4_500),
        2330,
        7_800,
        Does(2330, 3_000_000, ONE, NONE, STAYS),
        2330,
        LOT,
        7_500,
    ),
    // 0.05 shares: 21 x 2,000 = 20 x 2,100.
    Slide(
        Level(b"CN00", 4_500),
        Level(b"CN11", 4_500),
        2891,
        2_100,
        Does(2891, 0, 1_050_000_000, NONE, STAYS),
        2891,
        21_000_000,
        2_000,
    ),
    // Losses reduce capital to 0.9: 12.60 x 2,000 = 14 x 1,800.
    Slide(
        Level(b"CM00", 4_500),
        Level(b"CM11", 4_500),
        2887,
        1_260,
        Does(2887, 0, 900_000_000, NONE, STAYS),
        2887,
        18_000_000,
        1_400,
    ),
    // 2 dollars are paid back and 0.8 shares are left: 90 x 1,600 - 74 x 2,000 + 4,000 = 0.
    Slide(
        Level(b"DL00", 4_500),
        Level(b"DL11", 4_500),
        2412,
        7_400,
        Does(2412, 2_000_000, 800_000_000, NONE, STAYS),
        2412,
        16_000_000,
        9_000,
    ),
    // 0.55 shares and 11.55 dollars: 15 x 1,100 - 19.80 x 2,000 + 23,100 = 0.
    Slide(
        Level(b"DM00", 4_500),
        Level(b"DO11", 4_500),
        2854,
        1_980,
        Does(2854, 11_550_000, 550_000_000, NONE, (2885, b"DO")),
        2885,
        11_000_000,
        1_500,
    ),
    // Share for share into a new company: 18.20 stays.
    Slide(
        Level(b"DR00", 4_500),
        Level(b"LO11", 4_500),
        5854,
        1_820,
        Does(5854, 0, ONE, NONE, (5880, b"LO")),
        5880,
        LOT,
        1_820,
    ),
];

impl Slide {
    // A lot is bought at the price before, and marked at the reference price after.
    fn tell(self, rt: &impl Abort) {
        let Slide(old, new, stock, price, does, heir, units, reference) = self;
        let story = [
            (Opens(4_400, 101), Ok(())),
            (Opens(4_400, 102), Ok(())),
            (Lists(4_400, old, stock, LOT, price), Ok(())),
            (Trades(4_400, old, 101, 102, price, 1), Ok(())),
            (TakesIn(4_401, does, 1), Ok(())),
            (Holds(new, heir, units, LOT, 0, Claim::Absent), Ok(())),
            (Marks(4_401, new, reference), Ok(())),
            (Dollars(101, [0, 0, 0]), Ok(())),
            (Dollars(102, [0, 0, 0]), Ok(())),
        ];
        let mut book = Book::<Futures>::new();
        follow(rt, &mut book, &FUTURES[0], &story);
        let Does(_, cash, ratio, ..) = does;
        let found = book.reference_price(price, cash, ratio);
        assert_eq!(rt; found, Ok(reference));
    }
}

#[test]
fn nobody_gains_by_an_event(rt: HostRuntime) {
    for slide in &SLIDES {
        slide.tell(&rt);
    }
}

/// 100 shares for 2,000 at 16.30, from 10 February 2012 (day 4,423), paid by 3 April (4,476).
const OFFERS: Does = Does(2891, 0, ONE, (50_000_000, 1_630, 4_476), STAYS);

const OFFERED: Claim = Claim::Open {
    units: 1_000_000,
    price: 1_630,
    deadline: 4_476,
};

/// The months expire on 15 February, 21 March and 20 June.
const FEBRUARY: Label = Level(b"CN00", 4_428);

const FEBRUARY_LATER: Label = Level(b"CN11", 4_428);

const MARCH: Label = Level(b"CN00", 4_463);

const MARCH_LATER: Label = Level(b"CN11", 4_463);

const JUNE: Label = Level(b"CN00", 4_554);

const JUNE_LATER: Label = Level(b"CN11", 4_554);

/// Accounts 101 and 104 buy February at 19.00, and 103 buys it of 101 at 20.20. Of the other months
/// 105 buys March and 106 buys June at 19.00. Account 102 sells all five.
static RIGHTS: [(Step, Answer); 30] = [
    (Opens(4_422, 101), Ok(())),
    (Opens(4_422, 102), Ok(())),
    (Opens(4_422, 103), Ok(())),
    (Opens(4_422, 104), Ok(())),
    (Opens(4_422, 105), Ok(())),
    (Opens(4_422, 106), Ok(())),
    (Lists(4_422, FEBRUARY, 2891, LOT, 1_900), Ok(())),
    (Lists(4_422, MARCH, 2891, LOT, 1_900), Ok(())),
    (Lists(4_422, JUNE, 2891, LOT, 1_900), Ok(())),
    (Trades(4_422, FEBRUARY, 101, 102, 1_900, 1), Ok(())),
    (Trades(4_422, FEBRUARY, 104, 102, 1_900, 1), Ok(())),
    (Trades(4_422, MARCH, 105, 102, 1_900, 1), Ok(())),
    (Trades(4_422, JUNE, 106, 102, 1_900, 1), Ok(())),
    (TakesIn(4_423, OFFERS, 3), Ok(())),
    (Terms(FEBRUARY, 2891, LOT), Err(12)),
    (Holds(FEBRUARY_LATER, 2891, LOT, LOT, 0, OFFERED), Ok(())),
    (Holds(JUNE_LATER, 2891, LOT, LOT, 0, OFFERED), Ok(())),
    // Sold: (20.20 - 19) x 2,000 = 2,400.
    (Trades(4_427, FEBRUARY_LATER, 103, 101, 2_020, 1), Ok(())),
    (Dollars(101, [2_400, 0, 0]), Ok(())),
    // Kept: (20 - 19) x 2,000 + (20.30 - 16.30) x 100 = 2,400. Account 103 has gained nothing.
    (Expires(4_428, FEBRUARY_LATER, 2_000, 2_030), Ok(())),
    (Dollars(104, [2_400, 0, 0]), Ok(())),
    (Dollars(103, [0, 0, 0]), Ok(())),
    // March ends before the payment: (18.50 - 19) x 2,000 + (18.60 - 16.30) x 100 = -770.
    (Expires(4_463, MARCH_LATER, 1_850, 1_860), Ok(())),
    (Dollars(105, [-770, 0, 0]), Ok(())),
    // June ends after it: (18.30 - 16.30) x 100 = 200, which is 0.10 on each of 2,000 shares.
    (Fixes(4_476, 2891, 4_476, 1_830), Ok(())),
    (
        Holds(JUNE_LATER, 2891, LOT, LOT, 0, Claim::Fixed { dollars: 200 }),
        Ok(()),
    ),
    (Expires(4_554, JUNE_LATER, 1_900, 1_000_000), Ok(())),
    (Dollars(106, [200, 0, 0]), Ok(())),
    // -2 x 2,400 + 770 - 200.
    (Dollars(102, [-4_230, 0, 0]), Ok(())),
    (Bare(2), Ok(())),
];

#[test]
fn rights_are_worth_as_much_to_one_who_sells(rt: HostRuntime) {
    play::<Futures>(&rt, &FUTURES[0], &RIGHTS);
}
