//! What the exchange's rehearsal of June 2015 has of changes of capital, each line from its listing
//! to its expiry. Codes, shares, cash and days are the exchange's (1 June is day 5,630; the 17th, an
//! expiry, is 5,646). The prices are chosen, mostly so that a lot of 2,000 shares is listed at
//! 120,000 dollars, bought at 122,000, and has 100,000 dollars as the price of its strikes.
use crate::script::Label::Level;
use crate::script::Step::{
    Bare, Dollars, Expires, Fixes, Holds, Lists, Lots, Marks, Opens, TakesIn, Trades,
};
use crate::script::{Answer, Does, LOT, Label, NONE, STAYS, Step, play_in_all};
use terms::claim::Claim;
use terms::units::ONE;

const CASH_INCREASE: Does = Does(2324, 0, ONE, (100_000_000, 2_000, 5_640), STAYS);

const CG: Label = Level(b"CG00", 5_646);

const CG_LATER: Label = Level(b"CG11", 5_646);

/// In July.
const CG_JULY: Label = Level(b"CG00", 5_674);

const CG_JULY_LATER: Label = Level(b"CG11", 5_674);

/// On 200 shares at 20.00.
const SUBSCRIBES: Claim = Claim::Open {
    units: 2_000_000,
    price: 2_000,
    deadline: 5_640,
};

const SUBSCRIBED: Claim = Claim::Fixed { dollars: 900 };

/// At 25.00 and 25.50 a lot is worth 50,000 and 51,000 dollars.
static RIGHTS: [(Step, Answer); 22] = [
    (Opens(5_630, 101), Ok(())),
    (Opens(5_630, 102), Ok(())),
    (Lists(5_630, CG, 2324, LOT, 2_500), Ok(())),
    (Lists(5_630, CG_JULY, 2324, LOT, 2_500), Ok(())),
    (Trades(5_630, CG, 101, 102, 2_550, 2), Ok(())),
    (Trades(5_630, CG_JULY, 101, 102, 2_550, 1), Ok(())),
    (TakesIn(5_634, CASH_INCREASE, 2), Ok(())),
    (Holds(CG_LATER, 2324, LOT, LOT, 0, SUBSCRIBES), Ok(())),
    (Holds(CG_JULY_LATER, 2324, LOT, LOT, 0, SUBSCRIBES), Ok(())),
    (Dollars(101, [-3_000, -153_000, -153_000]), Ok(())),
    (Expires(5_646, CG_LATER, 2_400, 2_390), Err(25)),
    // (24.50 - 20.00) x 200 = 900 dollars.
    (Fixes(5_640, 2324, 5_640, 2_450), Ok(())),
    (Holds(CG_LATER, 2324, LOT, LOT, 0, SUBSCRIBED), Ok(())),
    (Holds(CG_JULY_LATER, 2324, LOT, LOT, 0, SUBSCRIBED), Ok(())),
    // 2 x (48,000 - 50,000) dollars.
    (Marks(5_641, CG_LATER, 2_400), Ok(())),
    (Dollars(101, [-7_000, -153_000, -153_000]), Ok(())),
    // Futures: 2 x 900. Puts: 2 x (100,000 - 48,900).
    (Expires(5_646, CG_LATER, 2_400, 2_390), Ok(())),
    (Dollars(101, [-5_200, -153_000, -50_800]), Ok(())),
    // Futures: 104,900 - 50,000. Calls: 104,900 - 100,000. The close of July has no part in it.
    (Expires(5_674, CG_JULY_LATER, 5_200, 6_000), Ok(())),
    (Dollars(101, [49_700, -148_100, -50_800]), Ok(())),
    (Bare(0), Ok(())),
    (Bare(1), Ok(())),
];

const CASH_REDUCTION: Does = Does(2412, 1_000_000, 900_000_000, NONE, STAYS);

const DL: Label = Level(b"DL00", 5_646);

const DL_LATER: Label = Level(b"DL11", 5_646);

static PAID_BACK: [(Step, Answer); 13] = [
    (Opens(5_630, 101), Ok(())),
    (Opens(5_630, 102), Ok(())),
    (Lists(5_630, DL, 2412, LOT, 6_000), Ok(())),
    (Trades(5_630, DL, 101, 102, 6_100, 2), Ok(())),
    // The cash is that of 2,000 shares, not of 1,800: 2 x 2,000 dollars.
    (TakesIn(5_637, CASH_REDUCTION, 1), Ok(())),
    (
        Holds(DL_LATER, 2412, 18_000_000, LOT, 2_000, Claim::Absent),
        Ok(()),
    ),
    (Lots(102, DL_LATER, -2), Ok(())),
    (Dollars(101, [0, -244_000, -244_000]), Ok(())),
    // 2 x (65 x 1,800 - 120,000) = 2 x (117,000 - 120,000) dollars.
    (Marks(5_639, DL_LATER, 6_500), Ok(())),
    (Dollars(101, [-6_000, -244_000, -244_000]), Ok(())),
    // 66 x 1,800 = 118,800. Futures: 2 x 1,800. Calls: 2 x (118,800 + 2,000 - 100,000).
    (Expires(5_646, DL_LATER, 6_600, 6_600), Ok(())),
    (Dollars(101, [-2_400, -202_400, -244_000]), Ok(())),
    (Bare(0), Ok(())),
];

const LOSS_REDUCTION: Does = Does(2409, 0, 900_000_000, NONE, STAYS);

const CH: Label = Level(b"CH00", 5_646);

/// (The script prints CHI where the code of the futures is CH1.)
const CH_LATER: Label = Level(b"CH11", 5_646);

static WRITTEN_OFF: [(Step, Answer); 12] = [
    (Opens(5_630, 101), Ok(())),
    (Opens(5_630, 102), Ok(())),
    (Lists(5_630, CH, 2409, LOT, 6_000), Ok(())),
    (Trades(5_630, CH, 101, 102, 6_100, 2), Ok(())),
    (TakesIn(5_634, LOSS_REDUCTION, 1), Ok(())),
    (
        Holds(CH_LATER, 2409, 18_000_000, LOT, 0, Claim::Absent),
        Ok(()),
    ),
    (Dollars(101, [-4_000, -244_000, -244_000]), Ok(())),
    // 2 x (66 x 1,800 - 120,000) = 2 x (118,800 - 120,000) dollars.
    (Marks(5_639, CH_LATER, 6_600), Ok(())),
    (Dollars(101, [-6_400, -244_000, -244_000]), Ok(())),
    // 54 x 1,800 = 97,200. Futures: 2 x (97,200 - 118,800). Puts: 2 x 2,800.
    (Expires(5_646, CH_LATER, 5_400, 5_400), Ok(())),
    (Dollars(101, [-49_600, -244_000, -238_400]), Ok(())),
    (Bare(0), Ok(())),
];

#[test]
fn a_cash_increase(rt: HostRuntime) {
    play_in_all(&rt, &RIGHTS);
}

#[test]
fn a_cash_reduction_of_capital(rt: HostRuntime) {
    play_in_all(&rt, &PAID_BACK);
}

#[test]
fn a_loss_reduction_of_capital(rt: HostRuntime) {
    play_in_all(&rt, &WRITTEN_OFF);
}
