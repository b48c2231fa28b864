//! The mergers and the conversion of the exchange's rehearsal of June 2015, each line from its
//! listing to its expiry. Codes, shares, cash and days are the exchange's (1 June is day 5,630; the
//! 17th, an expiry, is 5,646). The prices are chosen, mostly so that a lot of 2,000 shares is listed
//! at 120,000 dollars, bought at 122,000, and has 100,000 dollars as the price of its strikes.
use crate::script::Label::Level;
use crate::script::Step::{
    Dollars, Expires, Holds, Lists, Lots, Marks, Opens, Stands, TakesIn, Terms, Trades,
};
use crate::script::{Answer, Does, LOT, Label, NONE, Step, play_in_all};
use terms::claim::Claim;

const MERGES: Does = Does(2311, 2_000_000, 800_000_000, NONE, (2325, b"CV"));

const CT: Label = Level(b"CT00", 5_646);

/// The surviving company's own.
const CV: Label = Level(b"CV00", 5_646);

const CV_LATER: Label = Level(b"CV11", 5_646);

static MERGER: [(Step, Answer); 20] = [
    (Opens(5_630, 101), Ok(())),
    (Opens(5_630, 102), Ok(())),
    (Lists(5_630, CT, 2311, LOT, 6_000), Ok(())),
    (Lists(5_630, CV, 2325, LOT, 3_000), Ok(())),
    (Trades(5_630, CT, 101, 102, 6_100, 2), Ok(())),
    (Trades(5_630, CV, 102, 101, 3_000, 1), Ok(())),
    // Premiums: -2 x 122,000 + 60,000.
    (Dollars(101, [-4_000, -184_000, -184_000]), Ok(())),
    (TakesIn(5_633, MERGES, 1), Ok(())),
    (Terms(CT, 2311, LOT), Err(12)),
    (Terms(CV, 2325, LOT), Ok(())),
    (
        Holds(CV_LATER, 2325, 16_000_000, LOT, 4_000, Claim::Absent),
        Ok(()),
    ),
    (Lots(101, CV_LATER, 2), Ok(())),
    (Lots(101, CV, -1), Ok(())),
    // 2 x 4,000 dollars.
    (Dollars(101, [4_000, -184_000, -184_000]), Ok(())),
    // 2 x (72.50 x 1,600 - 120,000) = 2 x (116,000 - 120,000) dollars.
    (Marks(5_639, CV_LATER, 7_250), Ok(())),
    (Dollars(101, [-4_000, -184_000, -184_000]), Ok(())),
    // 70 x 1,600 = 112,000. Futures: 2 x (112,000 - 116,000). Calls: 2 x (112,000 + 4,000 - 100,000).
    (Expires(5_646, CV_LATER, 7_000, 7_000), Ok(())),
    (Dollars(101, [-12_000, -152_000, -184_000]), Ok(())),
    // The survivor's lot, sold: 62,000 - 60,000 in futures, 100,000 - 62,000 with puts.
    (Expires(5_646, CV, 3_100, 3_100), Ok(())),
    (Dollars(101, [-14_000, -152_000, -222_000]), Ok(())),
];

const CONVERTS: Does = Does(2801, 0, 1_650_000_000, NONE, (2838, b"OK"));

const DC: Label = Level(b"DC00", 5_646);

/// The holding company's, listed on the day of the conversion.
const OK: Label = Level(b"OK00", 5_646);

const OK_LATER: Label = Level(b"OK11", 5_646);

static CONVERSION: [(Step, Answer); 15] = [
    (Opens(5_630, 101), Ok(())),
    (Opens(5_630, 102), Ok(())),
    (Lists(5_630, DC, 2801, LOT, 6_000), Ok(())),
    (Trades(5_630, DC, 101, 102, 6_100, 2), Ok(())),
    (TakesIn(5_637, CONVERTS, 1), Ok(())),
    (Lists(5_637, OK, 2838, LOT, 3_600), Ok(())),
    (
        Holds(OK_LATER, 2838, 33_000_000, LOT, 0, Claim::Absent),
        Ok(()),
    ),
    (Lots(101, OK_LATER, 2), Ok(())),
    (Lots(101, OK, 0), Ok(())),
    (Dollars(101, [-4_000, -244_000, -244_000]), Ok(())),
    // 2 x (36 x 3,300 - 120,000) = 2 x (118,800 - 120,000) dollars.
    (Marks(5_639, OK_LATER, 3_600), Ok(())),
    (Dollars(101, [-6_400, -244_000, -244_000]), Ok(())),
    // 30 x 3,300 = 99,000. Futures: 2 x (99,000 - 118,800). Puts: 2 x 1,000.
    (Expires(5_646, OK_LATER, 3_000, 3_000), Ok(())),
    (Dollars(101, [-46_000, -244_000, -242_000]), Ok(())),
    (Stands(1, OK), Ok(())),
];

/// 10,000 units of a fund.
const FUND_LOT: u32 = 100_000_000;

const FUNDS_MERGE: Does = Does(6205, 1_400_000, 1_500_000_000, NONE, (61, b"NZ"));

const OA: Label = Level(b"OA00", 5_646);

const NZ: Label = Level(b"NZ00", 5_646);

const NZ_LATER: Label = Level(b"NZ11", 5_646);

static FUND_MERGER: [(Step, Answer); 13] = [
    (Opens(5_630, 101), Ok(())),
    (Opens(5_630, 102), Ok(())),
    (Lists(5_630, NZ, 61, FUND_LOT, 4_000), Ok(())),
    (Lists(5_630, OA, 6205, FUND_LOT, 6_000), Ok(())),
    (Trades(5_630, OA, 101, 102, 6_050, 1), Ok(())),
    (TakesIn(5_633, FUNDS_MERGE, 1), Ok(())),
    (
        Holds(NZ_LATER, 61, 150_000_000, FUND_LOT, 14_000, Claim::Absent),
        Ok(()),
    ),
    (Terms(NZ, 61, FUND_LOT), Ok(())),
    (Dollars(101, [9_000, -605_000, -605_000]), Ok(())),
    // 40 x 15,000 = 600,000: no change.
    (Marks(5_639, NZ_LATER, 4_000), Ok(())),
    (Dollars(101, [9_000, -605_000, -605_000]), Ok(())),
    // 32 x 15,000 = 480,000. Futures: -120,000. Puts: 500,000 - 480,000 - 14,000.
    (Expires(5_646, NZ_LATER, 3_200, 3_200), Ok(())),
    (Dollars(101, [-111_000, -605_000, -599_000]), Ok(())),
];

#[test]
fn a_merger(rt: HostRuntime) {
    play_in_all(&rt, &MERGER);
}

#[test]
fn a_share_conversion(rt: HostRuntime) {
    play_in_all(&rt, &CONVERSION);
}

#[test]
fn a_merger_of_funds(rt: HostRuntime) {
    play_in_all(&rt, &FUND_MERGER);
}
