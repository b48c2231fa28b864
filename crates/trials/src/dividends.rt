//! The dividends of the exchange's rehearsal of June 2015, each line from its listing to its expiry.
//! Codes, shares, cash and days are the exchange's (1 June is day 5,630; the 17th, an expiry, is
//! 5,646). The prices are chosen, mostly so that a lot of 2,000 shares is listed at 120,000 dollars,
//! bought at 122,000, and has 100,000 dollars as the price of its strikes.
use crate::script::Label::Level;
use crate::script::Step::{
    Bare, Dollars, Expires, Holds, Lists, Lots, Marks, Micros, Opens, Stands, TakesIn, Terms,
    Trades,
};
use crate::script::{Answer, Does, LOT, Label, NONE, OPTIONS, STAYS, Step, play, play_in_all};
use terms::claim::Claim;
use terms::options::Options;
use terms::units::ONE;

const PAYS_3: Does = Does(2330, 3_000_000, ONE, NONE, STAYS);

const CD: Label = Level(b"CD00", 5_646);

/// Cash alone moves the code of options.
const CD_LATER: Label = Level(b"CD01", 5_646);

static DIVIDEND: [(Step, Answer); 18] = [
    (Opens(5_630, 101), Ok(())),
    (Opens(5_630, 102), Ok(())),
    (Lists(5_630, CD, 2330, LOT, 6_000), Ok(())),
    (Trades(5_630, CD, 101, 102, 6_100, 2), Ok(())),
    (Dollars(101, [-4_000, -244_000, -244_000]), Ok(())),
    // Futures: 2 x 6,000 dollars are booked. Options: 6,000 dollars stay in the lot.
    (TakesIn(5_631, PAYS_3, 1), Ok(())),
    (
        Holds(CD_LATER, 2330, LOT, LOT, 6_000, Claim::Absent),
        Ok(()),
    ),
    (Lots(101, CD_LATER, 2), Ok(())),
    (Lots(102, CD_LATER, -2), Ok(())),
    (Dollars(101, [8_000, -244_000, -244_000]), Ok(())),
    (Dollars(102, [-8_000, 244_000, 244_000]), Ok(())),
    // 2 x (116,000 - 120,000) dollars.
    (Marks(5_639, CD_LATER, 5_800), Ok(())),
    (Dollars(101, [0, -244_000, -244_000]), Ok(())),
    // Futures: 2 x (90,000 - 116,000). Puts: 2 x (100,000 - 90,000 - 6,000).
    (Expires(5_646, CD_LATER, 4_500, 4_510), Ok(())),
    (Dollars(101, [-52_000, -244_000, -236_000]), Ok(())),
    (Dollars(102, [52_000, 244_000, 236_000]), Ok(())),
    (Lots(101, CD_LATER, 0), Err(12)),
    (Bare(0), Ok(())),
];

const STOCK_DIVIDEND: Does = Does(2881, 0, 1_100_000_000, NONE, STAYS);

const CE: Label = Level(b"CE00", 5_646);

const CE_LATER: Label = Level(b"CE11", 5_646);

static SHARES: [(Step, Answer); 20] = [
    (Opens(5_630, 101), Ok(())),
    (Opens(5_630, 102), Ok(())),
    (Lists(5_630, CE, 2881, LOT, 6_000), Ok(())),
    (Trades(5_630, CE, 101, 102, 6_100, 2), Ok(())),
    (TakesIn(5_631, STOCK_DIVIDEND, 1), Ok(())),
    (Terms(CE, 2881, LOT), Err(12)),
    (
        Holds(CE_LATER, 2881, 22_000_000, LOT, 0, Claim::Absent),
        Ok(()),
    ),
    (Lots(101, CE_LATER, 2), Ok(())),
    (Dollars(101, [-4_000, -244_000, -244_000]), Ok(())),
    // The standard code is free, for a line that nobody has lots in.
    (Lists(5_631, CE, 2881, LOT, 5_500), Ok(())),
    (Terms(CE, 2881, LOT), Ok(())),
    (Lots(101, CE, 0), Ok(())),
    (Stands(1, CE), Ok(())),
    // 2 x (55 x 2,200 - 120,000) = 2 x 1,000 dollars.
    (Marks(5_639, CE_LATER, 5_500), Ok(())),
    (Dollars(101, [-2_000, -244_000, -244_000]), Ok(())),
    // 52 x 2,200 = 114,400. Futures: 2 x (114,400 - 121,000). Calls: 2 x 14,400.
    (Expires(5_646, CE_LATER, 5_200, 5_200), Ok(())),
    (Dollars(101, [-15_200, -215_200, -244_000]), Ok(())),
    (Dollars(102, [15_200, 215_200, 244_000]), Ok(())),
    (Bare(0), Ok(())),
    (Stands(1, CE), Ok(())),
];

const BOTH_DIVIDENDS: Does = Does(1301, 1_000_000, 1_050_000_000, NONE, STAYS);

const CF: Label = Level(b"CF00", 5_646);

const CF_LATER: Label = Level(b"CF11", 5_646);

static CASH_AND_SHARES: [(Step, Answer); 13] = [
    (Opens(5_630, 101), Ok(())),
    (Opens(5_630, 102), Ok(())),
    (Lists(5_630, CF, 1301, LOT, 6_000), Ok(())),
    (Trades(5_630, CF, 101, 102, 6_100, 2), Ok(())),
    // The cash is that of 2,000 shares, not of 2,100: 2 x 2,000 dollars.
    (TakesIn(5_631, BOTH_DIVIDENDS, 1), Ok(())),
    (
        Holds(CF_LATER, 1301, 21_000_000, LOT, 2_000, Claim::Absent),
        Ok(()),
    ),
    (Lots(101, CF_LATER, 2), Ok(())),
    (Dollars(101, [0, -244_000, -244_000]), Ok(())),
    // 2 x (56 x 2,100 - 120,000) = 2 x (117,600 - 120,000) dollars.
    (Marks(5_639, CF_LATER, 5_600), Ok(())),
    (Dollars(101, [-4_800, -244_000, -244_000]), Ok(())),
    // 46 x 2,100 = 96,600. Futures: 2 x (96,600 - 117,600). Puts: 2 x (100,000 - 96,600 - 2,000).
    (Expires(5_646, CF_LATER, 4_600, 4_600), Ok(())),
    (Dollars(101, [-46_800, -244_000, -241_200]), Ok(())),
    (Bare(0), Ok(())),
];

/// From 2,000 to 2,073.9967 shares.
const EARLIER_DIVIDEND: Does = Does(2891, 0, 1_036_998_350, NONE, STAYS);

const PAYS_1: Does = Does(2891, 1_000_000, ONE, NONE, STAYS);

const TENTH: Does = Does(2891, 0, 1_100_000_000, NONE, STAYS);

const CN: Label = Level(b"CN00", 5_646);

/// The younger line after the dividend, and after the stock dividend.
const CN_PAID: Label = Level(b"CN01", 5_646);

const CN_GREW: Label = Level(b"CN12", 5_646);

/// The older line as it comes to the rehearsal, and after each of the two.
const OLDER: Label = Level(b"CN11", 5_646);

const OLDER_PAID: Label = Level(b"CN12", 5_646);

const OLDER_GREW: Label = Level(b"CN23", 5_646);

/// At 20.00 and 19.50 a lot of 2,000 shares is worth 40,000 and 39,000 dollars. (The script prints
/// 2,281.3964 shares; dropping the fraction gives 2,281.3963. It has the older line in futures alone.)
static DIVIDEND_THEN_SHARES: [(Step, Answer); 34] = [
    (Opens(5_604, 101), Ok(())),
    (Opens(5_604, 102), Ok(())),
    (Opens(5_604, 103), Ok(())),
    (Lists(5_604, CN, 2891, LOT, 2_000), Ok(())),
    (Trades(5_604, CN, 101, 102, 2_000, 3), Ok(())),
    (TakesIn(5_605, EARLIER_DIVIDEND, 1), Ok(())),
    (
        Holds(OLDER, 2891, 20_739_967, LOT, 0, Claim::Absent),
        Ok(()),
    ),
    (Lists(5_605, CN, 2891, LOT, 1_950), Ok(())),
    (Trades(5_630, CN, 103, 102, 1_950, 2), Ok(())),
    (Dollars(101, [0, -120_000, -120_000]), Ok(())),
    (Dollars(103, [0, -78_000, -78_000]), Ok(())),
    // Futures: 3 x 2,073 and 2 x 2,000 dollars are booked.
    (TakesIn(5_634, PAYS_1, 2), Ok(())),
    (
        Holds(OLDER_PAID, 2891, 20_739_967, LOT, 2_073, Claim::Absent),
        Ok(()),
    ),
    (Holds(CN_PAID, 2891, LOT, LOT, 2_000, Claim::Absent), Ok(())),
    (Dollars(101, [6_219, -120_000, -120_000]), Ok(())),
    (Dollars(103, [4_000, -78_000, -78_000]), Ok(())),
    (Dollars(102, [-10_219, 198_000, 198_000]), Ok(())),
    (TakesIn(5_637, TENTH, 2), Ok(())),
    (
        Holds(OLDER_GREW, 2891, 22_813_963, LOT, 2_073, Claim::Absent),
        Ok(()),
    ),
    (
        Holds(CN_GREW, 2891, 22_000_000, LOT, 2_000, Claim::Absent),
        Ok(()),
    ),
    (Lots(101, OLDER_GREW, 3), Ok(())),
    (Lots(103, OLDER_GREW, 0), Ok(())),
    (Lots(102, OLDER_GREW, -3), Ok(())),
    (Lots(101, CN_GREW, 0), Ok(())),
    (Lots(103, CN_GREW, 2), Ok(())),
    (Lots(102, CN_GREW, -2), Ok(())),
    // 18 x 2,281.3963 = 41,065.1334: 3 x 1,065.1334. 18 x 2,200 = 39,600: 2 x 600.
    (Marks(5_639, OLDER_GREW, 1_800), Ok(())),
    (Marks(5_639, CN_GREW, 1_800), Ok(())),
    (
        Micros(101, [9_414_400_200, -120_000_000_000, -120_000_000_000]),
        Ok(()),
    ),
    (Dollars(103, [5_200, -78_000, -78_000]), Ok(())),
    // 17 x 2,281.3963 = 38,783.7371. Futures: -3 x 2,281.3963. Puts: 3 x (100,000 - 38,783.7371 - 2,073).
    (Expires(5_646, OLDER_GREW, 1_700, 1_700), Ok(())),
    (
        Micros(101, [2_570_211_300, -120_000_000_000, 57_429_788_700]),
        Ok(()),
    ),
    // 17 x 2,200 = 37,400. Futures: -2 x 2,200. Puts: 2 x (100,000 - 37,400 - 2,000).
    (Expires(5_646, CN_GREW, 1_700, 1_700), Ok(())),
    (Dollars(103, [800, -78_000, 43_200]), Ok(())),
];

const CNA: Label = Level(b"CN01", 5_646);

const CNB: Label = Level(b"CN02", 5_646);

/// The options of the script have no older line, but a standard one that is listed at the dividend. A
/// lot costs 2,000 dollars at 1.00.
static IN_OPTIONS: [(Step, Answer); 21] = [
    (Opens(5_630, 101), Ok(())),
    (Opens(5_630, 102), Ok(())),
    (Opens(5_630, 103), Ok(())),
    (Lists(5_630, CN, 2891, LOT, 2_000), Ok(())),
    (Trades(5_630, CN, 101, 102, 100, 2), Ok(())),
    (TakesIn(5_634, PAYS_1, 1), Ok(())),
    (Holds(CNA, 2891, LOT, LOT, 2_000, Claim::Absent), Ok(())),
    (Lists(5_634, CN, 2891, LOT, 2_000), Ok(())),
    (Trades(5_634, CN, 103, 102, 200, 1), Ok(())),
    (TakesIn(5_637, TENTH, 2), Ok(())),
    (Terms(CN, 2891, LOT), Err(12)),
    (Holds(CNA, 2891, 22_000_000, LOT, 0, Claim::Absent), Ok(())),
    (
        Holds(CNB, 2891, 22_000_000, LOT, 2_000, Claim::Absent),
        Ok(()),
    ),
    (Lots(101, CNB, 2), Ok(())),
    (Lots(103, CNA, 1), Ok(())),
    (Lots(102, CNA, -1), Ok(())),
    (Lots(102, CNB, -2), Ok(())),
    // 50 x 2,200 = 110,000. Calls: 2 x 12,000 with the cash in the lot, and 10,000 without.
    (Expires(5_646, CNB, 5_000, 5_000), Ok(())),
    (Expires(5_646, CNA, 5_000, 5_000), Ok(())),
    (Dollars(101, [0, 20_000, -4_000]), Ok(())),
    (Dollars(103, [0, 6_000, -4_000]), Ok(())),
];

/// 10,000 units of a fund.
const FUND_LOT: u32 = 100_000_000;

const DISTRIBUTES: Does = Does(50, 1_350_000, ONE, NONE, STAYS);

const NY: Label = Level(b"NY00", 5_646);

const NY_LATER: Label = Level(b"NY01", 5_646);

/// The strike comes to 500,000 dollars.
static DISTRIBUTION: [(Step, Answer); 12] = [
    (Opens(5_630, 101), Ok(())),
    (Opens(5_630, 102), Ok(())),
    (Lists(5_630, NY, 50, FUND_LOT, 6_000), Ok(())),
    (Trades(5_630, NY, 101, 102, 6_050, 1), Ok(())),
    (Dollars(101, [-5_000, -605_000, -605_000]), Ok(())),
    (TakesIn(5_633, DISTRIBUTES, 1), Ok(())),
    (
        Holds(NY_LATER, 50, FUND_LOT, FUND_LOT, 13_500, Claim::Absent),
        Ok(()),
    ),
    (Dollars(101, [8_500, -605_000, -605_000]), Ok(())),
    // 590,000 - 600,000 dollars.
    (Marks(5_639, NY_LATER, 5_900), Ok(())),
    (Dollars(101, [-1_500, -605_000, -605_000]), Ok(())),
    // Futures: 490,000 - 590,000. Calls: 490,000 + 13,500 - 500,000.
    (Expires(5_646, NY_LATER, 4_900, 4_900), Ok(())),
    (Dollars(101, [-101_500, -601_500, -605_000]), Ok(())),
];

#[test]
fn a_dividend(rt: HostRuntime) {
    play_in_all(&rt, &DIVIDEND);
}

#[test]
fn a_stock_dividend(rt: HostRuntime) {
    play_in_all(&rt, &SHARES);
}

#[test]
fn a_dividend_and_a_stock_dividend_on_one_day(rt: HostRuntime) {
    play_in_all(&rt, &CASH_AND_SHARES);
}

#[test]
fn a_dividend_then_a_stock_dividend(rt: HostRuntime) {
    play_in_all(&rt, &DIVIDEND_THEN_SHARES);
    play::<Options>(&rt, &OPTIONS[0], &IN_OPTIONS);
    play::<Options>(&rt, &OPTIONS[1], &IN_OPTIONS);
}

#[test]
fn a_distribution_of_a_fund(rt: HostRuntime) {
    play_in_all(&rt, &DISTRIBUTION);
}
