//! Claims whose payment deadline comes before, on and after the expiry of their line.
use crate::script::Label::Level;
use crate::script::Step::{
    Bare, Day, Dollars, Expires, Fixes, Holds, Lists, Opens, TakesIn, Terms, Trades,
};
use crate::script::{Answer, Does, LOT, Label, NONE, STAYS, Step, play_in_all};
use terms::claim::Claim;
use terms::units::ONE;

/// The exchange's notice of June 2022: 1.6 dollars and the right to 69.94366435 shares for a thousand,
/// from 21 June (day 8,207), to be paid by 3 August (8,250). The price is the company's; 30.00 is
/// assumed.
const NOTICE: Does = Does(1605, 1_600_000, ONE, (69_943_664, 3_000, 8_250), STAYS);

/// On 139.8873 shares.
const OPEN: Claim = Claim::Open {
    units: 1_398_873,
    price: 3_000,
    deadline: 8_250,
};

/// At 40.00: 10.00 x 139.8873 = 1,398.873.
const FIXED: Claim = Claim::Fixed { dollars: 1_398 };

/// July: it expires before the deadline.
const BEFORE: Label = Level(b"CS00", 8_236);

const BEFORE_LATER: Label = Level(b"CS11", 8_236);

const ON: Label = Level(b"CS00", 8_250);

const ON_LATER: Label = Level(b"CS11", 8_250);

/// August.
const AFTER: Label = Level(b"CS00", 8_264);

const AFTER_LATER: Label = Level(b"CS11", 8_264);

/// Account 101 buys one lot of each at 50.00, which is 100,000 dollars, as much as the strike.
static IN_TIME: [(Step, Answer); 35] = [
    (Opens(8_201, 101), Ok(())),
    (Opens(8_201, 102), Ok(())),
    (Lists(8_201, BEFORE, 1605, LOT, 5_000), Ok(())),
    (Lists(8_201, ON, 1605, LOT, 5_000), Ok(())),
    (Lists(8_201, AFTER, 1605, LOT, 5_000), Ok(())),
    (Trades(8_201, BEFORE, 101, 102, 5_000, 1), Ok(())),
    (Trades(8_201, ON, 101, 102, 5_000, 1), Ok(())),
    (Trades(8_201, AFTER, 101, 102, 5_000, 1), Ok(())),
    (TakesIn(8_207, NOTICE, 3), Ok(())),
    (Holds(BEFORE_LATER, 1605, LOT, LOT, 3_200, OPEN), Ok(())),
    (Holds(ON_LATER, 1605, LOT, LOT, 3_200, OPEN), Ok(())),
    (Holds(AFTER_LATER, 1605, LOT, LOT, 3_200, OPEN), Ok(())),
    // 3 x 3,200 dollars.
    (Dollars(101, [9_600, -300_000, -300_000]), Ok(())),
    // 19.00 x 139.8873 = 2,657.8587. Calls: 103,200 + 2,657 - 100,000.
    (Expires(8_236, BEFORE_LATER, 5_000, 4_900), Ok(())),
    (Dollars(101, [12_257, -294_143, -300_000]), Ok(())),
    (Bare(0), Ok(())),
    // The others are open, and no day makes up for a fixing.
    (Fixes(8_249, 1605, 8_250, 4_000), Err(6)),
    (Expires(8_250, ON_LATER, 4_800, 4_000), Err(25)),
    (Expires(8_264, AFTER_LATER, 4_800, 4_000), Err(25)),
    (Expires(60_000, AFTER_LATER, 4_800, 4_000), Err(25)),
    (Fixes(8_250, 1605, 8_250, 4_000), Ok(())),
    (Holds(ON_LATER, 1605, LOT, LOT, 3_200, FIXED), Ok(())),
    (Holds(AFTER_LATER, 1605, LOT, LOT, 3_200, FIXED), Ok(())),
    (Fixes(8_250, 1605, 8_250, 4_000), Err(24)),
    // Its own dollars, whatever the stock closes at. Futures: 96,000 + 1,398 - 100,000. Calls: 96,000
    // + 3,200 + 1,398 - 100,000.
    (Expires(8_250, ON_LATER, 4_800, 1_000_000), Ok(())),
    (Dollars(101, [9_655, -293_545, -300_000]), Ok(())),
    (Expires(8_263, AFTER_LATER, 4_000, 1), Err(19)),
    // Futures: 80,000 + 1,398 - 100,000. Puts: 100,000 - 80,000 - 3,200 - 1,398.
    (Expires(8_264, AFTER_LATER, 4_000, 1), Ok(())),
    (Dollars(101, [-8_947, -293_545, -284_598]), Ok(())),
    (Dollars(102, [8_947, 293_545, 284_598]), Ok(())),
    (Bare(1), Ok(())),
    (Bare(2), Ok(())),
    (Terms(AFTER, 1605, LOT), Err(12)),
    (Fixes(8_264, 1605, 8_250, 4_000), Err(24)),
    (Day(8_264), Ok(())),
];

/// Calls that come late: the fixing on 10 August, July's expiry after it. The lines that expire before
/// the deadline keep their open claims, the others get their dollars though one has expired too.
static LATE: [(Step, Answer); 19] = [
    (Opens(8_201, 101), Ok(())),
    (Opens(8_201, 102), Ok(())),
    (Lists(8_201, BEFORE, 1605, LOT, 5_000), Ok(())),
    (Lists(8_201, ON, 1605, LOT, 5_000), Ok(())),
    (Lists(8_201, AFTER, 1605, LOT, 5_000), Ok(())),
    (Trades(8_201, BEFORE, 101, 102, 5_000, 1), Ok(())),
    (Trades(8_201, ON, 102, 101, 5_000, 1), Ok(())),
    (TakesIn(8_207, NOTICE, 3), Ok(())),
    (Dollars(101, [0, 0, 0]), Ok(())),
    (Fixes(8_257, 1605, 8_250, 2_900), Ok(())),
    (Holds(BEFORE_LATER, 1605, LOT, LOT, 3_200, OPEN), Ok(())),
    // Below the subscription price: fixed, at nothing.
    (
        Holds(ON_LATER, 1605, LOT, LOT, 3_200, Claim::Fixed { dollars: 0 }),
        Ok(()),
    ),
    (
        Holds(
            AFTER_LATER,
            1605,
            LOT,
            LOT,
            3_200,
            Claim::Fixed { dollars: 0 },
        ),
        Ok(()),
    ),
    (Fixes(8_257, 1605, 8_250, 4_000), Err(24)),
    // July's own close: 10.00 x 139.8873 = 1,398. Calls: 3,200 + 1,398.
    (Expires(8_257, BEFORE_LATER, 5_000, 4_000), Ok(())),
    (Dollars(101, [1_398, 4_598, 0]), Ok(())),
    // Sold: calls 3,200, futures nothing.
    (Expires(8_258, ON_LATER, 5_000, 4_000), Ok(())),
    (Dollars(101, [1_398, 1_398, 0]), Ok(())),
    (Day(8_258), Ok(())),
];

/// At a price and by a day of their own.
const SECOND: Does = Does(1605, 0, ONE, (100_000_000, 2_000, 8_280), STAYS);

const OTHER_STOCK: Does = Does(2002, 0, ONE, (100_000_000, 2_000, 8_250), STAYS);

const YOUNGER: Label = Level(b"CS00", 8_299);

const YOUNGER_LATER: Label = Level(b"CS11", 8_299);

const OTHER: Label = Level(b"CB00", 8_264);

const OTHER_LATER: Label = Level(b"CB22", 8_264);

/// On 200 shares at 20.00.
const OPEN_SECOND: Claim = Claim::Open {
    units: 2_000_000,
    price: 2_000,
    deadline: 8_280,
};

const OPEN_OTHER: Claim = Claim::Open {
    units: 2_000_000,
    price: 2_000,
    deadline: 8_250,
};

/// August waits for the first payment, September for the second, which is announced on the day that
/// August expires. Another company's is due on the day of the first.
static TWO_PAYMENTS: [(Step, Answer); 17] = [
    (Lists(8_201, AFTER, 1605, LOT, 5_000), Ok(())),
    (Lists(8_201, OTHER, 2002, LOT, 5_000), Ok(())),
    (TakesIn(8_207, NOTICE, 1), Ok(())),
    (TakesIn(8_207, OTHER_STOCK, 1), Ok(())),
    // An event without rights leaves the claim.
    (
        TakesIn(8_208, Does(2002, 0, 1_000_000_001, NONE, STAYS), 1),
        Ok(()),
    ),
    (Lists(8_210, YOUNGER, 1605, LOT, 5_000), Ok(())),
    (TakesIn(8_264, SECOND, 1), Ok(())),
    (Holds(YOUNGER_LATER, 1605, LOT, LOT, 0, OPEN_SECOND), Ok(())),
    (Fixes(8_264, 1605, 8_251, 4_000), Err(24)),
    (Fixes(8_264, 1605, 8_250, 4_000), Ok(())),
    (Holds(AFTER_LATER, 1605, LOT, LOT, 3_200, FIXED), Ok(())),
    (Holds(YOUNGER_LATER, 1605, LOT, LOT, 0, OPEN_SECOND), Ok(())),
    (Holds(OTHER_LATER, 2002, LOT, LOT, 0, OPEN_OTHER), Ok(())),
    (Fixes(8_280, 1605, 8_280, 2_100), Ok(())),
    // 1.00 x 200.
    (
        Holds(
            YOUNGER_LATER,
            1605,
            LOT,
            LOT,
            0,
            Claim::Fixed { dollars: 200 },
        ),
        Ok(()),
    ),
    (Holds(AFTER_LATER, 1605, LOT, LOT, 3_200, FIXED), Ok(())),
    (Holds(OTHER_LATER, 2002, LOT, LOT, 0, OPEN_OTHER), Ok(())),
];

/// The exchange's description of option adjustments: 200 shares for 1,000, and rights to a tenth at 50.00. The claim is on
/// 100 shares, a tenth of the old ones.
const SHARES_AND_RIGHTS: Does = Does(12, 0, 1_200_000_000, (100_000_000, 5_000, 150), STAYS);

const THOUSAND: u32 = 10_000_000;

const FIRST: Label = Level(b"AB00", 140);

const FIRST_LATER: Label = Level(b"AB11", 140);

const NEXT: Label = Level(b"AB00", 160);

const NEXT_LATER: Label = Level(b"AB11", 160);

const ON_100: Claim = Claim::Open {
    units: 1_000_000,
    price: 5_000,
    deadline: 150,
};

/// At 72.00 before and 60.00 after, a lot is worth 72,000 dollars. The strike comes to 50,000.
static SHARES_TOO: [(Step, Answer); 18] = [
    (Opens(90, 101), Ok(())),
    (Opens(90, 102), Ok(())),
    (Lists(90, FIRST, 12, THOUSAND, 7_200), Ok(())),
    (Lists(90, NEXT, 12, THOUSAND, 7_200), Ok(())),
    (Trades(90, FIRST, 101, 102, 7_200, 1), Ok(())),
    (Trades(90, NEXT, 101, 102, 7_200, 1), Ok(())),
    (TakesIn(91, SHARES_AND_RIGHTS, 2), Ok(())),
    (
        Holds(FIRST_LATER, 12, 12_000_000, THOUSAND, 0, ON_100),
        Ok(()),
    ),
    (Lists(91, NEXT, 12, THOUSAND, 6_000), Ok(())),
    (Terms(NEXT, 12, THOUSAND), Ok(())),
    (Dollars(101, [0, -144_000, -144_000]), Ok(())),
    // 63 x 1,200 and 1,300 dollars: 76,900. Futures: less 72,000. Calls: less 50,000.
    (Expires(140, FIRST_LATER, 6_300, 6_300), Ok(())),
    (Dollars(101, [4_900, -117_100, -144_000]), Ok(())),
    // The other waits for 65.00 on the deadline: 1,500 dollars.
    (Fixes(150, 12, 150, 6_500), Ok(())),
    (
        Holds(
            NEXT_LATER,
            12,
            12_000_000,
            THOUSAND,
            0,
            Claim::Fixed { dollars: 1_500 },
        ),
        Ok(()),
    ),
    // 30 x 1,200 and 1,500 dollars: 37,500. Futures: less 72,000. Puts: 50,000 less that.
    (Expires(160, NEXT_LATER, 3_000, 6_600), Ok(())),
    (Dollars(101, [-29_600, -117_100, -131_500]), Ok(())),
    (Dollars(102, [29_600, 117_100, 131_500]), Ok(())),
];

#[test]
fn claims_before_on_and_after_the_deadline(rt: HostRuntime) {
    play_in_all(&rt, &IN_TIME);
}

#[test]
fn late_fixings_and_late_expiries(rt: HostRuntime) {
    play_in_all(&rt, &LATE);
}

#[test]
fn a_fixing_keeps_to_its_stock_and_deadline(rt: HostRuntime) {
    play_in_all(&rt, &TWO_PAYMENTS);
}

#[test]
fn rights_beside_a_stock_dividend(rt: HostRuntime) {
    play_in_all(&rt, &SHARES_TOO);
}
