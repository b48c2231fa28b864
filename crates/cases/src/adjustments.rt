//! Events and the lines that they meet.
use crate::answers::code_of;
use std::process::Abort;
use terms::adjust::Adjusted;
use terms::claim::Claim;
use terms::code::{Name, Prefix, Series};
use terms::event::{Event, Rights, Successor};
use terms::family::Family;
use terms::futures::Futures;
use terms::options::Options;
use terms::refusal::Refusal;
use terms::right::Right;
use terms::terms::Terms;
use terms::units::ONE;

/// The day of every event.
const TODAY: u16 = 8_000;

/// The stock of every line.
const STOCK: u32 = 1605;

/// 2,000 shares.
const LOT: u32 = 20_000_000;

/// The family of a line: a value, since one table has lines of both.
// As the program's; neither crate rests on the other.
#[derive(Clone, Copy)]
enum Book {
    Futures,
    Options,
}

/// A line: its code, the share units of a lot, the dollars in it, and its claim.
#[derive(Clone, Copy)]
struct Line(Book, &'static [u8; 3], u32, u32, Claim);

/// Cash per share in millionths, new shares for one in billionths, rights, and a new stock.
#[derive(Clone, Copy)]
struct Pays(u32, u64, Rights, Successor);

/// What the line becomes: its code, share units, dollars in the lot, dollars booked, and the units of
/// an open claim.
#[derive(Clone, Copy)]
struct Becomes(&'static [u8; 3], u32, u32, u32, u32);

/// A line, what its stock pays, and what must come of it, or the number of the refusal.
#[derive(Clone, Copy)]
struct Case(Line, Pays, Result<Becomes, u8>);

const ABSENT: Claim = Claim::Absent;

const OPEN: Claim = Claim::Open {
    units: 0,
    price: 1,
    deadline: 8_000,
};

const FIXED: Claim = Claim::Fixed { dollars: 0 };

// A short name, here and for STAYS, so that each row of the table stays a line.
const NONE: Rights = Rights::NONE;

/// The rehearsal's rights: to 0.1 shares at 20.00.
const REHEARSED: Rights = Rights {
    rate: 100_000_000,
    price: 2_000,
    deadline: 8_006,
};

/// The notice's: to 69.94366435 shares for a thousand. (It leaves the subscription price to the company;
/// 30.00 is assumed.)
const NOTICED: Rights = Rights {
    rate: 69_943_664,
    price: 3_000,
    deadline: 8_250,
};

const STAYS: Successor = Successor::NONE;

// Field by field, since a constant calls no function.
const INTO_CV: Successor = Successor {
    stock: 2325,
    prefix: Prefix {
        first: b'C',
        second: b'V',
    },
};

const INTO_DO: Successor = Successor {
    stock: 2885,
    prefix: Prefix {
        first: b'D',
        second: b'O',
    },
};

const INTO_LO: Successor = Successor {
    stock: 5880,
    prefix: Prefix {
        first: b'L',
        second: b'O',
    },
};

const INTO_OK: Successor = Successor {
    stock: 2838,
    prefix: Prefix {
        first: b'O',
        second: b'K',
    },
};

const INTO_NZ: Successor = Successor {
    stock: 61,
    prefix: Prefix {
        first: b'N',
        second: b'Z',
    },
};

const INTO_AD: Successor = Successor {
    stock: 7,
    prefix: Prefix {
        first: b'A',
        second: b'D',
    },
};

use Book::{Futures as F, Options as O};

/// What the exchange has published: its slides on adjustments, its notice of June 2022, the script
/// of its rehearsal, and its description of option adjustments, which has lots of 1,000 shares.
const PUBLISHED: [Case; 40] = [
    // Slides and rehearsal: a dividend of 3 dollars.
    Case(
        Line(F, b"CDF", LOT, 0, ABSENT),
        Pays(3_000_000, ONE, NONE, STAYS),
        Ok(Becomes(b"CDF", LOT, 0, 6_000, 0)),
    ),
    Case(
        Line(O, b"CDO", LOT, 0, ABSENT),
        Pays(3_000_000, ONE, NONE, STAYS),
        Ok(Becomes(b"CDA", LOT, 6_000, 0, 0)),
    ),
    // Slides: a stock dividend of 0.05. Rehearsal: one of 0.1.
    Case(
        Line(F, b"CNF", LOT, 0, ABSENT),
        Pays(0, 1_050_000_000, NONE, STAYS),
        Ok(Becomes(b"CN1", 21_000_000, 0, 0, 0)),
    ),
    Case(
        Line(F, b"CEF", LOT, 0, ABSENT),
        Pays(0, 1_100_000_000, NONE, STAYS),
        Ok(Becomes(b"CE1", 22_000_000, 0, 0, 0)),
    ),
    Case(
        Line(O, b"CEO", LOT, 0, ABSENT),
        Pays(0, 1_100_000_000, NONE, STAYS),
        Ok(Becomes(b"CEA", 22_000_000, 0, 0, 0)),
    ),
    // Rehearsal: a dividend of 1 dollar and a stock dividend of 0.05 on one day.
    Case(
        Line(F, b"CFF", LOT, 0, ABSENT),
        Pays(1_000_000, 1_050_000_000, NONE, STAYS),
        Ok(Becomes(b"CF1", 21_000_000, 0, 2_000, 0)),
    ),
    Case(
        Line(O, b"CFO", LOT, 0, ABSENT),
        Pays(1_000_000, 1_050_000_000, NONE, STAYS),
        Ok(Becomes(b"CFA", 21_000_000, 2_000, 0, 0)),
    ),
    // Slides: rights to 100 shares for 2,000 at 16.30. Rehearsal: its rights.
    Case(
        Line(F, b"CNF", LOT, 0, ABSENT),
        Pays(
            0,
            ONE,
            Rights {
                rate: 50_000_000,
                price: 1_630,
                deadline: 8_053,
            },
            STAYS,
        ),
        Ok(Becomes(b"CN1", LOT, 0, 0, 1_000_000)),
    ),
    Case(
        Line(F, b"CGF", LOT, 0, ABSENT),
        Pays(0, ONE, REHEARSED, STAYS),
        Ok(Becomes(b"CG1", LOT, 0, 0, 2_000_000)),
    ),
    Case(
        Line(O, b"CGO", LOT, 0, ABSENT),
        Pays(0, ONE, REHEARSED, STAYS),
        Ok(Becomes(b"CGA", LOT, 0, 0, 2_000_000)),
    ),
    // The notice: rights, and 1.6 dollars.
    Case(
        Line(F, b"CSF", LOT, 0, ABSENT),
        Pays(1_600_000, ONE, NOTICED, STAYS),
        Ok(Becomes(b"CS1", LOT, 0, 3_200, 1_398_873)),
    ),
    Case(
        Line(O, b"CSO", LOT, 0, ABSENT),
        Pays(1_600_000, ONE, NOTICED, STAYS),
        Ok(Becomes(b"CSA", LOT, 3_200, 0, 1_398_873)),
    ),
    // Slides: 2 dollars are paid back and 0.8 shares are left. Rehearsal: 1 dollar and 0.9.
    Case(
        Line(F, b"DLF", LOT, 0, ABSENT),
        Pays(2_000_000, 800_000_000, NONE, STAYS),
        Ok(Becomes(b"DL1", 16_000_000, 0, 4_000, 0)),
    ),
    Case(
        Line(F, b"DLF", LOT, 0, ABSENT),
        Pays(1_000_000, 900_000_000, NONE, STAYS),
        Ok(Becomes(b"DL1", 18_000_000, 0, 2_000, 0)),
    ),
    Case(
        Line(O, b"DLO", LOT, 0, ABSENT),
        Pays(1_000_000, 900_000_000, NONE, STAYS),
        Ok(Becomes(b"DLA", 18_000_000, 2_000, 0, 0)),
    ),
    // Slides and rehearsal: losses reduce capital to 0.9. (The script prints CHI where the code is
    // CH1: the letters of futures are F and 1 to 9.)
    Case(
        Line(F, b"CMF", LOT, 0, ABSENT),
        Pays(0, 900_000_000, NONE, STAYS),
        Ok(Becomes(b"CM1", 18_000_000, 0, 0, 0)),
    ),
    Case(
        Line(F, b"CHF", LOT, 0, ABSENT),
        Pays(0, 900_000_000, NONE, STAYS),
        Ok(Becomes(b"CH1", 18_000_000, 0, 0, 0)),
    ),
    Case(
        Line(O, b"CHO", LOT, 0, ABSENT),
        Pays(0, 900_000_000, NONE, STAYS),
        Ok(Becomes(b"CHA", 18_000_000, 0, 0, 0)),
    ),
    // Rehearsal: a merger at 0.8 shares and 2 dollars.
    Case(
        Line(F, b"CTF", LOT, 0, ABSENT),
        Pays(2_000_000, 800_000_000, NONE, INTO_CV),
        Ok(Becomes(b"CV1", 16_000_000, 0, 4_000, 0)),
    ),
    Case(
        Line(O, b"CTO", LOT, 0, ABSENT),
        Pays(2_000_000, 800_000_000, NONE, INTO_CV),
        Ok(Becomes(b"CVA", 16_000_000, 4_000, 0, 0)),
    ),
    // Slides: conversions into shares of a listed company, with cash, and of a new one.
    Case(
        Line(F, b"DMF", LOT, 0, ABSENT),
        Pays(11_550_000, 550_000_000, NONE, INTO_DO),
        Ok(Becomes(b"DO1", 11_000_000, 0, 23_100, 0)),
    ),
    Case(
        Line(F, b"DRF", LOT, 0, ABSENT),
        Pays(0, ONE, NONE, INTO_LO),
        Ok(Becomes(b"LO1", LOT, 0, 0, 0)),
    ),
    // Rehearsal: a conversion at 1.65.
    Case(
        Line(F, b"DCF", LOT, 0, ABSENT),
        Pays(0, 1_650_000_000, NONE, INTO_OK),
        Ok(Becomes(b"OK1", 33_000_000, 0, 0, 0)),
    ),
    Case(
        Line(O, b"DCO", LOT, 0, ABSENT),
        Pays(0, 1_650_000_000, NONE, INTO_OK),
        Ok(Becomes(b"OKA", 33_000_000, 0, 0, 0)),
    ),
    // Rehearsal: a dividend, and three days later a stock dividend, with an older generation about.
    // (The script prints 2,281.3964 shares; dropping the fraction gives 2,281.3963.)
    Case(
        Line(F, b"CNF", LOT, 0, ABSENT),
        Pays(1_000_000, ONE, NONE, STAYS),
        Ok(Becomes(b"CNF", LOT, 0, 2_000, 0)),
    ),
    Case(
        Line(F, b"CN1", 20_739_967, 0, ABSENT),
        Pays(1_000_000, ONE, NONE, STAYS),
        Ok(Becomes(b"CN1", 20_739_967, 0, 2_073, 0)),
    ),
    Case(
        Line(O, b"CNO", LOT, 0, ABSENT),
        Pays(1_000_000, ONE, NONE, STAYS),
        Ok(Becomes(b"CNA", LOT, 2_000, 0, 0)),
    ),
    Case(
        Line(F, b"CNF", LOT, 0, ABSENT),
        Pays(0, 1_100_000_000, NONE, STAYS),
        Ok(Becomes(b"CN1", 22_000_000, 0, 0, 0)),
    ),
    Case(
        Line(F, b"CN1", 20_739_967, 0, ABSENT),
        Pays(0, 1_100_000_000, NONE, STAYS),
        Ok(Becomes(b"CN2", 22_813_963, 0, 0, 0)),
    ),
    Case(
        Line(O, b"CNO", LOT, 0, ABSENT),
        Pays(0, 1_100_000_000, NONE, STAYS),
        Ok(Becomes(b"CNA", 22_000_000, 0, 0, 0)),
    ),
    Case(
        Line(O, b"CNA", LOT, 2_000, ABSENT),
        Pays(0, 1_100_000_000, NONE, STAYS),
        Ok(Becomes(b"CNB", 22_000_000, 2_000, 0, 0)),
    ),
    // Rehearsal, funds of 10,000 units: a distribution of 1.35, a merger at 1.5 units and 1.4 dollars.
    Case(
        Line(F, b"NYF", 100_000_000, 0, ABSENT),
        Pays(1_350_000, ONE, NONE, STAYS),
        Ok(Becomes(b"NYF", 100_000_000, 0, 13_500, 0)),
    ),
    Case(
        Line(O, b"NYO", 100_000_000, 0, ABSENT),
        Pays(1_350_000, ONE, NONE, STAYS),
        Ok(Becomes(b"NYA", 100_000_000, 13_500, 0, 0)),
    ),
    Case(
        Line(F, b"OAF", 100_000_000, 0, ABSENT),
        Pays(1_400_000, 1_500_000_000, NONE, INTO_NZ),
        Ok(Becomes(b"NZ1", 150_000_000, 0, 14_000, 0)),
    ),
    Case(
        Line(O, b"OAO", 100_000_000, 0, ABSENT),
        Pays(1_400_000, 1_500_000_000, NONE, INTO_NZ),
        Ok(Becomes(b"NZA", 150_000_000, 14_000, 0, 0)),
    ),
    // Description: 200 shares and 3,000 dollars for a thousand; 200 shares and rights to 10 % at
    // 50.00; a merger at 0.4; capital halved, with 500 dollars for a thousand.
    Case(
        Line(O, b"AAO", 10_000_000, 0, ABSENT),
        Pays(3_000_000, 1_200_000_000, NONE, STAYS),
        Ok(Becomes(b"AAA", 12_000_000, 3_000, 0, 0)),
    ),
    Case(
        Line(O, b"ABO", 10_000_000, 0, ABSENT),
        Pays(
            0,
            1_200_000_000,
            Rights {
                rate: 100_000_000,
                price: 5_000,
                deadline: 8_100,
            },
            STAYS,
        ),
        Ok(Becomes(b"ABA", 12_000_000, 0, 0, 1_000_000)),
    ),
    Case(
        Line(O, b"ACO", 10_000_000, 0, ABSENT),
        Pays(0, 400_000_000, NONE, INTO_AD),
        Ok(Becomes(b"ADA", 4_000_000, 0, 0, 0)),
    ),
    Case(
        Line(O, b"AEO", 10_000_000, 0, ABSENT),
        Pays(500_000, 500_000_000, NONE, STAYS),
        Ok(Becomes(b"AEA", 5_000_000, 500, 0, 0)),
    ),
    // Description, second listing example: 200 shares for a thousand and 1 dollar a share. (The paper
    // prints 100 dollars; 1 dollar on 1,000 shares is 1,000.)
    Case(
        Line(O, b"AAO", 10_000_000, 0, ABSENT),
        Pays(1_000_000, 1_200_000_000, NONE, STAYS),
        Ok(Becomes(b"AAA", 12_000_000, 1_000, 0, 0)),
    ),
];

const DUE: Rights = Rights {
    rate: 1,
    price: 1,
    deadline: TODAY,
};

const LATE: Rights = Rights {
    rate: 1,
    price: 1,
    deadline: 7_999,
};

const OWN: Successor = Successor {
    stock: STOCK,
    prefix: Prefix {
        first: b'D',
        second: b'O',
    },
};

// Half given, here and below, as a call may give it: the refusal of it is what is tested.
const NO_PREFIX: Successor = Successor {
    stock: 2,
    prefix: Prefix::NONE,
};

const NO_STOCK: Successor = Successor {
    stock: 0,
    prefix: Prefix {
        first: b'D',
        second: b'O',
    },
};

const SMALL: Successor = Successor {
    stock: 0,
    prefix: Prefix {
        first: b'd',
        second: b'O',
    },
};

const HALF: Successor = Successor {
    stock: 2,
    prefix: Prefix {
        first: b'D',
        second: 0,
    },
};

const LAST: Successor = Successor {
    stock: 4_294_967_295,
    prefix: Prefix {
        first: b'A',
        second: b'Z',
    },
};

/// The edges of every limit, each refusal alone, and refusals that compete.
const JUDGED: [Case; 52] = [
    // 1: a prefix that is given is malformed, whether or not a stock stands beside it.
    Case(
        Line(F, b"CNF", LOT, 0, ABSENT),
        Pays(1, ONE, NONE, SMALL),
        Err(1),
    ),
    Case(
        Line(F, b"CNF", LOT, 0, ABSENT),
        Pays(1, ONE, NONE, HALF),
        Err(1),
    ),
    Case(
        Line(F, b"CNF", LOT, 0, ABSENT),
        Pays(500_000_001, 0, LATE, SMALL),
        Err(1),
    ),
    Case(
        Line(F, b"CNF", LOT, 0, ABSENT),
        Pays(10_000, ONE, NONE, LAST),
        Ok(Becomes(b"AZ1", LOT, 0, 20, 0)),
    ),
    // 2: the numbers of an event.
    Case(
        Line(F, b"CNF", LOT, 0, ABSENT),
        Pays(500_000_000, ONE, NONE, STAYS),
        Ok(Becomes(b"CNF", LOT, 0, 1_000_000, 0)),
    ),
    Case(
        Line(F, b"CNF", LOT, 0, ABSENT),
        Pays(500_000_001, ONE, NONE, STAYS),
        Err(2),
    ),
    Case(
        Line(F, b"CNF", LOT, 0, ABSENT),
        Pays(0, 0, NONE, STAYS),
        Err(2),
    ),
    Case(
        Line(F, b"CNF", LOT, 0, ABSENT),
        Pays(0, 10_000_000_000, NONE, STAYS),
        Ok(Becomes(b"CN1", 200_000_000, 0, 0, 0)),
    ),
    Case(
        Line(F, b"CNF", LOT, 0, ABSENT),
        Pays(0, 10_000_000_001, NONE, STAYS),
        Err(2),
    ),
    Case(
        Line(F, b"CNF", LOT, 0, ABSENT),
        Pays(
            0,
            ONE,
            Rights {
                rate: 1_000_000_000,
                price: 1,
                deadline: TODAY,
            },
            STAYS,
        ),
        Ok(Becomes(b"CN1", LOT, 0, 0, LOT)),
    ),
    Case(
        Line(F, b"CNF", LOT, 0, ABSENT),
        Pays(
            0,
            ONE,
            Rights {
                rate: 1_000_000_001,
                price: 1,
                deadline: TODAY,
            },
            STAYS,
        ),
        Err(2),
    ),
    Case(
        Line(F, b"CNF", LOT, 0, ABSENT),
        Pays(
            0,
            ONE,
            Rights {
                rate: 100,
                price: 1_000_000,
                deadline: TODAY,
            },
            STAYS,
        ),
        Ok(Becomes(b"CN1", LOT, 0, 0, 2)),
    ),
    Case(
        Line(F, b"CNF", LOT, 0, ABSENT),
        Pays(
            0,
            ONE,
            Rights {
                rate: 1,
                price: 1_000_001,
                deadline: TODAY,
            },
            STAYS,
        ),
        Err(2),
    ),
    Case(
        Line(F, b"CNF", LOT, 0, ABSENT),
        Pays(
            0,
            ONE,
            Rights {
                rate: 100,
                price: 1,
                deadline: 60_000,
            },
            STAYS,
        ),
        Ok(Becomes(b"CN1", LOT, 0, 0, 2)),
    ),
    Case(
        Line(F, b"CNF", LOT, 0, ABSENT),
        Pays(
            0,
            ONE,
            Rights {
                rate: 1,
                price: 1,
                deadline: 60_001,
            },
            STAYS,
        ),
        Err(2),
    ),
    // 2: the numbers of a line.
    Case(
        Line(F, b"CNF", 0, 0, ABSENT),
        Pays(1, ONE, NONE, STAYS),
        Err(2),
    ),
    Case(
        Line(F, b"CNF", 400_000_000, 0, ABSENT),
        Pays(500_000_000, ONE, NONE, STAYS),
        Ok(Becomes(b"CNF", 400_000_000, 0, 20_000_000, 0)),
    ),
    Case(
        Line(F, b"CNF", 400_000_001, 0, ABSENT),
        Pays(1, ONE, NONE, STAYS),
        Err(2),
    ),
    Case(
        Line(F, b"CNF", LOT, 100_000_000, ABSENT),
        Pays(1_000_000, ONE, NONE, STAYS),
        Ok(Becomes(b"CNF", LOT, 100_000_000, 2_000, 0)),
    ),
    Case(
        Line(F, b"CNF", LOT, 100_000_001, ABSENT),
        Pays(1, ONE, NONE, STAYS),
        Err(2),
    ),
    Case(
        Line(
            F,
            b"CNF",
            LOT,
            0,
            Claim::Fixed {
                dollars: 400_000_000,
            },
        ),
        Pays(1, ONE, NONE, STAYS),
        Ok(Becomes(b"CNF", LOT, 0, 0, 0)),
    ),
    Case(
        Line(
            F,
            b"CNF",
            LOT,
            0,
            Claim::Fixed {
                dollars: 400_000_001,
            },
        ),
        Pays(1, ONE, NONE, STAYS),
        Err(2),
    ),
    Case(
        Line(
            F,
            b"CNF",
            LOT,
            0,
            Claim::Open {
                units: 400_000_000,
                price: 1,
                deadline: 60_000,
            },
        ),
        Pays(1, ONE, NONE, STAYS),
        Ok(Becomes(b"CNF", LOT, 0, 0, 400_000_000)),
    ),
    Case(
        Line(
            F,
            b"CNF",
            LOT,
            0,
            Claim::Open {
                units: 400_000_001,
                price: 1,
                deadline: 1,
            },
        ),
        Pays(1, ONE, NONE, STAYS),
        Err(2),
    ),
    // 4: no effect, a group in part, the own stock as the new one.
    Case(
        Line(F, b"CNF", LOT, 0, ABSENT),
        Pays(0, ONE, NONE, STAYS),
        Err(4),
    ),
    Case(
        Line(F, b"CNF", LOT, 0, ABSENT),
        Pays(
            1,
            ONE,
            Rights {
                rate: 0,
                price: 1,
                deadline: TODAY,
            },
            STAYS,
        ),
        Err(4),
    ),
    Case(
        Line(F, b"CNF", LOT, 0, ABSENT),
        Pays(
            1,
            ONE,
            Rights {
                rate: 1,
                price: 0,
                deadline: TODAY,
            },
            STAYS,
        ),
        Err(4),
    ),
    Case(
        Line(F, b"CNF", LOT, 0, ABSENT),
        Pays(
            1,
            ONE,
            Rights {
                rate: 1,
                price: 1,
                deadline: 0,
            },
            STAYS,
        ),
        Err(4),
    ),
    Case(
        Line(F, b"CNF", LOT, 0, ABSENT),
        Pays(1, ONE, NONE, NO_PREFIX),
        Err(4),
    ),
    Case(
        Line(F, b"CNF", LOT, 0, ABSENT),
        Pays(1, ONE, NONE, NO_STOCK),
        Err(4),
    ),
    Case(
        Line(F, b"CNF", LOT, 0, ABSENT),
        Pays(1, ONE, NONE, OWN),
        Err(4),
    ),
    // 6: a deadline before the day; 4 comes first.
    Case(
        Line(F, b"CNF", LOT, 0, ABSENT),
        Pays(0, ONE, DUE, STAYS),
        Ok(Becomes(b"CN1", LOT, 0, 0, 0)),
    ),
    Case(
        Line(F, b"CNF", LOT, 0, ABSENT),
        Pays(0, ONE, LATE, STAYS),
        Err(6),
    ),
    Case(
        Line(F, b"CNF", LOT, 0, ABSENT),
        Pays(
            0,
            ONE,
            Rights {
                rate: 0,
                price: 1,
                deadline: 7_999,
            },
            STAYS,
        ),
        Err(4),
    ),
    // 21: level 9 has no letter after it; cash alone does not move the code of futures.
    Case(
        Line(F, b"CN8", LOT, 0, ABSENT),
        Pays(0, 2_000_000_000, NONE, STAYS),
        Ok(Becomes(b"CN9", 40_000_000, 0, 0, 0)),
    ),
    Case(
        Line(F, b"CN9", LOT, 0, ABSENT),
        Pays(0, 2_000_000_000, NONE, STAYS),
        Err(21),
    ),
    Case(
        Line(F, b"CN9", LOT, 0, ABSENT),
        Pays(1_000_000, ONE, NONE, STAYS),
        Ok(Becomes(b"CN9", LOT, 0, 2_000, 0)),
    ),
    Case(
        Line(O, b"CNI", LOT, 0, ABSENT),
        Pays(1_000_000, ONE, NONE, STAYS),
        Err(21),
    ),
    // 22: no units, more than the largest lot, too much cash.
    Case(
        Line(F, b"CNF", 200_000_000, 0, ABSENT),
        Pays(0, 2_000_000_000, NONE, STAYS),
        Ok(Becomes(b"CN1", 400_000_000, 0, 0, 0)),
    ),
    Case(
        Line(F, b"CNF", 200_000_001, 0, ABSENT),
        Pays(0, 2_000_000_000, NONE, STAYS),
        Err(22),
    ),
    Case(
        Line(O, b"CNO", 100_000_000, 0, ABSENT),
        Pays(0, 2_000_000_000, NONE, STAYS),
        Ok(Becomes(b"CNA", 200_000_000, 0, 0, 0)),
    ),
    Case(
        Line(O, b"CNO", 100_000_001, 0, ABSENT),
        Pays(0, 2_000_000_000, NONE, STAYS),
        Err(22),
    ),
    Case(
        Line(F, b"CNF", 1, 0, ABSENT),
        Pays(0, 999_999_999, NONE, STAYS),
        Err(22),
    ),
    Case(
        Line(O, b"CNO", LOT, 99_998_000, ABSENT),
        Pays(1_000_000, ONE, NONE, STAYS),
        Ok(Becomes(b"CNA", LOT, 100_000_000, 0, 0)),
    ),
    Case(
        Line(O, b"CNO", LOT, 99_998_001, ABSENT),
        Pays(1_000_000, ONE, NONE, STAYS),
        Err(22),
    ),
    // 23: rights meet an open or fixed claim, a new stock an open one.
    Case(
        Line(F, b"CNF", LOT, 0, OPEN),
        Pays(0, ONE, DUE, STAYS),
        Err(23),
    ),
    Case(
        Line(F, b"CNF", LOT, 0, FIXED),
        Pays(0, ONE, DUE, STAYS),
        Err(23),
    ),
    Case(
        Line(F, b"CNF", LOT, 0, OPEN),
        Pays(0, ONE, NONE, INTO_DO),
        Err(23),
    ),
    Case(
        Line(F, b"CNF", LOT, 0, FIXED),
        Pays(0, ONE, NONE, INTO_DO),
        Ok(Becomes(b"DO1", LOT, 0, 0, 0)),
    ),
    // Too many levels, too large a lot and a claim in the way: the smallest number.
    Case(
        Line(F, b"CN9", 300_000_000, 0, FIXED),
        Pays(0, 2_000_000_000, DUE, STAYS),
        Err(21),
    ),
    Case(
        Line(F, b"CN8", 300_000_000, 0, FIXED),
        Pays(0, 2_000_000_000, DUE, STAYS),
        Err(22),
    ),
    Case(
        Line(F, b"CN8", 3, 0, FIXED),
        Pays(0, 2_000_000_000, DUE, STAYS),
        Err(23),
    ),
];

impl Case {
    fn check(&self, rt: &impl Abort) {
        let Case(Line(book, ..), ..) = *self;
        match book {
            Book::Futures => self.check_in::<Futures>(rt, Right::Without, 0),
            Book::Options => self.check_in::<Options>(rt, Right::Call, 5_000),
        }
    }

    fn check_in<K: Family>(&self, rt: &impl Abort, right: Right, strike: u32) {
        let Case(Line(_, _, listed, ..), _, outcome) = *self;
        let expected = outcome.map(|Becomes(text, units, cash, booked, claimed)| {
            let code = code_of(text);
            let named = Some((code.prefix, char::from(code.letter)));
            (named, units, listed, cash, booked, claimed)
        });
        let found = self.adjusted::<K>(right, strike).map(|Adjusted { terms, booked }| {
            let named = written::<K>(&terms.series);
            (
                named,
                terms.units,
                terms.strike_lot,
                terms.cash,
                booked,
                open_units(&terms.claim),
            )
        });
        assert_eq!(rt; found.map_err(Refusal::number), expected);
    }

    // The line after the event.
    fn adjusted<K: Family>(&self, right: Right, strike: u32) -> Result<Adjusted, Refusal> {
        let Case(Line(_, text, units, held, claim), Pays(cash, ratio, rights, successor), _) =
            *self;
        let name = Name {
            code: code_of(text),
            expiry: 9_000,
            right: u8::from(right),
            strike,
        };
        let line = Terms {
            series: name.read::<K>()?,
            stock: STOCK,
            units,
            strike_lot: units,
            cash: held,
            claim,
        };
        let event = Event {
            stock: STOCK,
            cash,
            ratio,
            rights,
            successor,
        };
        line.adjust::<K>(TODAY, &event)
    }
}

// The prefix and the letter that a family writes.
fn written<K: Family>(series: &Series) -> Option<(Prefix, char)> {
    K::letter(series.level).map(|letter| (series.prefix, letter))
}

fn open_units(claim: &Claim) -> u32 {
    match *claim {
        Claim::Open { units, .. } => units,
        Claim::Absent | Claim::Fixed { .. } => 0,
    }
}

#[test]
fn published(rt: HostRuntime) {
    for case in &PUBLISHED {
        case.check(&rt);
    }
}

#[test]
fn judged(rt: HostRuntime) {
    for case in &JUDGED {
        case.check(&rt);
    }
}
