//! The calls of the demo on its two books, in their order. The exchange has rehearsed the dividend and the stock
//! dividend of this stock, and shown the rights in its slides; dates, prices and trades are assumed.
use crate::request;
use book::call::Call;
use terms::code::{Code, Name, Prefix};
use terms::event::{Event, Rights};
use terms::reference::reference_price;
use terms::refusal::Refusal;
use terms::right::Right;
use terms::terms::Terms;
use terms::units::{Cents, Day, ShareUnits};

const STOCK: u32 = 2891;

const LOT: ShareUnits = 20_000_000;

// The days of 2022 on which something happens; NOVEMBER and DECEMBER are those of expiry, DEADLINE is that of
// the rights.
pub(crate) const MAY_19: Day = 8_174;

pub(crate) const JULY_12: Day = 8_228;

pub(crate) const JULY_13: Day = 8_229;

pub(crate) const SEPTEMBER_22: Day = 8_300;

pub(crate) const OCTOBER_11: Day = 8_319;

pub(crate) const OCTOBER_12: Day = 8_320;

pub(crate) const OCTOBER_26: Day = 8_334;

pub(crate) const NOVEMBER: Day = 8_355;

pub(crate) const DEADLINE: Day = 8_374;

pub(crate) const DECEMBER: Day = 8_390;

const PREFIX: Prefix = Prefix {
    first: b'C',
    second: b'N',
};

const CNO: Code = Code {
    prefix: PREFIX,
    letter: b'O',
};

const CNB: Code = Code {
    letter: b'B',
    ..CNO
};

const CNC: Code = Code {
    letter: b'C',
    ..CNO
};

const CNF: Code = Code {
    letter: b'F',
    ..CNO
};

const CN1: Code = Code {
    letter: b'1',
    ..CNO
};

const CN2: Code = Code {
    letter: b'2',
    ..CNO
};

/// December's lines, by the codes under which a call names them.
const CALL: Name = Name {
    code: CNO,
    expiry: DECEMBER,
    right: Right::Call as u8,
    strike: 2_500,
};

const CALL_B: Name = Name { code: CNB, ..CALL };

const CALL_C: Name = Name { code: CNC, ..CALL };

const FUTURE: Name = Name {
    code: CNF,
    expiry: DECEMBER,
    right: Right::Without as u8,
    strike: 0,
};

const FUTURE_1: Name = Name {
    code: CN1,
    ..FUTURE
};

const FUTURE_2: Name = Name {
    code: CN2,
    ..FUTURE
};

/// November's.
const PUT: Name = Name {
    code: CNO,
    expiry: NOVEMBER,
    right: Right::Put as u8,
    strike: 2_600,
};

const PUT_B: Name = Name { code: CNB, ..PUT };

const NEAR: Name = Name {
    expiry: NOVEMBER,
    ..FUTURE
};

const NEAR_1: Name = Name { code: CN1, ..NEAR };

const NEAR_2: Name = Name { code: CN2, ..NEAR };

/// An event of the stock, and a price before it.
#[derive(Clone, Copy)]
pub(crate) struct Happening {
    pub(crate) day: Day,
    pub(crate) event: Event,
    pub(crate) price: Cents,
}

impl Happening {
    /// What the price becomes.
    pub(crate) fn reference(&self) -> Result<Cents, Refusal> {
        reference_price(self.price, self.event.cash, self.event.ratio)
    }

    pub(crate) fn takes_in(&self, line: &Terms) -> bool {
        line.is_taken_in(self.day, &self.event)
    }
}

// To be filled in, as that of a request.
const NO_EVENT: Event = Event {
    stock: STOCK,
    ..request::NO_EVENT
};

const ONE_DOLLAR: Event = Event {
    cash: 1_000_000,
    ..NO_EVENT
};

pub(crate) const DIVIDEND: Happening = Happening {
    day: JULY_13,
    event: ONE_DOLLAR,
    price: 2_530,
};

/// The reference price of that price.
const AFTER_DIVIDEND: Cents = 2_430;

const ONE_IN_TEN: Event = Event {
    ratio: 1_100_000_000,
    ..NO_EVENT
};

pub(crate) const STOCK_DIVIDEND: Happening = Happening {
    day: OCTOBER_12,
    event: ONE_IN_TEN,
    price: 2_655,
};

const AFTER_STOCK_DIVIDEND: Cents = 2_414;

/// 100 shares for 2,000, at 16.30.
const ISSUE: Event = Event {
    rights: Rights {
        rate: 50_000_000,
        price: 1_630,
        deadline: DEADLINE,
    },
    ..NO_EVENT
};

// The final prices of the months, and the stock's closes beside them.
const NOVEMBER_FINAL: Cents = 2_280;

const NOVEMBER_CLOSE: Cents = 2_290;

const DECEMBER_FINAL: Cents = 2_405;

const DECEMBER_CLOSE: Cents = 2_410;

// The calls that both books are given.
const OPENS_101: Call = Call::Opening {
    day: MAY_19,
    account: 101,
};

const OPENS_102: Call = Call::Opening {
    day: MAY_19,
    account: 102,
};

const OPENS_103: Call = Call::Opening {
    day: MAY_19,
    account: 103,
};

const PAYS: Call = Call::Adjustment {
    day: JULY_13,
    event: ONE_DOLLAR,
};

const GIVES_SHARES: Call = Call::Adjustment {
    day: OCTOBER_12,
    event: ONE_IN_TEN,
};

const ISSUES: Call = Call::Adjustment {
    day: OCTOBER_26,
    event: ISSUE,
};

const FIXES: Call = Call::Fixing {
    day: DEADLINE,
    stock: STOCK,
    deadline: DEADLINE,
    close: 2_330,
};

/// The calls on the book of options.
pub(crate) const IN_OPTIONS: [Call; 17] = [
    OPENS_101,
    OPENS_102,
    OPENS_103,
    Call::Listing {
        day: MAY_19,
        name: CALL,
        stock: STOCK,
        units: LOT,
        price: 150,
    },
    Call::Trade {
        day: JULY_12,
        name: CALL,
        buyer: 101,
        seller: 102,
        price: 160,
        lots: 2,
    },
    PAYS,
    Call::Listing {
        day: JULY_13,
        name: CALL,
        stock: STOCK,
        units: LOT,
        price: 110,
    },
    Call::Trade {
        day: JULY_13,
        name: CALL,
        buyer: 103,
        seller: 101,
        price: 110,
        lots: 3,
    },
    Call::Listing {
        day: SEPTEMBER_22,
        name: PUT,
        stock: STOCK,
        units: LOT,
        price: 85,
    },
    Call::Trade {
        day: OCTOBER_11,
        name: PUT,
        buyer: 102,
        seller: 103,
        price: 90,
        lots: 4,
    },
    GIVES_SHARES,
    Call::Trade {
        day: OCTOBER_12,
        name: CALL_B,
        buyer: 103,
        seller: 101,
        price: 130,
        lots: 1,
    },
    ISSUES,
    Call::Expiry {
        day: NOVEMBER,
        name: PUT_B,
        price: NOVEMBER_FINAL,
        close: NOVEMBER_CLOSE,
    },
    FIXES,
    Call::Expiry {
        day: DECEMBER,
        name: CALL_C,
        price: DECEMBER_FINAL,
        close: DECEMBER_CLOSE,
    },
    Call::Expiry {
        day: DECEMBER,
        name: CALL_B,
        price: DECEMBER_FINAL,
        close: DECEMBER_CLOSE,
    },
];

/// The calls on the book of futures.
pub(crate) const IN_FUTURES: [Call; 20] = [
    OPENS_101,
    OPENS_102,
    OPENS_103,
    Call::Listing {
        day: MAY_19,
        name: FUTURE,
        stock: STOCK,
        units: LOT,
        price: 2_500,
    },
    Call::Trade {
        day: JULY_12,
        name: FUTURE,
        buyer: 101,
        seller: 102,
        price: 2_520,
        lots: 3,
    },
    Call::Mark {
        day: JULY_12,
        name: FUTURE,
        price: DIVIDEND.price,
    },
    PAYS,
    Call::Mark {
        day: JULY_13,
        name: FUTURE,
        price: AFTER_DIVIDEND,
    },
    Call::Listing {
        day: SEPTEMBER_22,
        name: NEAR,
        stock: STOCK,
        units: LOT,
        price: 2_600,
    },
    Call::Trade {
        day: OCTOBER_11,
        name: FUTURE,
        buyer: 103,
        seller: 101,
        price: 2_645,
        lots: 2,
    },
    Call::Trade {
        day: OCTOBER_11,
        name: NEAR,
        buyer: 102,
        seller: 103,
        price: 2_635,
        lots: 4,
    },
    Call::Mark {
        day: OCTOBER_11,
        name: FUTURE,
        price: STOCK_DIVIDEND.price,
    },
    Call::Mark {
        day: OCTOBER_11,
        name: NEAR,
        price: STOCK_DIVIDEND.price,
    },
    GIVES_SHARES,
    Call::Mark {
        day: OCTOBER_12,
        name: FUTURE_1,
        price: AFTER_STOCK_DIVIDEND,
    },
    Call::Mark {
        day: OCTOBER_12,
        name: NEAR_1,
        price: AFTER_STOCK_DIVIDEND,
    },
    ISSUES,
    Call::Expiry {
        day: NOVEMBER,
        name: NEAR_2,
        price: NOVEMBER_FINAL,
        close: NOVEMBER_CLOSE,
    },
    FIXES,
    Call::Expiry {
        day: DECEMBER,
        name: FUTURE_2,
        price: DECEMBER_FINAL,
        close: DECEMBER_CLOSE,
    },
];
