//! How codes and amounts are written.
use notation::{Date, Decimal};
use std::fmt;
use terms::claim::Claim;
use terms::code::{Prefix, Series};
use terms::event::Event;
use terms::family::Family;
use terms::units::{Cents, Day, Dollars, ShareUnits};

/// Shares, as 2,073.9967.
pub(crate) fn shares(units: ShareUnits) -> Decimal {
    let full = Decimal {
        value: u64::from(units),
        places: 4,
    };
    full.trimmed()
}

/// A price, as 38.40.
pub(crate) fn price(cents: Cents) -> Decimal {
    Decimal {
        value: u64::from(cents),
        places: 2,
    }
}

/// Whole dollars, as 3,200.
pub(crate) fn whole(dollars: Dollars) -> Decimal {
    Decimal {
        value: u64::from(dollars),
        places: 0,
    }
}

/// Micros in dollars and cents, the fraction of a cent dropped.
pub(crate) fn money(micros: u128) -> Decimal {
    Decimal {
        value: u64::try_from(micros / 10_000).unwrap_or(u64::MAX),
        places: 2,
    }
}

/// A code, as CNA.
#[derive(Clone, Copy, PartialEq, Eq)]
pub(crate) struct CodeText {
    prefix: Prefix,
    letter: char,
}

impl CodeText {
    pub(crate) fn of<F: Family>(series: &Series) -> CodeText {
        CodeText {
            prefix: series.prefix,
            letter: F::letter(series.level).unwrap_or('?'),
        }
    }
}

impl fmt::Display for CodeText {
    fn fmt<W: fmt::Write>(&self, f: &mut fmt::Formatter<W>) -> fmt::Result {
        let CodeText { prefix, letter } = *self;
        write!(f, "{prefix}{letter}")
    }
}

/// The cash in a lot, as 3,200 dollars.
#[derive(Clone, Copy, PartialEq, Eq)]
pub(crate) struct LotCash(pub(crate) Dollars);

impl fmt::Display for LotCash {
    fn fmt<W: fmt::Write>(&self, f: &mut fmt::Formatter<W>) -> fmt::Result {
        if self.0 == 0 {
            return f.write_str("none");
        }
        let dollars = whole(self.0);
        write!(f, "{dollars} dollars")
    }
}

/// What each lot is credited with or charged.
#[derive(Clone, Copy)]
pub(crate) struct Entry(pub(crate) Dollars);

impl fmt::Display for Entry {
    fn fmt<W: fmt::Write>(&self, f: &mut fmt::Formatter<W>) -> fmt::Result {
        if self.0 == 0 {
            return f.write_str("none");
        }
        let dollars = whole(self.0);
        write!(
            f,
            "+{dollars} dollars to each lot bought, -{dollars} dollars to each lot sold"
        )
    }
}

/// The claim that an event opens; one that it leaves alone is told by its kind.
#[derive(Clone, Copy)]
pub(crate) struct ClaimAfter {
    pub(crate) event: Event,
    pub(crate) claim: Claim,
}

impl fmt::Display for ClaimAfter {
    fn fmt<W: fmt::Write>(&self, f: &mut fmt::Formatter<W>) -> fmt::Result {
        match self.claim {
            Claim::Absent => f.write_str("none"),
            Claim::Fixed { .. } => f.write_str("fixed, as before"),
            Claim::Open { .. } if self.event.rights.rate == 0 => f.write_str("open, as before"),
            Claim::Open {
                units,
                price: cents,
                deadline,
            } => {
                let (shares, price) = (shares(units), price(cents));
                let date = Date::from_day(deadline);
                write!(f, "on {shares} shares at {price}, payable until {date}")
            }
        }
    }
}

/// Micros in dollars and cents, with a minus where below zero.
#[derive(Clone, Copy)]
pub(crate) struct Equity(pub(crate) i64);

impl fmt::Display for Equity {
    fn fmt<W: fmt::Write>(&self, f: &mut fmt::Formatter<W>) -> fmt::Result {
        let sign = if self.0 < 0 { "-" } else { "" };
        let dollars = money(u128::from(self.0.unsigned_abs()));
        write!(f, "{sign}{dollars}")
    }
}

/// What something was and what it becomes, as 2,000 -> 2,200; one that stays is written once.
#[derive(Clone, Copy)]
pub(crate) struct Change<T> {
    pub(crate) before: T,
    pub(crate) after: T,
}

impl<T: fmt::Display + PartialEq> fmt::Display for Change<T> {
    fn fmt<W: fmt::Write>(&self, f: &mut fmt::Formatter<W>) -> fmt::Result {
        let Change { before, after } = self;
        if before == after {
            write!(f, "{after}")
        } else {
            write!(f, "{before} -> {after}")
        }
    }
}

/// A day within its year, as 12-21.
#[derive(Clone, Copy)]
pub(crate) struct MonthDay(pub(crate) Day);

impl fmt::Display for MonthDay {
    fn fmt<W: fmt::Write>(&self, f: &mut fmt::Formatter<W>) -> fmt::Result {
        let Date { month, day, .. } = Date::from_day(self.0);
        write!(f, "{month:02}-{day:02}")
    }
}

/// A line by its code and the month of its expiry, as CNA/12.
#[derive(Clone, Copy)]
pub(crate) struct Label {
    code: CodeText,
    month: u8,
}

impl Label {
    pub(crate) fn of<F: Family>(series: &Series) -> Label {
        Label {
            code: CodeText::of::<F>(series),
            month: Date::from_day(series.expiry).month,
        }
    }
}

impl fmt::Display for Label {
    fn fmt<W: fmt::Write>(&self, f: &mut fmt::Formatter<W>) -> fmt::Result {
        let Label { code, month } = *self;
        write!(f, "{code}/{month:02}")
    }
}
