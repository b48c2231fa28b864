//! What a company does: the event that adjusts the lines of its stock.
ghost use Rattle.std.specs.Prelude.{◌≡◌};
ghost use Rattle.terms.specs.Refusals.{answer, first};
ghost use Rattle.terms.specs.Events.{no_rights, whole_rights, no_successor, whole_successor, cash_alone, event_outside, event_refusals, bad_prefix, too_late, ill_formed, no_effect, shares_stay};

use crate::code::Prefix;
use crate::refusal::Refusal;
use crate::units;
use crate::units::{Billionths, CashPerShare, Cents, Day};

/// The right to subscribe new shares. A part that is 0 is absent. (It is no `Option`, since a call
/// may give an event with a part of it, which is refused.)
#[derive(Clone, Copy, PartialEq, Eq, Debug)]
pub struct Rights {
    pub rate: Billionths,
    pub price: Cents,
    pub deadline: Day,
}

/// The stock that takes the place of the old one, with its prefix. A part that is 0 is absent, and
/// one may be given without the other, as with rights.
#[derive(Clone, Copy, PartialEq, Eq, Debug)]
pub struct Successor {
    pub stock: u32,
    pub prefix: Prefix,
}

#[derive(Clone, Copy, PartialEq, Eq, Debug)]
pub struct Event {
    pub stock: u32,
    pub cash: CashPerShare,
    pub ratio: Billionths,
    pub rights: Rights,
    pub successor: Successor,
}

impl Rights {
    /// No rights.
    pub const NONE: Rights = Rights {
        rate: 0,
        price: 0,
        deadline: 0,
    };

    pub(crate) fn are_absent(&self) -> bool
        ensures { result ≡ no_rights self.now }
    {
        *self == Rights::NONE
    }

    fn are_whole(&self) -> bool
        ensures { result ≡ whole_rights self.now }
    {
        self.rate != 0 && self.price != 0 && self.deadline != 0
    }
}

impl Successor {
    /// No new stock.
    pub const NONE: Successor = Successor {
        stock: 0,
        prefix: Prefix::NONE,
    };

    /// Whether the event names no new stock.
    pub fn is_absent(&self) -> bool
        ensures { result ≡ no_successor self.now }
    {
        *self == Successor::NONE
    }

    fn is_whole(&self) -> bool
        ensures { result ≡ whole_successor self.now }
    {
        self.stock != 0 && !self.prefix.is_absent()
    }
}

impl Event {
    /// Judges the event as it is given on a day, before any line is looked at.
    pub fn judge(&self, day: Day) -> Result<(), Refusal>
        ensures { answer result ≡ first (event_refusals day self.now) }
    {
        if self.has_bad_prefix() {
            return Err(Refusal::Malformed);
        }
        if !units::is_day(day) || self.is_outside_units() {
            return Err(Refusal::OutsideUnits);
        }
        if self.is_ill_formed() {
            return Err(Refusal::IllFormedEvent);
        }
        if self.is_too_late(day) {
            return Err(Refusal::DeadlineOutOfOrder);
        }
        Ok(())
    }

    /// Whether the event pays cash and does nothing else.
    pub fn is_cash_alone(&self) -> bool
        ensures { result ≡ cash_alone self.now }
    {
        self.cash != 0 && self.leaves_shares()
    }

    /// Whether a new prefix is given that is none.
    pub fn has_bad_prefix(&self) -> bool
        ensures { result ≡ bad_prefix self.now }
    {
        !self.successor.prefix.is_absent() && !self.successor.prefix.is_well_formed()
    }

    /// Whether the deadline of the rights lies before the day.
    pub fn is_too_late(&self, day: Day) -> bool
        ensures { result ≡ too_late day self.now }
    {
        self.rights.deadline != 0 && self.rights.deadline < day
    }

    /// Whether a number lies outside its unit.
    pub fn is_outside_units(&self) -> bool
        ensures { result ≡ event_outside self.now }
    {
        !units::is_number(self.stock)
            || !units::is_cash(self.cash)
            || !units::is_ratio(self.ratio)
            || !units::is_rate(self.rights.rate)
            || self.rights.price > units::LARGEST_PRICE
            || !units::is_day(self.rights.deadline)
    }

    /// Whether the event is without effect, in part, or names its own stock as the new one.
    pub fn is_ill_formed(&self) -> bool
        ensures { result ≡ ill_formed self.now }
    {
        self.has_no_effect()
            || !(self.rights.are_absent() || self.rights.are_whole())
            || !(self.successor.is_absent() || self.successor.is_whole())
            || self.successor.stock == self.stock
    }

    fn has_no_effect(&self) -> bool
        ensures { result ≡ no_effect self.now }
    {
        self.cash == 0 && self.leaves_shares()
    }

    // Neither shares nor rights nor a new stock.
    fn leaves_shares(&self) -> bool
        ensures { result ≡ shares_stay self.now }
    {
        self.ratio == units::ONE && self.rights.are_absent() && self.successor.is_absent()
    }
}
