//! What an event makes of a line.
ghost use Rattle.std.specs.Prelude.{◌≡◌, ◌*◌, ◌/◌, ◌≤◌, true, false};
ghost use Rattle.terms.specs.Refusals.{answer, first, Accepted};
ghost use Rattle.terms.specs.Events.{event_outside};
ghost use Rattle.terms.specs.Terms.{terms_fit};
ghost use Rattle.terms.specs.Adjust.{next_claim, next_series, next_stock, adjusted, takes_in, lot_misfits, claim_in_the_way, line_refusals};
ghost use Rattle.terms.specs.Worth.{WorthKept};

use crate::claim::Claim;
use crate::code::Series;
use crate::event::Event;
use crate::family::Family;
use crate::refusal::Refusal;
use crate::terms::Terms;
use crate::units;
use crate::units::{
    Billionths, CashPerShare, Day, Dollars, LARGEST_LOT_CASH, LAST_LEVEL, ONE, ShareUnits,
};

/// A line after an event, and what each bought lot is credited with and each sold lot charged.
#[derive(Clone, Copy, PartialEq, Eq, Debug)]
pub struct Adjusted {
    pub terms: Terms,
    pub booked: Dollars,
}

impl Terms {
    /// What the event of a day makes of the line; or why the event is refused, does not take the line
    /// in, or finds it in its way.
    pub fn adjust<F: Family>(&self, day: Day, event: &Event) -> Result<Adjusted, Refusal>
        ensures refusal { answer result ≡ first (line_refusals F.Family.answers day event.now self.now) }
        ensures value { Accepted result (λ x. x ≡ adjusted F.Family.answers event.now self.now) }
        ensures within { Accepted result (λ x. terms_fit x.terms ≡ true) }
        ensures worth { Accepted result (λ x. WorthKept event.now self.now x) }
    {
        if event.has_bad_prefix() {
            return Err(Refusal::Malformed);
        }
        // Not by `judge`: the line's own numbers are judged with the event's, before 4.
        if !units::is_day(day) || event.is_outside_units() || !self.is_within_units() {
            return Err(Refusal::OutsideUnits);
        }
        if event.is_ill_formed() {
            return Err(Refusal::IllFormedEvent);
        }
        if event.is_too_late(day) {
            return Err(Refusal::DeadlineOutOfOrder);
        }
        if !self.is_taken_in(day, event) {
            return Err(Refusal::NoLine);
        }
        let after = self.after::<F>(event);
        if after.terms.series.level > LAST_LEVEL {
            return Err(Refusal::LevelPastNine);
        }
        if after.terms.has_misfit_lot::<F>() {
            return Err(Refusal::LotOutsideLimits);
        }
        if self.has_claim_in_the_way(event) {
            return Err(Refusal::ClaimInTheWay);
        }
        Ok(after)
    }

    /// Whether the event takes the line in: it is of the event's stock and expires after the day.
    pub fn is_taken_in(&self, day: Day, event: &Event) -> bool
        ensures { result ≡ takes_in day event.now self.now }
    {
        self.stock == event.stock && day < self.series.expiry
    }

    /// The line after the event, whether or not it may stand so.
    pub fn after<F: Family>(&self, event: &Event) -> Adjusted
        requires within { terms_fit self.now ≡ true }
        requires inside { event_outside event.now ≡ false }
        ensures { result ≡ adjusted F.Family.answers event.now self.now }
    {
        let units = scaled(self.units, event.ratio);
        let (kept, booked) = F::split(cash_amount(self.units, event.cash));
        let terms = Terms {
            series: self.next_series::<F>(event),
            stock: self.next_stock(event),
            units,
            cash: self.cash + kept,
            claim: self.next_claim(event),
            ..*self
        };
        Adjusted { terms, booked }
    }

    /// Whether a lot has no units, or more than the family allows, or too much cash.
    pub fn has_misfit_lot<F: Family>(&self) -> bool
        ensures { result ≡ lot_misfits F.Family.answers self.now }
    {
        !(1..=F::lot_limit()).contains(&self.units) || self.cash > LARGEST_LOT_CASH
    }

    fn next_series<F: Family>(&self, event: &Event) -> Series
        requires { self.now.series.level ≤ 9 }
        ensures { result ≡ next_series F.Family.answers event.now self.now }
    {
        let old = self.series;
        let level = old.level + u8::from(F::moves(event));
        let prefix = if event.successor.is_absent() {
            old.prefix
        } else {
            event.successor.prefix
        };
        Series {
            prefix,
            level,
            ..old
        }
    }

    fn next_stock(&self, event: &Event) -> u32
        ensures { result ≡ next_stock event.now self.now }
    {
        if event.successor.is_absent() {
            self.stock
        } else {
            event.successor.stock
        }
    }

    fn next_claim(&self, event: &Event) -> Claim
        requires { (self.now.units ≤ 400000000) × (event.now.rights.rate ≤ 1000000000) }
        ensures { result ≡ next_claim event.now self.now }
    {
        let rights = event.rights;
        if rights.are_absent() {
            return self.claim;
        }
        Claim::Open {
            units: scaled(self.units, rights.rate),
            price: rights.price,
            deadline: rights.deadline,
        }
    }

    /// Whether the event has rights though there is a claim, or a new stock though one is open.
    pub fn has_claim_in_the_way(&self, event: &Event) -> bool
        ensures { result ≡ claim_in_the_way event.now self.now }
    {
        match self.claim {
            Claim::Absent => false,
            Claim::Open { .. } => !event.rights.are_absent() || !event.successor.is_absent(),
            Claim::Fixed { .. } => !event.rights.are_absent(),
        }
    }
}

// Share units times a ratio or a rate, the fraction dropped. (By `as`, here and below: it fits, as the check
// proves, and `try_from` would answer an error that never comes.)
fn scaled(units: ShareUnits, billionths: Billionths) -> ShareUnits
    requires { (units ≤ 400000000) × (billionths ≤ 10000000000) }
    ensures { result ≡ units * billionths / 1000000000 }
{
    (u64::from(units) * billionths / ONE) as ShareUnits
}

// The dollars paid on so many share units, the fraction dropped.
fn cash_amount(units: ShareUnits, cash: CashPerShare) -> Dollars
    ensures value { result ≡ units * cash / 10000000000 }
    ensures most { result ≤ 1844674407 }
{
    (u64::from(units) * u64::from(cash) / 10_000_000_000) as Dollars
}
