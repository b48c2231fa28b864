//! Listing a line.
ghost use Rattle.std.specs.Prelude.{◌≡◌};
ghost use Rattle.terms.specs.Refusals.{answer, first};
ghost use Rattle.rows.specs.Listing.{listing_outside, listing_refusals, listing_table, listed_terms};
ghost use Rattle.rows.specs.Calls.{settled};

use crate::book::Book;
use lookup::find;
use rows::clash::any_clash;
use rows::names::{is_misfit, is_standard, series_of};
use rows::table::{Line, Place};
use terms::claim::Claim;
use terms::code::Name;
use terms::family::Family;
use terms::refusal::Refusal;
use terms::terms::Terms;
use terms::units;
use terms::units::{Cents, Day, ShareUnits};

impl<F: Family> Book<F> {
    /// Lists a line in the first free place.
    pub fn listing(
        &mut self,
        day: Day,
        name: Name,
        stock: u32,
        units: ShareUnits,
        price: Cents,
    ) -> Result<(), Refusal>
        ensures refusal { answer result ≡ first (listing_refusals F.Family.answers self.old.table day name stock units price) }
        ensures after { self.new.table ≡ settled (answer result) (listing_table F.Family.answers self.old.table day name stock units price) self.old.table }
    {
        if !is_standard::<F>(&name.code) {
            return Err(Refusal::Malformed);
        }
        if is_listing_outside::<F>(day, &name, stock, units, price) {
            return Err(Refusal::OutsideUnits);
        }
        if is_misfit::<F>(&name) {
            return Err(Refusal::Misfit);
        }
        if day < self.table.day {
            return Err(Refusal::DayPassed);
        }
        if find(&self.table.lines, &Some(series_of::<F>(&name))).is_some() {
            return Err(Refusal::NameTaken);
        }
        if any_clash(&self.table.lines, &name.code.prefix, stock) {
            return Err(Refusal::PrefixConflict);
        }
        let place = find(&self.table.lines, &None).ok_or(Refusal::LinesFull)?;
        if name.expiry <= day {
            return Err(Refusal::WrongSideOfExpiry);
        }
        let terms = listed::<F>(&name, stock, units);
        let carry = F::mark_value(&terms.lot(), price);
        self.table.lines[place] = Place::Taken(Line { terms, carry });
        self.table.day = day;
        Ok(())
    }
}

fn listed<F: Family>(name: &Name, stock: u32, units: ShareUnits) -> Terms
    ensures { result ≡ listed_terms F.Family.answers name.now stock units }
{
    Terms {
        series: series_of::<F>(name),
        stock,
        units,
        strike_lot: units,
        cash: 0,
        claim: Claim::Absent,
    }
}

fn is_listing_outside<F: Family>(
    day: Day,
    name: &Name,
    stock: u32,
    units: ShareUnits,
    price: Cents,
) -> bool
    ensures { result ≡ listing_outside F.Family.answers day name.now stock units price }
{
    !units::is_day(day)
        || !units::is_day(name.expiry)
        || !units::is_number(stock)
        || !units::is_units(units)
        || F::lot_limit() < units
        || !units::is_price(price)
}
