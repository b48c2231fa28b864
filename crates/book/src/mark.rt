//! Marking a line to a price.
ghost use Rattle.std.specs.Prelude.{◌≡◌, ◌<◌, true};
ghost use Rattle.terms.specs.Refusals.{answer, first};
ghost use Rattle.terms.specs.Terms.{lot_of, terms_fit};
ghost use Rattle.terms.specs.Family.{priced};
ghost use Rattle.rows.specs.Rows.{line_at};
ghost use Rattle.rows.specs.Revalue.{revalue_refusals, revalue_table};
ghost use Rattle.rows.specs.Mark.{mark_outside, mark_refusals, mark_table};
ghost use Rattle.rows.specs.Calls.{settled};

use crate::book::Book;
use lookup::find;
use rows::gains::Gain;
use rows::names::named;
use rows::rows::line_at;
use rows::table::{Line, Place};
use terms::code::Name;
use terms::family::Family;
use terms::refusal::Refusal;
use terms::units;
use terms::units::{Cents, Day};

impl<F: Family> Book<F> {
    /// Marks a line to a price.
    pub fn mark(&mut self, day: Day, name: Name, price: Cents) -> Result<(), Refusal>
        ensures refusal { answer result ≡ first (mark_refusals F.Family.answers self.old.table day name price) }
        ensures after { self.new.table ≡ settled (answer result) (mark_table F.Family.answers self.old.table day name price) self.old.table }
    {
        let is_outside = is_mark_outside(day, &name, price);
        let series = named::<F>(&name, is_outside)?;
        if day < self.table.day {
            return Err(Refusal::DayPassed);
        }
        let place = find(&self.table.lines, &Some(series)).ok_or(Refusal::NoLine)?;
        if name.expiry < day {
            return Err(Refusal::WrongSideOfExpiry);
        }
        self.revalue(place, price)?;
        self.table.day = day;
        Ok(())
    }

    // Each lot in a place gains what its line is now worth above its carry, where no equity then passes
    // its limit.
    #[tactic(auto, using(rows::proofs::Sound::all_can_gain))]
    fn revalue(&mut self, place: usize, price: Cents) -> Result<(), Refusal>
        requires place { place < 48 }
        // (A clause, as `Family` says: a type that held it would have the family in it.)
        requires priced { priced F.Family.answers (lot_of (line_at self.old.table place).terms) price ≡ true }
        requires fit { terms_fit (line_at self.old.table place).terms ≡ true }
        ensures refusal { answer result ≡ first (revalue_refusals F.Family.answers self.old.table place price) }
        ensures after { self.new.table ≡ settled (answer result) (revalue_table F.Family.answers self.old.table place price) self.old.table }
    {
        let line = line_at(&self.table.lines, place);
        let value = F::mark_value(&line.terms.lot(), price);
        let gain = Gain {
            place,
            from: line.carry,
            to: value,
        };
        if gain.passes_a_limit(&self.table.accounts) {
            return Err(Refusal::EquityPastLimit);
        }
        gain.give(&mut self.table.accounts);
        self.table.lines[place] = Place::Taken(Line {
            carry: value,
            ..line
        });
        Ok(())
    }
}

fn is_mark_outside(day: Day, name: &Name, price: Cents) -> bool
    ensures { result ≡ mark_outside day name.now price }
{
    !units::is_day(day) || !units::is_day(name.expiry) || !units::is_price(price)
}
