//! The expiry of a line.
ghost use Rattle.std.specs.Prelude.{◌≡◌, ◌<◌, ◌≤◌, true};
ghost use Rattle.terms.specs.Refusals.{answer, first};
ghost use Rattle.terms.specs.Claims.{claim_fits};
ghost use Rattle.terms.specs.Terms.{lot_of};
ghost use Rattle.terms.specs.Family.{priced};
ghost use Rattle.rows.specs.Rows.{line_at};
ghost use Rattle.rows.specs.Expiry.{closing_refusals, closing_table, expiry_outside, expiry_refusals, expiry_table};
ghost use Rattle.rows.specs.Calls.{settled};

use crate::book::Book;
use lookup::find;
use moves::lines::dollars_of;
use rows::gains::Gain;
use rows::names::named;
use rows::rows::line_at;
use rows::table::Place;
use terms::code::Name;
use terms::family::Family;
use terms::refusal::Refusal;
use terms::units;
use terms::units::{Cents, Day};

impl<F: Family> Book<F> {
    /// Settles a line at its final price, with its claim at the stock's close, and frees its place.
    pub fn expiry(
        &mut self,
        day: Day,
        name: Name,
        price: Cents,
        close: Cents,
    ) -> Result<(), Refusal>
        ensures refusal { answer result ≡ first (expiry_refusals F.Family.answers self.old.table day name price close) }
        ensures after { self.new.table ≡ settled (answer result) (expiry_table F.Family.answers self.old.table day name price close) self.old.table }
    {
        let is_outside = is_expiry_outside(day, &name, price, close);
        let series = named::<F>(&name, is_outside)?;
        if day < self.table.day {
            return Err(Refusal::DayPassed);
        }
        let place = find(&self.table.lines, &Some(series)).ok_or(Refusal::NoLine)?;
        if day < name.expiry {
            return Err(Refusal::WrongSideOfExpiry);
        }
        self.close_line(place, price, close)?;
        self.table.day = day;
        Ok(())
    }

    // Each lot in a place gains what its line is worth at last above its carry, where its claim is
    // settled and no equity then passes its limit. Then the line is gone.
    #[tactic(auto, using(rows::proofs::Sound::all_can_gain))]
    fn close_line(&mut self, place: usize, price: Cents, close: Cents) -> Result<(), Refusal>
        requires place { place < 48 }
        // (A clause, as `Family` says: a type that held it would have the family in it.)
        requires priced { priced F.Family.answers (lot_of (line_at self.old.table place).terms) price ≡ true }
        requires claimed { claim_fits (line_at self.old.table place).terms.claim ≡ true }
        requires closes { close ≤ 1000000 }
        ensures refusal { answer result ≡ first (closing_refusals F.Family.answers self.old.table place price close) }
        ensures after { self.new.table ≡ settled (answer result) (closing_table F.Family.answers self.old.table place price close) self.old.table }
    {
        let line = line_at(&self.table.lines, place);
        if line.terms.claim.is_unfixed(line.terms.series.expiry) {
            return Err(Refusal::ClaimNotFixed);
        }
        let dollars = dollars_of(&line.terms.claim, close);
        let gain = Gain {
            place,
            from: line.carry,
            to: F::final_value(&line.terms.lot(), price, dollars),
        };
        if gain.passes_a_limit(&self.table.accounts) {
            return Err(Refusal::EquityPastLimit);
        }
        gain.give_last(&mut self.table.accounts);
        self.table.lines[place] = Place::Free;
        Ok(())
    }
}

fn is_expiry_outside(day: Day, name: &Name, price: Cents, close: Cents) -> bool
    ensures { result ≡ expiry_outside day name.now price close }
{
    !units::is_day(day)
        || !units::is_day(name.expiry)
        || !units::is_price(price)
        || !units::is_price(close)
}
