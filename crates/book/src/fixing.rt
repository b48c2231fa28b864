//! Fixing the claims of a stock.
ghost use Rattle.std.specs.Prelude.{◌≡◌};
ghost use Rattle.terms.specs.Refusals.{answer, first};
ghost use Rattle.rows.specs.Fixing.{fixing_outside, fixing_refusals, fixing_table};
ghost use Rattle.rows.specs.Calls.{settled};

use crate::book::Book;
use moves::fixes::Fix;
use terms::family::Family;
use terms::refusal::Refusal;
use terms::units;
use terms::units::{Cents, Day};

impl<F: Family> Book<F> {
    /// Fixes the open claims of a stock and payment deadline at the stock's close on it.
    pub fn fixing(
        &mut self,
        day: Day,
        stock: u32,
        deadline: Day,
        close: Cents,
    ) -> Result<(), Refusal>
        ensures refusal { answer result ≡ first (fixing_refusals self.old.table day stock deadline close) }
        ensures after { self.new.table ≡ settled (answer result) (fixing_table self.old.table day stock deadline close) self.old.table }
    {
        if is_fixing_outside(day, stock, deadline, close) {
            return Err(Refusal::OutsideUnits);
        }
        if day < deadline {
            return Err(Refusal::DeadlineOutOfOrder);
        }
        if day < self.table.day {
            return Err(Refusal::DayPassed);
        }
        let fix = Fix {
            stock,
            deadline,
            close,
        };
        if !fix.reaches_any(&self.table.lines) {
            return Err(Refusal::NoClaimToFix);
        }
        fix.fix_lines(&mut self.table.lines);
        self.table.day = day;
        Ok(())
    }
}

fn is_fixing_outside(day: Day, stock: u32, deadline: Day, close: Cents) -> bool
    ensures { result ≡ fixing_outside day stock deadline close }
{
    !units::is_day(day)
        || !units::is_number(stock)
        || !units::is_day(deadline)
        || !units::is_price(close)
}
