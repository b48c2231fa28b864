//! A new book, and opening an account.
ghost use Rattle.std.specs.Prelude.{◌≡◌};
ghost use Rattle.terms.specs.Refusals.{answer, first};
ghost use Rattle.rows.specs.Opening.{opening_refusals, opening_table};
ghost use Rattle.rows.specs.Calls.{empty, settled};

use crate::book::Book;
use lookup::find;
use rows::table::{Account, PLACES, Place, ROWS, Table};
use std::marker::PhantomData;
use terms::family::Family;
use terms::refusal::Refusal;
use terms::units;
use terms::units::Day;

// A row that is not in use; the rows are a fixed block of memory.
const UNUSED: Account = Account {
    number: 0,
    equity: 0,
    lots: [0; PLACES],
};

impl<F: Family> Book<F> {
    /// An empty book at day 0.
    pub fn new() -> Self
        ensures { result.table ≡ empty }
    {
        Book {
            table: Table {
                lines: [Place::Free; PLACES],
                accounts: [UNUSED; ROWS],
                count: 0,
                day: 0,
            },
            family: PhantomData,
        }
    }

    /// Opens an account.
    pub fn opening(&mut self, day: Day, account: u32) -> Result<(), Refusal>
        ensures refusal { answer result ≡ first (opening_refusals self.old.table day account) }
        ensures after { self.new.table ≡ settled (answer result) (opening_table self.old.table day account) self.old.table }
    {
        if !units::is_day(day) || !units::is_number(account) {
            return Err(Refusal::OutsideUnits);
        }
        if day < self.table.day {
            return Err(Refusal::DayPassed);
        }
        if find(&self.table.accounts, &account).is_some() {
            return Err(Refusal::AccountOpen);
        }
        if self.table.count >= ROWS {
            return Err(Refusal::AccountsFull);
        }
        self.table.accounts[self.table.count] = Account {
            number: account,
            ..UNUSED
        };
        self.table.count += 1;
        self.table.day = day;
        Ok(())
    }
}
