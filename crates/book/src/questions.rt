//! The questions, which alter nothing.
ghost use Rattle.std.specs.Prelude.{◌≡◌};
ghost use Rattle.terms.specs.Refusals.{answer, first, Accepted};
ghost use Rattle.terms.specs.Reference.{reference as reference_of, reference_refusals};
ghost use Rattle.rows.specs.Questions.{terms_refusals, terms_answer, lots_refusals, lots_answer, equity_refusals, equity_answer};

use crate::book::Book;
use lookup::find;
use rows::names::named;
use rows::rows::line_at;
use terms::code::Name;
use terms::family::Family;
use terms::refusal::Refusal;
use terms::terms::Terms;
use terms::units::{Billionths, CashPerShare, Cents};
use terms::{reference, units};

impl<F: Family> Book<F> {
    /// The terms of a line.
    pub fn terms(&self, name: Name) -> Result<Terms, Refusal>
        ensures refusal { answer result ≡ first (terms_refusals F.Family.answers self.now.table name) }
        ensures value { Accepted result (λ t. t ≡ terms_answer F.Family.answers self.now.table name) }
    {
        let series = name.read::<F>()?;
        let place = find(&self.table.lines, &Some(series)).ok_or(Refusal::NoLine)?;
        Ok(line_at(&self.table.lines, place).terms)
    }

    /// An account's lots in a line, below zero where they are sold.
    pub fn lots(&self, account: u32, name: Name) -> Result<i32, Refusal>
        ensures refusal { answer result ≡ first (lots_refusals F.Family.answers self.now.table account name) }
        ensures value { Accepted result (λ z. z ≡ lots_answer F.Family.answers self.now.table account name) }
    {
        let is_outside = !units::is_day(name.expiry) || !units::is_number(account);
        let series = named::<F>(&name, is_outside)?;
        let place = find(&self.table.lines, &Some(series)).ok_or(Refusal::NoLine)?;
        let row = find(&self.table.accounts, &account).ok_or(Refusal::AccountNotOpen)?;
        Ok(self.table.accounts[row].lots[place])
    }

    /// An account's equity in micros.
    pub fn equity(&self, account: u32) -> Result<i64, Refusal>
        ensures refusal { answer result ≡ first (equity_refusals self.now.table account) }
        ensures value { Accepted result (λ z. z ≡ equity_answer self.now.table account) }
    {
        if !units::is_number(account) {
            return Err(Refusal::OutsideUnits);
        }
        let row = find(&self.table.accounts, &account).ok_or(Refusal::AccountNotOpen)?;
        Ok(self.table.accounts[row].equity)
    }

    /// The reference price of a price, by the cash and the ratio of an event.
    pub fn reference_price(
        &self,
        price: Cents,
        cash: CashPerShare,
        ratio: Billionths,
    ) -> Result<Cents, Refusal>
        ensures refusal { answer result ≡ first (reference_refusals price cash ratio) }
        ensures value { Accepted result (λ cents. cents ≡ reference_of price cash ratio) }
    {
        reference::reference_price(price, cash, ratio)
    }
}
