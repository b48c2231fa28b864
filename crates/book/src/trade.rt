//! A trade between two accounts.
ghost use Rattle.std.specs.Prelude.{◌≡◌, ◌<◌, ◌≤◌, true};
ghost use Rattle.terms.specs.Refusals.{answer, first};
ghost use Rattle.terms.specs.Terms.{lot_of};
ghost use Rattle.terms.specs.Family.{priced};
ghost use Rattle.rows.specs.Rows.{line_at};
ghost use Rattle.rows.specs.Deal.{deal_refusals, deal_table};
ghost use Rattle.rows.specs.Trade.{trade_outside, trade_refusals, trade_table};
ghost use Rattle.rows.specs.Calls.{settled};

use crate::book::Book;
use lookup::find;
use rows::account::{either_has_too_many, either_has_too_much};
use rows::gains::Gain;
use rows::names::named;
use rows::rows::line_at;
use terms::code::Name;
use terms::family::Family;
use terms::refusal::Refusal;
use terms::units;
use terms::units::{Cents, Day};

impl<F: Family> Book<F> {
    /// Buys and sells lots between two accounts.
    pub fn trade(
        &mut self,
        day: Day,
        name: Name,
        buyer: u32,
        seller: u32,
        price: Cents,
        lots: u16,
    ) -> Result<(), Refusal>
        ensures refusal { answer result ≡ first (trade_refusals F.Family.answers self.old.table day name buyer seller price lots) }
        ensures after { self.new.table ≡ settled (answer result) (trade_table F.Family.answers self.old.table day name buyer seller price lots) self.old.table }
    {
        let is_outside = is_trade_outside(day, &name, buyer, seller, price, lots);
        let series = named::<F>(&name, is_outside)?;
        if buyer == seller {
            return Err(Refusal::SameAccount);
        }
        if day < self.table.day {
            return Err(Refusal::DayPassed);
        }
        let place = find(&self.table.lines, &Some(series)).ok_or(Refusal::NoLine)?;
        let b = find(&self.table.accounts, &buyer).ok_or(Refusal::AccountNotOpen)?;
        let s = find(&self.table.accounts, &seller).ok_or(Refusal::AccountNotOpen)?;
        if name.expiry < day {
            return Err(Refusal::WrongSideOfExpiry);
        }
        self.deal(place, b, s, price, lots)?;
        self.table.day = day;
        Ok(())
    }

    // Lots and their price pass between two rows, where neither then passes a limit.
    fn deal(
        &mut self,
        place: usize,
        b: usize,
        s: usize,
        price: Cents,
        lots: u16,
    ) -> Result<(), Refusal>
        requires place { place < 48 }
        requires rows { (b < 64) × (s < 64) }
        requires few { lots ≤ 4000 }
        // (A clause, as `Family` says: a type that held it would have the family in it.)
        requires priced { priced F.Family.answers (lot_of (line_at self.old.table place).terms) price ≡ true }
        ensures refusal { answer result ≡ first (deal_refusals F.Family.answers self.old.table place b s price lots) }
        ensures after { self.new.table ≡ settled (answer result) (deal_table F.Family.answers self.old.table place b s price lots) self.old.table }
    {
        let line = line_at(&self.table.lines, place);
        let value = F::trade_value(&line.terms.lot(), price);
        let buyers = Gain {
            place,
            from: value,
            to: line.carry,
        };
        let sellers = Gain {
            place,
            from: line.carry,
            to: value,
        };
        let buying = self.table.accounts[b];
        let selling = self.table.accounts[s];
        let bought = buying.buys(lots, &buyers);
        let sold = selling.sells(lots, &sellers);
        if either_has_too_many(&bought, &sold, place) {
            return Err(Refusal::LotsPastLimit);
        }
        if either_has_too_much(&bought, &sold) {
            return Err(Refusal::EquityPastLimit);
        }
        self.table.accounts[b] = bought;
        self.table.accounts[s] = sold;
        Ok(())
    }
}

fn is_trade_outside(day: Day, name: &Name, buyer: u32, seller: u32, price: Cents, lots: u16) -> bool
    ensures { result ≡ trade_outside day name.now buyer seller price lots }
{
    !units::is_day(day)
        || !units::is_day(name.expiry)
        || !units::is_number(buyer)
        || !units::is_number(seller)
        || !units::is_price(price)
        || !units::is_lots(lots)
}
