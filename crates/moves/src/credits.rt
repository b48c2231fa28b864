//! The dollars that an event books, and what they make of an account.
ghost use Rattle.std.specs.Prelude.{◌≡◌, ◌≤◌, true, map, length, ◌+ℤ◌, unsigned_abs};
ghost use Rattle.lookup.specs.Seek.{any_of};
ghost use Rattle.sweep.specs.Sweep.{all_of};
ghost use Rattle.rows.specs.Fits.{few, line_fits, row_fits, entry_fits};
ghost use Rattle.rows.specs.Adjustment.{entry, credit as credit_of, credited, credit_past};

use crate::entries::Entries;
use crate::onset::Onset;
use rows::account::{is_too_much, moved};
use rows::table::{Account, PLACES, Place};
use sweep::{Change, change_all};
use terms::family::Family;
use terms::units::{DOLLAR, Dollars};

// As `Gain`, for all places at once; a trait for both would state each contract twice.
impl Entries {
    /// What the event books to each lot of the lines that it takes in.
    pub fn of<F: Family>(lines: &[Place; PLACES], onset: &Onset) -> Entries
        requires { all_of line_fits lines.now ≡ true }
        ensures { result.dollars ≡ map (entry F.Family.answers onset.now.day onset.now.event) lines.now }
    {
        let mut dollars = [0; PLACES];
        // By the index: of a `zip` over `iter_mut` the check knows the length alone, and of `array::from_fn` not
        // which lines its closure saw, so the proof stays open; `map` would take all places by value.
        for (j, place) in lines.iter().enumerate() {
            dollars[j] = booked::<F>(place, onset);
        }
        Entries { dollars }
    }

    /// Whether some account's equity would pass its limit.
    pub fn pass_a_limit(&self, accounts: &[Account]) -> bool
        requires { all_of row_fits accounts.now ≡ true }
        ensures { result ≡ any_of (credit_past self.now.dollars) accounts.now }
    {
        accounts
            .iter()
            .any(|account| is_too_much(self.equity_of(account)))
    }

    /// Each account's lots are credited.
    pub fn book(&self, accounts: &mut [Account])
        requires { all_of row_fits accounts.old ≡ true }
        ensures { accounts.new ≡ map (credited self.now.dollars) accounts.old }
    {
        change_all(accounts, self);
    }

    // The equity of an account after its lots are credited.
    fn equity_of(&self, account: &Account) -> i64
        requires { row_fits account.now ≡ true }
        ensures { result ≡ account.now.equity +ℤ credit_of account.now.lots self.now.dollars }
    {
        plus(account.equity, credit(&account.lots, &self.dollars))
    }
}

// (A type and no closure, as `sweep::Change` says.)
impl Change for Entries {
    type Row = Account;

    ghost can = { λ _. row_fits };

    ghost makes = { λ s. credited s.dollars };

    fn change(&self, account: &mut Account) {
        account.equity = self.equity_of(account);
    }
}

// What the event books to each lot in a place.
fn booked<F: Family>(place: &Place, onset: &Onset) -> Dollars
    requires { line_fits place.now ≡ true }
    ensures { result ≡ entry F.Family.answers onset.now.day onset.now.event place.now }
{
    match place {
        Place::Taken(line) if line.terms.is_taken_in(onset.day, &onset.event) => {
            line.terms.after::<F>(&onset.event).booked
        }
        _ => 0,
    }
}

// Lots by place, each with the dollars booked for its place, in micros.
fn credit(lots: &[i32], dollars: &[Dollars]) -> i64
    requires places { (length lots.now ≡ 48) × (length dollars.now ≡ 48) }
    requires few { all_of few lots.now ≡ true }
    requires small { all_of entry_fits dollars.now ≡ true }
    ensures value { result ≡ credit_of lots.now dollars.now }
    ensures bound { unsigned_abs result ≤ 3840000000000000000 }
{
    // By a `for`: the bound on the sum grows with each place, which the closure of a `fold` cannot say.
    let mut sum = 0;
    for (n, booked) in lots.iter().zip(dollars) {
        sum = moved(sum, *n, 0, u64::from(*booked) * DOLLAR);
    }
    sum
}

fn plus(equity: i64, gain: i64) -> i64
    requires { (unsigned_abs equity ≤ 4000000000000000000) × (unsigned_abs gain ≤ 3840000000000000000) }
    ensures { result ≡ equity +ℤ gain }
{
    equity + gain
}
