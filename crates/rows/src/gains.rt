//! A gain of each lot in a place, and what it makes of accounts. That an account can gain is a clause, and no
//! ghost field of `Account`: a trade makes two accounts and only then judges them.
ghost use Rattle.std.specs.Prelude.{◌≡◌, ℕ, ◌<◌, ◌≤◌, true, map, length, slice_index_or, ◌+ℤ◌, ◌*ℤ◌};
ghost use Rattle.lookup.specs.Seek.{any_of};
ghost use Rattle.sweep.specs.Sweep.{all_of};
ghost use Rattle.rows.specs.Rows.{lots_in, no_account};
ghost use Rattle.rows.specs.Fits.{can_gain};
ghost use Rattle.rows.specs.Held.{Held};
ghost use Rattle.rows.specs.Trade.{change};
ghost use Rattle.rows.specs.Mark.{gained, gains_past};
ghost use Rattle.rows.specs.Expiry.{closed};

use crate::account::{is_too_much, moved};
use crate::table::Account;
use sweep::{Change, change_all};
use terms::units::Micros;

/// Each lot in a place gains what `to` is above `from`.
#[derive(Clone, Copy)]
pub struct Gain {
    pub place: usize,
    pub from: Micros,
    pub to: Micros,
    ghost within: { place < 48 },
    ghost old: { from ≤ 1000000000000000 },
    ghost new: { to ≤ 1000000000000000 },
}

impl Gain {
    /// The equity of an account once its lots have gained.
    pub fn equity_of(&self, account: &Account) -> i64
        requires { can_gain self.now.place account.now ≡ true }
        ensures { result ≡ account.now.equity +ℤ (lots_in self.now.place account.now *ℤ change self.now.from self.now.to) }
    {
        moved(account.equity, account.lots[self.place], self.from, self.to)
    }

    /// Whether that equity passes its limit.
    pub fn is_too_much_for(&self, account: &Account) -> bool
        requires { can_gain self.now.place account.now ≡ true }
        ensures { result ≡ gains_past self.now.place (change self.now.from self.now.to) account.now }
    {
        is_too_much(self.equity_of(account))
    }

    /// Whether some account's equity would pass its limit.
    pub fn passes_a_limit(&self, accounts: &[Account]) -> bool
        requires { all_of (can_gain self.now.place) accounts.now ≡ true }
        ensures { result ≡ any_of (gains_past self.now.place (change self.now.from self.now.to)) accounts.now }
    {
        accounts.iter().any(|account| self.is_too_much_for(account))
    }

    /// Each account gains.
    pub fn give(&self, accounts: &mut [Account])
        requires { all_of (can_gain self.now.place) accounts.old ≡ true }
        ensures { accounts.new ≡ map (gained self.now.place (change self.now.from self.now.to)) accounts.old }
    {
        change_all(accounts, self);
    }

    /// Each account gains for the last time, and has no more lots in the place.
    pub fn give_last(&self, accounts: &mut [Account])
        requires { all_of (can_gain self.now.place) accounts.old ≡ true }
        ensures { accounts.new ≡ map (closed self.now.place (change self.now.from self.now.to)) accounts.old }
    {
        change_all(accounts, &Closing { gain: *self });
    }
}

// (A type and no closure, as `sweep::Change` says.)
impl Change for Gain {
    type Row = Account;

    ghost can = { λ s. can_gain s.place };

    ghost makes = { λ s. gained s.place (change s.from s.to) };

    fn change(&self, account: &mut Account) {
        account.equity = self.equity_of(account);
    }
}

/// The last gain of a place: its lots are gone.
#[derive(Drop)]
struct Closing {
    gain: Gain,
}

// (A type and no closure, as `sweep::Change` says.)
impl Change for Closing {
    type Row = Account;

    ghost can = { λ s. can_gain s.gain.place };

    ghost makes = { λ s. closed s.gain.place (change s.gain.from s.gain.to) };

    fn change(&self, account: &mut Account) {
        self.gain.change(account);
        account.lots[self.gain.place] = 0;
    }
}

/// Whether some account's equity would pass its limit, were each lot in a place to gain: for any numbers where there
/// are no accounts.
pub fn any_gains_too_much(rows: &[Account], j: usize, from: u64, to: u64) -> bool
    requires { (j < 48) × (((i : ℕ) → i < length rows.now → Held (slice_index_or rows.now i no_account) j from to)) }
    ensures { result ≡ any_of (gains_past j (change from to)) rows.now }
{
    !rows.is_empty() && Gain { place: j, from, to }.passes_a_limit(rows)
}

/// Each lot in a place gains, for any numbers where there are no accounts.
pub fn gain_all(rows: &mut [Account], j: usize, from: u64, to: u64)
    requires { (j < 48) × (((i : ℕ) → i < length rows.old → Held (slice_index_or rows.old i no_account) j from to)) }
    ensures { rows.new ≡ map (gained j (change from to)) rows.old }
{
    if !rows.is_empty() {
        Gain { place: j, from, to }.give(rows);
    }
}
