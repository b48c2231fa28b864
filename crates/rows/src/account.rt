//! The signed arithmetic of one account's row.
ghost use Rattle.std.specs.Prelude.{◌≡◌, ◌<◌, ◌≤◌, ◌||◌, true, pos, ◌+ℤ◌, ◌*ℤ◌, neg_ℤ, unsigned_abs};
ghost use Rattle.rows.specs.Rows.{lots_in};
ghost use Rattle.rows.specs.Fits.{past, can_gain};
ghost use Rattle.rows.specs.Trade.{change, traded};

use crate::gains::Gain;
use crate::table::Account;
use terms::units::{MOST_EQUITY, MOST_LOTS, Micros};

/// The equity after a gain of `lots` times `to - from`. By numbers and no `Gain`: the dollars of an event move an
/// equity too, and are of no one place.
pub fn moved(equity: i64, lots: i32, from: Micros, to: Micros) -> i64
    requires held { unsigned_abs equity ≤ 4000000000000000000 }
    requires few { unsigned_abs lots ≤ 4000 }
    requires old { from ≤ 1000000000000000 }
    requires new { to ≤ 1000000000000000 }
    ensures { result ≡ equity +ℤ (lots *ℤ change from to) }
{
    // By `as`: it fits, as the check proves, and `try_from` would answer an error that never comes.
    let by = to as i64 - from as i64;
    let part = i64::from(lots) * by;
    equity + part
}

// So many more lots, or fewer.
fn more(lots: i32, by: i32) -> i32
    requires { (unsigned_abs lots ≤ 4000) × (unsigned_abs by ≤ 4000) }
    ensures { result ≡ lots +ℤ by }
{
    lots + by
}

pub fn is_too_much(equity: i64) -> bool
    ensures { result ≡ past 4000000000000000000 equity }
{
    equity > MOST_EQUITY || equity < -MOST_EQUITY
}

impl Account {
    // Two names for `trades`, so that no caller writes a sign. (That lots are few is a clause: the `u16` of a call
    // is judged before it comes here.)

    /// The row after a purchase at `gain.from` in a line that is carried at `gain.to`.
    pub fn buys(&self, lots: u16, gain: &Gain) -> Account
        requires few { lots ≤ 4000 }
        requires fits { can_gain gain.now.place self.now ≡ true }
        ensures { result ≡ traded gain.now.place (pos lots) (pos lots *ℤ change gain.now.from gain.now.to) self.now }
    {
        self.trades(i32::from(lots), lots, gain)
    }

    /// The row after a sale at `gain.to` in a line that is carried at `gain.from`.
    pub fn sells(&self, lots: u16, gain: &Gain) -> Account
        requires few { lots ≤ 4000 }
        requires fits { can_gain gain.now.place self.now ≡ true }
        ensures { result ≡ traded gain.now.place (neg_ℤ (pos lots)) (pos lots *ℤ change gain.now.from gain.now.to) self.now }
    {
        self.trades(-i32::from(lots), lots, gain)
    }

    // The row with more lots in the place, or fewer, and a gain on so many lots.
    fn trades(&self, by: i32, lots: u16, gain: &Gain) -> Account
        requires step { unsigned_abs by ≤ 4000 }
        requires few { lots ≤ 4000 }
        requires fits { can_gain gain.now.place self.now ≡ true }
        ensures { result ≡ traded gain.now.place by (pos lots *ℤ change gain.now.from gain.now.to) self.now }
    {
        let mut row = *self;
        row.lots[gain.place] = more(self.lots[gain.place], by);
        row.equity = moved(self.equity, i32::from(lots), gain.from, gain.to);
        row
    }

    fn has_too_many(&self, j: usize) -> bool
        requires { j < 48 }
        ensures { result ≡ past 4000 (lots_in j self.now) }
    {
        self.lots[j].unsigned_abs() > u32::from(MOST_LOTS)
    }

    fn has_too_much(&self) -> bool
        ensures { result ≡ past 4000000000000000000 self.now.equity }
    {
        is_too_much(self.equity)
    }
}

// Of two accounts, here and below, as a trade judges both before it writes either.

pub fn either_has_too_many(a: &Account, b: &Account, j: usize) -> bool
    requires { j < 48 }
    ensures { result ≡ (past 4000 (lots_in j a.now) || past 4000 (lots_in j b.now)) }
{
    a.has_too_many(j) || b.has_too_many(j)
}

pub fn either_has_too_much(a: &Account, b: &Account) -> bool
    ensures { result ≡ (past 4000000000000000000 a.now.equity || past 4000000000000000000 b.now.equity) }
{
    a.has_too_much() || b.has_too_much()
}
