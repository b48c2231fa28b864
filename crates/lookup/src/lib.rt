//! The first row of a slice that has a key.
#![tactic(auto)]

ghost use Rattle.std.specs.Prelude.{◌≡◌, Bool, true, false, None};
ghost use Rattle.lookup.specs.Seek.{sought, any_of, First};

/// A kind of row that has a key.
pub trait Keyed {
    type Key;

    // What the early comparison says of a row.
    ghost early: { Self.Key → Self → Bool };

    // Whether a row has the key.
    ghost has: { Self.Key → Self → Bool };

    /// An early comparison, cheaper than `has_key`: false only where the row's key differs.
    fn may_have(&self, key: &Self::Key) -> bool
        ensures { result ≡ early key.now self.now };

    /// Whether the row has the key.
    fn has_key(&self, key: &Self::Key) -> bool
        ensures { result ≡ has key.now self.now };

    // The early comparison passes over only rows whose key differs.
    ghost covers: { (key : Self.Key) (row : Self) → has key row ≡ true → early key row ≡ true };
}

/// The index of the first row that has the key, or `None` where no row has it.
pub fn find<R: Keyed>(rows: &[R], key: &R::Key) -> Option<usize>
    ensures first { result ≡ sought (R.Keyed.has key.now) rows.now }
    ensures none { result ≡ None → any_of (R.Keyed.has key.now) rows.now ≡ false }
    ensures relation { First (R.Keyed.has key.now) rows.now result }
{
    rows.iter().position(|row| matches(row, key))
}

// Asks the late comparison only where the early one passes.
fn matches<R: Keyed>(row: &R, key: &R::Key) -> bool
    ensures { result ≡ R.Keyed.has key.now row.now }
{
    row.may_have(key) && row.has_key(key)
}

#[cfg(test)]
mod tests;
