//! One change made to each row of a slice.
#![tactic(auto)]

ghost use Rattle.std.specs.Prelude.{◌≡◌, Bool, true, map};
ghost use Rattle.sweep.specs.Sweep.{all_of};

/// A change of a kind of row. (No closure: of one that changes what it is lent, the library says only that it was
/// called, and the proof of what becomes of the rows stays open.)
pub trait Change {
    type Row;

    // Rows that can be changed so.
    ghost can: { Self → Self.Row → Bool };

    // What becomes of a row.
    ghost makes: { Self → Self.Row → Self.Row };

    fn change(&self, row: &mut Self::Row)
        requires { can self.now row.old ≡ true }
        ensures { row.new ≡ makes self.now row.old };
}

/// Each row changed in its place.
#[tactic(auto, using(std::proofs::lemmas::List::Edits::map_over_more))]
pub fn change_all<C: Change>(rows: &mut [C::Row], change: &C)
    requires { all_of (C.Change.can change.now) rows.old ≡ true }
    ensures { rows.new ≡ map (C.Change.makes change.now) rows.old }
{
    for row in rows.iter_mut() {
        change.change(row);
    }
}
