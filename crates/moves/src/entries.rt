//! What an event books to the lots in each place.
ghost use Rattle.std.specs.Prelude.{◌≡◌, true};
ghost use Rattle.sweep.specs.Sweep.{all_of};
ghost use Rattle.rows.specs.Fits.{entry_fits};

use rows::table::PLACES;
use terms::units::Dollars;

/// Dollars for each bought lot, by place as the lots of an account are, in a fixed block of memory.
#[derive(Clone, Copy)]
pub struct Entries {
    pub dollars: [Dollars; PLACES],
    ghost small: { all_of entry_fits dollars ≡ true },
}
