//! What an event finds in the places of a book.
//! That lines and accounts are within their limits is a clause here and in the modules beside, and no ghost
//! field of theirs: an event makes a line and a trade two accounts, and only then are they judged.
ghost use Rattle.std.specs.Prelude.{◌≡◌, true, not, ◌&&◌};
ghost use Rattle.lookup.specs.Seek.{any_of};
ghost use Rattle.sweep.specs.Sweep.{all_of, how_many};
ghost use Rattle.terms.specs.Events.{no_successor};
ghost use Rattle.rows.specs.Fits.{line_fits};
ghost use Rattle.rows.specs.Adjustment.{taken_in, left_out, lapsed, contradicts, bears, claim_stands, meets, level_passes, lot_leaves};

use crate::onset::Onset;
use lookup::Keyed;
use rows::clash::does_clash;
use rows::table::Place;
use terms::code::Series;
use terms::family::Family;
use terms::units::LAST_LEVEL;

impl Onset {
    /// How many lines the event takes in.
    pub fn lines_taken_in(&self, lines: &[Place]) -> usize
        ensures { result ≡ how_many (taken_in self.now.day self.now.event) lines.now }
    {
        lines.iter().filter(|place| self.takes_in(place)).count()
    }

    /// Whether the new name of a line taken in is that of a line left out.
    pub fn meets_a_name<F: Family>(&self, lines: &[Place]) -> bool
        requires { all_of line_fits lines.now ≡ true }
        ensures { result ≡ any_of (meets F.Family.answers self.now.day self.now.event lines.now) lines.now }
    {
        lines.iter().any(|place| self.meets::<F>(place, lines))
    }

    /// Whether there is a new stock that a line left out contradicts.
    pub fn contradicts_a_stock(&self, lines: &[Place]) -> bool
        ensures { result ≡ (not (no_successor self.now.event.successor) && any_of (contradicts self.now.day self.now.event) lines.now) }
    {
        !self.event.successor.is_absent() && self.contradicts_any(lines)
    }

    fn contradicts_any(&self, lines: &[Place]) -> bool
        ensures { result ≡ any_of (contradicts self.now.day self.now.event) lines.now }
    {
        lines.iter().any(|place| self.contradicts(place))
    }

    /// Whether a line of the stock expired before the day.
    pub fn finds_a_lapsed(&self, lines: &[Place]) -> bool
        ensures { result ≡ any_of (lapsed self.now.day self.now.event) lines.now }
    {
        lines.iter().any(|place| self.finds_lapsed(place))
    }

    /// Whether a line taken in would pass the last level.
    pub fn passes_a_level<F: Family>(&self, lines: &[Place]) -> bool
        requires { all_of line_fits lines.now ≡ true }
        ensures { result ≡ any_of (level_passes F.Family.answers self.now.day self.now.event) lines.now }
    {
        lines.iter().any(|place| self.passes_the_level::<F>(place))
    }

    /// Whether the lot of a line taken in would leave its limits.
    pub fn leaves_a_limit<F: Family>(&self, lines: &[Place]) -> bool
        requires { all_of line_fits lines.now ≡ true }
        ensures { result ≡ any_of (lot_leaves F.Family.answers self.now.day self.now.event) lines.now }
    {
        lines.iter().any(|place| self.leaves_the_limits::<F>(place))
    }

    /// Whether the claim of a line taken in is in the way.
    pub fn meets_a_claim(&self, lines: &[Place]) -> bool
        ensures { result ≡ any_of (claim_stands self.now.day self.now.event) lines.now }
    {
        lines.iter().any(|place| self.finds_a_claim(place))
    }
}

// What the event finds in one place. By cases in each: an `Option` of what becomes of the line would need a
// definition of its own.
impl Onset {
    // Whether it takes in the line in the place.
    fn takes_in(&self, place: &Place) -> bool
        ensures { result ≡ taken_in self.now.day self.now.event place.now }
    {
        matches!(place, Place::Taken(line) if line.terms.is_taken_in(self.day, &self.event))
    }

    fn leaves_out(&self, place: &Place) -> bool
        ensures { result ≡ left_out self.now.day self.now.event place.now }
    {
        matches!(place, Place::Taken(line) if !line.terms.is_taken_in(self.day, &self.event))
    }

    fn finds_lapsed(&self, place: &Place) -> bool
        ensures { result ≡ lapsed self.now.day self.now.event place.now }
    {
        let stock = self.event.stock;
        matches!(place, Place::Taken(line) if line.terms.stock == stock && line.terms.series.expiry < self.day)
    }

    fn contradicts(&self, place: &Place) -> bool
        ensures { result ≡ contradicts self.now.day self.now.event place.now }
    {
        let new = &self.event.successor;
        self.leaves_out(place) && does_clash(place, &new.prefix, new.stock)
    }

    fn bears(&self, series: &Series, place: &Place) -> bool
        ensures { result ≡ bears self.now.day self.now.event series.now place.now }
    {
        self.leaves_out(place) && place.has_key(&Some(*series))
    }

    fn any_bears(&self, series: &Series, lines: &[Place]) -> bool
        ensures { result ≡ any_of (bears self.now.day self.now.event series.now) lines.now }
    {
        lines.iter().any(|place| self.bears(series, place))
    }

    fn meets<F: Family>(&self, place: &Place, lines: &[Place]) -> bool
        requires { line_fits place.now ≡ true }
        ensures { result ≡ meets F.Family.answers self.now.day self.now.event lines.now place.now }
    {
        match place {
            Place::Taken(line) if line.terms.is_taken_in(self.day, &self.event) => {
                let series = line.terms.after::<F>(&self.event).terms.series;
                self.any_bears(&series, lines)
            }
            _ => false,
        }
    }

    fn passes_the_level<F: Family>(&self, place: &Place) -> bool
        requires { line_fits place.now ≡ true }
        ensures { result ≡ level_passes F.Family.answers self.now.day self.now.event place.now }
    {
        match place {
            Place::Taken(line) if line.terms.is_taken_in(self.day, &self.event) => {
                line.terms.after::<F>(&self.event).terms.series.level > LAST_LEVEL
            }
            _ => false,
        }
    }

    fn leaves_the_limits<F: Family>(&self, place: &Place) -> bool
        requires { line_fits place.now ≡ true }
        ensures { result ≡ lot_leaves F.Family.answers self.now.day self.now.event place.now }
    {
        match place {
            Place::Taken(line) if line.terms.is_taken_in(self.day, &self.event) => {
                let after = line.terms.after::<F>(&self.event);
                after.terms.has_misfit_lot::<F>()
            }
            _ => false,
        }
    }

    fn finds_a_claim(&self, place: &Place) -> bool
        ensures { result ≡ claim_stands self.now.day self.now.event place.now }
    {
        match place {
            Place::Free => false,
            Place::Taken(line) => line.terms.is_taken_in(self.day, &self.event)
                && line.terms.has_claim_in_the_way(&self.event),
        }
    }
}
