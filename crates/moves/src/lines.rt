//! What an adjustment and a fixing make of the line in a place.
ghost use Rattle.std.specs.Prelude.{◌≡◌, ◌≤◌, true, map};
ghost use Rattle.lookup.specs.Seek.{any_of};
ghost use Rattle.sweep.specs.Sweep.{all_of};
ghost use Rattle.terms.specs.Claims.{claim_fits, claim_dollars};
ghost use Rattle.rows.specs.Fits.{line_fits};
ghost use Rattle.rows.specs.Adjustment.{place_adjusted};
ghost use Rattle.rows.specs.Fixing.{fixes, is_fixed, place_fixed};

use crate::fixes::Fix;
use crate::onset::Onset;
use rows::table::Place;
use std::marker::PhantomData;
use sweep::{Change, change_all};
use terms::claim::Claim;
use terms::family::Family;
use terms::terms::Terms;
use terms::units::{Cents, Dollars};

/// A line that the event takes in becomes what the event makes of it.
#[derive(Drop)]
struct Moves<F: Family> {
    onset: Onset,
    family: PhantomData<F>,
}

// (A type and no closure, as `sweep::Change` says.)
impl<F: Family> Change for Moves<F> {
    type Row = Place;

    ghost can = { λ _. line_fits };

    ghost makes = { λ s. place_adjusted F.Family.answers s.onset.day s.onset.event };

    fn change(&self, place: &mut Place) {
        if let Place::Taken(line) = place {
            if line.terms.is_taken_in(self.onset.day, &self.onset.event) {
                line.terms = line.terms.after::<F>(&self.onset.event).terms;
            }
        }
    }
}

impl Onset {
    /// Every line that the event takes in becomes what the event makes of it.
    pub fn move_lines<F: Family>(&self, lines: &mut [Place])
        requires { all_of line_fits lines.old ≡ true }
        ensures { lines.new ≡ map (place_adjusted F.Family.answers self.now.day self.now.event) lines.old }
    {
        let moves = Moves::<F> {
            onset: *self,
            family: PhantomData,
        };
        change_all(lines, &moves);
    }
}

impl Fix {
    /// Whether there is a claim to fix.
    pub fn reaches_any(&self, lines: &[Place]) -> bool
        ensures { result ≡ any_of (is_fixed self.now.stock self.now.deadline) lines.now }
    {
        lines.iter().any(|place| self.reaches_into(place))
    }

    /// Every claim that it reaches becomes dollars.
    pub fn fix_lines(&self, lines: &mut [Place])
        requires { all_of line_fits lines.old ≡ true }
        ensures { lines.new ≡ map (place_fixed self.now.stock self.now.deadline self.now.close) lines.old }
    {
        change_all(lines, self);
    }

    fn reaches_into(&self, place: &Place) -> bool
        ensures { result ≡ is_fixed self.now.stock self.now.deadline place.now }
    {
        matches!(place, Place::Taken(line) if self.reaches(&line.terms))
    }

    fn reaches(&self, terms: &Terms) -> bool
        ensures { result ≡ fixes self.now.stock self.now.deadline terms.now }
    {
        terms.stock == self.stock
            && self.deadline <= terms.series.expiry
            && terms.claim.awaits(self.deadline)
    }
}

// (A type and no closure, as `sweep::Change` says.)
impl Change for Fix {
    type Row = Place;

    ghost can = { λ _. line_fits };

    ghost makes = { λ s. place_fixed s.stock s.deadline s.close };

    fn change(&self, place: &mut Place) {
        if let Place::Taken(line) = place {
            if self.reaches(&line.terms) {
                let dollars = dollars_of(&line.terms.claim, self.close);
                line.terms.claim = Claim::Fixed { dollars };
            }
        }
    }
}

/// What a claim within its units is worth at a close. (By `as`: it fits, as the check proves.)
pub fn dollars_of(claim: &Claim, close: Cents) -> Dollars
    requires { (claim_fits claim.now ≡ true) × (close ≤ 1000000) }
    ensures { result ≡ claim_dollars close claim.now }
{
    claim.dollars_at(close) as Dollars
}
