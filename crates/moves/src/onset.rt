//! An event on its day.
ghost use Rattle.std.specs.Prelude.{◌≡◌, ◌≤◌, false};
ghost use Rattle.terms.specs.Events.{event_outside, ill_formed};

use terms::event::Event;
use terms::units::Day;

/// A well-formed event within its units, on the day when it takes effect.
#[derive(Clone, Copy)]
pub struct Onset {
    pub day: Day,
    pub event: Event,
    ghost inside: { event_outside event ≡ false },
    ghost whole: { ill_formed event ≡ false },
    ghost numbered: { event.successor.stock ≤ 4294967295 },
}
