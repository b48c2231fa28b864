//! How a family reads a name.
ghost use Rattle.std.specs.Prelude.{◌≡◌, Some};
ghost use Rattle.terms.specs.Refusals.{answer, first, Accepted};
ghost use Rattle.terms.specs.Reading.{code_level, name_refusals, series_named};

use crate::code::{Code, Name, Series};
use crate::family::Family;
use crate::refusal::Refusal;
use crate::right::Right;
use crate::units;

impl Code {
    /// The level that the letter stands for, none where the code is malformed. (By an `if`:
    /// `then` would give an `Option` of an `Option`.)
    pub fn level<F: Family>(&self) -> Option<u8>
        ensures { result ≡ code_level F.Family.answers self.now }
    {
        if self.prefix.is_well_formed() {
            F::level(char::from(self.letter))
        } else {
            None
        }
    }
}

impl Name {
    /// The series that the name stands for.
    pub fn read<F: Family>(&self) -> Result<Series, Refusal>
        ensures refusal { answer result ≡ first (name_refusals F.Family.answers self.now) }
        ensures value { Accepted result (λ s. Some s ≡ series_named F.Family.answers self.now) }
    {
        let level = self.code.level::<F>().ok_or(Refusal::Malformed)?;
        if !units::is_day(self.expiry) {
            return Err(Refusal::OutsideUnits);
        }
        let right = Right::try_from(self.right)?;
        if !F::fits(right, self.strike) {
            return Err(Refusal::Misfit);
        }
        Ok(Series {
            prefix: self.code.prefix,
            level,
            expiry: self.expiry,
            right,
            strike: self.strike,
        })
    }
}
