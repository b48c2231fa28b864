//! What a contract entitles its buyer to.
ghost use Rattle.std.specs.Prelude.{◌≡◌};
ghost use Rattle.std.specs.Option.{ok_or};
ghost use Rattle.terms.specs.Names.{right_of, right_number};
ghost use Rattle.terms.specs.declared.refusal.Refusal.TheVariants.{Misfit};

use crate::refusal::Refusal;

#[derive(Clone, Copy, PartialEq, Eq, Debug)]
pub enum Right {
    Without = 0,
    Call = 1,
    Put = 2,
}

/// The right that a call's number stands for.
impl TryFrom<u8> for Right {
    type Error = Refusal;

    ghost try_from_gives = { λ number r. r ≡ ok_or (right_of number) Misfit };

    fn try_from(number: u8) -> Result<Right, Refusal> {
        match number {
            0 => Ok(Right::Without),
            1 => Ok(Right::Call),
            2 => Ok(Right::Put),
            _ => Err(Refusal::Misfit),
        }
    }
}

/// The number that a call gives for a right.
impl From<Right> for u8 {
    ghost from_gives = { λ right number. number ≡ right_number right };

    fn from(right: Right) -> u8 {
        right as u8
    }
}
