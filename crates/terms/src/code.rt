//! Codes and names, as a call gives them and as a line bears them.
ghost use Rattle.std.specs.Prelude.{◌≡◌};
ghost use Rattle.terms.specs.Names.{is_capital, is_prefix, no_prefix};

use crate::right::Right;
use crate::units::{Cents, Day};
use std::fmt;

/// The two capitals that a stock's codes begin with.
#[derive(Clone, Copy, PartialEq, Eq, Debug)]
pub struct Prefix {
    pub first: u8,
    pub second: u8,
}

/// A prefix and the letter that says how often the contract has been adjusted.
#[derive(Clone, Copy, PartialEq, Eq, Debug)]
pub struct Code {
    pub prefix: Prefix,
    pub letter: u8,
}

/// A name as a call gives it: nothing of it is judged yet.
#[derive(Clone, Copy, PartialEq, Eq, Debug)]
pub struct Name {
    pub code: Code,
    pub expiry: Day,
    pub right: u8,
    pub strike: Cents,
}

/// The name of a line: its letter read as a level, its right as what it means.
#[derive(Clone, Copy, PartialEq, Eq, Debug)]
pub struct Series {
    pub prefix: Prefix,
    pub level: u8,
    pub expiry: Day,
    pub right: Right,
    pub strike: Cents,
}

impl Prefix {
    /// No prefix, as where an event names none. (No `Option`: one letter may be given without the other,
    /// which is refused.)
    pub const NONE: Prefix = Prefix {
        first: 0,
        second: 0,
    };

    /// Whether both are capitals.
    pub fn is_well_formed(&self) -> bool
        ensures { result ≡ is_prefix self.now }
    {
        is_capital(self.first) && is_capital(self.second)
    }

    /// Whether both bytes are 0, as where an event names no prefix.
    pub(crate) fn is_absent(&self) -> bool
        ensures { result ≡ no_prefix self.now }
    {
        *self == Prefix::NONE
    }
}

fn is_capital(byte: u8) -> bool
    ensures { result ≡ is_capital byte }
{
    byte.is_ascii_uppercase()
}

impl fmt::Display for Prefix {
    fn fmt<W: fmt::Write>(&self, f: &mut fmt::Formatter<W>) -> fmt::Result {
        let first = char::from(self.first);
        let second = char::from(self.second);
        write!(f, "{first}{second}")
    }
}
