//! Why a command has no answer. `Display` and `From` are by hand: the derives are another crate's, and each case has
//! words of its own, so that they would be no plainer.
use std::alloc::{AllocError, Global};
use std::{fmt, io};
use terms::refusal::Refusal;

#[derive(Debug, Drop)]
pub enum Fault {
    /// The command line says nothing that the program knows.
    Usage(String),
    /// An amount cannot be counted in its unit.
    Amount(String),
    Refused(Refusal),
    Memory,
    Output(io::Error),
}

/// The words say nothing: why, and which words ask for help.
pub(crate) fn usage<T>(
    heap: Global,
    help: &str,
    why: impl fmt::Display + Drop,
) -> Result<T, Fault> {
    Err(Fault::Usage(format!(in heap; "{why}\nTry 'sorchuqe {help}'.")?))
}

impl fmt::Display for Fault {
    fn fmt<W: fmt::Write>(&self, f: &mut fmt::Formatter<W>) -> fmt::Result {
        match self {
            Fault::Usage(text) => write!(f, "{text}"),
            Fault::Amount(text) => {
                let refused = Refused(Refusal::OutsideUnits);
                write!(f, "{refused}: {text}")
            }
            Fault::Refused(refusal) => {
                let refused = Refused(*refusal);
                write!(f, "{refused}")
            }
            Fault::Memory => f.write_str("out of memory"),
            Fault::Output(error) => write!(f, "{error}"),
        }
    }
}

// A refusal with its number.
#[derive(Clone, Copy)]
struct Refused(Refusal);

impl fmt::Display for Refused {
    fn fmt<W: fmt::Write>(&self, f: &mut fmt::Formatter<W>) -> fmt::Result {
        let Refused(refusal) = *self;
        let number = refusal.number();
        write!(f, "refused ({number}): {refusal}")
    }
}

impl From<Refusal> for Fault {
    fn from(refusal: Refusal) -> Fault {
        Fault::Refused(refusal)
    }
}

impl From<AllocError> for Fault {
    fn from(_error: AllocError) -> Fault {
        Fault::Memory
    }
}

impl From<io::Error> for Fault {
    fn from(error: io::Error) -> Fault {
        Fault::Output(error)
    }
}
