//! What one lot of a line stands for.
use crate::right::Right;
use crate::units::{Cents, Dollars, ShareUnits};

/// All that a family needs to know of a line to value a lot of it.
#[derive(Clone, Copy, PartialEq, Eq, Debug)]
pub struct Lot {
    pub right: Right,
    pub strike: Cents,
    pub units: ShareUnits,
    pub strike_lot: ShareUnits,
    pub cash: Dollars,
}
