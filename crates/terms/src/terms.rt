//! The terms of a line.
ghost use Rattle.std.specs.Prelude.{◌≡◌};
ghost use Rattle.terms.specs.Claims.{claim_fits};
ghost use Rattle.terms.specs.Terms.{series_fits, terms_fit, lot_of};

use crate::claim::Claim;
use crate::code::Series;
use crate::lot::Lot;
use crate::units;
use crate::units::{Dollars, ShareUnits};

#[derive(Clone, Copy, PartialEq, Eq, Debug)]
pub struct Terms {
    pub series: Series,
    pub stock: u32,
    /// The shares of a lot.
    pub units: ShareUnits,
    /// The shares that the strike is paid for: those of the listing.
    pub strike_lot: ShareUnits,
    /// The dollars kept in a lot.
    pub cash: Dollars,
    pub claim: Claim,
}

impl Terms {
    /// Whether every number of the terms is within its unit.
    pub fn is_within_units(&self) -> bool
        ensures { result ≡ terms_fit self.now }
    {
        self.series.is_within_units()
            && units::is_number(self.stock)
            && units::is_units(self.units)
            && units::is_units(self.strike_lot)
            && self.cash <= units::LARGEST_LOT_CASH
            && self.claim.is_within_units()
    }

    /// What a family values of the line.
    pub fn lot(&self) -> Lot
        ensures { result ≡ lot_of self.now }
    {
        Lot {
            right: self.series.right,
            strike: self.series.strike,
            units: self.units,
            strike_lot: self.strike_lot,
            cash: self.cash,
        }
    }
}

impl Series {
    fn is_within_units(&self) -> bool
        ensures { result ≡ series_fits self.now }
    {
        self.level <= units::LAST_LEVEL
            && units::is_day(self.expiry)
            && self.strike <= units::LARGEST_PRICE
    }
}

impl Claim {
    fn is_within_units(&self) -> bool
        ensures { result ≡ claim_fits self.now }
    {
        match *self {
            Claim::Absent => true,
            Claim::Open {
                units,
                price,
                deadline,
            } => {
                units <= units::LARGEST_UNITS && units::is_price(price) && units::is_day(deadline)
            }
            Claim::Fixed { dollars } => dollars <= units::LARGEST_CLAIM,
        }
    }
}
