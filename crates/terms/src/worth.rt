//! What a lot is worth at a price.
ghost use Rattle.std.specs.Prelude.{◌≡◌, ◌*◌, ◌^◌, ◌<◌};
ghost use Rattle.terms.specs.Worth.{worth_before, worth_after};

use crate::adjust::Adjusted;
use crate::terms::Terms;
use crate::units::{Cents, DOLLAR, Dollars};

impl Terms {
    /// The shares at a price and the cash in the lot, in micros.
    pub fn worth(&self, price: Cents) -> u128
        ensures value { result ≡ worth_before price self.now }
        ensures most { result < 2 ^ 100 }
    {
        u128::from(price) * u128::from(self.units) + micros(self.cash)
    }
}

impl Adjusted {
    /// The same after an event, with the cash that was booked to the buyer.
    pub fn worth(&self, price: Cents) -> u128
        ensures { result ≡ worth_after price self.now }
    {
        self.terms.worth(price) + micros(self.booked)
    }
}

fn micros(dollars: Dollars) -> u128
    ensures { result ≡ dollars * 1000000 }
{
    u128::from(dollars) * u128::from(DOLLAR)
}
