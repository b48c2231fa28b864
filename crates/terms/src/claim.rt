//! The claim of a lot on a subscription right.
ghost use Rattle.std.specs.Prelude.{◌≡◌};
ghost use Rattle.terms.specs.Claims.{claim_dollars, subscription_dollars, awaits, unfixed};

use crate::units::{Cents, DOLLAR, Day, Dollars, ShareUnits};

#[derive(Clone, Copy, PartialEq, Eq, Debug)]
pub enum Claim {
    Absent,
    /// On so many share units, at the subscription price, until the payment deadline.
    Open {
        units: ShareUnits,
        price: Cents,
        deadline: Day,
    },
    Fixed {
        dollars: Dollars,
    },
}

impl Claim {
    /// What the claim is worth in dollars when the stock closes at `close`.
    pub fn dollars_at(&self, close: Cents) -> u64
        ensures { result ≡ claim_dollars close self.now }
    {
        match *self {
            Claim::Absent => 0,
            Claim::Open { units, price, .. } => subscribed(units, price, close),
            Claim::Fixed { dollars } => u64::from(dollars),
        }
    }

    /// Whether the claim is open with this payment deadline.
    pub fn awaits(&self, payment: Day) -> bool
        ensures { result ≡ awaits payment self.now }
    {
        matches!(*self, Claim::Open { deadline, .. } if deadline == payment)
    }

    /// Whether the claim is open though its deadline is not later than the expiry.
    pub fn is_unfixed(&self, expiry: Day) -> bool
        ensures { result ≡ unfixed expiry self.now }
    {
        matches!(*self, Claim::Open { deadline, .. } if deadline <= expiry)
    }
}

// What the subscribed shares are worth above their price, the fraction of a dollar dropped.
fn subscribed(units: ShareUnits, price: Cents, close: Cents) -> u64
    ensures { result ≡ subscription_dollars close units price }
{
    u64::from(close.saturating_sub(price)) * u64::from(units) / DOLLAR
}
