//! The reference price: what a price becomes on the day of an event.
ghost use Rattle.std.specs.Prelude.{◌≡◌, ◌≤◌};
ghost use Rattle.terms.specs.Refusals.{answer, first, Accepted};
ghost use Rattle.terms.specs.Reference.{nearest, reference, reference_refusals};

use crate::refusal::Refusal;
use crate::units;
use crate::units::{Billionths, CashPerShare, Cents};

/// The price less the cash, divided by the ratio, to the nearest cent.
pub fn reference_price(
    price: Cents,
    cash: CashPerShare,
    ratio: Billionths,
) -> Result<Cents, Refusal>
    ensures refusal { answer result ≡ first (reference_refusals price cash ratio) }
    ensures value { Accepted result (λ cents. cents ≡ reference price cash ratio) }
{
    if !(units::is_price(price) && units::is_cash(cash) && units::is_ratio(ratio)) {
        return Err(Refusal::OutsideUnits);
    }
    let millionths = u64::from(price) * 10_000;
    let cash = u64::from(cash);
    if millionths <= cash {
        return Err(Refusal::NoReferencePrice);
    }
    match Cents::try_from(rounded((millionths - cash) * 100_000, ratio)) {
        Ok(cents) if units::is_price(cents) => Ok(cents),
        _ => Err(Refusal::NoReferencePrice),
    }
}

// A quotient to the nearest whole number, halves up.
fn rounded(n: u64, d: u64) -> u64
    requires { (n ≤ 1000000000000000) × ((1 ≤ d) × (d ≤ 10000000000)) }
    ensures { result ≡ nearest n d }
{
    (2 * n + d) / (2 * d)
}
