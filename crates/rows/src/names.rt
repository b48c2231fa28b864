//! A name that a call gives, as the book's family reads it.
ghost use Rattle.std.specs.Prelude.{◌≡◌, false};
ghost use Rattle.terms.specs.Refusals.{answer, first, Accepted};
ghost use Rattle.rows.specs.Names.{malformed, misfit, series_of, naming_refusals, is_standard};

use terms::code::{Code, Name, Prefix, Series};
use terms::family::Family;
use terms::refusal::Refusal;
use terms::right::Right;

// Where there is none: a call judges a name before it uses its series, and would unwrap an `Option` again.
const NO_SERIES: Series = Series {
    prefix: Prefix::NONE,
    level: 0,
    expiry: 0,
    right: Right::Without,
    strike: 0,
};

pub fn is_malformed<F: Family>(name: &Name) -> bool
    ensures { result ≡ malformed F.Family.answers name.now }
{
    name.code.level::<F>().is_none()
}

pub fn is_misfit<F: Family>(name: &Name) -> bool
    ensures { result ≡ misfit F.Family.answers name.now }
{
    !Right::try_from(name.right).is_ok_and(|right| F::fits(right, name.strike))
}

/// The series of a name that is neither malformed nor a misfit.
pub fn series_of<F: Family>(name: &Name) -> Series
    ensures { result ≡ series_of F.Family.answers name.now }
{
    match (name.code.level::<F>(), Right::try_from(name.right)) {
        (Some(level), Ok(right)) => Series {
            prefix: name.code.prefix,
            level,
            expiry: name.expiry,
            right,
            strike: name.strike,
        },
        _ => NO_SERIES,
    }
}

/// The series of a name, or why a call is refused that gives it with other numbers, which may be outside their
/// limits. (Not by `Name::read`: the other numbers are judged between the code and the right.)
pub fn named<F: Family>(name: &Name, is_outside: bool) -> Result<Series, Refusal>
    ensures refusal { answer result ≡ first (naming_refusals F.Family.answers name.now is_outside) }
    ensures series { Accepted result (λ s. s ≡ series_of F.Family.answers name.now) }
    ensures formed { Accepted result (λ s. malformed F.Family.answers name.now ≡ false) }
    ensures inside { Accepted result (λ s. is_outside ≡ false) }
    ensures fits { Accepted result (λ s. misfit F.Family.answers name.now ≡ false) }
{
    if is_malformed::<F>(name) {
        return Err(Refusal::Malformed);
    }
    if is_outside {
        return Err(Refusal::OutsideUnits);
    }
    if is_misfit::<F>(name) {
        return Err(Refusal::Misfit);
    }
    Ok(series_of::<F>(name))
}

/// Whether the code has the family's standard letter.
pub fn is_standard<F: Family>(code: &Code) -> bool
    ensures { result ≡ is_standard F.Family.answers code.now }
{
    code.prefix.is_well_formed() && char::from(code.letter) == F::standard_letter()
}
