//! One prefix with two stocks, or one stock with two prefixes.
ghost use Rattle.std.specs.Prelude.{◌≡◌};
ghost use Rattle.lookup.specs.Seek.{any_of};
ghost use Rattle.rows.specs.Listing.{clashes};

use crate::table::Place;
use terms::code::Prefix;

/// Whether a live line has the prefix with another stock, or the stock with another prefix.
pub fn any_clash(lines: &[Place], prefix: &Prefix, stock: u32) -> bool
    ensures { result ≡ any_of (clashes prefix.now stock) lines.now }
{
    lines.iter().any(|place| does_clash(place, prefix, stock))
}

/// Whether the line in a place has the prefix with another stock, or the stock with another prefix.
pub fn does_clash(place: &Place, prefix: &Prefix, stock: u32) -> bool
    ensures { result ≡ clashes prefix.now stock place.now }
{
    match place {
        Place::Free => false,
        Place::Taken(line) => (line.terms.series.prefix == *prefix) != (line.terms.stock == stock),
    }
}
