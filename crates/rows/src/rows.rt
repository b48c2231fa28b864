//! Rows of a book, and how they are found.
ghost use Rattle.std.specs.Prelude.{◌≡◌, ◌<◌, length, slice_index_or};
ghost use Rattle.rows.specs.declared.table.Place.TheVariants.{Free};
ghost use Rattle.rows.specs.Rows.{holds, may_hold, numbered, line_or};
ghost use Rattle.std.proofs.Common.{rules};

use crate::table::{Account, Line, Place};
use lookup::Keyed;
use terms::claim::Claim;
use terms::code::{Prefix, Series};
use terms::right::Right;
use terms::terms::Terms;

impl Keyed for Place {
    type Key = Option<Series>;

    ghost early = { may_hold };

    ghost has = { holds };

    ghost covers = { Prim.search rules };

    // By cases, here and below: a key made of each place would copy its series.
    fn may_have(&self, key: &Option<Series>) -> bool {
        match (self, key) {
            (Place::Taken(line), Some(series)) => line.terms.series.expiry == series.expiry,
            (Place::Free, None) => true,
            _ => false,
        }
    }

    fn has_key(&self, key: &Option<Series>) -> bool {
        match (self, key) {
            (Place::Taken(line), Some(series)) => line.terms.series == *series,
            (Place::Free, None) => true,
            _ => false,
        }
    }
}

impl Keyed for Account {
    type Key = u32;

    ghost early = { numbered };

    ghost has = { numbered };

    ghost covers = { Prim.search rules };

    fn may_have(&self, key: &u32) -> bool {
        self.has_key(key)
    }

    fn has_key(&self, key: &u32) -> bool {
        self.number == *key
    }
}

// Where there is none: a call asks for the line of a place that it has found, and would unwrap an `Option` again.
const NO_LINE: Line = Line {
    terms: Terms {
        series: Series {
            prefix: Prefix::NONE,
            level: 0,
            expiry: 0,
            right: Right::Without,
            strike: 0,
        },
        stock: 0,
        units: 0,
        strike_lot: 0,
        cash: 0,
        claim: Claim::Absent,
    },
    carry: 0,
};

/// The line in a place.
pub fn line_at(lines: &[Place], j: usize) -> Line
    requires { j < length lines.now }
    ensures { result ≡ line_or (slice_index_or lines.now j Free) }
{
    match lines[j] {
        Place::Taken(line) => line,
        Place::Free => NO_LINE,
    }
}
