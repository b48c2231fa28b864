//! The book of one product family.
ghost use Rattle.std.specs.Prelude.{◌≡◌, ◌≤◌, true};
ghost use Rattle.sweep.specs.Sweep.{all_of};
ghost use Rattle.rows.specs.Fits.{line_fits, row_fits};

use rows::table::Table;
use std::marker::PhantomData;
use terms::family::Family;

/// A book in a fixed block of memory. Its numbers stay within their limits.
#[derive(Drop)]
pub struct Book<F: Family> {
    pub table: Table,
    pub family: PhantomData<F>,
    ghost lines_fit: { all_of line_fits table.lines ≡ true },
    ghost rows_fit: { all_of row_fits table.accounts ≡ true },
    ghost count_in: { table.count ≤ 64 },
}
