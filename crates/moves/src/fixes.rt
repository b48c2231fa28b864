//! A claim fixed at the stock's close on its deadline.
ghost use Rattle.std.specs.Prelude.{◌≤◌};

use terms::units::{Cents, Day};

/// The open claims of a stock and deadline become dollars at the close.
#[derive(Clone, Copy)]
pub struct Fix {
    pub stock: u32,
    pub deadline: Day,
    pub close: Cents,
    ghost most: { close ≤ 1000000 },
}
