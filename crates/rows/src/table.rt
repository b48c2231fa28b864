//! The rows of a book.
use terms::terms::Terms;
use terms::units::{Day, Micros};

/// The places for live lines.
pub const PLACES: usize = 48;

/// The rows for accounts.
pub const ROWS: usize = 64;

/// A live line: its terms, and the value at which each lot is already counted in the equities.
#[derive(Clone, Copy, PartialEq, Eq, Debug)]
pub struct Line {
    pub terms: Terms,
    pub carry: Micros,
}

/// An account: its equity in micros, and its lots in each place, below zero where they are sold.
/// A row that is not in use has number 0, no equity and no lots.
#[derive(Clone, Copy, PartialEq, Eq, Debug)]
pub struct Account {
    pub number: u32,
    pub equity: i64,
    pub lots: [i32; PLACES],
}

/// A place for a live line. (Not an `Option`, since a place has a key, and `Keyed` is another crate's trait.)
#[derive(Clone, Copy, PartialEq, Eq, Debug)]
pub enum Place {
    Free,
    Taken(Line),
}

/// A book's rows, the number of open accounts and the day of the last accepted call. Arrays, with the number
/// of rows in use beside them, and lots by the place of their line: a book is a fixed block of memory.
#[derive(Clone, Copy, PartialEq, Eq, Debug)]
pub struct Table {
    pub lines: [Place; PLACES],
    pub accounts: [Account; ROWS],
    pub count: usize,
    pub day: Day,
}
