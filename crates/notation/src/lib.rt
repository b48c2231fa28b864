//! How the numbers and dates of a contract book are read from text and written as text.
#![tactic(auto)]

mod dates;
mod numbers;
#[cfg(test)]
mod tests;

pub use dates::{Date, read_date};
pub use numbers::{Decimal, Misread, read_decimal};
