//! The contract book of one product family: the seven calls that change it, and the questions.
#![tactic(auto)]

mod adjustment;
pub mod book;
mod dispatch;
mod expiry;
mod fixing;
mod listing;
mod mark;
mod opening;
mod questions;
mod trade;

pub use rows::{call, table};
