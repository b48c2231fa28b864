//! The rows of a book: lines in their places, accounts with their lots, how they are found, and what
//! trade, mark and expiry make of one. The definitions of all calls are here too.
#![tactic(auto)]

pub mod account;
pub mod call;
pub mod clash;
pub mod gains;
pub mod names;
pub mod rows;
pub mod table;
