//! What an event and a fixing find in the rows of a book, and what they make of them.
#![tactic(auto)]

pub mod credits;
pub mod entries;
pub mod fixes;
pub mod lines;
pub mod onset;
pub mod taking;
