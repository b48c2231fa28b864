//! The ground of the contract book: units, codes and names, refusals, events, claims, product
//! families, the reference price, and what one event makes of one line.
#![tactic(auto)]

pub mod adjust;
pub mod claim;
pub mod code;
pub mod event;
pub mod family;
pub mod figures;
pub mod futures;
pub mod lot;
pub mod name;
pub mod options;
pub mod reference;
pub mod refusal;
pub mod right;
pub mod terms;
pub mod units;
pub mod worth;
