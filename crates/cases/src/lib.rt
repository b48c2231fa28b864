//! The exchange's published cases, the edges of every limit, and each refusal that an event, a name,
//! a price or a line by itself can raise: tables, and tests that go through them.
#![tactic(auto)]

#[cfg(test)]
mod adjustments;
#[cfg(test)]
mod answers;
#[cfg(test)]
mod edges;
#[cfg(test)]
mod names;
#[cfg(test)]
mod prices;
#[cfg(test)]
mod values;
