//! The book's calls and questions, put to it as scripts: each refusal alone, refusals that compete,
//! every limit, and stories with their equities worked out by hand.
#![tactic(auto)]

#[cfg(test)]
mod adjustments;
#[cfg(test)]
mod calls;
#[cfg(test)]
mod capital;
#[cfg(test)]
mod claims;
#[cfg(test)]
mod conversions;
#[cfg(test)]
mod days;
#[cfg(test)]
mod dividends;
#[cfg(test)]
mod equities;
#[cfg(test)]
mod expiries;
#[cfg(test)]
mod fixings;
#[cfg(test)]
mod generations;
#[cfg(test)]
mod limits;
#[cfg(test)]
mod mergers;
#[cfg(test)]
mod runs;
#[cfg(test)]
mod script;
#[cfg(test)]
mod slides;
#[cfg(test)]
mod stories;
