//! Rows of the types that all crates share, run: outcomes, words, lists, parcels, sources, sinks and gates.
#![tactic(auto)]

#[cfg(test)]
mod parcels;
#[cfg(test)]
mod tests;
