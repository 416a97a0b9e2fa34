//! Tests of the collects: worked rows, desks in one hand, and desks that four threads fill. It has no other code.
#![tactic(auto)]

#[cfg(test)]
mod owned;
#[cfg(test)]
mod rows;
#[cfg(test)]
mod threads;
