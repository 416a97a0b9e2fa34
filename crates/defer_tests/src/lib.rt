//! Tests of deferral: worked rows, and two threads that meet at a home. It has no other code.
#![tactic(auto)]

#[cfg(test)]
mod chains;
#[cfg(test)]
mod rows;
#[cfg(test)]
mod threads;
