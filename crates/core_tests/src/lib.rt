//! Tests of the running core: who acts first and how, what is left over, what a closed home hands out, and two threads that use
//! one home a thousand times.
#![tactic(auto)]

#[cfg(test)]
mod answers;
#[cfg(test)]
mod rows;
