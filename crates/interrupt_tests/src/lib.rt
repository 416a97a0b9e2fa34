//! Tests of `core_interrupt`: rows of calls on both sides, a home that is closed between them, and two threads. It has no other code.
#![tactic(auto)]

#[cfg(test)]
mod rows;
