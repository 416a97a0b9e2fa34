//! Tests of `runtime_examples`: each caller once, with what must come of it. It has no other code.
#![tactic(auto)]

#[cfg(test)]
mod rows;
