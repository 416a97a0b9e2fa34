//! Tests of `job_trait`: jobs through both executors, and what its laws tell a caller of its world. It has no other code.
#![tactic(auto)]

#[cfg(test)]
mod rows;
