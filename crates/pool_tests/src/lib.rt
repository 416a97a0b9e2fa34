//! Tests of the pool: rows of calls with their answers, workers on threads, helpers, and jobs that may not be dropped.
#![tactic(auto)]

#[cfg(test)]
mod tests;
