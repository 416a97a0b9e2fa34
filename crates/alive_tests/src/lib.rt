//! Tests of `keep_alive`: a count on one thread and on several. It has no other code.
#![tactic(auto)]

#[cfg(test)]
mod tokens;
