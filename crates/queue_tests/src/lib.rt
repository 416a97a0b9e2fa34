//! Rows of a notification queue, run: two senders and what is left, threads that put and take, wakes, want of memory.
#![tactic(auto)]

#[cfg(test)]
mod tests;
