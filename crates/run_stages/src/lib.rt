//! Stages of a run, each on a thread of its own.
//!
//! ```text
//! calling thread          others
//! front ----------------> stages, one thread each     run_beside
//! front and stages -----> last stage, one thread      run_before
//! ```
//!
//! Where no thread can be made a stage runs on the calling thread instead: the front first, then the stages, then the last one. So a stage may
//! wait for an earlier one, and never for a later one, and the answer is the same.
#![tactic(auto)]

mod calls;
mod stage;
#[cfg(test)]
mod tests;
mod threads;

pub use calls::{call_beside, call_each};
pub use stage::Stage;
pub use threads::{run_before, run_beside, run_each};
