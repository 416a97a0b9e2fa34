//! What a run over threads tells when it has ended: what its pool ran, what was handed back and run by the caller, and what its queues had.
//!
//! ```text
//! Joining,  ends --- end_joined  ---> PoolNotes: accepted, ran
//! Stopping, ends --- end_stopped ---> PoolNotes: accepted, ran, returned (run here, one after another)
//! ```
//!
//! Both calls put the records of all ends together, so that each task that was added has one record in `ran` or `returned`. Where each run was
//! done, the records are those of the adds, in any order, each with the number that its add has (`AccountsFor`).
#![tactic(auto)]

mod counting;
mod ending;
mod laws;
mod notes;

pub use counting::{Counted, cores_agree, puts_agree};
pub use ending::{PoolNotes, end_joined, end_stopped};
pub use laws::{accepted_or_late, messages_are_tasks, notes_are_those_of_the_run};
pub use notes::{DirectRecords, Notes, PoolNote, Records, RunRecords};
