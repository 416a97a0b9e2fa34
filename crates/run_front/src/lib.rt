//! The front of a run, turn by turn: what it does with each query whose turn has come.
//!
//! ```text
//!                                    +-- early_turns --> its tasks are added to the pool
//!   Begin: what the query asks ------+
//!                                    +-- late_turns  --> its tasks run here, one after another
//!   Cancel: its reply is posted to the printer's base
//! ```
//!
//! The turns are those of the run ([`run_plan`]), whose parts are awaited ([`run_desks`]). The first turn that finds no memory ends the call; nothing
//! further is begun then.
#![tactic(auto)]

pub use early::early_turns;
pub use front::{Front, FrontEnds};
pub use late::late_turns;

mod cancelling;
mod early;
mod front;
mod late;
mod priority;
