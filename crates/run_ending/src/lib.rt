//! How a run over threads ends, and what it tells: `FanEnd`, by how printing ended, by what was noted, and by whether all that was counted
//! agrees.
//!
//! ```text
//! is_fine(agrees, listed, refused, missed) --> fine --┐
//! list_notes(gatherers, printer) --> queues ----------┼--> FanEnd::of_run: outcome, pool, queues, tally
//! PrintOutcome ---------------------------------------┘
//! no pool --> FanEnd::refused: want of memory, and nothing else
//! ```
//!
//! - `of_run`, `ends`: where printing wrote what it says, and where all is fine the report is whole, the end is one of the run (`IsEndOf`).
//! - `refused`: a run that found no memory before it had a pool has written nothing.
#![tactic(auto)]

pub use end::{FanEnd, FanOutcome};
pub use notes::{is_fine, list_notes};

mod end;
mod notes;
