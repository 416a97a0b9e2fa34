//! Pops of a queue under a rule, each noted with what it found.
//!
//! A queue is the toolchain's `RuledSegQueue`, an unbounded queue without a lock, and the rule is the caller's: what the queue
//! holds, and what each pass knows. `pop` hands out what the rule tells of an item, or of a queue that was found empty, and puts
//! a note behind those that are there: an item was taken or none found, at which place, and what the pass was afterwards.
//!
//! ```text
//!   pop --> item   the pass has it; noted: Took
//!      \--> none   the queue was empty at a step of this call; noted: FoundEmpty
//! ```
//!
//! - `None` can't be made up: it comes with what the caller's rule tells of an empty queue.
//! - The list of notes (`Trail`) exists in contracts alone and has no bytes. A type that keeps one private says by it what was
//!   done, in order, and nothing else makes it longer.
#![tactic(auto)]

mod pops;
mod trail;

pub use pops::{Noted, pop};
pub use trail::Trail;
