//! The last stage of a run, on its own event base: each message is a reply that fired, or that of a query that was cancelled. The replies
//! go out in the order of answers, as far as the sink takes them.
//!
//! ```text
//! gathering bases --Replied(fire)--┐
//!                                  ├--> queue --> print_replies: take, unpack, print  --> sink
//! front ----------Cancelled--------┘              until all posters have ended
//!                                             close_printing, with the posters' ends --> PrintEnd: outcome, note, tally
//! ```
//!
//! [`print_replies`] runs the base until it is closed, in the printer's thread; [`close_printing`] comes once all posters have ended. What is proved, by
//! name of the clause:
//!
//! - `print_replies`, `printed`: each message that was taken ran once; what the printer was given, wrote and holds; what was counted.
//!   `cut`: where the base is not closed, a round found no memory and has not begun.
//! - `close_printing`, `wrote`: on Done the sink gained exactly the lines of all replies; else a front of them, with its cause. `whole`: on Done
//!   and WriteFault the note has one message for each query and none left, and each answered query was counted as handed over.
//!
//! Nothing is said of waiting: that a message comes, or that the base ends.
#![tactic(auto)]

pub use stage::{PrintEnd, PrintOutcome, PrintStage, close_printing, print_replies};
pub use world::PrintWorld;

mod job;
mod stage;
mod world;
