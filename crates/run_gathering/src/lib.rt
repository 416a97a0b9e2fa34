//! A gathering base: parts come to their queries' desks, each of which is opened as its first part comes; the last part of a desk has them
//! merged, and the reply's core is fulfilled. What fires then is posted to the printer's base.
//!
//! ```text
//! TaskFire --unpack--> part --the table--> its query's desk --bring--> more: nothing
//!                                                                 \-> complete: the desk is freed, all parts are merged
//!                                     no memory for a desk:   the reply's core gets want of memory
//!                                                  a reply:   the reply's core is fulfilled: a fire --post--> printer's base
//!                                                  a ranking: the reply's core is forwarded to an inner core, and a Scoring runs in
//!                                                             the loop phase, which fulfils the inner core: a fire --post--> ..
//! ```
#![tactic(auto)]

pub use looping::{GatherEnd, GatherStage, close_gathering, gather};
pub use table::PartTable;

mod job;
mod looping;
mod merge;
mod table;
mod world;
