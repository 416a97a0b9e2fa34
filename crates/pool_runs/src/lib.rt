//! A job's one run: its record, whose memory is taken before the task is accepted, and the tasks that a pool hands back.
//!
//! ```text
//!   job + Place (memory of the record) --> Placed --> waits in a queue --> run_task --> Made --> Records::push
//!                                                      left at the end --> Returned --> pop: the job; run_next: RunRecord; drain: Records
//! ```
//!
//! - Only a run of the job makes a record that can be had (`RanOnce`). Its place goes with it into a list of records, so that neither takes memory.
//! - What is left of the queues is handed back from the highest to the lowest, each in order (`back_from`), once.
//! - `prio_pool` is the pool over these.
#![tactic(auto)]

mod block;
mod placed;
mod record;
mod records;
mod returned;
mod run;

pub use placed::Placed;
pub use record::RunRecord;
pub use records::{Made, Place, Records};
pub use returned::{Rest, Returned, drain, hand_back};
pub use run::run_task;
