//! The stages of a run on their threads: the printer's, one for each gathering base, and the workers of the pool, all beside each other and beside
//! the front.
//!
//! ```text
//! run_all_beside
//! printer:   a thread
//! gatherers: a thread each
//! workers:   a thread each
//! front:     the calling thread: it begins beside the workers, and ends the pool behind them
//! ```
//!
//! A gathering stage and a worker stand in a slot, which holds what the stage spends before it has run, and what it came to afterwards. What
//! a worker leaves comes out of its slot by `end_worker`.
//!
//! Where no thread can be made, the front comes first, then the workers, then the front again, then the gathering stages, the printer last: a
//! stage may wait for what comes before it, and never for what comes behind.
#![tactic(auto)]

pub use front::PoolFront;
pub use gatherer::GatherSlot;
pub use printer::PrinterSlot;
pub use running::run_all_beside;
pub use tasks::{TaskSlot, end_worker};
pub use worker::WorkerSlot;

mod beside;
mod front;
mod gatherer;
mod printer;
mod running;
mod tasks;
mod worker;
