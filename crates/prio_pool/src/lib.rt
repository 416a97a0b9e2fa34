//! A pool of workers over queues of different priorities: each accepted task runs once, or is handed back.
//!
//! The pool is that of Folly's `CPUThreadPoolExecutor`, with its priorities around a middle. It has one queue of `task_queue` for
//! each priority, and one mark for its end. There is no lock.
//!
//! ```text
//!   PoolPass -- add(priority) --> queue n-1 [ t t ]  --\
//!                                 queue ..  [ t ]       >-- take the highest -- WorkerPass, HelperPass -- run --> RunRecord
//!                                 queue 0   [ t t t ] --/
//!   all PoolPass -- begin_join --> Joining  \                  / PoolEnd: all records
//!   all PoolPass -- begin_stop --> Stopping  >-- join, stop --<
//!   WorkerEnd, HelperEnd, ..                /                  \ PoolEnd: records, and what is handed back
//! ```
//!
//! - The push on a queue is the acceptance. The memory of a task's record is taken before it, and travels with the task.
//! - A pass shows what it pushed on, or popped from, each queue; the end of a worker or helper also shows all its looks, in order, and the
//!   records of what it ran (`RanWhatItTook`, `Worked`).
//! - `join` and `stop` ask for all passes. They give one lawful history a queue, and account for each accepted task once.
#![tactic(auto)]

mod adders;
mod begin;
mod direct;
mod ending;
mod gather;
mod laws;
mod listed;
mod made;
mod make;
mod new;
mod passes;
mod pool;
mod priority;
mod run;
mod runs;
mod settle;
mod sleepers;
mod takers;
mod together;
mod turn;

pub use begin::{Joining, Stopping};
pub use direct::{DirectRecord, run_direct};
pub use ending::PoolEnd;
pub use laws::{new_passes_are_unused, no_adder_is_left};
pub use new::PoolParts;
pub use passes::{HelperEnd, HelperPass, PoolPass, WorkerEnd, WorkerPass};
pub use pool::{Helped, Pool};
pub use pool_runs::{Returned, RunRecord};
pub use priority::queue_for;
pub use runs::Runs;
