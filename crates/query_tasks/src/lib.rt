//! The tasks of one query, one for each shard, and the end of the pool.
//!
//! ```text
//!   start_tasks     for each shard: a core in a free cell --> the task on the pool, the callback in the core
//!                   (no cell is free: the pool is helped with one task)
//!   run_tasks_here  for each shard: a core in a free cell --> the task is run here, the callback in the core, its record is kept
//!   begin_end       all adders' passes --> Ending: joined, or stopped
//!   end_pool        Ending, all ends   --> PoolNotes; what still waits, or is handed back, is run here
//! ```
//!
//! A query's tasks go to the pool before the pool's end begins, and are run by the front itself behind it.
#![tactic(auto)]

pub use here::run_tasks_here;
pub use laws::tasks_are_runs;
pub use pool::{TaskAdder, TaskHelper, TaskPool};
pub use pool_end::{Ending, begin_end, end_pool};
pub use starting::start_tasks;

mod here;
mod laws;
mod pool;
mod pool_end;
mod starting;
