//! Tasks of a run over threads, and the world that they run on.
//!
//! A task is a query over a shard. It runs on a worker of the pool, on a helper, or on the front, and each of these has a world of its own:
//! all shards, a poster to each gathering base, a pass of the cells of the tasks' cores, a tally, and a note whether memory was refused.
//!
//! ```text
//!   ShardTask      the part over its shard --> the task's core --> leave --> the cell is given back, by the later half
//!                                                  |
//!                                                  +--> a fire, where the callback was there: posted to the callback's base
//! ```
#![tactic(auto)]

pub use laws::{heads_are_runs, tasks_keep_their_world};
pub use stage::{WorkerStage, work_tasks};
pub use task::ShardTask;
pub use world::{TaskEnds, TaskWorld};

mod answer;
mod laws;
mod leave;
mod posting;
mod run;
mod stage;
mod starting;
mod task;
mod world;
