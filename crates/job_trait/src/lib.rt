//! Jobs, what running them does to a world, and the executors that run them on one thread.
//!
//! The behaviour of the executors is that of Folly's `Executor` (folly/Executor.h), `InlineExecutor` and `ManualExecutor`
//! (folly/executors/InlineExecutor.h, folly/executors/ManualExecutor.h). What differs: a job has a [`Head`] that no world
//! changes, it runs on a world that its type names, and each run gives a mark; both executors belong to one thread.
//!
//! ```text
//!            add                      run(world)
//! job ---> executor ----------------> mark: Done(the job's number), or Memory
//!            InlineExecutor: at once
//!            ManualExecutor: when told to, the oldest first; take_back hands one back
//! ```
//!
//! What ran is said by lists of ids and marks that lead from world to world (`Leads`, specs/Runs.antt). The laws of such
//! lists are the functions with empty bodies: [`one_job_more`], [`one_list_after_another`], [`kept_by_each_run`],
//! [`related_by_each_run`], [`known_back_to_front`], [`all_jobs_were_done`].
#![tactic(auto)]

mod executor;
mod inline;
mod job;
mod laws;
mod manual;

pub use executor::Executor;
pub use inline::InlineExecutor;
pub use job::{Head, Headed, Job};
pub use laws::{
    Meaning, OfJob, RunFact, WorldFact, WorldRelation, all_jobs_of_two_lists, all_jobs_were_done,
    kept_by_each_run, known_back_to_front, one_job_more, one_list_after_another,
    related_by_each_run, without_jobs_nothing_changes,
};
pub use manual::ManualExecutor;
