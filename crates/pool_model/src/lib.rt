//! What a pool of workers over queues of different priorities promises, as plain mathematics.
//!
//! The pool is that of Folly's `CPUThreadPoolExecutor`: a queue for each priority, workers that look from the highest queue
//! to the lowest, and two endings, a join and a stop. A task is accepted by one adder under a ticket, which says which add of
//! that adder it was, and it leaves its queue once: a worker takes it, or it is left when the pool ends.
//!
//! ```text
//!    adders                queue 2   t t t --> first taken          records
//!    0: t t t t   add ---> queue 1   t       workers look from      of the runs
//!    1: t t               queue 0   t t     queue 2 to queue 0     of each worker
//! ```
//!
//! - A queue's history is a list of events, oldest first: a task was accepted, taken by a worker, or left at the end. It is
//!   lawful (`PoolHistory`) where each adder's tickets ascend and what leaves is, at every moment, what came first.
//! - What a worker did is a list of steps, oldest first: it looked at the mark, found a queue empty, or took a task. It does so in
//!   turns (`Worked`), so each take follows a step for each higher queue at which that was empty.
//! - What a pool ends with is accounted for by sums: two lists have the same tasks in any order
//!   (`IsSameInAnyOrder`) where, whatever number a task counts for, both have the same sum.
//! - Nothing here runs: there are no threads, no locks and no queues. `task_queue` has one queue whose steps keep such a
//!   history, and `prio_pool` the pool over them.
#![tactic(auto)]

mod laws;
mod task;

pub use laws::{
    histories_are_lawful_throughout, join_accounts_for_each, passes_in_order_are_all,
    stop_accounts_for_each, takes_follow_empty_looks, tasks_leave_once,
};
pub use task::{Ending, Entry, Ticket};
