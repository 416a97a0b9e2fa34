//! An event base: one thread's loop over messages, timers and callbacks, after Folly's EventBase.h, with its NotificationQueue and
//! HHWheelTimer below. It has no descriptors, signals or clock: time is ticks, which the caller hands in.
//!
//! ```text
//! other threads            the base's thread, one round
//!
//! Poster::put ──> queue ──┐   1 before    what run_before_loop held when the round began
//!                         └─> 2 messages  up to 10, taken when it began
//! ticks ────────> wheel ────> 3 timers    tick by tick, by order of scheduling
//! jobs ─────────> agenda ───> 4 loop      what run_in_loop and run_this_iteration held as the phase began,
//!                                         and what run_this_iteration adds in it; 65,536 at most
//! ```
//!
//! A job is lent the base's [`Agenda`], by which it schedules others. What is proved, by name of the clause:
//!
//! - `loop_once`, `ok`: a whole round, exactly the jobs above in that order, each once, from the world and the agenda before to those
//!   after; the number of the round and the counts. `memory`: nothing has begun, or the round was cut short at a tick, with what ran and
//!   the ticks that were not made.
//! - `loop_until_closed`, `ok`: rounds, and why the last one was the last; `memory`: rounds, and one that has not begun.
//! - `close`: what was posted or scheduled here and neither ran nor was cancelled comes back, once and in order; the note of the queue.
//! - Each call of the agenda: what it makes of it, or that it changed nothing and gives the job back.
//! - Laws of rounds: [`related_by_each_turn`], [`a_round_leads`], [`held_after_a_loop_phase`], [`rounds_keep_the_base`],
//!   [`a_loop_of_messages`], [`calls_in_a_row`].
//!
//! Nothing is said of waiting: that a sleeping base wakes, or that a loop ends.
#![tactic(auto)]

pub use agenda::Agenda;
pub use base::{BaseEnd, EventBase, Poster};
pub use job::LoopJob;
pub use laws::{
    a_loop_of_messages, a_round_leads, calls_in_a_row, held_after_a_loop_phase,
    related_by_each_turn, rounds_keep_the_base,
};
pub use rest::{BaseRest, QueueNote};
pub use round::{LoopEnd, Round, RoundMemory, Why};

mod agenda;
mod base;
mod job;
mod laws;
mod phases;
mod rest;
mod room;
mod round;
