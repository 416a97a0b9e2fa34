//! The queries of an input that wait for their due ticks, as timers of an event base of their own, each with an interrupt by which it is
//! cancelled.
//!
//! ```text
//! delay ──> timer on the base, its id the query's number      tick(n) ── one round of the base with n ticks ──> fired, in order
//!      └──> interrupt: a handler that names the timer         cancel(n) ── raises ──> the handler's timer is taken out
//! ```
//!
//! Contracts see the ticks made, how many queries there were, the list of those that wait, by number, and the list of those that have
//! fired and weren't handed out. What is proved, by clause: `tick` fires exactly those whose due ticks have come, by due tick and then by
//! number, and the others wait on; `cancel` and `give_up` give the query of a number exactly where it waits.
#![tactic(auto)]

pub use due::DueQuery;
pub use interrupt::{CancelHome, Unwanted, cancel_homes};
pub use query::DelayedQuery;
pub use timers::QueryTimers;

mod due;
mod interrupt;
mod query;
mod timers;
mod waiters;
