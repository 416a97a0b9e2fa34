//! Timers that fire by ticks, in a hashed wheel after Folly's `folly/io/async/HHWheelTimer.h`: 4 wheels of 256 slots.
//!
//! ```text
//!   wheel        0            1              2                 3
//!   slot         1 tick       256 ticks      65,536 ticks      16,777,216 ticks
//!   due within   256          65,536         16,777,216        4,294,967,296 ticks, when it is placed
//!
//!   schedule --> the slot of the wheel that reaches so far
//!   tick     --> where the next tick is a multiple of a slot's width, that slot's entries go to finer wheels, the coarsest
//!                first; then the next slot of wheel 0 fires
//! ```
//!
//! Contracts see none of this. They see the number of ticks made and the list of the timers that are held, in order of
//! scheduling (`TimerList`, specs/TimerList.antt):
//!
//! - [`Timers::schedule`] puts a timer behind the others, [`Timers::cancel`] takes an id's timer out, and
//!   [`Timers::tick`] takes out those that are due, in order of scheduling (`Ticks`).
//! - A tick's steps have a bound, `tick_bound` of specs/Steps.antt: those that fire, and those that are placed anew. One step
//!   is one entry that a tick takes out of its slot.
//! - [`Timers::into_rest`] ends a wheel, and gives what it held by due tick, without memory.
//!
//! Unlike Folly's wheel, this one has no clock: its user says when a tick has passed. Each timer has an id by which it is cancelled,
//! and timers of one tick fire in order of scheduling.
#![tactic(auto)]

pub use book::Steps;
pub use rest::TimersRest;
pub use timer::{ScheduleFault, Timer};
pub use timers::Timers;
pub use wheel::{Refuse, Wheel};

mod book;
mod cascade;
mod fire;
mod handout;
mod place;
mod rest;
mod sweep;
mod timed;
mod timer;
mod timers;
mod wheel;
