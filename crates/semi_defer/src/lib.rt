//! Deferred execution: a job that has no executor yet, and an executor that is chosen later, or never.
//!
//! The behaviour is that of Folly's `DeferredExecutor` (folly/futures/Future-inl.h, which `SemiFuture::defer` uses): one
//! side adds a job, the other sets an executor or detaches, and whoever comes later gets the job.
//!
//! What differs: the executor's number lies in the state word, a job is handed out in place of being run, and both sides
//! are spent by their one act.
//!
//! ```text
//! DeferredHome --pair--> Adder --add(job)--> Kept, RunOn(executor, job), Gone(job)
//!                        Holder --set_executor(e)--> the job that was kept, to run on e, or none
//!                               --detach-----------> the job that was kept, which isn't to run, or none
//!
//! semi(key) --> Promise
//!            \-> SemiFuture --via(e)--> a future on e
//!                           --defer(callback)-->.   deferral(adder, holder, key 2, continuation) gives the callback, a DeferChain,
//!                                                   and Deferred, the future of key 2's core, with the holder
//! DeferChain --land(outcome)--> as add of the job {outcome, chain}: kept, to run on e, or gone
//! Deferred --via(e)--> the future on e, and the job that was kept, to run on e
//!          --give_up-> the job that was kept, to abandon
//!
//! one word:   Empty -- add --> HasFunction -- set_executor --> HasExecutor, or -- detach --> Detached
//!             Empty -- set_executor --> HasExecutor, or -- detach --> Detached; an add then changes nothing
//! ```
//!
//! The promises, by clause:
//! * each call answers by the state that its deciding step found, and a receipt has what it did (`answer` of
//!   [`Adder::add`], [`Holder::set_executor`], [`Holder::detach`]);
//! * of one home, a job that was added and a choice that was made agree: the job comes out once, by the later of the two
//!   ([`sides_agree`]);
//! * between any two steps word and slot stand for both sides' acts (`DeferHolds`, specs/Rule.antt).
//!
//! No call takes a lock or waits, and only [`DeferredHome::new`] takes memory.
#![tactic(auto)]

mod adder;
mod deferring;
mod history;
mod holder;
mod home;
mod laws;
mod remains;
mod rule;
mod semi_future;
mod state;
mod steps;
mod view;

pub use adder::{AddReceipt, Added, Adder};
pub use deferring::{DeferChain, DeferJob, Deferred, deferral};
pub use history::{AddEvent, ChooseEvent};
pub use holder::{ChooseReceipt, Holder};
pub use home::DeferredHome;
pub use laws::sides_agree;
pub use remains::Remains;
pub use semi_future::{SemiFuture, semi};
pub use state::{Chosen, State};
