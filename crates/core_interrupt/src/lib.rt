//! Interrupts: a handler and an object meet at most once, whoever comes first.
//!
//! The behaviour is that of Folly's `Promise::setInterruptHandler` and `Future::raise` (folly/futures/Promise.h,
//! folly/futures/Future.h, and the interrupt's part of folly/futures/detail/Core.h): the consumer of a result raises an
//! object, as an exception there, and the producer's handler is called with it, once, by whoever comes later.
//!
//! What differs: an interrupt is an object of its own and no part of a core; a call hands handler and object out in place of
//! running the one on the other; a raise that comes too late gives its object back; the producer's side ends by a call of
//! its own, where Folly ends it by the result.
//!
//! ```text
//! InterruptHome --pair--> Hearer --set_handler--> Armed        Raiser --raise, any number of times-->
//!                           | end                   | end        |
//!                           v                       v            v
//!                      the object, or none    the handler, or none    Kept, Call, Late, Gone
//!
//! one word:   Empty -- set_handler --> HasHandler -- raise --> Called          any state -- end --> Ended
//!             Empty -- raise --> HasObject -- set_handler --> Called
//! ```
//!
//! The promises, by clause:
//! * each call answers by the state that its deciding step found, and what it answers with stands in a history that only
//!   steps extend (`answer` of [`Hearer::set_handler`], [`Hearer::end`], [`Armed::end`], `raises` of [`Raiser::raise`]);
//! * between any two steps word and slots stand for a lawful merge of what both sides have done (`InterruptHolds`,
//!   specs/Rule.antt);
//! * of one home, what the hearer came to and what the raises say have such a merge, and each handler and each object came
//!   out once ([`sides_agree`], [`armed_agrees`]);
//! * where one thread holds both sides, a first raise calls an armed handler ([`raise_where_armed`]).
//!
//! No call takes a lock or waits, and only [`InterruptHome::new`] takes memory.
#![tactic(auto)]

mod close;
mod hearer;
mod history;
mod home;
mod laws;
mod raiser;
mod rule;
mod state;
mod steps;
mod view;

pub use close::Remains;
pub use hearer::{Armed, Ended, Heard, Hearer};
pub use history::{Event, HearEvent, RaiseEvent};
pub use home::InterruptHome;
pub use laws::{armed_agrees, raise_where_armed, sides_agree};
pub use raiser::{Raised, Raiser};
pub use state::State;
