//! Callers of the runtime, each as short as a user would write it: a promise and its future, a continuation on an executor, a
//! proxy, work that is deferred, a core by hand, a queue of messages, a pool, an event base, a collect and an interrupt.
//! `docs/LIBRARY.md` goes through them. They are proved, and nothing but their tests stands on them.
#![tactic(auto)]

mod chained;
mod collected;
mod deferred;
mod halves;
mod interrupted;
mod looped;
mod pooled;
mod promised;
mod proxied;
mod queued;

pub use chained::{Arrived, Double, Doubling, DoublingJob, double_value};
pub use collected::{Both, gather_two};
pub use deferred::{Callback, Deferral, Waiting, Work, double_later};
pub use halves::{Handed, consume, hand_over, produce};
pub use interrupted::interrupt;
pub use looped::{LastTwo, Looped, Note, post_and_tick};
pub use pooled::{Task, run_two};
pub use promised::{Answer, answered, keep};
pub use proxied::ask_another;
pub use queued::{Heard, hear_both};
