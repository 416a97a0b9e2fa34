//! The running core: one result and one callback are handed to each other once, whatever the order in
//! which their two threads come. It follows Folly's `folly/futures/detail/Core.h`; README.md says where it differs.
//!
//! ```text
//! Home --key--> Key --start--> Producer --set_result, set_proxy--> LeftP --leave--> Left
//!                              Consumer --set_callback, give_up--> LeftC --leave--> Left
//! Left is First (a Receipt) or Last (what is left over, and the Husk); Husk --end--> freed, --reopen--> Key
//! ```
//!
//! A [`Home`] is the memory of a core. Its [`Key`] begins a core with two halves, each of which may go
//! to another thread. The [`Producer`] sets a result or names a proxy, and the [`Consumer`] sets a
//! callback or gives up. The half that comes later gets both, as a [`Fire`] or a [`Forward`]. Then each
//! half leaves, and the one that leaves later gets the [`Husk`], with what is left over. A husk is ended,
//! or reopened: then it is the key of the home's next use.
//!
//! The state of a core is one atomic word, and the number of attached halves another. Result, callback
//! and proxy lie in three slots, which a half has for itself or which lie at home. No call takes a lock or
//! waits, and only `Home::new` takes memory.
//!
//! The promises, by the names of their clauses: `answer` of the acts, `count` and `leftover` of the leaves, `key` of
//! `Husk::reopen`, `tally` of each call that counts, `items` of `Home::close`. Over both halves of a use there are the
//! laws [`halves_agree`], [`not_both_first`], [`one_husk`], [`no_producer_beside_husk`], [`no_consumer_beside_husk`].
#![tactic(auto)]

mod close;
mod consumer;
mod fire;
mod home;
mod laws;
mod left;
mod producer;
mod rule;
mod steps;
mod tally;
mod view;

pub use close::{End, Unspent};
pub use consumer::{Consumer, LeftC, Met};
pub use core_state::{Demand, Half, Offer, Request, State};
pub use fire::{Fire, Forward};
pub use home::{Home, Key};
pub use laws::{
    halves_agree, no_consumer_beside_husk, no_producer_beside_husk, not_both_first, one_husk,
};
pub use left::{Husk, Left, Leftover, Receipt};
pub use producer::{Landed, LeftP, Passed, Producer};
pub use tally::Tally;
pub use view::Sight;
