//! The front's walk over the lines of an input: at each line what comes there is begun or cancelled, place by place in the order of
//! answers.
//!
//! ```text
//! query without delay ──────────────> begun at once
//! query with a delay ──> waits, as a timer of the front's base with an interrupt
//! ticks ──> a round of the base ──> those that are due are begun, by due tick and then by number
//! cancel ──> the interrupt of its query ──> where it waits it is cancelled
//! end ──> those that wait still are cancelled, by number
//! ```
//!
//! What is done with a query whose turn has come is the caller's own ([`AtTurn`]). What is proved of [`walk`]: it was called once for each
//! query, at the places 0, 1, 2 and so on, with what comes there by the definitions (`done`); where memory runs out, up to some place
//! (`memory`).
#![tactic(auto)]

pub use at_turn::{AtTurn, QueryTurn};
pub use front::walk;
pub use turns::{HookRelation, KeptList, given_in_order, related_by_each_turn};

mod at_turn;
mod front;
mod laws;
mod lines;
mod state;
mod turns;
