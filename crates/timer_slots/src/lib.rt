//! The slots of a timer wheel: 1,024 lists of ids, and each id at a spot that stays until it leaves.
//!
//! ```text
//!   slot 7 --> ids 31, 4, 15, 9             a slot is a list of ids
//!   spot (7, 2) --> 15                      a spot is a slot and a place there
//!   late: (7, 1)                            the id 4 has left, and its spot waits to be cleared
//! ```
//!
//! An id that comes goes to the end of its slot's list. The last of a list leaves at once, where its owner doesn't say that it is in another slot.
//! Any other leaves its spot behind in a list of at most 64 spots that wait, and nothing moves. A spot that waits is cleared when its owner says
//! so: the last id of its list comes there, and the owner is told before which id that is.
//!
//! Contracts see at each spot an id or nothing (specs/Seen.antt, `spot_at`); at a spot that waits there is nothing.
#![tactic(auto)]

pub use slots::{Found, Moved, Slots};
pub use spot::spot_of;
pub use waiting::MOST_WAITING;

mod lists;
mod slot;
mod slots;
mod spot;
mod waiting;
