//! A notification queue: up to 64 senders, one receiver, each sender's messages in its order, whole and once. It follows Folly's
//! `folly/io/async/NotificationQueue.h`, with a value for each sender, stamps that count its messages, and ends that can be asked for.
//!
//! ```text
//! queue(n) -> Receiver   take, take_up_to: the messages that came next, None where none is there; ended: whether all senders have ended
//!             Sender     put: the message's Stamp, or the message back where memory is refused; end: no more puts, a SenderEnd
//!             close      with the ends of all senders: what was put and not taken, in order (QueueEnd, Rest)
//! ```
//!
//! - Each sender's messages are taken in the order of its puts, none twice, none left out (`take`: `in_order`; `close`: `order`, `whole`).
//! - None comes only where one look of this call at each sender found no more puts than were taken of it (`none`).
//! - At the close: of each sender, what was taken of it and then what is left of it is what it put (`whole`).
//! - A receiver that finds nothing may wait (`sleep`), and a put or an end wakes it: no clause speaks of that, tests show it.
#![tactic(auto)]

pub use opening::queue;
pub use receiver::Receiver;
pub use rest::{QueueEnd, Rest};
pub use sender::{Sender, SenderEnd};
pub use stamp::{Stamp, Stamped};

mod channel;
mod delivery;
mod marks;
mod opening;
mod receiver;
mod rest;
mod sender;
mod stamp;
