//! The turn of a query has come: what it asks, the core of its reply, and the callback of each of its tasks. A query that is
//! cancelled has its reply alone.
//!
//! No header of Folly's has this: it is what this program makes of a query, of the cores of `core_word`. The cores of replies
//! are begun before the run's threads start (`run_desks`), the callbacks are made at the query's turn (`query_tasks`), and
//! replies of cancelled queries at theirs (`run_front`). Nothing here posts or adds, or waits for another thread.
//!
//! ```text
//! the query begun at a place --numbered_ask--> NumberedAsk      what it asks; its answer is the reply at that place
//! key, place     --begin_reply--> ReplyProducer                 its core's callback is set, and its consumer has left
//! number, shard  --task_callback--> PartCallback                for the base on which the query is gathered
//! the query cancelled at a place --cancelled_reply--> CancelledReply
//! ```
//!
//! The promises, by clause:
//! * of lines that are the run's but for the words of documents (`lines`), the ask has the query's number, as many documents
//!   before it as are told, and the reply at its place as its answer ([`numbered_ask`], by `IsAskAt`);
//! * a core that begins with its callback set and its consumer gone, as its producer knows (`core` of [`begin_awaited`] and
//!   [`begin_reply`]), and one core more that was made (`tally`);
//! * the number, the shard and the executor of a task's callback ([`task_callback`]); the place, the number and the printer's
//!   executor of the reply of a cancelled query ([`cancelled_reply`]).
//!
//! That a look at a core ends is said nowhere: by the code its consumer has left before.
#![tactic(auto)]

pub use asks::{cancelled_reply, numbered_ask};
pub use cores::{begin_awaited, begin_reply};
pub use desks::task_callback;

mod asks;
mod cores;
mod desks;
