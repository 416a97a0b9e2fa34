//! The homes of a run: the memory of its cores, which is made before the run and closed behind it.
//!
//! No header of Folly's has this: a promise there makes its core anew, and here the memory of all cores is made before the run.
//!
//! ```text
//! inner homes > homes of replies > homes of tasks      each is made before, and closed behind, all that come after it
//!
//! new_homes, keys_of     each level over the one before; over the homes of replies their cores are begun (run_desks)
//!   the run              over the homes of tasks
//! close_task_homes, close_reply_homes     and the inner homes are let go
//! ```
//!
//! A run that has gone to its end leaves nothing in them. Where memory ran out on the way, something that must be spent may lie
//! there: closing spends it. That is a consumer of an inner core that was named and never reached; a task's callback that still
//! waits is let go, since it is numbers.
//!
//! The promises, by clause:
//! * so many homes, none of which is begun; or, where memory ran out, those that were made, of which nothing is said (`count`,
//!   `untaken` of [`new_homes`]);
//! * as many keys as there are homes, none of which is begun ([`keys_of`]).
//!
//! The closing calls have no clause: they are there because such values can't be dropped. What lay in a home, and that it is
//! spent, is by their code alone; the tests of `folly_query` run these calls, and no test of the gate one that finds something
//! left.
#![tactic(auto)]

mod closing;
mod homes;

pub use closing::{close_reply_homes, close_task_homes};
pub use homes::{keys_of, new_homes};
