//! The four collects: many outcomes in, one completion out, exactly once, by index.
//!
//! A desk is the memory of a collect for so many outcomes. Each of its arrivals may go to another thread and brings the
//! outcome of one index. One of them completes the desk and gets what the desk was given at the start, as a promise.
//!
//! | desk | as Folly's | completes with | when |
//! |---|---|---|---|
//! | [`AllDesk`] | `collectAll` | all outcomes by index | at the arrival that finds 1 left |
//! | [`ValuesDesk`] | `collect` | all values by index, or a fault | at the value that finds 1 left, or the first fault that claims |
//! | [`AnyDesk`] | `collectAny` | an outcome with its index | at the first arrival that claims |
//! | [`AnyValueDesk`] | `collectAnyWithoutException` | a value with its index, or the last fault | at the first value that claims, or the fault that finds 1 left |
//!
//! An arrival does one of two things: it keeps, which leaves what it has in its slot and takes 1 off the count, or it
//! claims, which swaps a word. The four desks are four small tables of which outcome does which. The table of a desk
//! has these two words, a slot for each index and one for the end. No call on an arrival takes memory or a lock, and
//! its cost doesn't grow with the number of outcomes; that of the one that completes does, once.
//!
//! The behaviour follows `folly/futures/Future.h`. What differs: the memory is made first and outlives the arrivals,
//! a collect over nothing doesn't exist, and an outcome that comes too late is handed back and not dropped.
//!
//! Promises, by the clauses of `arrive`: `answer` (by the table, from the word found), `what` (which list, index, outcome
//! and end), of [`Desk::close`]: `untaken`, `end`, `kept`, `ended`, and of [`Completed`]: the law of the list (`lists`) and
//! that of one completion (`completes_once`).
#![tactic(auto)]

mod all;
mod answer;
mod any;
mod any_value;
mod arrival;
mod boxed;
mod desk;
mod kept;
mod listed;
mod owned;
mod receipt;
mod rule;
mod steps;
mod values;
mod view;

pub use all::{All, AllArrived, AllDesk};
pub use answer::{AllValues, Arrived, FirstValue, Reason};
pub use any::{Any, AnyArrived, AnyDesk, Nothing};
pub use any_value::{AnyValue, AnyValueArrived, AnyValueDesk};
pub use arrival::{Arrival, Arrivals};
pub use desk::{Desk, Gathers, Taken};
pub use fan_base::{Refused, Try};
pub use kept::Kept;
pub use listed::Listed;
pub use owned::{Brought, OwnedDesk};
pub use receipt::{Completed, Lost, Receipt};
pub use values::{Values, ValuesArrived, ValuesDesk};
