//! What the desks of a run begin with: before the threads start, the core of the reply of each query that is begun, and the end of
//! its desk, which are dealt out to the gathering bases.
//!
//! No header of Folly's has this: it is how this program begins its collects (`collect_ops`). A front that works beside the
//! workers then needs no keys of replies' cores, and a base opens the desk of a query as the query's first part comes
//! (`run_gathering`).
//!
//! ```text
//! DeskKeys: a key for each reply's core, a key for each ranking
//!   await_queries: at each turn that begins a query its reply's core is begun; the end of its desk goes to its base's table
//! AwaitedQueries: a table for each gathering base, and what became of the replies' cores
//!
//! where there is no memory for the tables: no core was begun, and no reply is posted
//! AwaitedQueries::give_up: each core that was begun gets want of memory, and no reply is posted
//! ```
//!
//! The promises, by clause:
//! * a table for each gathering base (`tables` of [`await_queries`]); in it all parts are awaited of each query that is begun
//!   and gathered there, each query at its place and with an end of its own number, and nothing else (`dealt`, by `AreDealt` of
//!   `run_gathering`);
//! * one core more that was made for each query that is begun, and nothing else counted (`counted`);
//! * each turn is what comes at its place, there is one for each that comes, and there are 50,000 at most (`each`, `as_many`,
//!   `few` of [`known_turns`]);
//! * a query that is begun is the one of its number, and its line stands at its place (`line`, `from_one`, `same` of
//!   [`begun_query_is_asked`]);
//! * what is left is let go, and the tally stays ([`DeskKeys::end`]).
//!
//! By type, and so by no clause here: the reply of a desk's end is the one at its query's place (`End`). That all is given up
//! where memory runs out is by the code, and no test of the gate runs it.
#![tactic(auto)]

pub use keys::{DeskKeys, let_go_keys};
pub use laws::{begun_query_is_asked, known_turns};
pub use run::{AwaitedQueries, await_queries};

mod keys;
mod laws;
mod opening;
mod run;
mod tables;
