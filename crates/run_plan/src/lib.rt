//! What comes at each place of the order of answers, noted before a run starts its threads.
//!
//! ```text
//! lines -- plan --> turns, place by place: begin a query, or cancel one
//! turns -- stop_place --> behind how many of them the pool is stopped
//! turns -- count --> how many queries are answered: in all, of those that rank, and by gathering base
//! ```
//!
//! The turns are what comes by the definitions ([`plan`]: `turns`). The queries that are begun before the stop place are the early ones, and
//! those from it on the late ones ([`stop_place`]). A loop over turns tells what it did by the queries that were begun between two places
//! ([`laws::place_by_place`]).
#![tactic(auto)]

pub use counting::count;
pub use planning::plan;
pub use stopping::stop_place;
pub use turn::{BegunQuery, Turn};

mod counting;
pub mod laws;
mod planning;
mod stopping;
mod turn;
