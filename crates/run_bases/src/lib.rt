//! The bases of a run and the posters to them: made together, dealt out row by row, and brought back as ends for the close.
//!
//! ```text
//!            base 1   base 2   ..           each base has as many posters as there are threads that post to it
//! row n-1      p        p      ..   ---> one thread      take_row: the last poster of each column
//! row ..       p        p      ..   ---> another
//! columns <--- e        e      ..   <--- its ends        put_row: the end of each, back in its column
//! ```
//!
//! Once all rows are back, a column has the ends of all posters of its base, which is what the base's close asks for (`all_are_back`).
#![tactic(auto)]

mod making;
mod rows;

pub use making::{Bases, close_unused, open_base, open_bases};
pub use rows::{Column, all_are_back, put_one, put_row, take_one, take_row};
