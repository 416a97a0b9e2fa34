//! What a run over threads needs beside its homes: its event bases with all posters to them, the worlds of its workers and of its front, and its
//! pool. All is opened before the threads start, and closed when they have ended.
//!
//! ```text
//! open_run --> Setup: gatherers  a slot for each gathering base: the base, a poster to the printer's base, a table of awaited parts
//!                     printer    the printer's base
//!                     workers    a slot for each: a pass of the pool and a world, with a poster to each gathering base
//!                     world      the front's, and its poster to the printer's base
//!                     pool       with its owner, a keep-alive, one adder and one helper
//!                     ends, helped, back: room for what the threads leave
//! .. the threads run ..
//! worker_ends:  the slots --> the workers' ends, for the pool's end, and what is left of their worlds
//! close_run:    the bases, with every poster's end --> Closed: the queues' notes, how printing ended, a tally
//! ```
//!
//! Of W workers and B gathering bases: gathering base k has the executor 1 + k and W + 1 posters, of which worker k has the number W - k, and the
//! front 0. The printer's base has the executor B + 1 and B + 1 posters, of which gathering base k has the number B - k, and the front 0.
#![tactic(auto)]

pub use cells::{TaskCellPass, TaskCells};
pub use closing::{Back, Closed, close_run};
pub use laws::{a_setup_is_ready, nothing_was_refused, what_ran_can_be_closed};
pub use opening::{Setup, open_run};
pub use workers::{WorkerEnds, worker_ends};

mod cells;
mod closing;
mod collecting;
mod dealing;
mod laws;
mod opened;
mod opening;
mod rooms;
mod workers;
