//! Recycled cells: homes of cores that are used again and again without taking memory.
//!
//! A cell is a home. `Cells` has the keys of the free ones in a queue of a fixed size. Whoever begins a core takes a
//! key out of it, and whoever gets the husk of the core gives the cell back: it is reopened, and its key goes into the
//! queue. So a cell is given out again only after both halves of its last use have left.
//!
//! Each thread has a [`CellPass`], which lists the keys that it took and put. What all passes took and put accounts at
//! every moment for the keys in the queue.
#![tactic(auto)]

mod cells;
mod pass;
mod rule;
mod view;

pub use cells::{Cells, NoCell};
pub use pass::CellPass;
