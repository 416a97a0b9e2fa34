//! The types that every crate of the runtime shares, and the traits of the outside world: sources, sinks and gates.
//!
//! - `Try`, `Fault`: the outcome of a computation, a value or why there is none. It is Folly's `folly/Try.h` with an enum of faults in
//!   place of exceptions.
//! - `Word`: 1 to 32 letters and digits, kept in 32 bytes with zeros behind them. `List` and its names `Ids`, `Scores`, `Numbers`,
//!   `Words`, `Docs`: a list inside a public type. `Doc`: a document.
//! - `ExecId`, `JobId`, `Mark`: which executor, which job, and what its run says of it.
//! - `Memory`, `Refused`, `Failed`: want of memory, the same with what is handed back, and a failed call of the outside world.
//! - `Parcel`, `Parcels`: a value in a block of memory, and such blocks strung together. They may be dropped where their value may not.
//! - `Source`, `Sink`: where bytes are read from and written to (`Reads`, `Writes`). Each counts its faults, and one in memory fails
//!   where it was told to. `Gate`: what is called before and after a task; no answer depends on it.
#![tactic(auto)]

pub use doc::Doc;
pub use gate::{Gate, HoldGate, LineGate, OpenGate};
pub use line_sink::LineSink;
pub use list::{Docs, Ids, List, Numbers, Scores, Words};
pub use number::{ExecId, JobId, Mark};
pub use outcome::{Fault, Try};
pub use parcel::{Parcel, Parcels};
pub use refusal::{Failed, Memory, Refused};
pub use sink::{MemSink, NullSink, Sink, StdSink};
pub use source::{CleanSource, MemSource, Source, StdSource};
pub use word::{Word, WordFault};

mod doc;
mod gate;
mod line_sink;
mod list;
mod number;
mod outcome;
mod parcel;
mod refusal;
mod sink;
mod source;
mod word;
