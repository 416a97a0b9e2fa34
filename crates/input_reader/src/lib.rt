//! The lines of an input, read from a source chunk by chunk.
//!
//! ```text
//!   Source --read--> a chunk of at most 65,536 bytes --> the lines that end in it --> Reading --> the lines as a table
//!                          ^                   |
//!                          +-- what is behind its last line feed waits for the next chunk
//! ```
//!
//! The bytes themselves aren't kept: beside the lines there are one chunk, and a vector that has the line that is open and, while they are read,
//! the lines that end in the chunk. Behind a refusal the source is read on to its end all the same, since a fault of the source, or too many
//! bytes, comes before it.
#![tactic(auto)]

pub use end::ReadEnd;
pub use source::{MOST_BYTES, read_source};

mod end;
mod source;
mod text;
