//! The words of the command line: which of them are a command of the program, and which command.
//!
//! ```text
//! words  = "run" { option | "--" at most once, last }
//!        | "gen" { option | number } with exactly three numbers
//! option = NAME VALUE (two words) | NAME "=" VALUE (one word)
//! NAME   = --workers | --bases | --shards | --stop-at
//! ```
//!
//! In `gen` one word `--` may stand among the words, and then only numbers follow. A number or a value is one or more decimal
//! digits with any number of zeros before them. Each option is given at most once. Every other list of words is outside the
//! grammar, which `specs/Grammar.antt` tells as a relation between words and commands.
//!
//! [`read_command`] takes no memory: it gives the command where the words are one, and nothing exactly where they are none.
#![tactic(auto)]

pub use command::{Command, Generation, Settings};
pub use name::OptionName;
pub use reader::read_command;

mod command;
mod given;
pub mod laws;
mod name;
mod number;
mod reader;
