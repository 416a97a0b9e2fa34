//! The text of inputs, replies and error lines: between bytes and what they mean.
//!
//! - `read_input`, `read_lines`: an input, or its lines alone with their documents as numbers; or the first bad line with its number and
//!   kind, and where an expression is at fault, the place (`BadInput`). A line ends with a line feed; empty lines count and say nothing.
//! - `Reading`: the same of an input that comes chunk by chunk, whole lines at a time.
//! - `write_input`: the text of an input, which is accepted as that input.
//! - `input_law`: bytes are accepted as one input or refused with one line and kind, never both.
//! - `reply_line`, `error_line`: the line of a reply, and that of a bad input.
//!
//! A line is cut at its spaces into fields (`Fields`), and its first one tells its kind. Each reader answers what a definition over the
//! bytes gives (`query_model`, `query_expr`), and want of memory is its only other answer.
#![tactic(auto)]

pub use law::input_law;
pub use query_model::{
    Ask, BadInput, BadKind, Expr, ExprFault, Hits, Input, InputFault, Limit, Line, Lines, Prio,
    Query, Reply,
};
pub use read::{read_input, read_lines};
pub use reading::Reading;
pub use reply::{error_line, reply_line};
pub use write::write_input;

mod cut;
mod digits;
mod expr_text;
mod fault;
mod fields;
mod ids;
mod keyword;
mod law;
mod line;
mod number;
mod parts;
mod pieces;
mod query;
mod read;
mod reading;
mod reply;
mod so_far;
mod tokens;
mod words;
mod write;
