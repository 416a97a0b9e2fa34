//! The last stage of a run: replies come in any order, each with its place in the order of answers, and their lines go out in
//! that order, as far as the sink takes them. [`write_all`], by which anything is written to a sink, stands here too.
//!
//! No header of Folly's has this: it is this program's own part. Replies are ordered by `reply_order`, and their lines are
//! those of `query_text`. No thread or queue is named here.
//!
//! ```text
//! reply, its place --print--> Orderer --each reply whose turn has come--> its line --write_all--> sink
//!
//! Writing        all lines before the next place are written
//!    | a write failed        WriteFault   a front of all lines is, the sink's faults rose; replies are ordered, the sink is left alone
//!    | no memory             Memory       a front of all lines is; no reply is taken
//!    | a place had its reply Repeated     a front of all lines is; no reply is taken
//! WriteFault comes to Memory and to Repeated as Writing does
//! ```
//!
//! The promises, by clause:
//! * a new printer prints, with nothing given ([`Printer::new`], `laws::a_new_printer_prints`), and one that prints the replies
//!   of some lines does so with one reply more, where that is the reply at its place (`keeps` of [`Printer::print`], by
//!   `Prints`, specs/Printing.antt);
//! * while it orders replies no line whose turn has come is kept back (`waits`), where it writes no more the sink is left alone
//!   (`silent`), and Repeated comes only where it was so before or the place had its reply (`repeated`);
//! * where it writes still and the replies of all places have gone out, the sink gained exactly all lines; else a front of
//!   them, and its faults rose where a write failed (`all`, `front`, `fault` of `laws::what_is_written`);
//! * where they have gone out none is held, and while it orders replies each was given once (`none`, `once` of
//!   `laws::each_reply_was_given_once`);
//! * there are as many replies as queries, and their text is the output (`laws::a_reply_for_each_query`,
//!   `laws::all_text_is_the_output`);
//! * all bytes are written, or a front of them and the faults rose (`all`, `front`, `fault` of [`write_all`]).
//!
//! That each write offers the sink the whole rest of a line is tested, and so is that memory suffices. That each reply comes is
//! said nowhere.
#![tactic(auto)]

pub use printer::{Printer, Progress};
pub use write::write_all;

pub mod laws;
mod printer;
#[cfg(test)]
mod tests;
mod write;
