//! The lines of an input with numbers in place of words: 4 bytes for a word of a document, where a word itself takes 32. The
//! words stand once, in a dictionary, which numbers them as they come.
//!
//! No header of Folly's has this: it is how this program keeps its input. The dictionary and the table of documents are
//! `word_table`'s. Contracts see a table as the lines that it has, with their words: that they are kept by numbers shows in no
//! clause.
//!
//! ```text
//! LineTable    dictionary   each word once, with its number
//!              lines        Doc: an id and numbers | Query | Tick | Cancel
//!
//! new --with(line)--> with(line) .. --into_lines--> the lines, with words again
//!                                   --into_parts--> the documents by numbers, with the dictionary: a DocTable
//!                                                   the lines, each document without its words
//! ```
//!
//! There is room for any line that isn't a document, and for a document of at most 1,000 words behind fewer than 200,000 others
//! (`room` of [`LineTable::with`]); what an input may have is within that. Where `with` finds no memory the table is gone.
//!
//! The promises, by clause:
//! * a new table has no lines, `with` puts one behind the others, and `len` counts them ([`LineTable::new`],
//!   [`LineTable::with`], [`LineTable::len`]);
//! * a table gives back the lines that it has ([`LineTable::into_lines`]);
//! * the documents that are handed out are those of the lines, by numbers of a dictionary that knows their words (`docs` of
//!   [`LineTable::into_parts`]), and the other part is the lines in order, without the words of documents (`lines`);
//! * the dictionary of each table knows its words, the numbers are theirs, and words and documents are few (the invariant
//!   `IsTable`, specs/Tables.antt).
//!
//! The one other answer is want of memory: that the calls succeed is tested above (`text_tests`, `folly_query`). How much
//! memory a table takes is said nowhere.
#![tactic(auto)]

pub use table::LineTable;

mod line;
mod parts;
mod push;
mod table;
