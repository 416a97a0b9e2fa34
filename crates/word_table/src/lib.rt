//! Words as numbers: a dictionary that numbers words as they come, documents by such numbers, and places sorted by the number of the word
//! that stands there.
//!
//! The first word that comes has number 0, and each new one the next. A document is then its id and 4 bytes a word, and the places of a
//! part of the documents are sorted by counting over these numbers, with no comparison of words.
//!
//! - `Dictionary::number_doc`, `doc_by`: a document by numbers, and back again. Contracts see a dictionary as the list of its words
//!   (`Knows`).
//! - `DocTable`: documents by numbers, and the dictionary that several indexes may share (`IsTableOf`).
//! - `Sorted::of`, `places`: for each word the places where it stands, each once, and beside each how often (`Tell`).
//! - `numbers_stay`: the law that numbers stay right where words are added.
//!
//! A word is found by a hint of its hash. The word that the hint names is compared, by its first eight bytes where these are all; where
//! the hint fails, an ordered map has the number. So no contract speaks of a hint, and words chosen so that their hashes agree cost a
//! search each and no more.
#![tactic(auto)]

pub use dictionary::Dictionary;
pub use doc_table::DocTable;
pub use numbered::{NumberedDoc, numbers_stay};
pub use sorted::Sorted;

mod dictionary;
mod doc_table;
mod hints;
mod numbered;
mod parted;
mod repeated;
mod sorted;
