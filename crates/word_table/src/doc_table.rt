ghost use Rattle.std.specs.Prelude.{◌≡◌, IfOk, map};
ghost use Rattle.std.specs.List.{AllByRecursion};
ghost use Rattle.word_table.specs.Numbered.{AreNumbers, doc_by};
ghost use Rattle.word_table.specs.Numbers.{Knows, words_in};
ghost use Rattle.word_table.specs.Tables.{IsTableOf};

use crate::dictionary::Dictionary;
use crate::numbered::NumberedDoc;
use std::alloc::{AllocError, Global};
use std::sync::Arc;

/// Documents in the order of their lines, each with the numbers of its words, and the dictionary that has these words. Several
/// indexes may share the dictionary.
#[derive(Drop)]
pub struct DocTable {
    /// The words, each with its number.
    pub dictionary: Arc<Dictionary, Global>,
    /// The documents in the order of their lines.
    pub docs: Vec<NumberedDoc>,
}

impl DocTable {
    /// The documents with these numbers of a dictionary's words.
    pub fn new(
        alloc: Global,
        dictionary: Dictionary,
        docs: Vec<NumberedDoc>,
    ) -> Result<DocTable, AllocError>
        requires knows { Knows dictionary (words_in dictionary) }
        requires numbers { AllByRecursion (AreNumbers (words_in dictionary)) docs.items }
        ensures { IfOk result (λ table. IsTableOf table (map (doc_by (words_in dictionary)) docs.items)) }
    {
        Ok(DocTable {
            dictionary: Arc::new(alloc, dictionary)?,
            docs,
        })
    }
}
