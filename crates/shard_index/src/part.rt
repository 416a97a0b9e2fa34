//! The documents of one shard, by numbers, and their index.
ghost use Rattle.std.specs.Prelude.{◌≡◌, ◌*◌, ◌<◌, ◌≤◌, ◌^◌, ℕ, List, IfOk, length, map};
ghost use Rattle.fan_base.specs.declared.doc.Doc.{Doc};
ghost use Rattle.fan_base.specs.declared.word.Word.{Word};
ghost use Rattle.query_model.specs.Limits.{most_words};
ghost use Rattle.query_model.specs.Parts.{part_of};
ghost use Rattle.word_table.specs.Numbered.{doc_by};
ghost use Rattle.word_table.specs.Rows.{AreBelow, lent};
ghost use Rattle.word_table.specs.Tables.{IsTableOf};
ghost use Rattle.shard_index.specs.Standing.{AreShort, Indexes};

use crate::index::Index;
use fan_base::Doc;
use std::alloc::{AllocError, Global};
use word_table::{Dictionary, DocTable, NumberedDoc, numbers_stay};

/// The index of a table's documents at the places i (from 0) with `i mod shards = no`. It shares the table's dictionary.
pub fn index_of_part(
    alloc: Global,
    table: &DocTable,
    shards: u32,
    no: u32,
) -> Result<Index, AllocError>
    requires number { no < shards }
    requires table { (docs : List Doc) × IsTableOf table.now docs × (length docs < 2 ^ 32) × AreShort docs }
    ensures { (docs : List Doc) → IsTableOf table.now docs → IfOk result (λ index. Indexes index (part_of docs shards no)) }
{
    let docs = picked(alloc, table.docs.as_slice(), shards, no)?;
    Index::of(alloc, &table.dictionary, docs.as_slice())
}

/// References to the documents at these places.
fn picked<'a>(
    alloc: Global,
    docs: &'a [NumberedDoc],
    shards: u32,
    no: u32,
) -> Result<Vec<&'a NumberedDoc>, AllocError>
    requires { no < shards }
    ensures docs { IfOk result (λ picked. (known : List Word) → map (doc_by known) (lent picked.items) ≡ part_of (map (doc_by known) docs.now) shards no) }
    ensures numbers { IfOk result (λ picked. (count : ℕ) → AreBelow count docs.now → AreBelow count (lent picked.items)) }
{
    let mut picked = Vec::new(alloc);
    for (place, doc) in docs.iter().enumerate() {
        if place % shards as usize == no as usize {
            picked.push(doc)?;
        }
    }
    Ok(picked)
}

/// A table of the documents at these places alone.
pub fn table_of_part(
    alloc: Global,
    docs: &[Doc],
    shards: u32,
    no: u32,
) -> Result<DocTable, AllocError>
    requires number { no < shards }
    requires few { length docs.now * most_words ≤ 2 ^ 32 }
    requires short { AreShort docs.now }
    ensures { IfOk result (λ table. IsTableOf table (part_of docs.now shards no)) }
{
    numbers_stay();
    let mut dictionary = Dictionary::new(alloc);
    let mut part = Vec::new(alloc);
    for (place, doc) in docs.iter().enumerate() {
        if place % shards as usize == no as usize {
            let numbered = dictionary.number_doc(doc)?;
            part.push(numbered)?;
        }
    }
    DocTable::new(alloc, dictionary, part)
}
