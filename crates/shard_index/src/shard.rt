ghost use Rattle.std.specs.Prelude.{◌≡◌, ◌*◌, ◌<◌, ◌≤◌, ◌^◌, ℕ, All, List, IfOk, length, take};
ghost use Rattle.fan_base.specs.declared.doc.Doc.{Doc};
ghost use Rattle.query_model.specs.Answers.{hits_of, holding};
ghost use Rattle.query_model.specs.Limits.{most_words};
ghost use Rattle.query_model.specs.Parts.{part_before, part_of, weighted_top};
ghost use Rattle.word_table.specs.Tables.{IsTableOf};
ghost use Rattle.shard_index.specs.Counting.{counts_of, DifferentWords};
ghost use Rattle.shard_index.specs.Standing.{AreShort, Stands, StandsFor};

use crate::counts::Counts;
use crate::index::Index;
use crate::part::{index_of_part, table_of_part};
use fan_base::{Docs, Memory, Scores, Words};
use query_grammar::Expr;
use query_model::Hits;
use query_model::laws::part_is_told_by_places;
use std::alloc::Global;
use word_table::DocTable;

/// The shard with a number, of so many: an index of the documents at the places i, from 0, with `i mod shards` the number.
/// Each question is asked of those at places below `before`.
#[derive(Drop)]
pub struct Shard {
    index: Index,
    shards: u32,
    number: u32,
}

impl Shard {
    /// The shard of the documents at the places i (from 0) with `i mod shards = no`. It has a dictionary of its own.
    pub fn build(alloc: Global, docs: &Docs, shards: u32, no: u32) -> Result<Shard, Memory>
        requires number { no < shards }
        requires shards { shards ≤ 64 }
        requires few { length docs.now * most_words ≤ 2 ^ 32 }
        requires short { AreShort docs.now }
        ensures { IfOk result (λ shard. StandsFor shard docs.now shards no) }
    {
        let table = table_of_part(alloc, docs.as_slice(), shards, no)?;
        let index = index_of_part(alloc, &table, 1, 0)?;
        Ok(Shard {
            index,
            shards,
            number: no,
        })
    }

    /// The shard of a table's documents at these places. It shares the table's dictionary.
    pub fn of_table(alloc: Global, table: &DocTable, shards: u32, no: u32) -> Result<Shard, Memory>
        requires number { no < shards }
        requires shards { shards ≤ 64 }
        requires table { (docs : List Doc) × IsTableOf table.now docs × (length docs < 2 ^ 32) × AreShort docs }
        ensures { (docs : List Doc) → IsTableOf table.now docs → IfOk result (λ shard. StandsFor shard docs shards no) }
    {
        let index = index_of_part(alloc, table, shards, no)?;
        Ok(Shard {
            index,
            shards,
            number: no,
        })
    }

    /// The first 100 ids, ascending, of the documents for which the expression holds, and how many hold.
    pub fn find(&self, e: &Expr, before: u32) -> Result<Hits, Memory>
        requires { Stands self.now }
        ensures { (docs : List Doc) (shards number : ℕ) → StandsFor self.now docs shards number →
            IfOk result (λ hits. hits ≡ hits_of e.now (part_before docs shards number before)) }
    {
        Ok(self.index.find(self.index.alloc(), self.front(before), e)?)
    }

    /// For how many documents the expression holds.
    pub fn count(&self, e: &Expr, before: u32) -> Result<u64, Memory>
        requires { Stands self.now }
        ensures { (docs : List Doc) (shards number : ℕ) → StandsFor self.now docs shards number →
            IfOk result (λ total. total ≡ length (holding e.now (part_before docs shards number before))) }
    {
        Ok(self.index.count(self.index.alloc(), self.front(before), e)?)
    }

    /// Of how many documents each word is one, and how many have one of them.
    pub fn counts(&self, words: &Words, before: u32) -> Result<Counts, Memory>
        requires { Stands self.now }
        ensures { (docs : List Doc) (shards number : ℕ) → StandsFor self.now docs shards number →
            IfOk result (λ counts. counts ≡ counts_of words.now (part_before docs shards number before)) }
    {
        Ok(
            self.index
                .counts(self.index.alloc(), self.front(before), words.as_slice())?,
        )
    }

    /// The first `k` documents by the weights of these words, with their scores: the greater score first, then the smaller
    /// id, and no score of 0.
    pub fn scores(
        &self,
        words: &Words,
        weights: &[u64],
        k: u32,
        before: u32,
    ) -> Result<Scores, Memory>
        requires stands { Stands self.now }
        requires differ { DifferentWords words.now }
        requires many { length weights.now ≡ length words.now }
        requires low { All (λ weight. weight < 2 ^ 32) weights.now }
        ensures { (docs : List Doc) (shards number : ℕ) → StandsFor self.now docs shards number →
            IfOk result (λ scores. scores ≡ weighted_top k words.now weights.now (part_before docs shards number before)) }
    {
        let front = self.front(before);
        let alloc = self.index.alloc();
        Ok(
            self.index
                .scores(alloc, front, words.as_slice(), weights, k as usize)?,
        )
    }

    /// How many of its documents stand at places below `before`.
    fn front(&self, before: u32) -> usize
        requires { Stands self.now }
        ensures within { (docs : List Doc) (shards number : ℕ) → StandsFor self.now docs shards number →
            result ≤ length (part_of docs shards number) }
        ensures front { (docs : List Doc) (shards number : ℕ) → StandsFor self.now docs shards number →
            take result (part_of docs shards number) ≡ part_before docs shards number before }
    {
        part_is_told_by_places();
        let behind = before.saturating_sub(self.number) as usize;
        behind.div_ceil(self.shards as usize).min(self.index.len())
    }
}
