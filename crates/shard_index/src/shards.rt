ghost use Rattle.std.specs.Prelude.{◌≡◌, ◌*◌, ◌<◌, ◌≤◌, ◌^◌, ◌++◌, ◌∷◌, [], All, List, ℕ, IfOk, OnOk, get_or, length, map, take};
ghost use Rattle.fan_base.specs.declared.doc.Doc.{Doc};
ghost use Rattle.query_model.specs.Answers.{answer, each_once, hits_of, top_of, weight_of};
ghost use Rattle.query_model.specs.Limits.{most_words};
ghost use Rattle.query_model.specs.Parts.{part_before, weighted_top};
ghost use Rattle.shard_index.specs.Counting.{counts_of, DifferentWords};
ghost use Rattle.shard_index.specs.Parts.{by_shard};
ghost use Rattle.shard_index.specs.Standing.{AreShort, how_many, StandForAll, StandForSome, StandsFor};
ghost use Rattle.shard_index.specs.declared.shard.Shard.{Shard};

use crate::counts::Counts;
use crate::laws::{merged_hits_are_the_whole, merged_scores_are_the_whole};
use crate::merge::{merge_hits, merge_scores, weights};
use crate::once::each_once;
use crate::shard::Shard;
use fan_base::{Docs, Memory, Scores, Words};
use query_grammar::Expr;
use query_model::{Ask, Hits, Reply};
use std::alloc::Global;

/// All shards of some documents. Each question is asked of the first `before` documents.
#[derive(Drop)]
pub struct Shards {
    alloc: Global,
    docs: usize,
    shards: Vec<Shard>,
}

impl Shards {
    /// So many shards of these documents.
    pub fn build(alloc: Global, docs: &Docs, shards: u32) -> Result<Shards, Memory>
        requires some { 1 ≤ shards }
        requires many { shards ≤ 64 }
        requires few { length docs.now * most_words ≤ 2 ^ 32 }
        requires short { AreShort docs.now }
        ensures many { IfOk result (λ all. how_many all ≡ shards) }
        ensures stand { IfOk result (λ all. StandForAll all docs.now) }
    {
        let mut all = Vec::new(alloc);
        for number in 0..shards {
            let shard = Shard::build(alloc, docs, shards, number)?;
            push(&mut all, shard)?;
        }
        Ok(Shards {
            alloc,
            docs: docs.len(),
            shards: all,
        })
    }

    /// The shards, in the order of their numbers.
    pub fn as_slice(&self) -> &[Shard]
        ensures many { length result.now ≡ how_many self.now }
        ensures each { (docs : List Doc) → StandForAll self.now docs → (number : ℕ) (shard : Shard) → number < how_many self.now
            → StandsFor (get_or result.now number shard) docs (how_many self.now) number }
    {
        self.shards.as_slice()
    }

    /// The answer of a query over the first documents.
    pub fn answer(&self, ask: &Ask, before: u32) -> Result<Reply, Memory>
        requires { StandForSome self.now }
        ensures { (docs : List Doc) → StandForAll self.now docs → IfOk result (λ reply. reply ≡ answer ask.now (take before docs)) }
    {
        match ask {
            Ask::Find(e) => Ok(Reply::Find(self.find(e, before)?)),
            Ask::Count(e) => Ok(Reply::Count(self.find(e, before)?.total)),
            Ask::Present(e) => Ok(Reply::Present(self.find(e, before)?.total > 0)),
            Ask::Top(k, words) => Ok(Reply::Top(self.top(*k, words, before)?)),
        }
    }

    /// The first 100 ids, ascending, of the documents for which the expression holds, and how many hold.
    fn find(&self, e: &Expr, before: u32) -> Result<Hits, Memory>
        requires { StandForSome self.now }
        ensures { (docs : List Doc) → StandForAll self.now docs → IfOk result (λ hits. hits ≡ hits_of e.now (take before docs)) }
    {
        merged_hits_are_the_whole();
        let parts = self.find_in_each(e, before)?;
        merge_hits(self.alloc, parts.as_slice())
    }

    /// What each shard finds.
    fn find_in_each(&self, e: &Expr, before: u32) -> Result<Vec<Hits>, Memory>
        requires { StandForSome self.now }
        ensures { (docs : List Doc) → StandForAll self.now docs → IfOk result (λ parts. parts.items
            ≡ by_shard (λ number. hits_of e.now (part_before docs (how_many self.now) number before)) (how_many self.now)) }
    {
        let mut parts = Vec::new(self.alloc);
        for number in 0..self.shards.len() {
            push(&mut parts, self.shards[number].find(e, before)?)?;
        }
        Ok(parts)
    }

    /// The first `k` documents for these words, with their scores.
    fn top(&self, k: u32, words: &Words, before: u32) -> Result<Scores, Memory>
        requires { StandForSome self.now }
        ensures { (docs : List Doc) → StandForAll self.now docs → IfOk result (λ scores. scores ≡ top_of k words.now (take before docs)) }
    {
        merged_scores_are_the_whole();
        let words = each_once(self.alloc, words.as_slice())?;
        let weights = self.weights(&words, before)?;
        let parts = self.scores_in_each(&words, weights.as_slice(), k, before)?;
        merge_scores(self.alloc, parts.as_slice(), k)
    }

    /// The weights of words among the first documents.
    fn weights(&self, words: &Words, before: u32) -> Result<Vec<u64>, Memory>
        requires { StandForSome self.now }
        ensures { (docs : List Doc) → StandForAll self.now docs
            → IfOk result (λ weights. weights.items ≡ map (weight_of (take before docs)) words.now) }
    {
        merged_scores_are_the_whole();
        let parts = self.count_in_each(words, before)?;
        let docs = self.docs.min(before as usize) as u64;
        Ok(weights(self.alloc, docs, words.len(), parts.as_slice())?)
    }

    /// What each shard counts.
    fn count_in_each(&self, words: &Words, before: u32) -> Result<Vec<Counts>, Memory>
        requires { StandForSome self.now }
        ensures { (docs : List Doc) → StandForAll self.now docs → IfOk result (λ parts. parts.items
            ≡ by_shard (λ number. counts_of words.now (part_before docs (how_many self.now) number before)) (how_many self.now)) }
    {
        let mut parts = Vec::new(self.alloc);
        for number in 0..self.shards.len() {
            push(&mut parts, self.shards[number].counts(words, before)?)?;
        }
        Ok(parts)
    }

    /// The first `k` scores of each shard.
    fn scores_in_each(
        &self,
        words: &Words,
        weights: &[u64],
        k: u32,
        before: u32,
    ) -> Result<Vec<Scores>, Memory>
        requires stands { StandForSome self.now }
        requires differ { DifferentWords words.now }
        requires many { length weights.now ≡ length words.now }
        requires low { All (λ weight. weight < 2 ^ 32) weights.now }
        ensures { (docs : List Doc) → StandForAll self.now docs → IfOk result (λ parts. parts.items
            ≡ by_shard (λ number. weighted_top k words.now weights.now (part_before docs (how_many self.now) number before)) (how_many self.now)) }
    {
        let mut parts = Vec::new(self.alloc);
        for number in 0..self.shards.len() {
            push(
                &mut parts,
                self.shards[number].scores(words, weights, k, before)?,
            )?;
        }
        Ok(parts)
    }
}

/// Puts an item behind the others.
fn push<X: Drop>(items: &mut Vec<X>, item: X) -> Result<(), Memory>
    ensures { OnOk result (items.new.items ≡ items.old.items ++ item ∷ []) }
{
    match items.push(item) {
        Ok(()) => Ok(()),
        Err(_) => Err(Memory),
    }
}
