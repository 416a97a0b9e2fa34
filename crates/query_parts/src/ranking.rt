ghost use Rattle.std.specs.Prelude.{◌≡◌, ◌<◌, ◌≤◌, ◌^◌, ℕ, List, IfOk, length, take};
ghost use Rattle.fan_base.specs.declared.doc.Doc.{Doc};
ghost use Rattle.fan_base.specs.declared.word.Word.{Word};
ghost use Rattle.query_model.specs.declared.line.Ask.TheVariants as ask;
ghost use Rattle.query_model.specs.Answers.{answer};
ghost use Rattle.query_model.specs.Parts.{part_before, weighted_top};
ghost use Rattle.shard_index.specs.Parts.{by_shard};
ghost use Rattle.query_parts.specs.Merging.{AreCounts, AreCountsOfSome, IsRankingOver, ranking_of};
ghost use Rattle.query_parts.specs.Parts.{AreShards};

use crate::among::push;
use crate::once::weigh_once;
use fan_base::{Memory, Numbers, Scores, Words};
use query_model::Reply;
use shard_index::{Counts, Shard, merge_scores, merged_scores_are_the_whole, weights};
use std::alloc::Global;

/// What a `top` asks of each shard, once all shards have counted its words: the words, each once, with their weights.
#[derive(Debug, Drop)]
pub struct Ranking {
    k: u32,
    words: Words,
    weights: Numbers,
}

impl Ranking {
    /// By what all shards count of these words among the first `before` documents.
    pub(crate) fn by_counts(
        alloc: Global,
        k: u32,
        words: &Words,
        before: u32,
        parts: &[Counts],
    ) -> Result<Ranking, Memory>
        requires { AreCountsOfSome words.now before parts.now }
        ensures { (docs : List Doc) (shards : ℕ) → AreCounts words.now docs shards before parts.now →
            IfOk result (λ ranking. ranking ≡ ranking_of k words.now (take before docs)) }
    {
        merged_scores_are_the_whole();
        let weights = weights(alloc, u64::from(before), words.len(), parts)?;
        let once = weigh_once(alloc, words.as_slice(), weights.as_slice())?;
        Ok(Ranking {
            k,
            words: once.words,
            weights: once.weights,
        })
    }

    /// The reply: the first `k` of the first `before` documents by their scores over all shards.
    pub fn answer(&self, alloc: Global, shards: &[Shard], before: u32) -> Result<Reply, Memory>
        requires { IsRankingOver self.now shards.now before }
        ensures { (k : ℕ) (words : List Word) (docs : List Doc) → AreShards shards.now docs → self.now ≡ ranking_of k words (take before docs) →
            IfOk result (λ reply. reply ≡ answer (ask.Top k words) (take before docs)) }
    {
        merged_scores_are_the_whole();
        let parts = self.scores_in_each(alloc, shards, before)?;
        Ok(Reply::Top(merge_scores(alloc, parts.as_slice(), self.k)?))
    }

    /// The first `k` scores of each shard.
    fn scores_in_each(
        &self,
        alloc: Global,
        shards: &[Shard],
        before: u32,
    ) -> Result<Vec<Scores>, Memory>
        requires { IsRankingOver self.now shards.now before }
        ensures { (docs : List Doc) → AreShards shards.now docs → IfOk result (λ parts. parts.items
            ≡ by_shard (λ number. weighted_top self.now.k self.now.words self.now.weights (part_before docs (length shards.now) number before)) (length shards.now)) }
    {
        merged_scores_are_the_whole();
        let mut parts = Vec::with_capacity(alloc, shards.len())?;
        for shard in shards {
            push(
                &mut parts,
                shard.scores(&self.words, self.weights.as_slice(), self.k, before)?,
            )?;
        }
        Ok(parts)
    }
}
