ghost use Rattle.std.specs.Prelude.{◌≡◌, ◌<◌, ◌≤◌, ℕ, List, length, map, sum, take};
ghost use Rattle.fan_base.specs.declared.doc.Doc.{Doc};
ghost use Rattle.fan_base.specs.declared.word.Word.{Word};
ghost use Rattle.query_grammar.specs.Tree.{Tree};
ghost use Rattle.query_model.specs.Answers.{each_once, hits_of, top_of, weight_of};
ghost use Rattle.query_model.specs.Parts.{merged_hits, merged_scores, part_before, weighted_top};
ghost use Rattle.shard_index.specs.Counting.{counts_of, DifferentWords};
ghost use Rattle.shard_index.specs.Parts.{by_shard, total_with, weights_by};

/// The hits of the parts of all shards, merged, are the hits of the documents before the query, and the sum of their totals is
/// no more than the number of documents. This function does nothing: its clauses are the law.
pub fn merged_hits_are_the_whole()
    ensures hits { (e : Tree) (docs : List Doc) (shards before : ℕ) → 0 < shards →
        merged_hits (by_shard (λ number. hits_of e (part_before docs shards number before)) shards) ≡ hits_of e (take before docs) }
    ensures total { (e : Tree) (docs : List Doc) (shards before : ℕ) → 0 < shards →
        sum (map (λ hits. hits.total) (by_shard (λ number. hits_of e (part_before docs shards number before)) shards)) ≤ length docs }
{}

/// The counts of the parts of all shards give the weights of the words among the documents before the query, and the scores of
/// the parts by these weights, merged, are the first of those documents. This function does nothing: its clauses are the law.
pub fn merged_scores_are_the_whole()
    ensures total { (words : List Word) (docs : List Doc) (shards before i : ℕ) → 0 < shards → i < length words →
        total_with i (by_shard (λ number. counts_of words (part_before docs shards number before)) shards) ≤ length docs }
    ensures weights { (words : List Word) (docs : List Doc) (shards before : ℕ) → 0 < shards →
        weights_by (length (take before docs)) (length words) (by_shard (λ number. counts_of words (part_before docs shards number before)) shards)
        ≡ map (weight_of (take before docs)) words }
    ensures scores { (k : ℕ) (words : List Word) (docs : List Doc) (shards before : ℕ) → 0 < shards →
        merged_scores k (by_shard (λ number. weighted_top k (each_once words) (map (weight_of (take before docs)) (each_once words))
        (part_before docs shards number before)) shards)
        ≡ top_of k words (take before docs) }
    ensures differ { (words : List Word) → DifferentWords (each_once words) }
{}
