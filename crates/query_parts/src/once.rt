ghost use Rattle.std.specs.Prelude.{◌≡◌, ℕ, IfOk, length, map};
ghost use Rattle.fan_base.specs.declared.word.Word.{Word};
ghost use Rattle.query_model.specs.Answers.{each_once};

use fan_base::{Numbers, Word, Words};
use shard_index::stand_again;
use std::alloc::{AllocError, Global};

/// Words with a weight for each.
#[derive(Drop)]
pub struct Weighed {
    pub words: Words,
    pub weights: Numbers,
}

/// The words, each once, and the weight that stands beside each.
pub fn weigh_once(alloc: Global, words: &[Word], weights: &[u64]) -> Result<Weighed, AllocError>
    requires { length weights.now ≡ length words.now }
    ensures words { IfOk result (λ once. once.words ≡ each_once words.now) }
    ensures weights { (weight : Word → ℕ) → weights.now ≡ map weight words.now → IfOk result (λ once. once.weights ≡ map weight (each_once words.now)) }
{
    let again = stand_again(alloc, words)?;
    let mut once = Vec::new(alloc);
    let mut kept = Vec::new(alloc);
    for i in 0..words.len() {
        if !again[i] {
            once.push(words[i])?;
            kept.push(weights[i])?;
        }
    }
    Ok(Weighed {
        words: Words::from_vec(once),
        weights: Numbers::from_vec(kept),
    })
}
