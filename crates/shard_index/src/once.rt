ghost use Rattle.std.specs.Prelude.{◌≡◌, IfOk, length};
ghost use Rattle.query_grammar.specs.Truth.{is_among};
ghost use Rattle.query_model.specs.Answers.{each_once};
ghost use Rattle.shard_index.specs.Counting.{stand_again};

use fan_base::{Word, Words};
use std::alloc::{AllocError, Global};
use std::collections::BTreeSet;

/// Up to so many words it takes less time to compare each with all behind it than to make a set.
const FEW: usize = 32;

/// The words, each once.
pub fn each_once(alloc: Global, words: &[Word]) -> Result<Words, AllocError>
    ensures { IfOk result (λ once. once ≡ each_once words.now) }
{
    let again = stand_again(alloc, words)?;
    let mut once = Vec::new(alloc);
    for i in 0..words.len() {
        if !again[i] {
            once.push(words[i])?;
        }
    }
    Ok(Words::from_vec(once))
}

/// For each word whether it stands again behind itself.
pub fn stand_again(alloc: Global, words: &[Word]) -> Result<Vec<bool>, AllocError>
    ensures many { IfOk result (λ again. length again.items ≡ length words.now) }
    ensures told { IfOk result (λ again. again.items ≡ stand_again words.now) }
{
    if words.len() > FEW {
        return told_by_set(alloc, words);
    }
    let mut again = Vec::with_capacity(alloc, words.len())?;
    for i in 0..words.len() {
        again.push(is_among(&words[i], &words[i + 1..]))?;
    }
    Ok(again)
}

/// The same of many words. They are gone over from the last on, with an ordered set of those seen.
fn told_by_set(alloc: Global, words: &[Word]) -> Result<Vec<bool>, AllocError>
    ensures many { IfOk result (λ again. length again.items ≡ length words.now) }
    ensures told { IfOk result (λ again. again.items ≡ stand_again words.now) }
{
    let mut seen = BTreeSet::new(alloc);
    let mut again = vec![in alloc; false; words.len()]?;
    for done in 0..words.len() {
        let i = words.len() - 1 - done;
        again[i] = !seen.insert(words[i])?;
    }
    Ok(again)
}

fn is_among(word: &Word, words: &[Word]) -> bool
    ensures { result ≡ is_among word.now words.now }
{
    words.iter().any(|other| other == word)
}
