ghost use Rattle.std.specs.Prelude.{◌≡◌, ◌≤◌, IfErr, OnOk, length, take};
ghost use Rattle.query_model.specs.Lines.{words_of};
ghost use Rattle.query_text.specs.Outcomes.{FailsAs, Gives};
ghost use Rattle.query_text.specs.Sayings.{PutsWord, word_in};

use crate::fault::{BAD_WORD, LineFault, TOO_MANY_WORDS};
use crate::fields::Fields;
use fan_base::{Word, WordFault, Words};
use query_model::limits::MOST_WORDS;
use std::alloc::Global;

/// How many bytes are looked at together.
const LANES: usize = 16;

/// The words of a document or of a `top`, where there is room for so many at first.
pub fn words_of(alloc: Global, mut fields: Fields<'_>, room: usize) -> Result<Words, LineFault>
    ensures { Gives result (words_of fields.entry) }
{
    let mut words = Words::from_vec(Vec::with_capacity(alloc, room)?);
    'texts: while let Some((line, size)) = fields.next_place() {
        if words.len() == MOST_WORDS {
            return Err(TOO_MANY_WORDS);
        }
        push_word(&mut words, line, size)?;
    }
    Ok(words)
}

/// The words, in no more memory than they need.
pub fn without_spare(words: Words) -> Words
    ensures { result ≡ words }
{
    let mut words = words.into_vec();
    words.shrink_to_fit();
    Words::from_vec(words)
}

/// Puts the word that the first so many bytes of a line are behind the others. A word of at most 16 bytes, with 16 bytes of line from
/// its first on, is read from these 16 together, any other alone.
fn push_word(words: &mut Words, line: &[u8], size: usize) -> Result<(), LineFault>
    requires { size ≤ length line.now }
    ensures ok { OnOk result (PutsWord words.old words.new (take size line.now)) }
    ensures err { IfErr result (λ fault. FailsAs fault (word_in (take size line.now))) }
{
    if size > LANES || line.len() < LANES {
        return push_alone(words, &line[..size]);
    }
    if !Word::is_front(line, size) {
        return Err(BAD_WORD);
    }
    words.push(Word::of_front(line, size))?;
    Ok(())
}

/// Puts the word that a text is behind the others.
fn push_alone(words: &mut Words, text: &[u8]) -> Result<(), LineFault>
    ensures ok { OnOk result (PutsWord words.old words.new text.now) }
    ensures err { IfErr result (λ fault. FailsAs fault (word_in text.now)) }
{
    let word = word_of(text)?;
    words.push(word)?;
    Ok(())
}

/// The word that a text is.
pub fn word_of(text: &[u8]) -> Result<Word, LineFault>
    ensures { Gives result (word_in text.now) }
{
    match Word::new(text) {
        Ok(word) => Ok(word),
        Err(WordFault::BadWord) => Err(BAD_WORD),
        Err(WordFault::Memory) => Err(LineFault::Memory),
    }
}
