ghost use Rattle.std.specs.Prelude.{◌≡◌, ◌<◌, ◌+◌, ◌++◌, IfOk, codes};
ghost use Rattle.std.specs.Fmt.{decimal};
ghost use Rattle.fan_base.specs.Word.{IsWord};
ghost use Rattle.query_model.specs.Generated.{draw, draw_word, draw_words};
ghost use Rattle.query_gen.specs.Drawn.{AreAllWords, IsDrawn, IsDrawnFrom};

use fan_base::{Word, Words};
use std::alloc::{AllocError, Global};
use std::marker::Model;

/// Each state is the one before it times this, and `INCREMENT` more, modulo `STATES`.
const MULTIPLIER: u128 = 6_364_136_223_846_793_005;

const INCREMENT: u128 = 1_442_695_040_888_963_407;

const STATES: u128 = 1 << 64;

/// A state is drawn from without its lowest 33 bits.
const DROPPED: u64 = 1 << 33;

/// How many words can be drawn.
const WORDS: u64 = 500;

/// The state of the draws. Contracts see it as its number.
#[derive(Debug, Drop)]
pub(crate) struct Draws {
    state: u64,
}

impl Model for Draws {
    ghost use Rattle.std.specs.Prelude.{ℕ};

    ghost Value = { ℕ };

    ghost view = { λ draws. draws.state };
}

impl Draws {
    pub(crate) fn new(seed: u64) -> Draws
        ensures { result ≡ seed }
    {
        Draws { state: seed }
    }

    /// A number below `bound`.
    pub(crate) fn number(&mut self, bound: u64) -> u64
        requires { 0 < bound }
        ensures number { result ≡ (draw bound self.old).0 }
        ensures state { self.new ≡ (draw bound self.old).1 }
        ensures below { result < bound }
    {
        let next = (self.state as u128 * MULTIPLIER + INCREMENT) % STATES;
        self.state = next as u64;
        (self.state / DROPPED) % bound
    }

    /// `w` and a number below 500.
    pub(crate) fn word(&mut self) -> Word
        ensures { IsDrawnFrom draw_word result self.old self.new }
    {
        word_of(self.number(WORDS))
    }

    /// One of all words that can be drawn.
    fn word_among(&mut self, all: &[Word]) -> Word
        requires { AreAllWords all.now }
        ensures { IsDrawnFrom draw_word result self.old self.new }
    {
        all[self.number(WORDS) as usize]
    }

    /// So many words, out of all that can be drawn.
    pub(crate) fn words(
        &mut self,
        alloc: Global,
        all: &[Word],
        count: u64,
    ) -> Result<Words, AllocError>
        requires { AreAllWords all.now }
        ensures { IsDrawn (draw_words count) result self.old self.new }
    {
        let mut words = Vec::with_capacity(alloc, count as usize)?;
        let mut left = count;
        'words: while left > 0 {
            words.push(self.word_among(all))?;
            left -= 1;
        }
        Ok(Words::from_vec(words))
    }
}

/// All words that can be drawn, by their numbers.
pub(crate) fn all_words(alloc: Global) -> Result<Vec<Word>, AllocError>
    ensures { IfOk result (λ all. AreAllWords all.items) }
{
    let mut all = Vec::with_capacity(alloc, WORDS as usize)?;
    for number in 0..WORDS {
        all.push(word_of(number))?;
    }
    Ok(all)
}

/// `w` and the number.
fn word_of(number: u64) -> Word
    requires { number < 500 }
    ensures { result ≡ codes "w" ++ decimal number }
{
    let units = digit(number % 10);
    let tens = digit(number / 10 % 10);
    let hundreds = digit(number / 10 / 10);
    if number < 10 {
        word(&[b'w', units])
    } else if number < 100 {
        word(&[b'w', tens, units])
    } else {
        word(&[b'w', hundreds, tens, units])
    }
}

/// The character of a digit, 0 to 9.
fn digit(number: u64) -> u8
    requires { number < 10 }
    ensures { result ≡ 48 + number }
{
    b'0' + number as u8
}

/// The word of these bytes.
fn word(bytes: &[u8]) -> Word
    requires { IsWord bytes.now }
    ensures { result ≡ bytes.now }
{
    match Word::new(bytes) {
        Ok(word) => word,
        Err(_) => unreachable!(),
    }
}
