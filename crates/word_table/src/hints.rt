ghost use Rattle.std.specs.Prelude.{◌≤◌, length};

use fan_base::Word;
use std::alloc::{AllocError, Global};
use std::hash::{BuildHasher, BuildHasherDefault, FoldHasher};

/// At how many places a hint for a word may lie.
const TRIES: usize = 4;

/// What a place holds that has no hint.
const NO_HINT: u32 = u32::MAX;

/// Where to look first for a word: at a few places, by its hash, lie numbers of words. Whoever asks looks whether one of them is
/// the word's, so that a hint can't be wrong, and no contract speaks of one.
#[derive(Drop)]
pub struct Hints {
    numbers: Vec<u32>,
}

impl Hints {
    /// No hints.
    pub fn new(alloc: Global) -> Hints {
        Hints {
            numbers: Vec::new(alloc),
        }
    }

    /// What may be the word's number.
    pub fn of(&self, word: &Word) -> &[u32] {
        let first = self.first(word);
        let end = first.saturating_add(TRIES).min(self.numbers.len());
        &self.numbers[first..end]
    }

    /// The first place of a word's hints. Behind 2^32 places it is another one, which costs time alone.
    pub fn place(&self, word: &Word) -> u32 {
        (self.first(word) & 0xFFFF_FFFF) as u32
    }

    /// The hint at a place.
    pub fn at(&self, place: u32) -> u32 {
        let place = place as usize;
        if place < self.numbers.len() {
            self.numbers[place]
        } else {
            NO_HINT
        }
    }

    /// Whether one of a word's places is free.
    pub fn have_room(&self, word: &Word) -> bool {
        self.of(word).iter().any(|hint| *hint == NO_HINT)
    }

    /// Whether so many words want more places.
    pub fn are_full(&self, words: usize) -> bool {
        words >= self.numbers.len() / 4
    }

    /// Twice the places, with hints for these words.
    pub fn grow(&mut self, alloc: Global, words: &[Word]) -> Result<(), AllocError> {
        let places = self.numbers.len().saturating_mul(2).max(1024);
        self.numbers = vec![in alloc; NO_HINT; places]?;
        for (number, word) in words.iter().enumerate() {
            self.put(number, word);
        }
        Ok(())
    }

    /// Notes a word's number, where one of its places is free.
    pub fn put(&mut self, number: usize, word: &Word) {
        let first = self.first(word);
        let end = first.saturating_add(TRIES).min(self.numbers.len());
        for place in first..end {
            if self.numbers[place] == NO_HINT {
                self.numbers[place] = (number & 0xFFFF_FFFF) as u32;
                return;
            }
        }
    }

    /// The first place of a word's hints.
    fn first(&self, word: &Word) -> usize
        ensures { result ≤ length self.now.numbers.items }
    {
        let hash = BuildHasherDefault::<FoldHasher>::new().hash_one(*word);
        hash as usize & self.numbers.len().saturating_sub(1)
    }
}
