ghost use Rattle.std.specs.Prelude.{◌≡◌, ◌<◌, ◌++◌, ◌∷◌, [], ℕ, List, IfOk, IfSome, OnOk, get_or, length, true};
ghost use Rattle.fan_base.specs.declared.word.Word.{Word};
ghost use Rattle.word_table.specs.Numbers.{AreKeyed, HasKey, IsAt, Knows, byte_at, number_in, with_word, words_in};
ghost use Rattle.word_table.specs.Numbered.{word_at};

use crate::hints::Hints;
use fan_base::Word;
use std::alloc::{AllocError, Global};
use std::collections::BTreeMap;

/// Words, each with its number: the first that came has 0, and each new one the next. Most words are found by a hint, by their
/// hash; where the hint fails, as for words that were chosen so that their hashes agree, an ordered map has them.
#[derive(Drop)]
pub struct Dictionary {
    words: Vec<Word>,
    /// The first bytes of each word. They lie closer together than the words, and most words have no others.
    keys: Vec<u64>,
    numbers: BTreeMap<Word, usize>,
    hints: Hints,
}

impl Dictionary {
    /// No words.
    pub fn new(alloc: Global) -> Dictionary
        ensures { Knows result [] }
    {
        Dictionary {
            words: Vec::new(alloc),
            keys: Vec::new(alloc),
            numbers: BTreeMap::new(alloc),
            hints: Hints::new(alloc),
        }
    }

    /// How many words it has.
    pub fn len(&self) -> usize
        ensures { (words : List Word) → Knows self.now words → result ≡ length words }
    {
        self.words.len()
    }

    /// The word with a number.
    pub fn word(&self, number: u32) -> Word
        requires { number < length (words_in self.now) }
        ensures { result ≡ word_at (words_in self.now) number }
    {
        self.words[number as usize]
    }

    /// What the words lie in.
    pub(crate) fn allocator(&self) -> Global {
        *self.words.allocator()
    }

    /// The word's number, or how many words there are where it isn't one of them.
    pub fn find(&self, word: &Word) -> usize
        ensures { (words : List Word) → Knows self.now words → result ≡ number_in words word.now }
    {
        match self.hinted(word) {
            Some(number) => number,
            None => self.looked_up(word),
        }
    }

    /// Where a word's first hint lies.
    pub(crate) fn hint_place(&self, word: &Word) -> u32 {
        self.hints.place(word)
    }

    /// What is most likely the number of the word whose first hint lies there.
    pub(crate) fn guess_at(&self, place: u32) -> u32 {
        self.hints.at(place)
    }

    /// The word's number, whatever the guess. A new word gets the next.
    pub(crate) fn number_by(&mut self, word: &Word, guess: u32) -> Result<usize, AllocError>
        ensures number { IfOk result (λ number. (words : List Word) → Knows self.old words → number ≡ number_in (with_word words word.now) word.now) }
        ensures knows { OnOk result ((words : List Word) → Knows self.old words → Knows self.new (with_word words word.now)) }
    {
        match self.hinted_by(word, guess) {
            Some(number) => Ok(number),
            None => self.number_unhinted(word),
        }
    }

    /// The word's number, where the guess or a hint tells.
    fn hinted_by(&self, word: &Word, guess: u32) -> Option<usize>
        ensures { AreKeyed self.now.keys.items self.now.words.items → IfSome result (λ number. IsAt self.now.words.items number word.now) }
    {
        let number = guess as usize;
        if self.is_at(number, word) {
            return Some(number);
        }
        self.hinted(word)
    }

    /// The word's number, where no hint tells. A new word gets the next. Where the word could have a hint it is most likely new.
    fn number_unhinted(&mut self, word: &Word) -> Result<usize, AllocError>
        ensures number { IfOk result (λ number. (words : List Word) → Knows self.old words → number ≡ number_in (with_word words word.now) word.now) }
        ensures knows { OnOk result ((words : List Word) → Knows self.old words → Knows self.new (with_word words word.now)) }
    {
        if !self.hints.have_room(word) {
            let number = self.looked_up(word);
            if number < self.words.len() {
                return Ok(number);
            }
        }
        self.add(word)
    }

    /// The word's number by the ordered map. A new word gets the next.
    fn add(&mut self, word: &Word) -> Result<usize, AllocError>
        ensures number { IfOk result (λ number. (words : List Word) → Knows self.old words → number ≡ number_in (with_word words word.now) word.now) }
        ensures knows { OnOk result ((words : List Word) → Knows self.old words → Knows self.new (with_word words word.now)) }
    {
        let number = self.words.len();
        let old = self.numbers.insert(*word, number)?;
        match old {
            Some(known) => {
                self.numbers.insert(*word, known)?;
                Ok(known)
            }
            None => {
                self.put_behind(number, word)?;
                Ok(number)
            }
        }
    }

    /// Puts a word behind the others, with a hint for it.
    fn put_behind(&mut self, number: usize, word: &Word) -> Result<(), AllocError>
        ensures words { OnOk result (self.new.words.items ≡ self.old.words.items ++ word.now ∷ []) }
        ensures keys { OnOk result ((key : ℕ) × HasKey key word.now × (self.new.keys.items ≡ self.old.keys.items ++ key ∷ [])) }
        ensures numbers { self.new.numbers ≡ self.old.numbers }
    {
        let alloc = self.allocator();
        self.words.push(*word)?;
        self.keys.push(key_of(word))?;
        if self.hints.are_full(number) {
            self.hints.grow(alloc, self.words.as_slice())?;
        } else {
            self.hints.put(number, word);
        }
        Ok(())
    }

    /// The word's number, where a hint tells.
    fn hinted(&self, word: &Word) -> Option<usize>
        ensures { AreKeyed self.now.keys.items self.now.words.items → IfSome result (λ number. IsAt self.now.words.items number word.now) }
    {
        for hint in self.hints.of(word) {
            let number = *hint as usize;
            if self.is_at(number, word) {
                return Some(number);
            }
        }
        None
    }

    /// Whether a number is the word's. The word that has the number is looked at only where its first bytes don't tell.
    fn is_at(&self, number: usize, word: &Word) -> bool
        ensures { AreKeyed self.now.keys.items self.now.words.items → result ≡ true → IsAt self.now.words.items number word.now }
    {
        self.has_key(number, key_of(word)) && (is_short(word) || self.is_word_at(number, word))
    }

    /// Whether a number is that of a word with these first bytes.
    fn has_key(&self, number: usize, key: u64) -> bool
        ensures within { result ≡ true → number < length self.now.keys.items }
        ensures key { result ≡ true → get_or self.now.keys.items number 0 ≡ key }
    {
        number < self.keys.len() && self.keys[number] == key
    }

    /// Whether a number is the word's, by the words.
    fn is_word_at(&self, number: usize, word: &Word) -> bool
        ensures { result ≡ true → IsAt self.now.words.items number word.now }
    {
        number < self.words.len() && are_same(&self.words[number], word)
    }

    /// The word's number by the ordered map.
    fn looked_up(&self, word: &Word) -> usize
        ensures { (words : List Word) → Knows self.now words → result ≡ number_in words word.now }
    {
        match self.numbers.get(word) {
            Some(number) => *number,
            None => self.words.len(),
        }
    }
}

/// The first eight bytes of a word, as a number.
fn key_of(word: &Word) -> u64
    ensures { HasKey result word.now }
{
    let bytes = word.as_array();
    u64::from_le_bytes([
        bytes[0], bytes[1], bytes[2], bytes[3], bytes[4], bytes[5], bytes[6], bytes[7],
    ])
}

/// Whether its first eight bytes are all that a word has.
fn is_short(word: &Word) -> bool
    ensures { result ≡ true → byte_at word.now 7 ≡ 0 }
{
    word.as_array()[7] == 0
}

/// Whether two words are the same.
fn are_same(one: &Word, other: &Word) -> bool
    ensures { result ≡ true → one.now ≡ other.now }
{
    agree(one.as_array(), other.as_array())
}

/// Whether two arrays are the same. Each byte is compared, whatever the others say, so that a machine compares many at once.
fn agree(one: &[u8; 32], other: &[u8; 32]) -> bool
    ensures { result ≡ true → one.now ≡ other.now }
{
    let mut same = true;
    for i in 0..32 {
        same &= one[i] == other[i];
    }
    same
}
