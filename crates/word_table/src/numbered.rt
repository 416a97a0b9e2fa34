ghost use Rattle.std.specs.Prelude.{◌≡◌, ◌+◌, ◌<◌, ◌≤◌, ◌^◌, List, IfOk, OnOk, length};
ghost use Rattle.fan_base.specs.declared.doc.Doc.{Doc};
ghost use Rattle.fan_base.specs.declared.word.Word.{Word};
ghost use Rattle.word_table.specs.Numbered.{AreNumbers, IsNumbered, AreNumbersOf, doc_by};
ghost use Rattle.word_table.specs.Numbers.{Knows, number_in, with_word, with_words, words_in};

use crate::dictionary::Dictionary;
use fan_base::{Doc, List, Word, Words};
use std::alloc::{AllocError, Global};

/// A document with numbers of a dictionary's words in place of its words.
#[derive(Debug, Drop)]
pub struct NumberedDoc {
    /// The document's id.
    pub id: u32,
    /// The numbers of its words in the order of the text, repeats kept.
    pub words: List<u32>,
}

impl Dictionary {
    /// A document with the numbers of its words. New words get numbers. Without memory nothing is said of the dictionary: it may have
    /// taken some of the words.
    pub fn number_doc(&mut self, doc: &Doc) -> Result<NumberedDoc, AllocError>
        requires known { Knows self.old (words_in self.old) }
        requires few { length (words_in self.old) + length doc.now.words ≤ 2 ^ 32 }
        ensures knows { OnOk result ((words : List Word) → Knows self.old words → Knows self.new (with_words words doc.now.words)) }
        ensures numbered { IfOk result (λ numbered. (words : List Word) → Knows self.old words → IsNumbered (with_words words doc.now.words) numbered doc.now) }
    {
        let words = self.number_words(doc.words.as_slice())?;
        Ok(NumberedDoc {
            id: doc.id,
            words: List::from_vec(words),
        })
    }

    /// The document that has the words with these numbers.
    pub fn doc_by(&self, alloc: Global, numbered: &NumberedDoc) -> Result<Doc, AllocError>
        requires numbers { AreNumbers (words_in self.now) numbered.now }
        ensures { IfOk result (λ doc. doc ≡ doc_by (words_in self.now) numbered.now) }
    {
        let mut words = Vec::with_capacity(alloc, numbered.words.len())?;
        for number in numbered.words.as_slice() {
            words.push(self.word(*number))?;
        }
        Ok(Doc {
            id: numbered.id,
            words: Words::from_vec(words),
        })
    }

    /// The numbers of these words. New words get numbers. They take the places of the guesses.
    fn number_words(&mut self, words: &[Word]) -> Result<Vec<u32>, AllocError>
        requires known { Knows self.old (words_in self.old) }
        requires few { length (words_in self.old) + length words.now ≤ 2 ^ 32 }
        ensures knows { OnOk result (Knows self.new (with_words (words_in self.old) words.now)) }
        ensures numbered { IfOk result (λ numbers. AreNumbersOf (with_words (words_in self.old) words.now) numbers.items words.now) }
    {
        let mut numbers = self.guesses(words)?;
        for place in 0..words.len() {
            numbers[place] = self.number_word(&words[place], numbers[place])?;
        }
        Ok(numbers)
    }

    /// A guess for each of these words. Guesses for many words, before any is compared, are had in less time than one by one, and so
    /// are the places of their hints before any is read.
    fn guesses(&self, words: &[Word]) -> Result<Vec<u32>, AllocError>
        ensures { IfOk result (λ guesses. length guesses.items ≡ length words.now) }
    {
        let mut guesses = self.hint_places(words)?;
        for i in 0..words.len() {
            guesses[i] = self.guess_at(guesses[i]);
        }
        Ok(guesses)
    }

    /// Where the first hint of each of these words lies.
    fn hint_places(&self, words: &[Word]) -> Result<Vec<u32>, AllocError>
        ensures { IfOk result (λ places. length places.items ≡ length words.now) }
    {
        let mut places = Vec::with_capacity(self.allocator(), words.len())?;
        for word in words {
            places.push(self.hint_place(word))?;
        }
        Ok(places)
    }

    /// The word's number, whatever the guess. A new word gets the next.
    fn number_word(&mut self, word: &Word, guess: u32) -> Result<u32, AllocError>
        requires known { Knows self.old (words_in self.old) }
        requires few { length (words_in self.old) < 2 ^ 32 }
        ensures number { IfOk result (λ number. number ≡ number_in (with_word (words_in self.old) word.now) word.now) }
        ensures knows { OnOk result (Knows self.new (with_word (words_in self.old) word.now)) }
    {
        let number = self.number_by(word, guess)?;
        Ok(number as u32)
    }
}

/// What documents the numbers stand for doesn't change where words are added to the dictionary, and it has at most as many words as were
/// given. This function does nothing: its clauses are the law.
pub fn numbers_stay()
    ensures more { (words more : List Word) (numbered : NumberedDoc) (doc : Doc) → IsNumbered words numbered doc → IsNumbered (with_words words more) numbered doc }
    ensures few { (words more : List Word) → length (with_words words more) ≤ length words + length more }
{}
