ghost use Rattle.std.specs.Prelude.{◌≡◌, ◌+◌, ◌*◌, ◌<◌, ◌≤◌, ◌^◌, ◌&&◌, ◌||◌, ℕ, All, Bool, List, IfOk, IfSome, length, map, not, take, true, zip, if◌then◌else◌};
ghost use Rattle.fan_base.specs.declared.doc.Doc.{Doc};
ghost use Rattle.std.specs.List.{AllByRecursion};
ghost use Rattle.query_model.specs.Answers.{having, hits_of, holding, times_in};
ghost use Rattle.query_model.specs.Parts.{weighted_score, weighted_top};
ghost use Rattle.word_table.specs.Numbered.{AreNumbers, doc_by};
ghost use Rattle.word_table.specs.Numbers.{Knows, words_in};
ghost use Rattle.word_table.specs.Rows.{AreFewAndShort, lent};
ghost use Rattle.word_table.specs.Told.{Tell};
ghost use Rattle.shard_index.specs.Counting.{counts_of, DifferentWords};
ghost use Rattle.shard_index.specs.Places.{has_one, has_word, holds_in, places_where, standing_of};
ghost use Rattle.shard_index.specs.Scored.{AreScored, HasRoomIn};
ghost use Rattle.shard_index.specs.Selections.{Selects};
ghost use Rattle.shard_index.specs.Standing.{HasRoom, Indexes, IsNumberOf, StandIn};

use crate::best::ascend;
use crate::bits::narrow_by_bits;
use crate::counts::Counts;
use crate::frequent::Frequent;
use crate::front::below;
use crate::hits::hits;
use crate::leaves::{is_long_choice, two_words};
use crate::marks::{count_marks, mark_at, marked, no_marks};
use crate::narrow::narrow;
use crate::scored::{first_scores, with_places};
use crate::selection::{Places, Selection, both};
use crate::totals::{add_at, first_of_all, zeros};
use fan_base::{Numbers, Scores, Word};
use query_grammar::{Expr, Node};
use query_model::Hits;
use std::alloc::{AllocError, Global};
use std::sync::Arc;
use word_table::{Dictionary, NumberedDoc, Sorted};

/// From so many choices one behind the other on, marks for all documents are made where all are words.
const MANY: u32 = 16;

/// An index of documents in the order of their lines: their ids, and for each word where it stands. It keeps no document.
/// Each question is asked of the first `front` of the documents.
#[derive(Drop)]
pub struct Index {
    ids: Vec<u32>,
    /// Whether the ids ascend.
    ascending: bool,
    dictionary: Arc<Dictionary, Global>,
    places: Sorted,
    /// The words that stand in many of the documents, with their bits.
    frequent: Frequent,
}

impl Index {
    /// The index of documents with numbers of a dictionary's words, in this order. It shares the dictionary.
    pub fn of(
        alloc: Global,
        dictionary: &Arc<Dictionary, Global>,
        docs: &[&NumberedDoc],
    ) -> Result<Index, AllocError>
        requires knows { Knows dictionary.now.value (words_in dictionary.now.value) }
        requires numbers { AllByRecursion (AreNumbers (words_in dictionary.now.value)) (lent docs.now) }
        requires few { AreFewAndShort (lent docs.now) }
        ensures { IfOk result (λ index. Indexes index (map (doc_by (words_in dictionary.now.value)) (lent docs.now))) }
    {
        let places = Sorted::of(alloc, dictionary, docs)?;
        let frequent = Frequent::of(alloc, &places, dictionary.len(), docs.len())?;
        let ids = ids_of(alloc, docs)?;
        let ascending = ascend(ids.as_slice());
        Ok(Index {
            ids,
            ascending,
            dictionary: Arc::try_clone(dictionary)?,
            places,
            frequent,
        })
    }

    /// Where it takes memory from.
    pub fn alloc(&self) -> Global {
        *self.ids.allocator()
    }

    /// How many documents it has.
    pub fn len(&self) -> usize
        ensures { (docs : List Doc) → Indexes self.now docs → result ≡ length docs }
    {
        self.ids.len()
    }

    /// The first 100 ids, ascending, of the documents for which the expression holds, and how many hold.
    pub fn find(&self, alloc: Global, front: usize, e: &Expr) -> Result<Hits, AllocError>
        requires docs { (docs : List Doc) × Indexes self.now docs }
        requires front { front ≤ length self.now.ids.items }
        ensures { (docs : List Doc) → Indexes self.now docs → IfOk result (λ hits. hits ≡ hits_of e.now (take front docs)) }
    {
        let selection = self.select(alloc, front, e)?;
        hits(alloc, &self.ids[..front], self.ascending, &selection)
    }

    /// For how many documents the expression holds.
    pub fn count(&self, alloc: Global, front: usize, e: &Expr) -> Result<u64, AllocError>
        requires docs { (docs : List Doc) × Indexes self.now docs }
        requires front { front ≤ length self.now.ids.items }
        ensures { (docs : List Doc) → Indexes self.now docs → IfOk result (λ total. total ≡ length (holding e.now (take front docs))) }
    {
        match e.node() {
            Node::Word(word) => Ok(self.count_with(front, word)),
            _ => {
                if is_long_choice(e, MANY)
                    && let Some(total) = self.count_words(alloc, front, e)?
                {
                    return Ok(total);
                }
                Ok(self.select(alloc, front, e)?.count(front))
            }
        }
    }

    /// How many of the first documents have one of the words of a choice of words, or none where the expression is another. They are
    /// marked, and no list of them is made.
    fn count_words(&self, alloc: Global, front: usize, e: &Expr) -> Result<Option<u64>, AllocError>
        requires docs { (docs : List Doc) × Indexes self.now docs }
        requires front { front ≤ length self.now.ids.items }
        ensures { (docs : List Doc) → Indexes self.now docs
            → IfOk result (λ words. IfSome words (λ total. total ≡ length (holding e.now (take front docs)))) }
    {
        let mut marks = no_marks(alloc, front)?;
        if !self.mark_words(front, e, &mut marks) {
            return Ok(None);
        }
        Ok(Some(count_marks(&marks)))
    }

    /// How many of the first documents have a word.
    fn count_with(&self, front: usize, word: &Word) -> u64
        requires { (docs : List Doc) × Indexes self.now docs }
        ensures { (docs : List Doc) → Indexes self.now docs → result ≡ length (having word.now (take front docs)) }
    {
        self.places_with(front, word).len() as u64
    }

    /// The documents for which the expression holds. It calls itself once for each level of the tree.
    fn select<'s>(
        &'s self,
        alloc: Global,
        front: usize,
        e: &Expr,
    ) -> Result<Selection<'s>, AllocError>
        requires docs { (docs : List Doc) × Indexes self.now docs }
        requires front { front ≤ length self.now.ids.items }
        ensures { (docs : List Doc) → Indexes self.now docs → IfOk result (λ selection. Selects selection (holds_in e.now) (take front docs)) }
    {
        match e.node() {
            Node::Word(word) => Ok(Selection::Those(Places::Lent(self.places_with(front, word)))),
            Node::Not(e) => Ok(self.select(alloc, front, e)?.complement()),
            Node::Both(a, b) => match two_words(a, b) {
                Some((a, b, wanted)) => self.select_two(alloc, front, a, b, wanted),
                None => both(
                    alloc,
                    &self.select(alloc, front, a)?,
                    &self.select(alloc, front, b)?,
                ),
            },
            Node::Either(a, b) => {
                if is_long_choice(e, MANY)
                    && let Some(selection) = self.select_words(alloc, front, e)?
                {
                    return Ok(selection);
                }
                let a = self.select(alloc, front, a)?.complement();
                let b = self.select(alloc, front, b)?.complement();
                Ok(both(alloc, &a, &b)?.complement())
            }
        }
    }

    /// The documents with one of the words of a choice of words, or none where the expression is another. Marks for all documents are made,
    /// so that each word's places are gone over once: to join them word by word would copy all that was joined each time.
    fn select_words<'s>(
        &'s self,
        alloc: Global,
        front: usize,
        e: &Expr,
    ) -> Result<Option<Selection<'s>>, AllocError>
        requires docs { (docs : List Doc) × Indexes self.now docs }
        requires front { front ≤ length self.now.ids.items }
        ensures { (docs : List Doc) → Indexes self.now docs
            → IfOk result (λ words. IfSome words (λ selection. Selects selection (holds_in e.now) (take front docs))) }
    {
        let mut marks = no_marks(alloc, front)?;
        if !self.mark_words(front, e, &mut marks) {
            return Ok(None);
        }
        let kept = marked(alloc, &marks)?;
        Ok(Some(Selection::Those(Places::Made(kept))))
    }

    /// Marks the documents with one of the words of a choice of words, and says whether the expression is one.
    fn mark_words(&self, front: usize, e: &Expr, marks: &mut Vec<bool>) -> bool
        requires docs { (docs : List Doc) × Indexes self.now docs }
        requires front { front ≤ length self.now.ids.items }
        requires many { length marks.old.items ≡ front }
        ensures many { length marks.new.items ≡ front }
        ensures marks { (docs : List Doc) (mark : Doc → Bool) → Indexes self.now docs → marks.old.items ≡ map mark (take front docs) → result ≡ true
            → marks.new.items ≡ map (λ doc. mark doc || holds_in e.now doc) (take front docs) }
    {
        match e.node() {
            Node::Word(word) => {
                mark_at(marks, self.places_with(front, word));
                true
            }
            Node::Either(a, b) => {
                self.mark_words(front, a, marks) && self.mark_words(front, b, marks)
            }
            _ => false,
        }
    }

    /// The documents with the first word and, where that is wanted, with the second, or else without it. The shorter list is gone over
    /// where both are wanted.
    fn select_two<'s>(
        &'s self,
        alloc: Global,
        front: usize,
        first: &Word,
        second: &Word,
        wanted: bool,
    ) -> Result<Selection<'s>, AllocError>
        requires { (docs : List Doc) × Indexes self.now docs }
        ensures { (docs : List Doc) → Indexes self.now docs → IfOk result (λ selection. Selects selection
            (λ doc. has_word first.now doc && (if wanted then has_word second.now doc else not (has_word second.now doc))) (take front docs)) }
    {
        let first = self.dictionary.find(first);
        let second = self.dictionary.find(second);
        let at_first = self.places_of(front, first);
        let at_second = self.places_of(front, second);
        if wanted && at_second.len() < at_first.len() {
            let kept = self.narrow_by(alloc, at_second, at_first, first, true)?;
            Ok(Selection::Those(Places::Made(kept)))
        } else {
            let kept = self.narrow_by(alloc, at_first, at_second, second, wanted)?;
            Ok(Selection::Those(Places::Made(kept)))
        }
    }

    /// The places that are among others, those of the word with this number, or, where these aren't wanted, that are not. By the word's
    /// bits, where it has some, the others aren't gone over.
    fn narrow_by(
        &self,
        alloc: Global,
        places: &[u32],
        others: &[u32],
        number: usize,
        wanted: bool,
    ) -> Result<Vec<u32>, AllocError>
        requires { StandIn self.now places.now number }
        ensures { (p : Doc → Bool) (word : Word) (front : ℕ) (docs : List Doc) → Indexes self.now docs → IsNumberOf self.now number word
            → places.now ≡ places_where p (take front docs) → others.now ≡ places_where (has_word word) (take front docs)
            → IfOk result (λ kept. kept.items
            ≡ places_where (λ doc. p doc && (if wanted then has_word word doc else not (has_word word doc))) (take front docs)) }
    {
        match self.frequent.bits(number) {
            Some(bits) => narrow_by_bits(alloc, places, bits, wanted),
            None => narrow(alloc, places, others, wanted),
        }
    }

    /// Of how many documents each word is one, and how many have one of them.
    pub fn counts(&self, alloc: Global, front: usize, words: &[Word]) -> Result<Counts, AllocError>
        requires docs { (docs : List Doc) × Indexes self.now docs }
        requires front { front ≤ length self.now.ids.items }
        ensures { (docs : List Doc) → Indexes self.now docs → IfOk result (λ counts. counts ≡ counts_of words.now (take front docs)) }
    {
        let mut with = Vec::new(alloc);
        let mut marks = no_marks(alloc, front)?;
        let mut any = 0;
        for word in words {
            let places = self.places_with(front, word);
            with.push(places.len() as u64)?;
            any += mark_at(&mut marks, places);
        }
        Ok(Counts {
            with: Numbers::from_vec(with),
            any,
        })
    }

    /// The first `k` documents by the weights of these words, with their scores.
    pub fn scores(
        &self,
        alloc: Global,
        front: usize,
        words: &[Word],
        weights: &[u64],
        k: usize,
    ) -> Result<Scores, AllocError>
        requires docs { (docs : List Doc) × Indexes self.now docs }
        requires front { front ≤ length self.now.ids.items }
        requires differ { DifferentWords words.now }
        requires many { length weights.now ≡ length words.now }
        requires low { All (λ weight. weight < 2 ^ 32) weights.now }
        ensures { (docs : List Doc) → Indexes self.now docs
            → IfOk result (λ scores. scores ≡ weighted_top k words.now weights.now (take front docs)) }
    {
        if self.times(front, words) < front / 8 {
            self.scores_of_some(alloc, front, words, weights, k)
        } else {
            self.scores_of_all(alloc, front, words, weights, k)
        }
    }

    /// The same, where only the totals of documents with one of the words are looked at. To leave the others out costs more than it
    /// saves where the words stand often.
    fn scores_of_some(
        &self,
        alloc: Global,
        front: usize,
        words: &[Word],
        weights: &[u64],
        k: usize,
    ) -> Result<Scores, AllocError>
        requires docs { (docs : List Doc) × Indexes self.now docs }
        requires front { front ≤ length self.now.ids.items }
        requires differ { DifferentWords words.now }
        requires many { length weights.now ≡ length words.now }
        requires low { All (λ weight. weight < 2 ^ 32) weights.now }
        ensures { (docs : List Doc) → Indexes self.now docs
            → IfOk result (λ scores. scores ≡ weighted_top k words.now weights.now (take front docs)) }
    {
        let scored = self.scored(alloc, front, words, weights)?;
        first_scores(alloc, &self.ids[..front], scored.as_slice(), k)
    }

    /// The same, where all totals are looked at.
    fn scores_of_all(
        &self,
        alloc: Global,
        front: usize,
        words: &[Word],
        weights: &[u64],
        k: usize,
    ) -> Result<Scores, AllocError>
        requires docs { (docs : List Doc) × Indexes self.now docs }
        requires front { front ≤ length self.now.ids.items }
        requires differ { DifferentWords words.now }
        requires many { length weights.now ≡ length words.now }
        requires low { All (λ weight. weight < 2 ^ 32) weights.now }
        ensures { (docs : List Doc) → Indexes self.now docs
            → IfOk result (λ scores. scores ≡ weighted_top k words.now weights.now (take front docs)) }
    {
        let totals = self.totals(alloc, front, words, weights)?;
        first_of_all(alloc, &self.ids[..front], totals.as_slice(), k)
    }

    /// In how many of the first documents each of these words stands, all together.
    fn times(&self, front: usize, words: &[Word]) -> usize
        requires { (docs : List Doc) × Indexes self.now docs }
    {
        let mut times: usize = 0;
        for word in words {
            times = times.saturating_add(self.places_with(front, word).len());
        }
        times
    }

    /// The places of the first documents with one of these words, with their scores.
    fn scored(
        &self,
        alloc: Global,
        front: usize,
        words: &[Word],
        weights: &[u64],
    ) -> Result<Vec<(u32, u64)>, AllocError>
        requires docs { (docs : List Doc) × Indexes self.now docs }
        requires differ { DifferentWords words.now }
        requires many { length weights.now ≡ length words.now }
        requires low { All (λ weight. weight < 2 ^ 32) weights.now }
        ensures { (docs : List Doc) → Indexes self.now docs
            → IfOk result (λ scored. AreScored scored.items (has_one words.now) (weighted_score (zip words.now weights.now)) (take front docs)) }
    {
        let mut scored = Vec::new(alloc);
        for i in 0..words.len() {
            scored = self.with_word(alloc, scored.as_slice(), front, &words[i], weights[i])?;
        }
        Ok(scored)
    }

    /// The scores of the first documents with one word more.
    fn with_word(
        &self,
        alloc: Global,
        scored: &[(u32, u64)],
        front: usize,
        word: &Word,
        weight: u64,
    ) -> Result<Vec<(u32, u64)>, AllocError>
        requires { HasRoomIn self.now front word.now weight scored.now }
        ensures { (docs : List Doc) (test : Doc → Bool) (score : Doc → ℕ) → Indexes self.now docs → AreScored scored.now test score (take front docs)
            → IfOk result (λ more. AreScored more.items (λ doc. test doc || has_word word.now doc)
            (λ doc. score doc + times_in doc word.now * weight) (take front docs)) }
    {
        let (places, times) = self.standing(word);
        let places = below(places, front);
        with_places(alloc, scored, places, &times[..places.len()], weight)
    }

    /// The scores of the documents, in their order.
    fn totals(
        &self,
        alloc: Global,
        front: usize,
        words: &[Word],
        weights: &[u64],
    ) -> Result<Vec<u64>, AllocError>
        requires docs { (docs : List Doc) × Indexes self.now docs }
        requires front { front ≤ length self.now.ids.items }
        requires differ { DifferentWords words.now }
        requires many { length weights.now ≡ length words.now }
        requires low { All (λ weight. weight < 2 ^ 32) weights.now }
        ensures { (docs : List Doc) → Indexes self.now docs
            → IfOk result (λ totals. totals.items ≡ map (weighted_score (zip words.now weights.now)) (take front docs)) }
    {
        let mut totals = zeros(alloc, front)?;
        for i in 0..words.len() {
            self.add_word(&mut totals, front, &words[i], weights[i]);
        }
        Ok(totals)
    }

    /// Adds to the totals of the documents how often the word stands in each, times the weight.
    fn add_word(&self, totals: &mut Vec<u64>, front: usize, word: &Word, weight: u64)
        requires { HasRoom self.now front word.now weight totals.old.items }
        ensures { (docs : List Doc) (score : Doc → ℕ) → Indexes self.now docs → totals.old.items ≡ map score (take front docs)
            → totals.new.items ≡ map (λ doc. score doc + times_in doc word.now * weight) (take front docs) }
    {
        let (places, times) = self.standing(word);
        let places = below(places, front);
        add_at(totals, places, &times[..places.len()], weight);
    }

    /// The places of the documents with a word, among the first.
    fn places_with(&self, front: usize, word: &Word) -> &[u32]
        requires { (docs : List Doc) × Indexes self.now docs }
        ensures { (docs : List Doc) → Indexes self.now docs → result.now ≡ places_where (has_word word.now) (take front docs) }
    {
        self.places_of(front, self.dictionary.find(word))
    }

    /// The same for a word by its number. Where the first are all documents, the list isn't looked at.
    fn places_of(&self, front: usize, number: usize) -> &[u32]
        requires { (docs : List Doc) × Indexes self.now docs }
        ensures { (docs : List Doc) (word : Word) → Indexes self.now docs → IsNumberOf self.now number word
            → result.now ≡ places_where (has_word word) (take front docs) }
    {
        let places = self.places.of_number(number).0;
        if front == self.ids.len() {
            return places;
        }
        below(places, front)
    }

    /// The places where a word stands, and beside each how often it stands there.
    fn standing(&self, word: &Word) -> (&[u32], &[u16])
        requires { (docs : List Doc) × Indexes self.now docs }
        ensures { (docs : List Doc) → Indexes self.now docs → Tell result.0.now result.1.now (standing_of word.now docs) }
    {
        self.places.places(&self.dictionary, word)
    }
}

/// The ids of documents.
fn ids_of(alloc: Global, docs: &[&NumberedDoc]) -> Result<Vec<u32>, AllocError>
    ensures { IfOk result (λ ids. ids.items ≡ map (λ doc. doc.id) (lent docs.now)) }
{
    let mut ids = Vec::with_capacity(alloc, docs.len())?;
    for doc in docs {
        ids.push(doc.id)?;
    }
    Ok(ids)
}
