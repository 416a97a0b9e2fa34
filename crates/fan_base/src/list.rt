ghost use Rattle.std.specs.Prelude.{◌≡◌, ◌<◌, ◌++◌, ◌∷◌, [], List, IsNone, IsTrue, ◌↔◌, IfErr, OnOk, length, slice_get, option_copied, option_to_list};
ghost use Rattle.std.specs.Slice.Iter.{iter_rest};

use crate::doc::Doc;
use crate::refusal::Refused;
use crate::word::Word;
use std::alloc::Global;
use std::marker::Model;
use std::slice;

/// A list inside a public type. Contracts see it as the list of its items.
#[derive(Debug, Drop)]
pub struct List<X> {
    items: Vec<X>,
}

/// Numbers of documents.
pub type Ids = List<u32>;

/// Pairs of a document's number and its score.
pub type Scores = List<(u32, u64)>;

/// Counts or weights.
pub type Numbers = List<u64>;

/// Words in the order of their text, repeats kept.
pub type Words = List<Word>;

/// Documents in the order of their lines.
pub type Docs = List<Doc>;

impl<X> Model for List<X> {
    ghost Value = { List X };

    ghost view = { λ list. list.items.items };
}

impl<X> List<X> {
    /// An empty list, which takes no memory yet.
    pub fn new(alloc: Global) -> Self
        ensures { result ≡ [] }
    {
        List {
            items: Vec::new(alloc),
        }
    }

    /// How many items it has.
    pub fn len(&self) -> usize
        ensures { result ≡ length self.now }
    {
        self.items.len()
    }

    /// Whether it has no item.
    pub fn is_empty(&self) -> bool
        ensures { IsTrue result ↔ (self.now ≡ []) }
    {
        self.items.is_empty()
    }

    /// Puts an item behind the others, or gives it back where there is no memory.
    pub fn push(&mut self, item: X) -> Result<(), Refused<X>>
        ensures ok { OnOk result (self.new ≡ self.old ++ item ∷ []) }
        ensures refused { IfErr result (λ back. (back ≡ Refused.Memory item) × (self.new ≡ self.old)) }
    {
        self.items.push(item)?;
        Ok(())
    }

    /// The item at a place, counted from 0, where there is one.
    pub fn get(&self, place: usize) -> Option<&X>
        ensures { option_copied result ≡ slice_get self.now place }
    {
        self.items.get(place)
    }

    /// Its items as a slice.
    pub fn as_slice(&self) -> &[X]
        ensures { result.now ≡ self.now }
    {
        self.items.as_slice()
    }

    /// Its items, the first one first.
    pub fn iter(&self) -> slice::Iter<'_, X>
        ensures { iter_rest result ≡ self.now }
    {
        self.items.iter()
    }

    /// Takes the last item off.
    pub fn pop(&mut self) -> Option<X>
        ensures last { self.old ≡ self.new ++ option_to_list result }
        ensures empty { IsNone result ↔ (self.old ≡ []) }
    {
        self.items.pop()
    }

    /// The list of a vector's items.
    pub fn from_vec(items: Vec<X>) -> Self
        ensures { result ≡ items.items }
    {
        List { items }
    }

    /// The vector that holds the items.
    pub fn into_vec(self) -> Vec<X>
        ensures { result.items ≡ self }
    {
        let List { items } = self;
        items
    }
}

impl<'a, X> IntoIterator for &'a List<X> {
    type Item = &'a X;

    type IntoIter = slice::Iter<'a, X>;

    ghost into_iter_gives = { λ list it. iter_rest it ≡ list.now };

    fn into_iter(self) -> Self::IntoIter {
        self.iter()
    }
}
