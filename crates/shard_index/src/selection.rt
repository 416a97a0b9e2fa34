ghost use Rattle.std.specs.Prelude.{◌≡◌, List, Bool, not, ◌&&◌, IfOk, filter, length};
ghost use Rattle.fan_base.specs.declared.doc.Doc.{Doc};
ghost use Rattle.shard_index.specs.Places.{places_where};
ghost use Rattle.shard_index.specs.Selections.{Selects, places_in};

use crate::join::all;
use crate::narrow::narrow;
use std::alloc::{AllocError, Global};

/// Some of the documents of an index. A complement costs nothing as long as nothing asks for its places.
#[derive(Drop)]
pub enum Selection<'s> {
    /// Those with these places, which ascend.
    Those(Places<'s>),
    /// All but those.
    AllBut(Places<'s>),
}

/// Places in a list that an index lends, or in one that was made.
#[derive(Drop)]
pub enum Places<'s> {
    Lent(&'s [u32]),
    Made(Vec<u32>),
}

impl<'s> Places<'s> {
    /// The places.
    pub fn as_slice(&self) -> &[u32]
        ensures { result.now ≡ places_in self.now }
    {
        match self {
            Places::Lent(places) => places,
            Places::Made(places) => places.as_slice(),
        }
    }
}

impl<'s> Selection<'s> {
    /// The documents that aren't selected.
    pub fn complement(self) -> Selection<'s>
        ensures { (test : Doc → Bool) (docs : List Doc) → Selects self.entry test docs → Selects result (λ doc. not (test doc)) docs }
    {
        match self {
            Selection::Those(places) => Selection::AllBut(places),
            Selection::AllBut(places) => Selection::Those(places),
        }
    }

    /// How many of so many documents are selected.
    pub fn count(&self, all: usize) -> u64
        ensures { (test : Doc → Bool) (docs : List Doc) → length docs ≡ all → Selects self.now test docs → result ≡ length (filter test docs) }
    {
        match self {
            Selection::Those(places) => places.as_slice().len() as u64,
            Selection::AllBut(places) => all.saturating_sub(places.as_slice().len()) as u64,
        }
    }
}

/// The documents that both select.
pub fn both<'s>(
    alloc: Global,
    a: &Selection<'s>,
    b: &Selection<'s>,
) -> Result<Selection<'s>, AllocError>
    ensures { (p q : Doc → Bool) (docs : List Doc) → Selects a.now p docs → Selects b.now q docs
        → IfOk result (λ selection. Selects selection (λ doc. p doc && q doc) docs) }
{
    match (a, b) {
        (Selection::Those(a), Selection::Those(b)) => {
            let kept = common(alloc, a.as_slice(), b.as_slice())?;
            Ok(Selection::Those(Places::Made(kept)))
        }
        (Selection::Those(a), Selection::AllBut(b)) => {
            let kept = without(alloc, a.as_slice(), b.as_slice())?;
            Ok(Selection::Those(Places::Made(kept)))
        }
        (Selection::AllBut(a), Selection::Those(b)) => {
            let kept = without(alloc, b.as_slice(), a.as_slice())?;
            Ok(Selection::Those(Places::Made(kept)))
        }
        (Selection::AllBut(a), Selection::AllBut(b)) => {
            let left_out = all(alloc, a.as_slice(), b.as_slice())?;
            Ok(Selection::AllBut(Places::Made(left_out)))
        }
    }
}

/// The places that both lists have.
fn common(alloc: Global, a: &[u32], b: &[u32]) -> Result<Vec<u32>, AllocError>
    ensures { (p q : Doc → Bool) (docs : List Doc) → a.now ≡ places_where p docs → b.now ≡ places_where q docs
        → IfOk result (λ places. places.items ≡ places_where (λ doc. p doc && q doc) docs) }
{
    if a.len() <= b.len() {
        narrow(alloc, a, b, true)
    } else {
        narrow(alloc, b, a, true)
    }
}

/// The places of the first list that the second doesn't have.
pub fn without(alloc: Global, a: &[u32], b: &[u32]) -> Result<Vec<u32>, AllocError>
    ensures { (p q : Doc → Bool) (docs : List Doc) → a.now ≡ places_where p docs → b.now ≡ places_where q docs
        → IfOk result (λ places. places.items ≡ places_where (λ doc. p doc && not (q doc)) docs) }
{
    narrow(alloc, a, b, false)
}
