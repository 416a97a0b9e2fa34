//! The spots that wait to be cleared.
ghost use Rattle.std.specs.Prelude.{◌≡◌, ℕ, ◌<◌, ◌++◌, ◌∷◌, [], true, length, Some, IfOk, IfSome, IfNone, slice_get, slice_set};
ghost use Rattle.timer_slots.specs.Seen.{times};

use std::alloc::{AllocError, Global};
use std::marker::Model;

/// How many spots wait at most.
pub const MOST_WAITING: usize = 64;

// Spots, with room for 64. Contracts see their list.
#[derive(Debug, Drop)]
pub(crate) struct Waiting {
    spots: Vec<u64>,
}

impl Model for Waiting {
    ghost use Rattle.std.specs.Prelude.{ℕ, ◌≤◌, List, vec_capacity};

    ghost Value = { List ℕ };

    ghost view = { λ waiting. waiting.spots.items };

    ghost invariant = { λ waiting. 64 ≤ vec_capacity waiting.spots };
}

impl Waiting {
    // No spot waits.
    pub(crate) fn new(alloc: Global) -> Result<Waiting, AllocError>
        ensures { IfOk result (λ waiting. waiting ≡ []) }
    {
        Ok(Waiting {
            spots: Vec::with_capacity(alloc, MOST_WAITING)?,
        })
    }

    pub(crate) fn len(&self) -> usize
        ensures { result ≡ length self.now }
    {
        self.spots.len()
    }

    // The spot at a place.
    pub(crate) fn at(&self, place: usize) -> u64
        requires { place < length self.now }
        ensures { slice_get self.now place ≡ Some result }
    {
        self.spots[place]
    }

    // The place of a spot that waits.
    pub(crate) fn find(&self, spot: u64) -> Option<usize>
        ensures some { IfSome result (λ place. slice_get self.now place ≡ Some spot) }
        ensures none { IfNone result (times self.now spot ≡ 0) }
    {
        let mut place = 0;
        for other in self.spots.as_slice() {
            if *other == spot {
                return Some(place);
            }
            place += 1;
        }
        None
    }

    // One spot more waits.
    pub(crate) fn push(&mut self, spot: u64)
        requires { length self.old < 64 }
        ensures { self.new ≡ self.old ++ spot ∷ [] }
    {
        self.spots.push_reserved(spot);
    }

    // The last one waits no more.
    pub(crate) fn pop(&mut self) -> u64
        requires { 0 < length self.old }
        ensures { self.old ≡ self.new ++ result ∷ [] }
    {
        let Some(spot) = self.spots.pop() else {
            unreachable!()
        };
        spot
    }

    // A spot waits in the place of another.
    pub(crate) fn set(&mut self, place: usize, spot: u64)
        requires { place < length self.old }
        ensures { self.new ≡ slice_set self.old place spot }
    {
        self.spots[place] = spot;
    }
}
