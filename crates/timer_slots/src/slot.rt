//! A slot: a list of ids.
ghost use Rattle.std.specs.Prelude.{◌≡◌, ◌<◌, ◌≤◌, ◌++◌, ◌∷◌, [], length, OnOk, OnErr, slice_set, vec_len, vec_capacity};

use std::alloc::{AllocError, Global};
use std::marker::Model;

// How many slots there are.
pub(crate) const ALL_SLOTS: usize = 1024;

// For how many ids an empty list keeps its room.
const MOST_KEPT: usize = 64;

// The ids of one slot. Contracts see their list. Where it has none there is room for 64 at most.
#[derive(Debug, Drop)]
pub(crate) struct Slot {
    ids: Vec<u64>,
}

impl Model for Slot {
    ghost use Rattle.std.specs.Prelude.{◌≡◌, ◌≤◌, ℕ, List, vec_len, vec_capacity};

    ghost Value = { List ℕ };

    ghost view = { λ slot. slot.ids.items };

    ghost invariant = { λ slot. vec_len slot.ids ≡ 0 → vec_capacity slot.ids ≤ 64 };
}

// Lets the memory of a list without ids go, where it has room for more than 64. A list that has ids keeps its room.
fn shrink(ids: &mut Vec<u64>)
    ensures same { ids.new.items ≡ ids.old.items }
    ensures little { vec_len ids.new ≡ 0 → vec_capacity ids.new ≤ 64 }
    ensures still { 0 < vec_len ids.old → vec_capacity ids.new ≡ vec_capacity ids.old }
{
    if ids.len() == 0 && ids.capacity() > MOST_KEPT {
        ids.shrink_to_fit();
    }
}

impl Slot {
    // A slot with no id.
    pub(crate) fn new(alloc: Global) -> Slot
        ensures { result ≡ [] }
    {
        Slot {
            ids: Vec::new(alloc),
        }
    }

    pub(crate) fn len(&self) -> usize
        ensures { result ≡ length self.now }
    {
        self.ids.len()
    }

    pub(crate) fn as_slice(&self) -> &[u64]
        ensures { result.now ≡ self.now }
    {
        self.ids.as_slice()
    }

    // Puts an id behind the others.
    pub(crate) fn push(&mut self, id: u64) -> Result<(), AllocError>
        ensures ok { OnOk result (self.new ≡ self.old ++ id ∷ []) }
        ensures err { OnErr result (self.new ≡ self.old) }
    {
        self.ids.reserve(1)?;
        self.ids.push_reserved(id);
        Ok(())
    }

    // Takes the last id out. A list with no id keeps no more than a little room.
    pub(crate) fn pop(&mut self) -> u64
        requires { 0 < length self.old }
        ensures { self.old ≡ self.new ++ result ∷ [] }
    {
        let Some(id) = self.ids.pop() else {
            unreachable!()
        };
        shrink(&mut self.ids);
        id
    }

    // Puts an id in the place of another.
    pub(crate) fn set(&mut self, place: usize, id: u64)
        requires { place < length self.old }
        ensures { self.new ≡ slice_set self.old place id }
    {
        self.ids[place] = id;
    }
}
