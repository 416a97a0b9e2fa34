//! What a closed home held.
ghost use Rattle.std.specs.Prelude.{◌≡◌, slice_index};
ghost use Rattle.std.specs.Slots.{slots_len, slots_items, IsFull};
ghost use mathlib.Core.Option.{some};
ghost use lib.ListN.{get_elem?};
ghost use Rattle.semi_defer.specs.declared.state.State.{State};
ghost use Rattle.semi_defer.specs.State.{code_of};
ghost use Rattle.semi_defer.specs.Closing.{IsWord};

use crate::state::{State, state_at};
use atomic_table::Closed;
use std::alloc::Global;
use std::marker::Model;

/// What a closed home held, with its word. It must be spent by [`Remains::into_job`].
pub struct Remains<J> {
    closed: Closed<Option<J>, Global>,
    job: Option<J>,
}

impl<J> Model for Remains<J> {
    ghost use Rattle.std.specs.Prelude.{◌≡◌, slice_index};
    ghost use Rattle.std.specs.Slots.{slots_items};
    ghost use Rattle.semi_defer.specs.Seen.{RemainsSeen};
    ghost use Rattle.semi_defer.specs.Closing.{IsEmptied, IsWord};

    ghost Value = { RemainsSeen J };

    ghost view = { λ r. record { word = slice_index (slots_items r.closed.words) 0; job = r.job } };

    ghost invariant = { λ r. IsEmptied r.closed × IsWord (slice_index (slots_items r.closed.words) 0) };
}

impl<J> Remains<J> {
    pub(crate) fn of(mut closed: Closed<Option<J>, Global>) -> Remains<J>
        requires counts { (slots_len closed.words ≡ 1) × (slots_len closed.slots ≡ 1) }
        requires full { IsFull closed.words × IsFull closed.slots }
        requires word { IsWord (slice_index (slots_items closed.words) 0) }
        ensures word { result.word ≡ slice_index (slots_items closed.words) 0 }
        ensures job { get_elem? (slots_items closed.slots) 0 ≡ some result.job }
    {
        let job = closed.take(0);
        Remains { closed, job }
    }

    /// The state of the deferred executor.
    pub fn state(&self) -> State
        ensures { self.now.word ≡ code_of result }
    {
        state_at(self.closed.word(0))
    }

    /// The job that was kept and that nobody got. The memory is given back.
    pub fn into_job(self) -> Option<J>
        ensures { result ≡ self.job }
    {
        let Remains { closed, job } = self;
        closed.free();
        job
    }
}
