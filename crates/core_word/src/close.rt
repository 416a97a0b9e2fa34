//! What a home holds when it is closed.
ghost use Rattle.std.specs.Prelude.{◌≡◌, ◌≢◌, ◌↔◌, [], ◌∷◌, IsSome};
ghost use Rattle.std.specs.Bool.{OnTrue, OnFalse};
ghost use Rattle.std.specs.Slots.{slots_len, slots_items, IsFull};
ghost use Rattle.atomic_table.specs.Table.{Final};
ghost use Rattle.fan_base.specs.declared.outcome.Try.{Try};
ghost use Rattle.core_state.specs.Table.{code_of};
ghost use Rattle.core_state.specs.declared.table.State.{State};
ghost use Rattle.core_word.specs.declared.view.Item.{Item};
ghost use Rattle.core_word.specs.Closing.{IsWaiting, outcome_of, callback_of, proxy_of, HandsOut};
ghost use Rattle.core_word.specs.Plays.{HasKey};
ghost use Rattle.core_word.specs.Rule.{StandsFor};

use crate::rule::{CoreRule, CoreSeat};
use crate::view::{Item, View};
use atomic_table::{Closed, Table};
use core_state::{State, from_code};
use fan_base::Try;
use std::alloc::Global;
use std::marker::Model;
use std::mem::ManuallyDrop;

/// What a closed home hands out: at most one of the three.
#[derive(Drop)]
pub struct Unspent<T, C, P> {
    /// The result that was set and that nobody got.
    pub outcome: Option<Try<T>>,
    /// The callback that was set and that nobody got.
    pub callback: Option<C>,
    /// The proxy that was named and that nobody got.
    pub proxy: Option<P>,
    /// What its words said.
    pub end: End<T, C, P>,
}

/// The end of a home: what its words said when it was closed. It has the closed memory of the home, so that it can be
/// made of nothing else, and gives it back when it is dropped.
pub struct End<T, C, P> {
    closed: Closed<Option<Item<T, C, P>>, Global>,
}

impl<T, C, P> Model for End<T, C, P> {
    ghost use Rattle.std.specs.Slots.{slots_items};
    ghost use Rattle.core_word.specs.Ends.{SeenEnd, Ended, state_in, attached_in};

    ghost Value = { SeenEnd T C P };

    ghost view = { λ e. record { state = state_in (slots_items e.closed.words); attached = attached_in (slots_items e.closed.words); slots = slots_items e.closed.slots } };

    ghost invariant = { λ e. Ended e.closed };
}

impl<T, C, P> End<T, C, P> {
    ghost use Rattle.std.specs.Slots.{slots_items};
    ghost use Rattle.core_word.specs.Ends.{Ended, state_in, attached_in};

    // Of a closed home whose slots were emptied.
    fn new(closed: Closed<Option<Item<T, C, P>>, Global>) -> End<T, C, P>
        requires { Ended closed }
        ensures { result ≡ record { state = state_in (slots_items closed.words); attached = attached_in (slots_items closed.words); slots = slots_items closed.slots } }
    {
        End { closed }
    }

    /// The state of the core.
    pub fn state(&self) -> State
        ensures { result ≡ self.now.state }
    {
        let Some(state) = from_code(self.closed.word(0)) else {
            unreachable!()
        };
        state
    }

    /// How many halves hadn't left: 0 to 2.
    pub fn attached(&self) -> u64
        ensures { result ≡ self.now.attached }
    {
        self.closed.word(1)
    }
}

impl<T, C, P> Drop for End<T, C, P> {
    fn drop(self) {
        let Self { closed } = self;
        closed.free();
    }
}

/// Closes the table of a home. Where the home still has its key, nothing was ever begun.
pub(crate) fn closed<T, C, P>(
    table: Table<Option<Item<T, C, P>>, View<T, C, P>, (), CoreRule, Global>,
    key: Option<CoreSeat<T, C, P>>,
) -> Closed<Option<Item<T, C, P>>, Global>
    requires { HasKey table.shared.table_id key }
    ensures counts { (slots_len result.words ≡ table.shared.table_id.words) × (slots_len result.slots ≡ table.shared.table_id.slots) }
    ensures values { IsFull result.words × IsFull result.slots × Final StandsFor (slots_items result.words) (slots_items result.slots) }
    ensures unbegun { IsSome key → slots_items result.words ≡ code_of State.Start ∷ 2 ∷ [] }
{
    match key {
        Some(seat) => table.close_with(seat),
        None => table.close(),
    }
}

// Lets go of what can't be there. A slot that a half had when its home was closed comes back with some item, of which
// nothing is known. A half has none but in the midst of a call of its own, so nothing ever comes here.
fn leak<X>(stray: X) {
    let _ = unsafe { ManuallyDrop::new_unchecked(stray) };
}

fn outcome_in<T, C, P>(slot: Option<Item<T, C, P>>) -> Option<Try<T>>
    ensures { result ≡ outcome_of slot }
{
    match slot {
        Some(Item::Outcome(outcome)) => Some(outcome),
        None => None,
        Some(stray) => {
            leak(stray);
            None
        }
    }
}

fn callback_in<T, C, P>(slot: Option<Item<T, C, P>>) -> Option<C>
    ensures { result ≡ callback_of slot }
{
    match slot {
        Some(Item::Callback(request)) => Some(request.callback),
        None => None,
        Some(stray) => {
            leak(stray);
            None
        }
    }
}

fn proxy_in<T, C, P>(slot: Option<Item<T, C, P>>) -> Option<P>
    ensures { result ≡ proxy_of slot }
{
    match slot {
        Some(Item::Proxy(proxy)) => Some(proxy),
        None => None,
        Some(stray) => {
            leak(stray);
            None
        }
    }
}

// The item where it waits by the words. Elsewhere none is there.
fn waiting<X>(waits: bool, item: Option<X>) -> Option<X>
    ensures waits { OnTrue waits (result ≡ item) }
    ensures none { OnFalse waits (result ≡ None) }
{
    if waits {
        return item;
    }
    leak(item);
    None
}

// Each slot's item, where the words say that it waits.
fn items_in<T, C, P>(
    state: State,
    attached: u64,
    result_slot: Option<Item<T, C, P>>,
    callback_slot: Option<Item<T, C, P>>,
    proxy_slot: Option<Item<T, C, P>>,
) -> (Option<Try<T>>, Option<C>, Option<P>)
    ensures outcome { (r : Try T) → (result.0 ≡ Some r) ↔ ((attached ≢ 0) × (state ≡ State.OnlyResult) × (result_slot ≡ Some (Item.Outcome r))) }
    ensures callback { (c : C) → (result.1 ≡ Some c) ↔ ((attached ≢ 0) × IsWaiting state × (callback_of callback_slot ≡ Some c)) }
    ensures proxy { (k : P) → (result.2 ≡ Some k) ↔ ((attached ≢ 0) × (state ≡ State.Proxy) × (proxy_slot ≡ Some (Item.Proxy k))) }
{
    let is_attached = attached > 0;
    let has_outcome = is_attached && matches!(state, State::OnlyResult);
    let has_callback = is_attached
        && matches!(state, State::OnlyCallback | State::OnlyCallbackAllowInline);
    let has_proxy = is_attached && matches!(state, State::Proxy);
    (
        waiting(has_outcome, outcome_in(result_slot)),
        waiting(has_callback, callback_in(callback_slot)),
        waiting(has_proxy, proxy_in(proxy_slot)),
    )
}

impl<T, C, P> Unspent<T, C, P> {
    /// What waits in the slots of a home that is closed.
    pub(crate) fn of_closed(mut closed: Closed<Option<Item<T, C, P>>, Global>) -> Unspent<T, C, P>
        requires counts { (slots_len closed.words ≡ 2) × (slots_len closed.slots ≡ 3) }
        requires values { IsFull closed.words × IsFull closed.slots × Final StandsFor (slots_items closed.words) (slots_items closed.slots) }
        ensures words { slots_items closed.words ≡ code_of result.end.state ∷ result.end.attached ∷ [] }
        ensures slots { result.end.slots ≡ slots_items closed.slots }
        ensures items { HandsOut result }
    {
        let result_slot = closed.take(0);
        let callback_slot = closed.take(1);
        let proxy_slot = closed.take(2);
        let end = End::new(closed);
        let state = end.state();
        let attached = end.attached();
        let (outcome, callback, proxy) = items_in(
            state,
            attached,
            result_slot,
            callback_slot,
            proxy_slot,
        );
        Unspent {
            outcome,
            callback,
            proxy,
            end,
        }
    }
}
