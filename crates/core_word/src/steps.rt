//! The atomic steps of a home's table, and the plain access to a slot that a seat has.
ghost use Rattle.std.specs.Prelude.{◌≡◌, ◌≢◌, ◌∷◌, [], ◌⊎◌, suc, Bool, true};
ghost use Rattle.std.specs.Bool.{OnTrue, OnFalse};
ghost use Rattle.fan_base.specs.declared.outcome.Try.{Try};
ghost use Rattle.atomic_table.specs.Table.{rest};
ghost use Rattle.core_state.specs.Schedule.{leftover_from};
ghost use Rattle.core_state.specs.Table.{code_of, waiting_state};
ghost use Rattle.core_state.specs.declared.table.State.{State};
ghost use Rattle.core_state.specs.declared.schedule.Offer.{Offer};
ghost use Rattle.core_state.specs.declared.schedule.Demand.{Demand};
ghost use Rattle.core_state.specs.declared.schedule.Request.{Request};
ghost use Rattle.core_word.specs.declared.view.ProducerSlot.{ProducerSlot};
ghost use Rattle.core_word.specs.declared.view.Sight.{Sight};
ghost use Rattle.core_word.specs.declared.view.Item.{Item};
ghost use Rattle.core_word.specs.declared.view.Departure.{Departure};
ghost use Rattle.core_word.specs.Views.{use_of, learned_of, offer_in_view, demand_in_view, Knows, IsAwaited};
ghost use Rattle.core_word.specs.Answers.{leftover_as};
ghost use Rattle.core_word.specs.Rule.{IsSet};
ghost use Rattle.core_word.specs.Plays.{IsHome, Sits, producer_ready, producer_holding, producer_aware, producer_acted, none_seen, leave_seen, stay_seen, callback_seen, consumer_ready, consumer_holding, consumer_aware, consumer_acted, leaving, IsLeaving, IsLast, husk_at, reopening_at, key_at, FindsStartOrWaiting};

use crate::left::Leftover;
use crate::rule::{
    CoreSeat, CoreTable, DemandsFirst, DemandsProxy, DemandsResult, Leaves, LooksBeforeCallback,
    LooksBeforeProxy, LooksBeforeResult, LooksForCallback, LooksForLeave, ReadsEnd, Reopens,
    SetsBack, SetsProxy, SetsResult, SetsSecond, TakesCallbackSlot, TakesProxySlot,
    TakesResultSlot,
};
use crate::view::Item;
use core_state::{Request, State, code};
use fan_base::Try;

const STATE: usize = 0;

const ATTACHED: usize = 1;

const RESULT: usize = 0;

const CALLBACK: usize = 1;

const PROXY: usize = 2;

/// Takes the result slot, which is empty, for a producer that is about to act.
pub(crate) fn take_result_slot<T, C, P>(table: &CoreTable<T, C, P>, seat: &mut CoreSeat<T, C, P>)
    requires home { IsHome table.now.table_id }
    requires ready { Sits table.now.table_id seat.old (producer_ready (use_of seat.old.me.0) (learned_of seat.old.me.0)) }
    ensures { Sits table.now.table_id seat.new (producer_holding (use_of seat.old.me.0) (learned_of seat.old.me.0) ProducerSlot.Result None) }
{
    table.load::<TakesResultSlot>(seat, STATE);
}

/// Takes the proxy slot, which is empty, for a producer that is about to act.
pub(crate) fn take_proxy_slot<T, C, P>(table: &CoreTable<T, C, P>, seat: &mut CoreSeat<T, C, P>)
    requires home { IsHome table.now.table_id }
    requires ready { Sits table.now.table_id seat.old (producer_ready (use_of seat.old.me.0) (learned_of seat.old.me.0)) }
    ensures { Sits table.now.table_id seat.new (producer_holding (use_of seat.old.me.0) (learned_of seat.old.me.0) ProducerSlot.Proxy None) }
{
    table.load::<TakesProxySlot>(seat, STATE);
}

/// Takes the callback slot, which is empty, for a consumer that is about to act.
pub(crate) fn take_callback_slot<T, C, P>(table: &CoreTable<T, C, P>, seat: &mut CoreSeat<T, C, P>)
    requires home { IsHome table.now.table_id }
    requires ready { Sits table.now.table_id seat.old (consumer_ready (use_of seat.old.me.0)) }
    ensures { Sits table.now.table_id seat.new (consumer_holding (use_of seat.old.me.0) None) }
{
    table.load::<TakesCallbackSlot>(seat, STATE);
}

// Puts an item into the empty slot that the seat took last.
fn put<T, C, P>(
    table: &CoreTable<T, C, P>,
    seat: &mut CoreSeat<T, C, P>,
    slot: usize,
    item: Item<T, C, P>,
)
    requires { (seat.old.table_id ≡ table.now.table_id) × (seat.old.me.1 ≡ (slot, None) ∷ rest seat.old.me.1) }
    ensures { Sits table.now.table_id seat.new (seat.old.me.0, (slot, Some item) ∷ rest seat.old.me.1) }
{
    let old = table.exchange(seat, slot, Some(item));
    let None = old else { unreachable!() };
}

// Takes the outcome out of the slot that the seat took last.
fn take_outcome<T, C, P>(table: &CoreTable<T, C, P>, seat: &mut CoreSeat<T, C, P>) -> Try<T>
    requires { (seat.old.table_id ≡ table.now.table_id) × ((r : Try T) × (seat.old.me.1 ≡ (0, Some (Item.Outcome r)) ∷ rest seat.old.me.1)) }
    ensures had { seat.old.me.1 ≡ (0, Some (Item.Outcome result)) ∷ rest seat.old.me.1 }
    ensures sits { Sits table.now.table_id seat.new (seat.old.me.0, (0, None) ∷ rest seat.old.me.1) }
{
    let item = table.exchange(seat, RESULT, None);
    let Some(Item::Outcome(outcome)) = item else {
        unreachable!()
    };
    outcome
}

// Takes the callback out of the slot that the seat took last.
fn take_callback<T, C, P>(table: &CoreTable<T, C, P>, seat: &mut CoreSeat<T, C, P>) -> Request<C>
    requires { (seat.old.table_id ≡ table.now.table_id) × ((c : Request C) × (seat.old.me.1 ≡ (1, Some (Item.Callback c)) ∷ rest seat.old.me.1)) }
    ensures had { seat.old.me.1 ≡ (1, Some (Item.Callback result)) ∷ rest seat.old.me.1 }
    ensures sits { Sits table.now.table_id seat.new (seat.old.me.0, (1, None) ∷ rest seat.old.me.1) }
{
    let item = table.exchange(seat, CALLBACK, None);
    let Some(Item::Callback(request)) = item else {
        unreachable!()
    };
    request
}

// The state in which a callback waits.
fn waiting_with(inline: bool) -> State
    ensures { result ≡ waiting_state inline }
{
    if inline {
        State::OnlyCallbackAllowInline
    } else {
        State::OnlyCallback
    }
}

// What a producer that hasn't acted found: nothing, or a callback that waits, and whether with the allowance.
fn waiting_in(found: u64) -> Option<bool>
    requires { FindsStartOrWaiting found }
    ensures start { result ≡ None → found ≡ code_of State.Start }
    ensures waiting { (inline : Bool) → result ≡ Some inline → found ≡ code_of (waiting_state inline) }
{
    if found == code(State::Start) {
        return None;
    }
    Some(found == code(State::OnlyCallbackAllowInline))
}

/// Looks whether a callback is set.
pub(crate) fn look_for_callback<T, C, P>(
    table: &CoreTable<T, C, P>,
    seat: &mut CoreSeat<T, C, P>,
) -> bool
    requires home { IsHome table.now.table_id }
    requires ready { Sits table.now.table_id seat.old (producer_ready (use_of seat.old.me.0) (learned_of seat.old.me.0)) }
    ensures set { OnTrue result (Sits table.now.table_id seat.new (producer_ready (use_of seat.old.me.0) (callback_seen (learned_of seat.old.me.0)))) }
    ensures none { OnFalse result (Sits table.now.table_id seat.new (producer_ready (use_of seat.old.me.0) (none_seen (learned_of seat.old.me.0)))) }
    ensures awaited { IsAwaited (learned_of seat.old.me.0).sight → result ≡ true }
{
    table.load::<LooksForCallback>(seat, STATE) != code(State::Start)
}

/// Where a callback is set, looks whether the consumer has left.
pub(crate) fn look_for_leave<T, C, P>(
    table: &CoreTable<T, C, P>,
    seat: &mut CoreSeat<T, C, P>,
) -> bool
    requires home { IsHome table.now.table_id }
    requires ready { Sits table.now.table_id seat.old (producer_ready (use_of seat.old.me.0) (learned_of seat.old.me.0)) }
    requires set { IsAwaited (learned_of seat.old.me.0).sight }
    ensures left { OnTrue result (Sits table.now.table_id seat.new (producer_ready (use_of seat.old.me.0) (leave_seen (learned_of seat.old.me.0)))) }
    ensures attached { OnFalse result (Sits table.now.table_id seat.new (producer_ready (use_of seat.old.me.0) (stay_seen (learned_of seat.old.me.0)))) }
    ensures alone { (learned_of seat.old.me.0).sight ≡ Sight.CallbackLeft → result ≡ true }
{
    table.load::<LooksForLeave>(seat, ATTACHED) == 1
}

// Takes the proxy out of the slot that the seat took last.
fn take_proxy<T, C, P>(table: &CoreTable<T, C, P>, seat: &mut CoreSeat<T, C, P>) -> P
    requires { (seat.old.table_id ≡ table.now.table_id) × ((k : P) × (seat.old.me.1 ≡ (2, Some (Item.Proxy k)) ∷ rest seat.old.me.1)) }
    ensures had { seat.old.me.1 ≡ (2, Some (Item.Proxy result)) ∷ rest seat.old.me.1 }
    ensures sits { Sits table.now.table_id seat.new (seat.old.me.0, (2, None) ∷ rest seat.old.me.1) }
{
    let item = table.exchange(seat, PROXY, None);
    let Some(Item::Proxy(proxy)) = item else {
        unreachable!()
    };
    proxy
}

/// Sets the result where nothing was set, and answers None. Else it has seen that a callback waits, and answers whether
/// with the allowance to run inline. It looks first: a load costs less than an exchange that fails.
pub(crate) fn set_first_result<T, C, P>(
    table: &CoreTable<T, C, P>,
    seat: &mut CoreSeat<T, C, P>,
    outcome: Try<T>,
) -> Option<bool>
    requires home { IsHome table.now.table_id }
    requires holding { Sits table.now.table_id seat.old (producer_holding (use_of seat.old.me.0) (learned_of seat.old.me.0) ProducerSlot.Result None) }
    ensures set { result ≡ None → Sits table.now.table_id seat.new (producer_acted (use_of seat.old.me.0) (learned_of seat.old.me.0) (Offer.Result outcome) Demand.Nothing) }
    ensures aware { (inline : Bool) → result ≡ Some inline → Sits table.now.table_id seat.new (producer_aware (use_of seat.old.me.0) (learned_of seat.old.me.0) ProducerSlot.Result inline (Some (Item.Outcome outcome))) }
    ensures awaited { IsAwaited (learned_of seat.old.me.0).sight → result ≢ None }
{
    put(table, seat, RESULT, Item::Outcome(outcome));
    let seen = table.load::<LooksBeforeResult>(seat, STATE);
    if let Some(inline) = waiting_in(seen) {
        return Some(inline);
    }
    let start = code(State::Start);
    let only_result = code(State::OnlyResult);
    let found = table.compare_exchange::<SetsResult>(seat, STATE, start, only_result);
    waiting_in(found)
}

/// Sets the result where a callback waits, with the allowance to run inline or without it, and takes both.
pub(crate) fn set_second_result<T, C, P>(
    table: &CoreTable<T, C, P>,
    seat: &mut CoreSeat<T, C, P>,
    inline: bool,
) -> (Try<T>, Request<C>)
    requires home { IsHome table.now.table_id }
    requires aware { (r : Try T) × Sits table.now.table_id seat.old (producer_aware (use_of seat.old.me.0) (learned_of seat.old.me.0) ProducerSlot.Result inline (Some (Item.Outcome r))) }
    ensures had { seat.old.me ≡ producer_aware (use_of seat.old.me.0) (learned_of seat.old.me.0) ProducerSlot.Result inline (Some (Item.Outcome result.0)) }
    ensures set { Sits table.now.table_id seat.new (producer_acted (use_of seat.old.me.0) (learned_of seat.old.me.0) (Offer.Result result.0) (Demand.Callback result.1)) }
{
    let waiting = code(waiting_with(inline));
    let done = code(State::Done);
    table.compare_exchange::<SetsSecond>(seat, STATE, waiting, done);
    let request = take_callback(table, seat);
    seat.turn();
    let outcome = take_outcome(table, seat);
    (outcome, request)
}

/// Sets the proxy where nothing was set, and answers None. Else it has seen that a callback waits, and answers whether
/// with the allowance to run inline. It looks first.
pub(crate) fn set_first_proxy<T, C, P>(
    table: &CoreTable<T, C, P>,
    seat: &mut CoreSeat<T, C, P>,
    to: P,
) -> Option<bool>
    requires home { IsHome table.now.table_id }
    requires holding { Sits table.now.table_id seat.old (producer_holding (use_of seat.old.me.0) (learned_of seat.old.me.0) ProducerSlot.Proxy None) }
    ensures set { result ≡ None → Sits table.now.table_id seat.new (producer_acted (use_of seat.old.me.0) (learned_of seat.old.me.0) (Offer.Proxy to) Demand.Nothing) }
    ensures aware { (inline : Bool) → result ≡ Some inline → Sits table.now.table_id seat.new (producer_aware (use_of seat.old.me.0) (learned_of seat.old.me.0) ProducerSlot.Proxy inline (Some (Item.Proxy to))) }
    ensures awaited { IsAwaited (learned_of seat.old.me.0).sight → result ≢ None }
{
    put(table, seat, PROXY, Item::Proxy(to));
    let seen = table.load::<LooksBeforeProxy>(seat, STATE);
    if let Some(inline) = waiting_in(seen) {
        return Some(inline);
    }
    let start = code(State::Start);
    let proxy = code(State::Proxy);
    let found = table.compare_exchange::<SetsProxy>(seat, STATE, start, proxy);
    waiting_in(found)
}

/// Sets the proxy where a callback waits, with the allowance to run inline or without it, and takes both.
pub(crate) fn set_second_proxy<T, C, P>(
    table: &CoreTable<T, C, P>,
    seat: &mut CoreSeat<T, C, P>,
    inline: bool,
) -> (P, Request<C>)
    requires home { IsHome table.now.table_id }
    requires aware { (k : P) × Sits table.now.table_id seat.old (producer_aware (use_of seat.old.me.0) (learned_of seat.old.me.0) ProducerSlot.Proxy inline (Some (Item.Proxy k))) }
    ensures had { seat.old.me ≡ producer_aware (use_of seat.old.me.0) (learned_of seat.old.me.0) ProducerSlot.Proxy inline (Some (Item.Proxy result.0)) }
    ensures set { Sits table.now.table_id seat.new (producer_acted (use_of seat.old.me.0) (learned_of seat.old.me.0) (Offer.Proxy result.0) (Demand.Callback result.1)) }
{
    let waiting = code(waiting_with(inline));
    let empty = code(State::Empty);
    table.compare_exchange::<SetsSecond>(seat, STATE, waiting, empty);
    let request = take_callback(table, seat);
    seat.turn();
    let proxy = take_proxy(table, seat);
    (proxy, request)
}

/// Sets the callback where nothing was set. It answers the state that it found: Start, or what the producer made. It looks
/// first.
pub(crate) fn demand_first<T, C, P>(
    table: &CoreTable<T, C, P>,
    seat: &mut CoreSeat<T, C, P>,
    request: Request<C>,
) -> State
    requires home { IsHome table.now.table_id }
    requires holding { Sits table.now.table_id seat.old (consumer_holding (use_of seat.old.me.0) None) }
    ensures found { (result ≡ State.Start) ⊎ ((result ≡ State.OnlyResult) ⊎ (result ≡ State.Proxy)) }
    ensures set { result ≡ State.Start → Sits table.now.table_id seat.new (consumer_acted (use_of seat.old.me.0) (Demand.Callback request) Offer.Nothing) }
    ensures aware { result ≢ State.Start → Sits table.now.table_id seat.new (consumer_aware (use_of seat.old.me.0) result (Some (Item.Callback request))) }
{
    let waiting = code(waiting_with(request.inline));
    put(table, seat, CALLBACK, Item::Callback(request));
    let start = code(State::Start);
    let only_result = code(State::OnlyResult);
    let seen = table.load::<LooksBeforeCallback>(seat, STATE);
    if seen == only_result {
        return State::OnlyResult;
    }
    if seen != start {
        return State::Proxy;
    }
    let found = table.compare_exchange::<DemandsFirst>(seat, STATE, start, waiting);
    if found == start {
        State::Start
    } else if found == only_result {
        State::OnlyResult
    } else {
        State::Proxy
    }
}

/// Sets the callback where a result is there, and takes both.
pub(crate) fn demand_result<T, C, P>(
    table: &CoreTable<T, C, P>,
    seat: &mut CoreSeat<T, C, P>,
) -> (Request<C>, Try<T>)
    requires home { IsHome table.now.table_id }
    requires aware { (c : Request C) × Sits table.now.table_id seat.old (consumer_aware (use_of seat.old.me.0) State.OnlyResult (Some (Item.Callback c))) }
    ensures had { seat.old.me ≡ consumer_aware (use_of seat.old.me.0) State.OnlyResult (Some (Item.Callback result.0)) }
    ensures set { Sits table.now.table_id seat.new (consumer_acted (use_of seat.old.me.0) (Demand.Callback result.0) (Offer.Result result.1)) }
{
    let only_result = code(State::OnlyResult);
    let done = code(State::Done);
    table.compare_exchange::<DemandsResult>(seat, STATE, only_result, done);
    let outcome = take_outcome(table, seat);
    seat.turn();
    let request = take_callback(table, seat);
    (request, outcome)
}

/// Sets the callback where a proxy is there, and takes both.
pub(crate) fn demand_proxy<T, C, P>(
    table: &CoreTable<T, C, P>,
    seat: &mut CoreSeat<T, C, P>,
) -> (Request<C>, P)
    requires home { IsHome table.now.table_id }
    requires aware { (c : Request C) × Sits table.now.table_id seat.old (consumer_aware (use_of seat.old.me.0) State.Proxy (Some (Item.Callback c))) }
    ensures had { seat.old.me ≡ consumer_aware (use_of seat.old.me.0) State.Proxy (Some (Item.Callback result.0)) }
    ensures set { Sits table.now.table_id seat.new (consumer_acted (use_of seat.old.me.0) (Demand.Callback result.0) (Offer.Proxy result.1)) }
{
    let proxy = code(State::Proxy);
    let empty = code(State::Empty);
    table.compare_exchange::<DemandsProxy>(seat, STATE, proxy, empty);
    let to = take_proxy(table, seat);
    seat.turn();
    let request = take_callback(table, seat);
    (request, to)
}

/// Leaves, and says whether it was the last: whether it found one half attached.
pub(crate) fn leave<T, C, P>(table: &CoreTable<T, C, P>, seat: &mut CoreSeat<T, C, P>) -> bool
    requires home { IsHome table.now.table_id }
    requires leaving { (seat.old.table_id ≡ table.now.table_id) × IsLeaving seat.old.me }
    ensures last { OnTrue result (Sits table.now.table_id seat.new (leaving Departure.Last seat.old.me.0, [])) }
    ensures first { OnFalse result (Sits table.now.table_id seat.new (leaving Departure.First seat.old.me.0, [])) }
    ensures alone { (learned_of seat.old.me.0).sight ≡ Sight.CallbackLeft → result ≡ true }
{
    table.fetch_sub::<Leaves>(seat, ATTACHED, 1) == 1
}

/// Reads the final state, takes all slots and hands out what is left over.
pub(crate) fn read_end<T, C, P>(
    table: &CoreTable<T, C, P>,
    seat: &mut CoreSeat<T, C, P>,
) -> Leftover<T, P>
    requires home { IsHome table.now.table_id }
    requires last { (seat.old.table_id ≡ table.now.table_id) × (seat.old.me.1 ≡ []) × IsLast seat.old.me.0 }
    ensures { (offer : Offer (Try T) P) × (demand : Demand C) × IsSet offer × Knows seat.old.me.0 offer demand × Sits table.now.table_id seat.new (husk_at (use_of seat.old.me.0) offer demand) × (result ≡ leftover_as (leftover_from offer demand)) }
{
    table.load::<ReadsEnd>(seat, STATE);
    let proxy = table.exchange(seat, PROXY, None);
    seat.turn();
    let callback = table.exchange(seat, CALLBACK, None);
    let None = callback else { unreachable!() };
    seat.turn();
    let outcome = table.exchange(seat, RESULT, None);
    match outcome {
        Some(Item::Outcome(outcome)) => {
            let None = proxy else { unreachable!() };
            Leftover::Outcome(outcome)
        }
        None => match proxy {
            Some(Item::Proxy(proxy)) => Leftover::Proxy(proxy),
            None => Leftover::Nothing,
            _ => unreachable!(),
        },
        _ => unreachable!(),
    }
}

/// Sets the state back to Start.
pub(crate) fn set_back<T, C, P>(table: &CoreTable<T, C, P>, seat: &mut CoreSeat<T, C, P>)
    requires home { IsHome table.now.table_id }
    requires husk { Sits table.now.table_id seat.old (husk_at (use_of seat.old.me.0) (offer_in_view seat.old.me.0) (demand_in_view seat.old.me.0)) }
    ensures { Sits table.now.table_id seat.new (reopening_at (use_of seat.old.me.0)) }
{
    let start = code(State::Start);
    table.swap::<SetsBack>(seat, STATE, start);
}

/// Attaches both halves of the next use, and gives all slots home.
pub(crate) fn attach_both<T, C, P>(table: &CoreTable<T, C, P>, seat: &mut CoreSeat<T, C, P>)
    requires home { IsHome table.now.table_id }
    requires back { Sits table.now.table_id seat.old (reopening_at (use_of seat.old.me.0)) }
    ensures { Sits table.now.table_id seat.new (key_at (suc (use_of seat.old.me.0))) }
{
    table.swap::<Reopens>(seat, ATTACHED, 2);
}
