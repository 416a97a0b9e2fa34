// Who waits, by number, and who has fired.
ghost use Rattle.std.specs.Prelude.{◌≡◌, ◌+◌, ◌<◌, ◌≤◌, ◌^◌, ◌++◌, ◌∷◌, [], length, not, map, filter, None, OnOk, OnErr, MatchOption, option_map, option_to_list, slice_index_or, slice_set, vec_len, vec_capacity};
ghost use Rattle.std.specs.VecDeque.{deque_len, deque_capacity};
ghost use Rattle.query_timers.specs.declared.query.DelayedQuery.{DelayedQuery};
ghost use Rattle.query_timers.specs.Firing.{fired_at};
ghost use Rattle.query_timers.specs.Numbered.{AreNumbered, waiting_in};
ghost use Rattle.query_timers.specs.Seen.{has_number, with_waiter};

use crate::interrupt::{Pair, Waiter};
use crate::query::DelayedQuery;
use fan_base::Memory;
use std::alloc::Global;
use std::collections::VecDeque;
use std::marker::Model;

/// The queries that wait, and those that have fired. Contracts see how many queries there were, the list of those that wait, by number,
/// and of those that have fired.
pub(crate) struct Waiters<'h> {
    // At the place of its number a query that waits, and nothing for one that doesn't.
    by_number: Vec<Option<Waiter<'h>>>,
    // How many wait.
    count: usize,
    // It has room for all that wait.
    fired: VecDeque<Waiter<'h>>,
}

impl<'h> Model for Waiters<'h> {
    ghost use Rattle.std.specs.Prelude.{◌≡◌, ◌+◌, ◌≤◌, length};
    ghost use Rattle.std.specs.VecDeque.{deque_len, deque_capacity};
    ghost use Rattle.query_timers.specs.Seen.{WaitersSeen};
    ghost use Rattle.query_timers.specs.Numbered.{AreNumbered, waiting_in};

    ghost Value = { WaitersSeen };

    ghost view = { λ w. record { asked = length w.by_number.items; waiting = waiting_in w.by_number.items; fired = w.fired.items } };

    ghost invariant = { λ w. AreNumbered 1 w.by_number.items × (w.count ≡ length (waiting_in w.by_number.items)) × (w.count + deque_len w.fired ≤ deque_capacity w.fired) };
}

impl<'h> Waiters<'h> {
    pub(crate) fn new(alloc: Global) -> Waiters<'h>
        ensures { result ≡ record { asked = 0; waiting = []; fired = [] } }
    {
        Waiters {
            by_number: Vec::new(alloc),
            count: 0,
            fired: VecDeque::new(alloc),
        }
    }

    /// How many queries there were.
    pub(crate) fn asked(&self) -> u64
        ensures value { result ≡ self.now.asked }
        ensures small { result < 2 ^ 63 }
    {
        self.by_number.len() as u64
    }

    /// One query more, which doesn't wait. A refused call changes nothing.
    pub(crate) fn skip(&mut self) -> Result<(), Memory>
        ensures ok { OnOk result (self.new ≡ record self.old { asked = self.old.asked + 1 }) }
        ensures refused { OnErr result (self.new ≡ self.old) }
    {
        self.by_number.reserve(1)?;
        self.by_number.push_reserved(None);
        Ok(())
    }

    /// One query more, which waits and has the next number. A refused call changes nothing, and ends the pair.
    pub(crate) fn push(&mut self, query: DelayedQuery, pair: Pair<'h>) -> Result<(), Memory>
        requires { query.number ≡ self.old.asked + 1 }
        ensures ok { OnOk result (self.new ≡ with_waiter self.old query) }
        ensures refused { OnErr result (self.new ≡ self.old) }
    {
        match make_room(&mut self.by_number, &mut self.fired, self.count) {
            Ok(()) => {
                self.by_number.push_reserved(Some(pair.wait(query)));
                self.count += 1;
                Ok(())
            }
            Err(_) => {
                pair.end();
                Err(Memory)
            }
        }
    }

    /// Takes the query with this number out, where it waits.
    pub(crate) fn take(&mut self, number: u64) -> Option<Waiter<'h>>
        ensures those { option_to_list result ≡ filter (has_number number) self.old.waiting }
        ensures rest { self.new ≡ record self.old { waiting = filter (λ query. not (has_number number query)) self.old.waiting } }
    {
        match take_from(&mut self.by_number, number) {
            Some(waiter) => {
                self.count -= 1;
                Some(waiter)
            }
            None => None,
        }
    }

    /// The query with this number fires, where it waits and is due at this tick.
    pub(crate) fn fire(&mut self, number: u64, tick: u64)
        ensures { self.new ≡ fired_at number tick self.old }
    {
        if due_in(&self.by_number, number) == Some(tick) {
            if let Some(waiter) = take_from(&mut self.by_number, number) {
                self.count -= 1;
                self.fired.push_back_reserved(waiter);
            }
        }
    }

    /// The first of those that have fired.
    pub(crate) fn next_fired(&mut self) -> Option<Waiter<'h>>
        ensures { MatchOption result ((self.old.fired ≡ []) × (self.new ≡ self.old))
            (λ query. (self.old.fired ≡ query ∷ self.new.fired) × (self.new ≡ record self.old { fired = self.new.fired })) }
    {
        self.fired.pop_front()
    }

    /// Ends all that wait or have fired.
    pub(crate) fn end(self) {
        let Waiters {
            mut by_number,
            count: _,
            mut fired,
        } = self;
        while let Some(slot) = by_number.pop() {
            end_slot(slot);
        }
        by_number.destroy_empty();
        while let Some(waiter) = fired.pop_front() {
            let _query = waiter.end();
        }
        fired.destroy_empty();
    }
}

fn end_slot(slot: Option<Waiter<'_>>) {
    match slot {
        Some(waiter) => {
            let _query = waiter.end();
        }
        None => {}
    }
}

// Room for one query more that waits, and for all that wait to fire.
fn make_room<'h>(
    by_number: &mut Vec<Option<Waiter<'h>>>,
    fired: &mut VecDeque<Waiter<'h>>,
    count: usize,
) -> Result<(), Memory>
    requires { count ≤ length by_number.old.items }
    ensures same { (by_number.new.items ≡ by_number.old.items) × (fired.new.items ≡ fired.old.items) }
    ensures slots { OnOk result (vec_len by_number.new < vec_capacity by_number.new) }
    ensures more { OnOk result (deque_len fired.new + (count + 1) ≤ deque_capacity fired.new) }
    ensures kept { deque_capacity fired.old ≤ deque_capacity fired.new }
{
    by_number.reserve(1)?;
    fired.reserve(count + 1)?;
    Ok(())
}

// Takes the query with this number out, where it waits.
fn take_from<'h>(by_number: &mut Vec<Option<Waiter<'h>>>, number: u64) -> Option<Waiter<'h>>
    requires { AreNumbered 1 by_number.old.items }
    ensures those { option_to_list result ≡ filter (has_number number) (waiting_in by_number.old.items) }
    ensures rest { waiting_in by_number.new.items ≡ filter (λ query. not (has_number number query)) (waiting_in by_number.old.items) }
    ensures numbered { AreNumbered 1 by_number.new.items }
    ensures length { length by_number.new.items ≡ length by_number.old.items }
    ensures count { length (option_to_list result) + length (waiting_in by_number.new.items) ≡ length (waiting_in by_number.old.items) }
{
    if number == 0 {
        return None;
    }
    take_at(by_number, (number - 1) as usize)
}

// Takes out what is at a place.
fn take_at<'h>(by_number: &mut Vec<Option<Waiter<'h>>>, place: usize) -> Option<Waiter<'h>>
    ensures those { result ≡ slice_index_or by_number.old.items place None }
    ensures rest { by_number.new.items ≡ slice_set by_number.old.items place None }
{
    if place < by_number.len() {
        by_number[place].take()
    } else {
        None
    }
}

// The due tick of the query with this number, where it waits.
fn due_in(by_number: &Vec<Option<Waiter<'_>>>, number: u64) -> Option<u64>
    requires { AreNumbered 1 by_number.now.items }
    ensures { option_to_list result ≡ map (λ (query : DelayedQuery). query.due) (filter (has_number number) (waiting_in by_number.now.items)) }
{
    if number == 0 {
        return None;
    }
    due_at(by_number, (number - 1) as usize)
}

// The due tick of the query at a place.
fn due_at(by_number: &Vec<Option<Waiter<'_>>>, place: usize) -> Option<u64>
    ensures { result ≡ option_map (λ (query : DelayedQuery). query.due) (slice_index_or by_number.now.items place None) }
{
    if place < by_number.len() {
        due_of(&by_number[place])
    } else {
        None
    }
}

fn due_of(slot: &Option<Waiter<'_>>) -> Option<u64>
    ensures { result ≡ option_map (λ (query : DelayedQuery). query.due) slot.now }
{
    match slot {
        Some(waiter) => Some(waiter.query().due),
        None => None,
    }
}
