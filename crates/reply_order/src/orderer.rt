ghost use Rattle.std.specs.Prelude.{◌≡◌};
ghost use Rattle.reply_order.specs.Places.{AreWithin};

use fan_base::Refused;
use std::alloc::{AllocFailed, Global};
use std::collections::BTreeMap;

/// Holds each reply until those of all earlier places have gone out. Contracts see the next place (`next_of`) and the
/// list of the replies that it holds, each behind its place (`held_of`).
#[derive(Drop)]
pub struct Orderer<R> {
    next: u64,
    held: BTreeMap<u64, R>,
    ghost within: { AreWithin held },
}

impl<R> Orderer<R> {
    ghost use Rattle.std.specs.Prelude.{ℕ, ◌+◌, ◌≤◌, ◌<◌, ◌^◌, ◌-◌, ◌↔◌, [], length, IsTrue, IsSome, None, OnOk, OnSome, IfSome, IfErr, IfNone};
    ghost use Rattle.reply_order.specs.Orders.{next_of, held_of, reply_at, AddsOne, Puts, Goes, Stays};

    /// An orderer that holds nothing and waits for the reply of the place `first`.
    pub fn new(alloc: Global, first: u64) -> Orderer<R>
        ensures next { next_of result ≡ first }
        ensures held { (place : ℕ) → reply_at result place ≡ None }
        ensures empty { held_of result ≡ [] }
    {
        Orderer {
            next: first,
            held: BTreeMap::new(alloc),
        }
    }

    /// The place whose reply goes out next.
    pub fn next_place(&self) -> u64
        ensures { result ≡ next_of self.now }
    {
        self.next
    }

    /// How many replies it holds.
    pub fn len(&self) -> usize
        ensures { result ≡ length (held_of self.now) }
    {
        self.held.len()
    }

    /// Whether it holds none.
    pub fn is_empty(&self) -> bool
        ensures { IsTrue result ↔ (held_of self.now ≡ []) }
    {
        self.held.is_empty()
    }

    /// Whether it holds the reply of a place.
    pub fn holds(&self, place: u64) -> bool
        ensures { IsTrue result ↔ IsSome (reply_at self.now place) }
    {
        self.held.contains_key(&place)
    }

    /// Takes the reply of a place that is still to come and isn't held, or gives it back where there is no memory for it.
    /// The place is below 2^64 - 1, so that there is one behind it.
    pub fn put(&mut self, place: u64, reply: R) -> Result<(), Refused<R>>
        requires waits { next_of self.old ≤ place }
        requires below { place < 2 ^ 64 - 1 }
        requires free { reply_at self.old place ≡ None }
        ensures ok { OnOk result (Puts self.old self.new place reply) }
        ensures refused { IfErr result (λ back. (back ≡ Refused.Memory reply) × Stays self.old self.new) }
    {
        match self.held.insert(place, reply) {
            Ok(old) => {
                let None = old else { unreachable!() };
                Ok(())
            }
            Err(AllocFailed { value: (_, reply) }) => Err(Refused::Memory(reply)),
        }
    }

    /// Gives the reply of the next place, and the place behind it is the next. None where it isn't held.
    pub fn next(&mut self) -> Option<R>
        ensures reply { result ≡ reply_at self.old (next_of self.old) }
        ensures takes { IfSome result (λ reply. AddsOne (held_of self.new) (next_of self.old, reply) (held_of self.old)) }
        ensures goes { OnSome result (Goes self.old self.new) }
        ensures stays { IfNone result (Stays self.old self.new) }
    {
        let reply = self.held.remove(&self.next)?;
        self.next += 1;
        Some(reply)
    }
}
