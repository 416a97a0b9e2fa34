//! What a seat of a home's table knows and holds. But for `Item` no value of these types is made.
use core_state::{Demand, Offer, Request, State};
use fan_base::Try;

/// What lies in a slot of a home, if anything does.
#[derive(Drop)]
pub enum Item<T, C, P> {
    Outcome(Try<T>),
    Callback(Request<C>),
    Proxy(P),
}

/// Whether a half has left its core, and whether it was the first or the last to leave.
pub enum Departure {
    No,
    First,
    Last,
}

/// What a producer that hasn't acted has learned of its consumer. What it has learned stays true, and it can come to
/// know more by another look.
#[derive(Clone, Copy, PartialEq, Eq, Debug)]
pub enum Sight {
    /// It hasn't looked.
    Unseen,
    /// Its last look found no callback.
    NoCallback,
    /// A callback is set.
    Callback,
    /// A callback is set, and the consumer has left.
    CallbackLeft,
}

/// What a producer that hasn't acted knows of its consumer, and how many looks it has made.
pub struct Learned {
    pub sight: Sight,
    pub looks: u64,
}

/// The slot that a producer takes before it acts.
pub enum ProducerSlot {
    Result,
    Proxy,
}

/// How far a producer has come.
pub enum ProducerPhase<T, C, P> {
    /// It hasn't acted.
    Ready,
    /// It has taken its slot, and hasn't acted.
    Holding(ProducerSlot),
    /// Besides, it has seen that a callback waits, and whether it was set with the allowance to run inline.
    Aware(ProducerSlot, bool),
    /// It has set the offer. It got a callback where one waited.
    Acted(Offer<Try<T>, P>, Demand<C>, Departure),
}

/// How far a consumer has come.
pub enum ConsumerPhase<T, C, P> {
    /// It hasn't acted.
    Ready,
    /// It has taken its slot, and hasn't acted.
    Holding,
    /// Besides, it has seen a state that the producer made.
    Aware(State),
    /// It has set a callback, or has left without one. It got an offer where one was there.
    Acted(Demand<C>, Offer<Try<T>, P>, Departure),
}

/// What a seat knows, with the number of the use of the home in which it learned it.
pub enum View<T, C, P> {
    /// It may begin this use.
    Key(u64),
    Producer(u64, ProducerPhase<T, C, P>, Learned),
    Consumer(u64, ConsumerPhase<T, C, P>),
    /// The last leaver, once it has read the final state: what both halves had set. It has all slots.
    Husk(u64, Offer<Try<T>, P>, Demand<C>),
    /// The last leaver, once it has set the state back to Start. It has all slots.
    Reopening(u64),
    /// Both halves of a use, put into one seat.
    Joined(u64, ProducerPhase<T, C, P>, ConsumerPhase<T, C, P>),
    /// A seat that was put into another.
    Spent,
    /// Two seats that exclude each other. It never comes to that.
    Clash,
}
