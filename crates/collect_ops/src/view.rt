//! What a seat of a desk's table knows and holds. But for `Item` and `Ending` no value of these types is made.
use crate::boxed::Boxed;
use std::collections::LinkedList;

/// What lies in a slot of a desk, if anything does.
#[derive(Drop)]
pub enum Item<X, E> {
    Outcome(X),
    /// In a box, so that a slot has room for an outcome alone.
    End(Boxed<Ending<X, E>>),
}

/// What the completion hands out, and the room for the list of outcomes.
#[derive(Drop)]
pub struct Ending<X, E> {
    pub end: E,
    pub room: Vec<X>,
}

/// How far an arrival has come.
pub enum Phase<X> {
    /// It hasn't arrived.
    Ready,
    /// It has taken its slot, and hasn't arrived.
    Holding,
    /// It has left this in its slot. Its subtract found so many left, above 1.
    Kept(X, u64),
    /// Its swap found that another had claimed.
    Lost,
    /// Its swap found that nobody had claimed. It has the slot of the end.
    Claiming,
    /// Besides, it has given this slot back, empty.
    Claimed,
    /// Its subtract found 1 left. It has all slots, and these are the outcomes by index.
    Emptying(LinkedList<X>),
    /// Besides, it has given the slots back, empty.
    Emptied(LinkedList<X>),
    /// Besides, it was told what another had left in its slot.
    Told(LinkedList<X>, u64, X),
}

/// What a seat knows. Who knows the desk's size knows its ending too.
pub enum View<X, E> {
    /// All slots are at home and empty.
    Making,
    /// It has the slot of the end.
    Opening,
    /// The end is in its slot.
    Opened(u64, Ending<X, E>),
    /// So many arrivals were dealt.
    Dealing(u64, Ending<X, E>, u64),
    /// The desk's own.
    Owner(u64, Ending<X, E>),
    /// The arrival of an index.
    Arriving(u64, Ending<X, E>, u64, Phase<X>),
    /// What two seats that exclude each other would be together. There is none.
    Clash,
    /// Nothing.
    Spent,
}
