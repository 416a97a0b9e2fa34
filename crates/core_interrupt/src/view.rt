//! What a seat of a home's table knows and holds. But for `Item` no value of these types is made.
use crate::history::RaiseEvent;
use std::collections::LinkedList;

/// What lies in a slot of a home, if anything does.
#[derive(Drop)]
pub enum Item<H, I> {
    Handler(H),
    Object(I),
}

/// What a hearer has come to that has ended.
pub enum HearerEnd<H, I> {
    /// It set no handler, and found Empty.
    Unset,
    /// It set no handler, and found HasObject: this object came back.
    ObjectBack(I),
    /// It set this handler, and found HasHandler: the handler came back.
    HandlerBack(H),
    /// It set this handler, and found Called: a raise had called it.
    WasCalled(H),
    /// It set this handler where this object waited, and so called it. It found Called.
    HasCalled(H, I),
}

/// How far a hearer has come.
pub enum Hearing<H, I> {
    /// It hasn't acted.
    Ready,
    /// It has taken the handler's slot, and hasn't acted.
    Holding,
    /// Besides, it has seen that an object waits.
    Aware,
    /// It set this handler and found Empty.
    Set(H),
    /// It set this handler and found this object. It has both slots.
    Calling(H, I),
    /// The same, and it has given both slots back.
    Called(H, I),
    /// It has ended, and has the slot of what came back.
    Ending(HearerEnd<H, I>),
    /// It has ended.
    Ended(HearerEnd<H, I>),
}

/// Which slot a raiser has.
pub enum Raising {
    /// None: it is between two raises, or has taken nothing.
    Resting,
    /// The object's slot. It has raised nothing before.
    Holding,
    /// Besides, it has seen that the hearer has set a handler or ended.
    Aware,
    /// The handler's slot: it has called the handler.
    Calling,
}

/// What a seat knows.
pub enum View<H, I> {
    /// It may make the pair.
    Pair,
    Hearer(Hearing<H, I>),
    /// With its calls, the oldest first.
    Raiser(Raising, LinkedList<RaiseEvent<H, I>>),
    /// A hearer and a raiser, put together.
    Both(Hearing<H, I>, LinkedList<RaiseEvent<H, I>>),
    /// Nothing: it was put together with another.
    Spent,
}
