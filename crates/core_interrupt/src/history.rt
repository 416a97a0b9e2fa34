//! What a hearer and a raiser have done, as contracts see it. No value of these types is made.
use crate::state::State;

/// One call of a raiser: the object that it raised, and what came of it.
pub enum RaiseEvent<H, I> {
    /// Empty was found: the object is kept.
    Kept(I),
    /// HasHandler was found: this handler was called with the object.
    Called(H, I),
    /// HasObject or Called was found: the object came back.
    Late(I, State),
    /// Ended was found: the object came back.
    Gone(I),
}

/// One call of a hearer.
pub enum HearEvent<H, I> {
    /// It set this handler and found Empty: the handler is kept.
    Kept(H),
    /// It set this handler and found HasObject: the handler was called with this object.
    Called(H, I),
    /// It ended and found Empty.
    EndedEmpty,
    /// It ended and found HasObject: this object came back.
    EndedWithObject(I),
    /// It ended and found HasHandler: this handler came back.
    EndedWithHandler(H),
    /// It ended and found Called.
    EndedCalled,
}

/// What happened to an interrupt.
pub enum Event<H, I> {
    Hears(HearEvent<H, I>),
    Raises(RaiseEvent<H, I>),
}
