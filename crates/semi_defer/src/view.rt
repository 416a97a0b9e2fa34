//! What a seat of a home's table knows. No value of these types is made.
use crate::state::Chosen;

/// How far an adder has come.
pub enum Adding<J> {
    /// It hasn't acted.
    Ready,
    /// It has taken the slot, and hasn't acted.
    Holding,
    /// It added this job where nothing was chosen: the job is kept.
    Kept(J),
    /// It came with this job after this was chosen. It has the slot.
    Returning(J, Chosen),
    /// The same, and it has given the slot back.
    Late(J, Chosen),
}

/// How far a holder has come.
pub enum Choosing<J> {
    /// It hasn't acted.
    Ready,
    /// It chose this, and found this job. It has the slot.
    Taking(Chosen, J),
    /// It chose this, and got this job if one was kept.
    Chose(Chosen, Option<J>),
}

/// What a seat knows.
pub enum View<J> {
    /// It may make the pair.
    Pair,
    Adder(Adding<J>),
    Holder(Choosing<J>),
    /// An adder and a holder, put together.
    Both(Adding<J>, Choosing<J>),
    /// Nothing: it was put together with another.
    Spent,
}
