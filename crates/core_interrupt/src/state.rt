//! The five states of an interrupt.
ghost use Rattle.std.specs.Prelude.{◌≡◌, ◌≢◌, IfSome, IfNone};
ghost use Rattle.core_interrupt.specs.State.{code_of};

/// The state of an interrupt, as an atomic word has it.
#[derive(Clone, Copy, PartialEq, Eq, Debug)]
pub enum State {
    /// No handler was set and no object was raised.
    Empty,
    /// A handler was set, and no object was raised.
    HasHandler,
    /// An object was raised, and no handler was set.
    HasObject,
    /// A handler was called with an object.
    Called,
    /// The hearer's side has ended.
    Ended,
}

/// The number that stands for a state in the word. The numbers are this library's own.
pub(crate) fn code(state: State) -> u64
    ensures { result ≡ code_of state }
{
    match state {
        State::Empty => 0,
        State::HasHandler => 1,
        State::HasObject => 2,
        State::Called => 3,
        State::Ended => 4,
    }
}

/// The state that a word stands for.
pub(crate) fn from_code(word: u64) -> State
    requires { (state : State) × (word ≡ code_of state) }
    ensures { word ≡ code_of result }
{
    match word {
        0 => State::Empty,
        1 => State::HasHandler,
        2 => State::HasObject,
        3 => State::Called,
        4 => State::Ended,
        _ => unreachable!(),
    }
}
