//! The states of a deferred executor, and the word that stands for them.
ghost use Rattle.std.specs.Prelude.{◌≡◌, ◌+◌, ◌<◌, ◌^◌};
ghost use Rattle.semi_defer.specs.declared.state.State.{State};
ghost use Rattle.semi_defer.specs.declared.state.Chosen.{Chosen};
ghost use Rattle.semi_defer.specs.State.{code_of, word_of};

use fan_base::ExecId;

/// The state of a deferred executor, as an atomic word has it.
#[derive(Clone, Copy, PartialEq, Eq, Debug)]
pub enum State {
    /// No job was added, and nothing was chosen.
    Empty,
    /// A job was added, and nothing was chosen.
    HasFunction,
    /// This executor was set.
    HasExecutor(ExecId),
    /// The holder has detached.
    Detached,
}

/// What a holder has chosen.
#[derive(Clone, Copy, PartialEq, Eq, Debug)]
pub enum Chosen {
    /// This executor.
    Executor(ExecId),
    /// None: it has detached.
    Detached,
}

pub(crate) const EMPTY: u64 = 0;

pub(crate) const HAS_FUNCTION: u64 = 1;

/// The word of a choice.
pub(crate) fn word(chosen: Chosen) -> u64
    ensures value { result ≡ word_of chosen }
    ensures small { result < 2 ^ 32 + 3 }
{
    match chosen {
        Chosen::Detached => 2,
        Chosen::Executor(exec) => 3 + u64::from(exec.0),
    }
}

/// The choice that a word stands for.
pub(crate) fn chosen_at(word: u64) -> Chosen
    requires chosen { (chosen : Chosen) × (word ≡ word_of chosen) }
    requires small { word < 2 ^ 32 + 3 }
    ensures { word ≡ word_of result }
{
    if word == 2 {
        Chosen::Detached
    } else {
        Chosen::Executor(ExecId((word - 3) as u32))
    }
}

/// The state that a word stands for.
pub(crate) fn state_at(word: u64) -> State
    requires state { (state : State) × (word ≡ code_of state) }
    requires small { word < 2 ^ 32 + 3 }
    ensures { word ≡ code_of result }
{
    match word {
        0 => State::Empty,
        1 => State::HasFunction,
        2 => State::Detached,
        _ => State::HasExecutor(ExecId((word - 3) as u32)),
    }
}
