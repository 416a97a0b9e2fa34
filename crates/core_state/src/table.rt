//! The states, the acts on them, and the table.
ghost use Rattle.std.specs.Prelude.{◌≡◌, ◌≢◌, IfSome, IfNone};
ghost use Rattle.core_state.specs.Table.{state_after, code_of};

/// The state of a core, in the terms of Folly's `Core.h`.
#[derive(Clone, Copy, PartialEq, Eq, Debug)]
pub enum State {
    /// Neither half has set anything.
    Start,
    /// The producer has given its result up, and no callback is there.
    OnlyResult,
    /// The consumer has given its callback up, and neither a result nor a proxy is there.
    OnlyCallback,
    /// The producer has named another core, to which a callback is to be passed on.
    Proxy,
    /// One half got the result and the callback.
    Done,
    /// One half got the callback, to pass it on to the other core.
    Empty,
    /// As `OnlyCallback`, and the callback may be run inline by whoever completes the core.
    OnlyCallbackAllowInline,
}

/// What a half does to the state. Giving up and leaving don't change it.
#[derive(Clone, Copy, PartialEq, Eq, Debug)]
pub enum Act {
    SetResult,
    SetProxy,
    SetCallback,
    /// Sets the callback with the allowance to run inline.
    SetCallbackInline,
}

/// The state after an act, or None where this act can't come in this state.
pub fn next(state: State, act: Act) -> Option<State>
    ensures { result ≡ state_after state act }
{
    match (state, act) {
        (State::Start, Act::SetResult) => Some(State::OnlyResult),
        (State::Start, Act::SetProxy) => Some(State::Proxy),
        (State::Start, Act::SetCallback) => Some(State::OnlyCallback),
        (State::Start, Act::SetCallbackInline) => Some(State::OnlyCallbackAllowInline),
        (State::OnlyResult, Act::SetCallback | Act::SetCallbackInline) => Some(State::Done),
        (State::Proxy, Act::SetCallback | Act::SetCallbackInline) => Some(State::Empty),
        (State::OnlyCallback | State::OnlyCallbackAllowInline, Act::SetResult) => Some(State::Done),
        (State::OnlyCallback | State::OnlyCallbackAllowInline, Act::SetProxy) => Some(State::Empty),
        (State::OnlyResult | State::Proxy, Act::SetResult | Act::SetProxy) => None,
        (
            State::OnlyCallback | State::OnlyCallbackAllowInline,
            Act::SetCallback | Act::SetCallbackInline,
        ) => None,
        (State::Done | State::Empty, _) => None,
    }
}

/// The number that stands for a state in an atomic word. The numbers are this library's own, and
/// not those of `Core.h`.
pub fn code(state: State) -> u64
    ensures { result ≡ code_of state }
{
    match state {
        State::Start => 0,
        State::OnlyResult => 1,
        State::OnlyCallback => 2,
        State::Proxy => 3,
        State::Done => 4,
        State::Empty => 5,
        State::OnlyCallbackAllowInline => 6,
    }
}

/// The state with this code, or None where no state has it.
pub fn from_code(n: u64) -> Option<State>
    ensures code { IfSome result (λ state. code_of state ≡ n) }
    ensures inverse { (state : State) → code_of state ≡ n → result ≡ Some state }
    ensures none { IfNone result ((state : State) → code_of state ≢ n) }
{
    match n {
        0 => Some(State::Start),
        1 => Some(State::OnlyResult),
        2 => Some(State::OnlyCallback),
        3 => Some(State::Proxy),
        4 => Some(State::Done),
        5 => Some(State::Empty),
        6 => Some(State::OnlyCallbackAllowInline),
        _ => None,
    }
}
