//! What a continuation is.
ghost use Rattle.fan_base.specs.declared.outcome.Fault.{Fault};
ghost use Rattle.fan_base.specs.declared.outcome.Try.{Try};
ghost use Rattle.job_steps.specs.declared.cont.Step.{Step};

use fan_base::{Fault, Try};

/// What a continuation answers.
#[derive(Debug, PartialEq, Eq, Drop)]
pub enum Step<U, F> {
    /// The outcome is there.
    Now(Try<U>),
    /// The outcome is that of the core that this names.
    Later(F),
}

/// What is done with an outcome, once.
pub trait Cont<T> {
    /// The value that it comes to.
    type Out;

    /// What names a core whose outcome it comes to.
    type Later;

    // The continuation, the outcome, and the step that it answers.
    ghost steps: { Self → Try T → Step Self.Out Self.Later → Type 0 };

    /// Takes the outcome.
    fn step(self, outcome: Try<T>) -> Step<Self::Out, Self::Later>
        ensures { steps self outcome result };
}

/// What is done with a value, once.
pub trait ValueStep<T> {
    /// The value that it comes to.
    type Out;

    /// What names a core whose outcome it comes to.
    type Later;

    // The step, the value, and its answer.
    ghost gives: { Self → T → Step Self.Out Self.Later → Type 0 };

    /// Takes the value.
    fn of(self, value: T) -> Step<Self::Out, Self::Later>
        ensures { gives self value result };
}

/// What is done with a fault, once. It comes to a value of the type that there would have been.
pub trait FaultStep<T> {
    /// What names a core whose outcome it comes to.
    type Later;

    // The step, the fault, and its answer.
    ghost gives: { Self → Fault → Step T Self.Later → Type 0 };

    /// Takes the fault.
    fn of(self, fault: Fault) -> Step<T, Self::Later>
        ensures { gives self fault result };
}

/// What is done in either case, once. It sees no outcome and changes none.
pub trait EnsureStep {
    /// The type of what would name a core. No value of it is made.
    type Later;

    /// Does it.
    fn of(self);
}
