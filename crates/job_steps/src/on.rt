//! The three continuations that are made of steps.
ghost use Rattle.job_steps.specs.Steps.{OnValueSteps, OnFaultSteps};
ghost use Rattle.job_steps.specs.declared.cont.Step.TheVariants as step;
ghost use Rattle.std.specs.Prelude.{◌≡◌};

use crate::cont::{Cont, EnsureStep, FaultStep, Step, ValueStep};
use fan_base::{Fault, Try};

/// Calls its step on a value, and answers a fault by that fault.
#[derive(Drop)]
pub struct OnValue<K> {
    pub step: K,
}

/// Calls its step on a fault, and answers a value by that value.
#[derive(Drop)]
pub struct OnFault<K> {
    pub step: K,
}

/// Calls its step in either case, and answers the outcome that it got. No clause says that the step is called.
#[derive(Drop)]
pub struct Always<K> {
    pub step: K,
}

impl<T, K: ValueStep<T> + Drop> Cont<T> for OnValue<K> {
    type Out = K::Out;

    type Later = K::Later;

    ghost steps = { λ on. OnValueSteps K.gives on.step };

    fn step(self, outcome: Try<T>) -> Step<K::Out, K::Later>
        ensures { OnValueSteps K.gives self.step outcome result }
    {
        let OnValue { step } = self;
        match outcome {
            Try::Value(value) => step.of(value),
            Try::Broken => Step::Now(Try::Broken),
            Try::Memory => Step::Now(Try::Memory),
            Try::Cancelled(number) => Step::Now(Try::Cancelled(number)),
        }
    }
}

impl<T, K: FaultStep<T> + Drop> Cont<T> for OnFault<K> {
    type Out = T;

    type Later = K::Later;

    ghost steps = { λ on. OnFaultSteps K.gives on.step };

    fn step(self, outcome: Try<T>) -> Step<T, K::Later>
        ensures { OnFaultSteps K.gives self.step outcome result }
    {
        let OnFault { step } = self;
        match outcome {
            Try::Value(value) => Step::Now(Try::Value(value)),
            Try::Broken => step.of(Fault::Broken),
            Try::Memory => step.of(Fault::Memory),
            Try::Cancelled(number) => step.of(Fault::Cancelled(number)),
        }
    }
}

impl<T, K: EnsureStep> Cont<T> for Always<K> {
    type Out = T;

    type Later = K::Later;

    ghost steps = { λ _ outcome answer. answer ≡ step.Now outcome };

    fn step(self, outcome: Try<T>) -> Step<T, K::Later>
        ensures { result ≡ step.Now outcome }
    {
        let Always { step } = self;
        step.of();
        Step::Now(outcome)
    }
}
