//! The desk of the first value: collectAnyWithoutException.
ghost use Rattle.std.specs.Prelude.{◌≡◌, []};
ghost use Rattle.collect_ops.specs.Answers.{MatchArrived, CompletesFirst, ComesBack, any_value_answer, answer_of, found_of};

use crate::answer::{Arrived, FirstValue, Reason};
use crate::arrival::Arrival;
use crate::desk::Desk;
use crate::kept::Kept;
use fan_base::Try;
use std::marker::PhantomData;

/// The kind of a desk that completes at the first value, or at the last fault.
#[derive(Drop)]
pub struct AnyValue<T> {
    value: PhantomData<T>,
}

/// It completes with the first value that claims, or with the last fault where all are faults, and its index. Of a
/// fault it keeps that it came.
pub type AnyValueDesk<T, E> = Desk<(), E, AnyValue<T>>;

/// What an arrival at a desk of the first value answers: never `More`.
pub type AnyValueArrived<'d, T, E> = Arrived<'d, FirstValue<T>, E, T, ()>;

impl<'d, T, E> Arrival<'d, AnyValueDesk<T, E>> {
    /// Claims with a value, or counts a fault. The first value completes, and every other comes back. The fault that
    /// finds 1 left completes, and every other comes back. It takes no memory.
    pub fn arrive(self, outcome: Try<T>) -> AnyValueArrived<'d, T, E>
        ensures answer { answer_of result ≡ any_value_answer outcome (found_of result) }
        ensures what { MatchArrived result (λ found end done. CompletesFirst self.entry outcome found end done) (λ back why. ComesBack self.entry outcome back why) (λ _. ⊥) }
    {
        let pass = self.into_pass();
        let index = pass.index();
        let fault = match outcome {
            Try::Value(value) => {
                return match pass.claim() {
                    Ok((end, done)) => Arrived::Complete(
                        FirstValue::Value(index, value),
                        end,
                        done,
                    ),
                    Err(lost) => Arrived::Back(Try::Value(value), Reason::Claimed(lost)),
                };
            }
            fault => fault,
        };
        match pass.keep(()) {
            Ok((_, end, done)) => Arrived::Complete(FirstValue::AllFailed(index, fault), end, done),
            Err(receipt) => Arrived::Back(fault, Reason::Counted(receipt)),
        }
    }
}

impl<T, E> Kept<AnyValueDesk<T, E>> {
    /// None: of a fault this desk keeps only that it came, and this is let go.
    pub fn next(&mut self) -> Option<Try<T>>
        ensures none { result ≡ None }
        ensures rest { self.new.outcomes ≡ [] }
        ensures end { self.new.end ≡ self.old.end }
    {
        while let Some(()) = self.next_kept() {}
        None
    }
}
