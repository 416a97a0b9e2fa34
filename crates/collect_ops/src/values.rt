//! The desk of values: collect.
ghost use Rattle.std.specs.Prelude.{◌≡◌, ◌↔◌, [], ◌∷◌, MatchOption, IsNone};
ghost use Rattle.collect_ops.specs.Answers.{MatchArrived, CompletesValues, IsBack, KeepsValue, values_answer, answer_of, found_of};

use crate::answer::{AllValues, Arrived, Reason};
use crate::arrival::Arrival;
use crate::desk::Desk;
use crate::kept::Kept;
use fan_base::Try;

/// The kind of a desk that keeps values, and completes at the first fault.
#[derive(Drop)]
pub struct Values;

/// It completes with all values by index, at the last one, or with the first fault that claims.
pub type ValuesDesk<T, E> = Desk<T, E, Values>;

/// What an arrival at a desk of values answers: `Back` only for a fault, and `More` only for a value.
pub type ValuesArrived<'d, T, E> = Arrived<'d, AllValues<T>, E, T, T>;

impl<'d, T, E> Arrival<'d, ValuesDesk<T, E>> {
    /// Leaves a value at its index, or claims with a fault. The value that finds 1 left completes, with all values by
    /// index, and every other value answers `More`. The first fault completes, and every other fault comes back. It
    /// takes no memory.
    pub fn arrive(self, outcome: Try<T>) -> ValuesArrived<'d, T, E>
        ensures answer { answer_of result ≡ values_answer outcome (found_of result) }
        ensures what { MatchArrived result (λ found end done. CompletesValues self.entry outcome found end done) (λ back why. IsBack self.entry outcome back why) (λ receipt. KeepsValue self.entry outcome receipt) }
    {
        let pass = self.into_pass();
        let value = match outcome {
            Try::Value(value) => value,
            fault => {
                let index = pass.index();
                return match pass.claim() {
                    Ok((end, done)) => Arrived::Complete(AllValues::Fault(index, fault), end, done),
                    Err(lost) => Arrived::Back(fault, Reason::Claimed(lost)),
                };
            }
        };
        match pass.keep(value) {
            Ok((list, end, done)) => Arrived::Complete(AllValues::Values(list), end, done),
            Err(receipt) => Arrived::More(receipt),
        }
    }
}

impl<T, E> Kept<ValuesDesk<T, E>> {
    /// The next value that was kept and never handed out, the lowest index first. None exactly where none is left.
    pub fn next(&mut self) -> Option<Try<T>>
        ensures rest { MatchOption result (self.new.outcomes ≡ []) (λ outcome. (value : T) × (outcome ≡ Try.Value value) × (self.old.outcomes ≡ value ∷ self.new.outcomes)) }
        ensures none { IsNone result ↔ (self.old.outcomes ≡ []) }
        ensures end { self.new.end ≡ self.old.end }
    {
        match self.next_kept() {
            Some(value) => Some(Try::Value(value)),
            None => None,
        }
    }
}
