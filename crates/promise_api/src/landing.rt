//! The job that a chain is, and the world that it lands in.
ghost use Rattle.std.specs.Prelude.{◌≡◌, Option};
ghost use Rattle.fan_base.specs.declared.outcome.Try.{Try};
ghost use Rattle.core_word.specs.Count.{Counts};
ghost use Rattle.core_word.specs.Seen.{SeenFire};
ghost use Rattle.promise_api.specs.Landings.{HandsFire, HandsOutcome};

use core_word::{Fire, Landed, Tally};
use fan_base::Try;

/// A world that gets what a chain's run comes to.
pub trait Landing<U, D> {
    // The world before, the fire, the world after.
    ghost lands: { Self → SeenFire U D → Self → Type 0 };

    // The world before, the outcome, the world after.
    ghost unclaims: { Self → Try U → Self → Type 0 };

    // The world before, the tally's numbers, the world after.
    ghost counts: { Self → Counts → Self → Type 0 };

    /// Gets a fire of the chain's promise.
    fn landed(&mut self, fire: Fire<U, D>)
        ensures { lands self.old fire self.new };

    /// Gets an outcome of the chain's promise that was left over.
    fn unclaimed(&mut self, outcome: Try<U>)
        ensures { unclaims self.old outcome self.new };

    /// Gets what the run has counted.
    fn counted(&mut self, tally: Tally)
        ensures { counts self.old tally self.new };
}

// Hands the world a fire, where there is one.
pub(crate) fn hand_fire<U, D, W: Landing<U, D>>(world: &mut W, landed: Landed<U, D>)
    ensures { HandsFire W.lands world.old landed world.new }
{
    match landed {
        Landed::Waiting => {}
        Landed::Fire(fire) => world.landed(fire),
    }
}

// Hands the world an outcome that was left over, where there is one.
pub(crate) fn hand_outcome<U, D, W: Landing<U, D>>(world: &mut W, outcome: Option<Try<U>>)
    ensures { HandsOutcome W.unclaims world.old outcome world.new }
{
    match outcome {
        None => {}
        Some(outcome) => world.unclaimed(outcome),
    }
}
