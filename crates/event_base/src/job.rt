// What runs on an event base.
ghost use Rattle.std.specs.Prelude.{◌≡◌};
ghost use Rattle.fan_base.specs.declared.number.JobId.{JobId};
ghost use Rattle.fan_base.specs.declared.number.Mark.{Mark};
ghost use Rattle.job_trait.specs.Marks.{IsMarkOf};
ghost use Rattle.event_base.specs.Calls.{IsReached};
ghost use Rattle.event_base.specs.Turns.{Place};

use crate::agenda::Agenda;
use fan_base::Mark;
use job_trait::Headed;
use std::sync::Wait;

/// Work that is run once by an event base, on a world that it may change and with the base's agenda.
pub trait LoopJob<W>: Headed {
    // What a run of the job with this id does: the world and the agenda before, the mark, the world and the agenda after.
    ghost runs: { JobId → Place W Self → Mark → Place W Self → Type 0 };

    /// Runs the job. The mark is `Done` with the job's own number, or `Memory` where the run found none. It changes the agenda by the agenda's
    /// calls alone.
    fn run<R: Wait>(self, rt: &R, world: &mut W, agenda: &mut Agenda<Self>) -> Mark
        ensures mark { IsMarkOf (Self.head self).number result }
        ensures meaning { runs (Self.head self).id (world.old, agenda.old) result (world.new, agenda.new) }
        ensures calls { IsReached Self.head agenda.old agenda.new };
}
