ghost use Rattle.std.specs.Prelude.{◌≡◌};

use crate::world::PrintWorld;
use event_base::{Agenda, LoopJob};
use fan_base::{Mark, Sink};
use fan_parts::{PrintJob, RunName};
use job_trait::Headed;
use std::sync::Wait;

impl<'w, N: RunName, K: Sink> LoopJob<PrintWorld<'w, K>> for PrintJob<N> {
    ghost use Rattle.std.specs.Prelude.{◌≡◌};
    ghost use Rattle.event_base.specs.Calls.{IsReached};
    ghost use Rattle.job_trait.specs.Marks.{IsMarkOf};
    ghost use Rattle.run_printing.specs.Events.{event_by, mark_by};
    ghost use Rattle.run_printing.specs.Worlds.{RunsAs, RunsOnBase};

    ghost runs = { λ id p mark q. RunsOnBase N.asked.lines K.holds K.faults p q };

    fn run<R: Wait>(
        self,
        _rt: &R,
        world: &mut PrintWorld<'w, K>,
        _agenda: &mut Agenda<Self>,
    ) -> Mark
        ensures mark { IsMarkOf 0 result }
        ensures meaning { RunsOnBase N.asked.lines K.holds K.faults (world.old, _agenda.old) (world.new, _agenda.new) }
        ensures calls { IsReached ⟦<PrintJob<N> as Headed>⟧.head _agenda.old _agenda.new }
        ensures did { RunsAs N.asked.lines K.holds K.faults (event_by self) world.old world.new }
        ensures told { result ≡ mark_by (event_by self) world.new.printer.now.progress }
    {
        match self {
            PrintJob::Replied(fire) => world.take_fire(fire),
            PrintJob::Cancelled(reply) => world.take_cancelled(reply),
        }
    }
}
