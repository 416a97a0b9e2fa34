ghost use Rattle.std.specs.Prelude.{◌≡◌, map};
ghost use Rattle.run_tasks.specs.Worlds.{AreEndsFor, told_of};

use fan_parts::{BasePoster, PrintJob, RunName};
use notify_queue::SenderEnd;
use query_model::Lines;
use run_tasks::{TaskEnds, TaskWorld};
use std::sync::Wait;

/// What the front works with. It must be spent by `end`.
pub struct Front<'c, 't, 'i: 't, N: RunName> {
    /// The world that tasks run on here: helped tasks, and those of late queries.
    pub world: TaskWorld<'c, 't, 'i, N>,
    /// A poster to the printer's base.
    pub printer: BasePoster<PrintJob<N>>,
    /// The lines of the input.
    pub lines: &'i Lines,
    /// How many shards there are.
    pub shards: u32,
    /// How many gathering bases there are.
    pub bases: u32,
}

/// What is left of a front: what is left of its world, and the end of its poster to the printer's base.
pub struct FrontEnds<'t, N: RunName> {
    pub tasks: TaskEnds<'t, N>,
    pub printer: SenderEnd<PrintJob<N>>,
}

impl<'c, 't, 'i: 't, N: RunName + 'static> Front<'c, 't, 'i, N> {
    /// Ends its posters. It takes no memory.
    pub fn end<R: Wait>(self, rt: &R) -> FrontEnds<'t, N>
        ensures posters { AreEndsFor (map told_of self.entry.world.posters) result.tasks.posters.items }
        ensures pass { result.tasks.pass ≡ self.entry.world.pass }
        ensures refused { result.tasks.refused ≡ self.entry.world.refused }
        ensures printer { result.printer ≡ self.entry.printer.sender }
        ensures tally { result.tasks.tally ≡ self.entry.world.tally }
    {
        let Front {
            world,
            printer,
            lines: _,
            shards: _,
            bases: _,
        } = self;
        FrontEnds {
            tasks: world.end(rt),
            printer: printer.end(rt),
        }
    }
}
