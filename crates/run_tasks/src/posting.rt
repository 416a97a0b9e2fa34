//! What becomes of a task's core once its value is set, and of what either half met there.
ghost use Rattle.std.specs.Prelude.{◌≡◌, false};
ghost use Rattle.run_tasks.specs.Leaving.{LeavesCell};
ghost use Rattle.run_tasks.specs.Posting.{IsFireOf, Lands, LandsAs, PostsFire, PostsOneAtMost, SuitsCore};
ghost use Rattle.run_tasks.specs.Worlds.{Follows};

use crate::leave::leave_cell;
use crate::world::TaskWorld;
use core_proxy::NoProxy;
use core_word::{Landed, Met, Tally};
use fan_base::{Refused, Try};
use fan_parts::{GatherJob, Part, PartCallback, RunName, TaskFire, TaskProducer, spend_gather_job};
use std::sync::Wait;

impl<'c, 't, 'i: 't, N: RunName> TaskWorld<'c, 't, 'i, N> {
    /// Sets the value of a task's core, and leaves. Where the callback was there, the fire is posted to its base.
    pub(crate) fn fulfil<R: Wait>(
        &mut self,
        rt: &R,
        producer: TaskProducer<'t, N>,
        outcome: Try<Part<N>>,
    )
        requires outcome { SuitsCore producer.no outcome }
        ensures follows { Follows self.old self.new }
        ensures left { self.new.refused ≡ false → LeavesCell producer.entry.home producer.entry.use_number self.old.pass self.old.tally self.new.pass self.new.tally }
        ensures posted { self.new.refused ≡ false →
            PostsOneAtMost (IsFireOf producer.entry.no outcome) self.old.posters self.new.posters }
    {
        let (landed, left) = producer.set_result(outcome);
        leave_cell(rt, self.cells, &mut self.pass, left, &mut self.tally);
        self.land(rt, landed);
    }

    /// Posts the fire of a core, if its other half had come.
    pub(crate) fn land<R: Wait>(&mut self, rt: &R, landed: Landed<Part<N>, PartCallback<N>>)
        ensures follows { Follows self.old self.new }
        ensures landed { Lands landed self.old self.new }
        ensures tally { self.new.refused ≡ false → self.new.tally ≡ self.old.tally }
        ensures pass { self.new.pass ≡ self.old.pass }
    {
        match landed {
            Landed::Waiting => {}
            Landed::Fire(fire) => self.post(rt, fire),
        }
    }

    /// Posts a fire to the base of its callback. Where that finds no memory, the fire is spent.
    fn post<R: Wait>(&mut self, rt: &R, fire: TaskFire<N>)
        ensures follows { Follows self.old self.new }
        ensures posted { self.new.refused ≡ false → PostsFire fire self.old.posters self.new.posters }
        ensures tally { self.new.refused ≡ false → self.new.tally ≡ self.old.tally }
        ensures pass { self.new.pass ≡ self.old.pass }
    {
        let base = fire.callback().exec().0 - 1;
        match self.posters[base as usize].post(rt, GatherJob::Task(fire)) {
            Ok(()) => {}
            Err(Refused::Memory(job)) => {
                self.refused = true;
                spend_gather_job(job, &mut self.tally);
            }
        }
    }
}

/// What a consumer met, as a producer's answer. A task's core is never forwarded.
pub fn landed_by<N: RunName>(
    met: Met<Part<N>, PartCallback<N>, NoProxy>,
) -> Landed<Part<N>, PartCallback<N>>
    ensures { LandsAs met result }
{
    match met {
        Met::Waiting => Landed::Waiting,
        Met::Fire(fire) => Landed::Fire(fire),
        Met::Forward(forward) => match forward.unpack(&mut Tally::new()).1 {},
    }
}
