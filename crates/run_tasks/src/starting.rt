//! What the front does with the core of a task: it begins it in a free cell, and sets its callback.
ghost use Rattle.std.specs.Prelude.{◌≡◌, ◌∷◌, [], ◌++◌, IfSome, IfNone, true, false};
ghost use Rattle.core_cells.specs.Seen.{WereFree, key_of_half};
ghost use Rattle.core_word.specs.Count.{raised};
ghost use Rattle.fan_model.specs.Tasks.{job_of};
ghost use Rattle.run_tasks.specs.Leaving.{CountsLeave, LeavesCell};
ghost use Rattle.run_tasks.specs.Posting.{IsFireTo, PostsOneAtMost};
ghost use Rattle.run_tasks.specs.Worlds.{Follows};

use crate::leave::leave_by_consumer;
use crate::posting::landed_by;
use crate::task::ShardTask;
use crate::world::TaskWorld;
use fan_base::Try;
use fan_parts::{PartCallback, RunName, TaskConsumer, TaskProducer};
use std::sync::Wait;

impl<'c, 't, 'i: 't, N: RunName> TaskWorld<'c, 't, 'i, N> {
    /// Begins a task's core with this number in a free cell. None where no cell was free at a moment of this call.
    pub fn begin_core<R: Wait>(
        &mut self,
        rt: &R,
        no: u64,
    ) -> Option<(TaskProducer<'t, N>, TaskConsumer<'t, N>)>
        ensures follows { Follows self.old self.new }
        ensures core { IfSome result (λ halves. (halves.0.no ≡ no) × (halves.1.no ≡ no) × (halves.0.home ≡ halves.1.home) × (halves.0.use_number ≡ halves.1.use_number)) }
        ensures took { IfSome result (λ halves. self.new.pass ≡ record self.old.pass { took = self.old.pass.took ++ key_of_half halves.1 ∷ [] }) }
        ensures counted { IfSome result (λ halves. self.new.tally ≡ record self.old.tally { made = raised self.old.tally.made }) }
        ensures none { IfNone result (self.new ≡ self.old) }
        ensures empty { IfNone result (WereFree 0 self.old.pass) }
    {
        match self.cells.core(rt, &mut self.pass, no, &mut self.tally) {
            Ok(halves) => Some(halves),
            Err(_) => None,
        }
    }

    /// Sets the callback of a task's core, which has the number of the callback's task, and leaves. Where the part was there, the fire is
    /// posted to the base of the callback.
    pub fn give<R: Wait>(
        &mut self,
        rt: &R,
        consumer: TaskConsumer<'t, N>,
        callback: PartCallback<N>,
    )
        requires core { consumer.no ≡ (job_of callback.number callback.shard).0 }
        ensures follows { Follows self.old self.new }
        ensures tally { self.new.refused ≡ false → CountsLeave self.old.tally self.new.tally }
        ensures left { self.new.refused ≡ false → LeavesCell consumer.entry.home consumer.entry.use_number self.old.pass self.old.tally self.new.pass self.new.tally }
        ensures posted { self.new.refused ≡ false →
            PostsOneAtMost (IsFireTo consumer.entry.no callback) self.old.posters self.new.posters }
    {
        let (met, left) = consumer.set_callback_inline(callback);
        leave_by_consumer(rt, self.cells, &mut self.pass, left, &mut self.tally);
        self.land(rt, landed_by(met));
    }

    /// Spends a task that found no memory where it was added: its core gets want of memory. Memory was refused, which is noted.
    pub fn spend<R: Wait>(&mut self, rt: &R, task: ShardTask<'t, 'i, N>)
        ensures follows { Follows self.old self.new }
        ensures refused { self.new.refused ≡ true }
    {
        let ShardTask {
            producer,
            ask: _,
            shard: _,
            exec: _,
        } = task;
        self.fulfil(rt, producer, Try::Memory);
        self.refused = true;
    }
}
