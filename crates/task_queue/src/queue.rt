// The queue and its calls.
ghost use Rattle.std.specs.Prelude.{◌≡◌, ◌+◌, ◌-◌, ◌<◌, ◌≤◌, [], ◌∷◌, ◌++◌, length, map, All, IfOk, OnOk, IfErr};
ghost use Rattle.crossbeam_queue.specs.SegTies.{IsSegPassOf};
ghost use Rattle.task_queue.specs.Seen.{and_adder, and_taker};
ghost use Rattle.task_queue.specs.Views.{entry_of, share};
ghost use Rattle.task_queue.specs.Looks.{pop_seen};
ghost use Rattle.task_queue.specs.Settled.{Settled, Drained, IsAll, TakeTold};
ghost use Rattle.pool_model.specs.Tickets.{Ascend, tickets_of};

use crate::looks::{Looks, pop};
use crate::passes::{Adder, Gathered, Maker, Taker};
use crate::rule::{Line, Pass, Queued};
use crate::spares::{AdderBlocks, Spares};
use crate::steps::{Count, Gather, MakeAdder, MakeTaker, Push, PutAdder, PutTaker};
use fan_base::{Memory, Refused};
use job_trait::Headed;
use queue_packets::{Packet, Packets};
use std::alloc::Global;
use std::marker::Model;
use std::sync::Wait;

/// One queue of a pool. Contracts see which queue it is.
pub struct TaskQueue<J: Headed> {
    line: Line<J>,
    spares: Spares<Queued<J>>,
}

impl<J: Headed> Model for TaskQueue<J> {
    ghost use Rattle.std.specs.declared.alloc.Global.{Global};
    ghost use Rattle.crossbeam_queue.specs.SegTies.{SegId};

    ghost Value = { SegId Global };

    ghost view = { λ q. q.line };
}

impl<J: Headed> Drop for TaskQueue<J> {
    fn drop(self) {
        let TaskQueue { line, spares: _ } = self;
        line.destroy();
    }
}

impl<J: Headed> TaskQueue<J> {
    /// An empty queue for so many passes, and the right to make them.
    pub fn new(alloc: Global, passes: u32) -> Result<(TaskQueue<J>, Maker<J>), Memory>
        ensures { IfOk result (λ r. r.1 ≡ record { queue = r.0; passes = passes; left = passes; adders = 0; takers = 0 }) }
    {
        let spares = Spares::new(alloc)?;
        let (line, mut pass) = Line::with_rule(alloc)?;
        for _ in 0..passes {
            let _ = line.another::<Count>(&mut pass);
        }
        Ok((TaskQueue { line, spares }, Maker { pass }))
    }

    /// The pass of the next adder, which has pushed nothing.
    pub fn next_adder(&self, maker: &mut Maker<J>) -> Adder<J>
        requires queue { maker.old.queue ≡ self.now }
        requires left { 0 < maker.old.left }
        requires few { maker.old.adders < 64 }
        ensures maker { maker.new ≡ record maker.old { left = maker.old.left - 1; adders = maker.old.adders + 1 } }
        ensures adder { result ≡ record { queue = self.now; passes = maker.old.passes; number = maker.old.adders; pushed = [] } }
    {
        Adder {
            pass: self.line.another::<MakeAdder>(&mut maker.pass),
            spares: AdderBlocks::new(),
        }
    }

    /// The pass of the next taker, which has popped nothing.
    pub fn next_taker(&self, maker: &mut Maker<J>) -> Taker<J>
        requires queue { maker.old.queue ≡ self.now }
        requires left { 0 < maker.old.left }
        ensures maker { maker.new ≡ record maker.old { left = maker.old.left - 1; takers = maker.old.takers + 1 } }
        ensures taker { result ≡ record { queue = self.now; passes = maker.old.passes; number = maker.old.takers; popped = [] } }
    {
        Taker {
            pass: self.line.another::<MakeTaker>(&mut maker.pass),
            spares: None,
        }
    }

    /// Pushes a task behind the others, under a ticket of the adder's number whose index is above those of all that it pushed
    /// here. It gives the task back where there is no memory.
    pub fn push<R: Wait>(
        &self,
        rt: &R,
        adder: &mut Adder<J>,
        task: Queued<J>,
    ) -> Result<(), Refused<Queued<J>>>
        requires queue { adder.old.queue ≡ self.now }
        requires number { task.ticket.adder ≡ adder.old.number }
        requires ascends { All (λ e. e.ticket.index < task.ticket.index) adder.old.pushed }
        requires room { length adder.old.pushed < 4294967296 }
        ensures ok { OnOk result (adder.new ≡ record adder.old { pushed = adder.old.pushed ++ entry_of J.head task ∷ [] }) }
        ensures refused { IfErr result (λ back. (back ≡ Refused.Memory task) × (adder.new ≡ adder.old)) }
    {
        let Some(block) = self.spares.next(rt, &mut adder.spares) else {
            return Err(Refused::Memory(task));
        };
        let packet = Packet::new(task, block);
        match self.line.push_as::<Push, R>(rt, &mut adder.pass, packet) {
            Ok(()) => Ok(()),
            Err(packet) => Err(Refused::Memory(packet.open().0)),
        }
    }

    /// Takes the task in front. `None` comes only where the queue was empty at a step of this call. Either is noted, with the
    /// place that the caller calls this queue by.
    pub fn take<R: Wait>(
        &self,
        rt: &R,
        taker: &mut Taker<J>,
        place: u32,
        looks: &mut Looks<J>,
    ) -> Option<Queued<J>>
        requires queue { taker.old.queue ≡ self.now }
        ensures told { TakeTold J.head taker.old taker.new result }
        ensures noted { looks.new ≡ looks.old ++ pop_seen J.head self.now place result ∷ [] }
        ensures ascend { Ascend (tickets_of taker.new.popped) }
        ensures short { length taker.new.popped ≤ 274877906944 }
    {
        let packet = pop(&self.line, rt, &mut taker.pass, place, looks)?;
        let (task, block) = packet.open();
        self.spares.keep(rt, &mut taker.spares, block);
        Some(task)
    }

    /// Begins to put the passes of the queue together, with an adder.
    pub fn gather(&self, adder: Adder<J>) -> Gathered<J>
        requires queue { adder.queue ≡ self.now }
        ensures { result ≡ record {
          queue = self.now;
          passes = adder.passes;
          here = 1;
          added = share adder.number adder.pushed ∷ [];
          taken = [];
        } }
    {
        let Adder {
            mut pass,
            spares: _,
        } = adder;
        let _ = self.line.another::<Gather>(&mut pass);
        Gathered { pass }
    }

    /// Puts an adder to the others.
    pub fn put_adder(&self, gathered: &mut Gathered<J>, adder: Adder<J>)
        requires queue { (gathered.old.queue ≡ self.now) × (adder.queue ≡ self.now) }
        ensures { gathered.new ≡ and_adder gathered.old adder }
    {
        let Adder { pass, spares: _ } = adder;
        self.line.absorb::<PutAdder>(&mut gathered.pass, pass);
    }

    /// Puts a taker to the others.
    pub fn put_taker(&self, gathered: &mut Gathered<J>, taker: Taker<J>)
        requires queue { (gathered.old.queue ≡ self.now) × (taker.queue ≡ self.now) }
        ensures { gathered.new ≡ and_taker gathered.old taker }
    {
        let Taker { pass, spares: _ } = taker;
        self.line.absorb::<PutTaker>(&mut gathered.pass, pass);
    }

    /// Ends the queue, all of whose passes were put together: takes out what is left, in order.
    pub fn settle<R: Wait>(self, rt: &R, gathered: Gathered<J>) -> Packets<Queued<J>>
        requires queue { gathered.queue ≡ self }
        requires all { gathered.here ≡ gathered.passes }
        ensures { Settled gathered (map (entry_of J.head) result) }
    {
        let Gathered { mut pass } = gathered;
        drain(&self.line, rt, &mut pass)
    }
}

// Pops all that is left, in order.
fn drain<J: Headed, R: Wait>(line: &Line<J>, rt: &R, pass: &mut Pass<J>) -> Packets<Queued<J>>
    requires pass { IsSegPassOf line.now pass.old }
    requires whole { IsAll pass.old.me.view.client }
    ensures { Drained pass.old.me.view.client (map (entry_of J.head) result) }
{
    let mut packets = Packets::new();
    let mut looks = Looks::new();
    for _ in rt.forever() {
        match pop(line, rt, pass, 0, &mut looks) {
            Some(packet) => packets.push_front(packet),
            None => return packets.reversed(),
        }
    }
    unreachable!()
}
