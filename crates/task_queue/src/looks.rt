// The looks of one worker or helper, and the one function that pops.
ghost use Rattle.std.specs.Prelude.{◌≡◌, [], ◌∷◌, ◌++◌};
ghost use Rattle.crossbeam_queue.specs.SegTies.{IsSegPassOf};
ghost use Rattle.task_queue.specs.Looks.{mark_seen, pop_seen};
ghost use Rattle.task_queue.specs.Steps.{Popped, MayPop};

use crate::mark::Watch;
use crate::rule::{Line, Pass, QueueRule, Queued};
use crate::steps::Pop;
use crate::view::View;
use job_trait::Headed;
use queue_looks::{Noted, Trail};
use queue_packets::Packet;
use std::marker::Model;
use std::snapshot::Snapshot;
use std::sync::Wait;

/// What is noted of a look at a queue or at the mark.
type NotedLook<J> = Noted<Pass<J>, Watch>;

/// All looks of one worker or helper, at queues and at the mark, oldest first. Contracts see each: at which queue or mark it was,
/// and what it found. It has no bytes, may be dropped, and only a pop and a look at the mark make it longer.
#[derive(Drop)]
pub struct Looks<J> {
    trail: Trail<NotedLook<J>>,
}

impl<J> Model for Looks<J> {
    ghost use Rattle.std.specs.Prelude.{List, map};
    ghost use Rattle.pool_model.specs.Steps.{LookSeen};
    ghost use Rattle.task_queue.specs.Looks.{look_of};

    ghost Value = { List LookSeen };

    ghost view = { λ looks. map look_of looks.trail.items };
}

impl<J> Looks<J> {
    /// None yet.
    pub fn new() -> Looks<J>
        ensures { result ≡ [] }
    {
        Looks {
            trail: Trail::new(),
        }
    }

    // A look at the mark more. What a pop found is noted by the pop alone.
    pub(crate) fn note(&mut self, watch: Snapshot<Watch>)
        ensures { self.new ≡ self.old ++ mark_seen watch.value.mark watch.value.found ∷ [] }
    {
        let noted: NotedLook<J> = Noted::Looked(watch);
        self.trail = self.trail.and(&noted);
    }
}

/// Pops the task in front. `None` comes only where the queue was empty at a step of this call. Either is noted, with the place
/// that the caller calls the queue by.
pub(crate) fn pop<J: Headed, R: Wait>(
    line: &Line<J>,
    rt: &R,
    pass: &mut Pass<J>,
    place: u32,
    looks: &mut Looks<J>,
) -> Option<Packet<Queued<J>>>
    requires pass { IsSegPassOf line.now pass.old }
    requires may { MayPop pass.old.me.view.client }
    ensures pass { IsSegPassOf line.now pass.new }
    ensures popped { Popped J.head pass.old.me.view.client pass.new.me.view.client result }
    ensures noted { looks.new ≡ looks.old ++ pop_seen J.head line.now place result ∷ [] }
{
    queue_looks::pop::<Packet<Queued<J>>, View, QueueRule<J>, Pop, Watch, R>(
        line,
        rt,
        pass,
        place,
        &mut looks.trail,
    )
}
