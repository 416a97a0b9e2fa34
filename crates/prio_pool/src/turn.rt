// One turn of a worker or helper.
ghost use Rattle.std.specs.Prelude.{◌≡◌, ◌≤◌, ◌+◌, length};
ghost use Rattle.prio_pool.specs.Takers.{HasTaken, RanTaken};
ghost use Rattle.prio_pool.specs.Turned.{TurnDid};

use crate::run::run_at_gate;
use crate::sleepers::{Rest, Sleepers};
use crate::takers::Takers;
use fan_base::Gate;
use job_trait::Job;
use pool_model::Ending;
use pool_runs::{Placed, Records};
use std::sync::Wait;
use task_queue::{EndMark, TaskQueue};

/// What a turn did.
pub enum Turned {
    /// One task ran.
    Ran,
    /// Each queue was found empty, and this end had begun.
    Idle(Option<Ending>),
    /// The pool was stopped.
    Stopped,
}

/// Looks at the mark, takes the first task of the highest queue that it doesn't find empty, and runs it.
pub fn turn<J: Job<W>, W, G: Gate, R: Wait>(
    rt: &R,
    pool: (&Vec<TaskQueue<Placed<J>>>, &EndMark, &Sleepers),
    takers: &mut Takers<J>,
    records: &mut Records,
    ends_at_stop: bool,
    rest: &mut Rest,
    world: &mut W,
    gate: &G,
) -> Turned
    requires queues { takers.old.pool.queues ≡ pool.0.now.items }
    requires mark { takers.old.pool.mark ≡ pool.1.now.mark }
    requires few { length pool.0.now.items ≤ 256 }
    requires records { RanTaken takers.old records.old }
    ensures same { (takers.new.pool ≡ takers.old.pool) × (takers.new.number ≡ takers.old.number) }
    ensures looked { takers.new.looked_so_often ≡ takers.old.looked_so_often + 1 }
    ensures taken { HasTaken takers.new }
    ensures records { RanTaken takers.new records.new }
    ensures turned { TurnDid J.runs ends_at_stop result takers.old records.old world.old takers.new records.new world.new }
{
    let (queues, mark, sleepers) = pool;
    let found = takers.look(mark);
    if ends_at_stop && found == Some(Ending::Stops) {
        takers.told();
        return Turned::Stopped;
    }
    let next = takers.next(rt, queues);
    takers.told();
    match next {
        Some((queue, task)) => {
            let awake = rest.end(sleepers);
            let made = run_at_gate(rt, queue, task, world, gate, awake);
            records.push(made);
            Turned::Ran
        }
        None => Turned::Idle(found),
    }
}
