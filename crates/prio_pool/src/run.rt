// A run of a task between the two calls of a gate.
ghost use Rattle.pool_runs.specs.Running.{RanOnce, task_in};

use crate::sleepers::Awake;
use fan_base::{Gate, JobId};
use job_trait::Job;
use pool_runs::{Made, Placed, run_task};
use std::sync::Wait;
use task_queue::Queued;

// That a gate was called before a task. It can't be let go: only its `leave` takes it, which calls the gate after the same task.
struct Entered<'g, G: Gate> {
    gate: &'g G,
    job: JobId,
}

impl<'g, G: Gate> Entered<'g, G> {
    fn enter(gate: &'g G, job: JobId) -> Entered<'g, G> {
        gate.before(job);
        Entered { gate, job }
    }

    fn leave(self) {
        let Entered { gate, job } = self;
        gate.after(job);
    }
}

/// Runs the task, which stood in this queue, between the two calls of a gate, by a worker or helper that is awake.
pub fn run_at_gate<J: Job<W>, W, G: Gate, R: Wait>(
    rt: &R,
    queue: u32,
    task: Queued<Placed<J>>,
    world: &mut W,
    gate: &G,
    awake: Awake,
) -> Made
    ensures { RanOnce J.runs (task_in J.head queue task) world.old world.new result }
{
    let _ = awake;
    let id = task.job.job.id();
    let entered = Entered::enter(gate, id);
    let made = run_task(rt, queue, task, world);
    entered.leave();
    made
}
