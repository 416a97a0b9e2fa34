// A run of a task, with the record that it makes.
ghost use Rattle.pool_runs.specs.Running.{RanOnce, task_in};

use crate::placed::Placed;
use crate::record::RunRecord;
use crate::records::Made;
use job_once::run_once;
use job_trait::Job;
use std::sync::Wait;
use task_queue::Queued;

/// Runs the task, which stood in this queue, and makes its record. It takes no memory of its own.
pub fn run_task<J: Job<W>, W, R: Wait>(
    rt: &R,
    queue: u32,
    task: Queued<Placed<J>>,
    world: &mut W,
) -> Made
    ensures { RanOnce J.runs (task_in J.head queue task) world.old world.new result }
{
    let Queued {
        ticket,
        job: placed,
    } = task;
    let Placed { job, place } = placed;
    let (id, exec, mark) = run_once(rt, job, world);
    Made::new(RunRecord::new(ticket, queue, exec, id, mark), place)
}
