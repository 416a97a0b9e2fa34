// The end of all queues of a pool.
ghost use Rattle.std.specs.Prelude.{◌≡◌, ◌≤◌, [], length, map, vec_capacity, All};
ghost use Rattle.prio_pool.specs.Gathering.{AllSettled, IsWhole};

use crate::make::Queues;
use job_trait::Headed;
use pool_runs::{Placed, Rest};
use std::sync::Wait;
use task_queue::Gathered;

/// Ends each queue, all of whose passes were put together, and gives what is left of each, from the lowest.
pub fn settle_all<J: Headed, R: Wait>(
    rt: &R,
    mut queues: Queues<J>,
    mut gathered: Vec<Gathered<Placed<J>>>,
    mut rests: Vec<Rest<J>>,
) -> Vec<Rest<J>>
    requires queues { map (λ g. g.queue) gathered.items ≡ queues.items }
    requires whole { All IsWhole gathered.items }
    requires room { (rests.items ≡ []) × (length queues.items ≤ vec_capacity rests) }
    ensures { AllSettled J.head gathered.items result.items }
{
    while let Some(queue) = queues.pop() {
        let Some(passes) = gathered.pop() else {
            unreachable!()
        };
        rests.push_reserved(queue.settle(rt, passes));
    }
    rests.reverse();
    rests
}
