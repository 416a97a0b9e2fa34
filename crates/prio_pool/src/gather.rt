// All passes of a pool, put together queue by queue.
ghost use Rattle.std.specs.Prelude.{◌≡◌, ◌≤◌, [], length, map, vec_capacity};
ghost use Rattle.prio_pool.specs.Gathering.{and_adders, and_takers, only_adder, HasGathered, ChangedAt};
ghost use Rattle.task_queue.specs.Seen.{and_adder, and_taker};

use crate::make::Queues;
use job_trait::Headed;
use pool_runs::Placed;
use task_queue::{Adder, Gathered, Taker, TaskQueue};

/// Begins with the passes of one adder.
pub fn gather_adders<J: Headed>(
    queues: &Queues<J>,
    mut adders: Vec<Adder<Placed<J>>>,
    mut gathered: Vec<Gathered<Placed<J>>>,
) -> Vec<Gathered<Placed<J>>>
    requires queues { map (λ a. a.queue) adders.items ≡ queues.now.items }
    requires room { (gathered.items ≡ []) × (length adders.items ≤ vec_capacity gathered) }
    ensures { result.items ≡ map only_adder adders.items }
{
    adders.reverse();
    while let Some(adder) = adders.pop() {
        let number = gathered.len();
        gathered.push_reserved(queues[number].gather(adder));
    }
    gathered
}

/// Puts the passes of one more adder to the others.
pub fn put_adders<J: Headed>(
    queues: &Queues<J>,
    gathered: &mut Vec<Gathered<Placed<J>>>,
    mut adders: Vec<Adder<Placed<J>>>,
)
    requires queues { map (λ a. a.queue) adders.items ≡ queues.now.items }
    requires gathered { map (λ g. g.queue) gathered.old.items ≡ queues.now.items }
    ensures { gathered.new.items ≡ and_adders gathered.old.items adders.items }
{
    while let Some(adder) = adders.pop() {
        let number = adders.len();
        put_adder_at(&queues[number], gathered, number, adder);
    }
}

/// Puts the passes of one more worker or helper to the others.
pub fn put_takers<J: Headed>(
    queues: &Queues<J>,
    gathered: &mut Vec<Gathered<Placed<J>>>,
    mut takers: Vec<Taker<Placed<J>>>,
)
    requires queues { map (λ t. t.queue) takers.items ≡ queues.now.items }
    requires gathered { map (λ g. g.queue) gathered.old.items ≡ queues.now.items }
    ensures { gathered.new.items ≡ and_takers gathered.old.items takers.items }
{
    while let Some(taker) = takers.pop() {
        let number = takers.len();
        put_taker_at(&queues[number], gathered, number, taker);
    }
}

// Puts an adder to the others of its queue, which has this number.
fn put_adder_at<J: Headed>(
    queue: &TaskQueue<Placed<J>>,
    gathered: &mut Vec<Gathered<Placed<J>>>,
    number: usize,
    adder: Adder<Placed<J>>,
)
    requires at { HasGathered gathered.old.items number queue.now }
    requires queue { adder.queue ≡ queue.now }
    ensures { ChangedAt (λ g. and_adder g adder) gathered.old.items number gathered.new.items }
{
    queue.put_adder(&mut gathered[number], adder);
}

// Puts a taker to the others of its queue, which has this number.
fn put_taker_at<J: Headed>(
    queue: &TaskQueue<Placed<J>>,
    gathered: &mut Vec<Gathered<Placed<J>>>,
    number: usize,
    taker: Taker<Placed<J>>,
)
    requires at { HasGathered gathered.old.items number queue.now }
    requires queue { taker.queue ≡ queue.now }
    ensures { ChangedAt (λ g. and_taker g taker) gathered.old.items number gathered.new.items }
{
    queue.put_taker(&mut gathered[number], taker);
}
