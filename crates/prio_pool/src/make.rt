// The passes of each queue, as a pool is made.
ghost use Rattle.std.specs.Prelude.{◌≡◌, ◌<◌, ◌≤◌, length, map, slice_get, slice_set, Some, IfOk, OnOk};
ghost use Rattle.prio_pool.specs.Made.{maker, makers_of, new_adder, new_adders, new_taker, new_takers, one_adder, one_taker};

use fan_base::Memory;
use job_trait::Headed;
use pool_runs::Placed;
use std::alloc::Global;
use task_queue::{Adder, Maker, Taker, TaskQueue};

pub type Queues<J> = Vec<TaskQueue<Placed<J>>>;

pub type Makers<J> = Vec<Maker<Placed<J>>>;

/// How many passes each queue has in all, how many of them are yet to be made, and how many adders and takers were made.
#[derive(Clone, Copy)]
pub struct Counts {
    pub passes: u32,
    pub left: u32,
    pub adders: u32,
    pub takers: u32,
}

/// So many queues, and the makers of their passes.
pub fn open_queues<J: Headed>(
    alloc: Global,
    count: u32,
    passes: u32,
) -> Result<(Queues<J>, Makers<J>), Memory>
    ensures count { IfOk result (λ r. length r.0.items ≡ count) }
    ensures makers { IfOk result (λ r. r.1.items ≡ makers_of (record { passes = passes; left = passes; adders = 0; takers = 0 }) r.0.items) }
{
    let mut queues = Vec::with_capacity(alloc, count as usize)?;
    let mut makers = Vec::with_capacity(alloc, count as usize)?;
    for _ in 0..count {
        let (queue, maker) = TaskQueue::new(alloc, passes)?;
        queues.push_reserved(queue);
        makers.push_reserved(maker);
    }
    Ok((queues, makers))
}

// The next adder's pass of one queue.
fn next_adder_at<J: Headed>(
    queue: &TaskQueue<Placed<J>>,
    makers: &mut Makers<J>,
    number: usize,
    counts: Counts,
) -> Adder<Placed<J>>
    requires maker { slice_get makers.old.items number ≡ Some (maker counts queue.now) }
    requires some { 0 < counts.left }
    requires few { counts.adders < 64 }
    ensures makers { makers.new.items ≡ slice_set makers.old.items number (maker (one_adder counts) queue.now) }
    ensures adder { result ≡ new_adder counts queue.now }
{
    queue.next_adder(&mut makers[number])
}

// The next taker's pass of one queue.
fn next_taker_at<J: Headed>(
    queue: &TaskQueue<Placed<J>>,
    makers: &mut Makers<J>,
    number: usize,
    counts: Counts,
) -> Taker<Placed<J>>
    requires maker { slice_get makers.old.items number ≡ Some (maker counts queue.now) }
    requires some { 0 < counts.left }
    ensures makers { makers.new.items ≡ slice_set makers.old.items number (maker (one_taker counts) queue.now) }
    ensures taker { result ≡ new_taker counts queue.now }
{
    queue.next_taker(&mut makers[number])
}

/// The next adder's pass of each queue.
pub fn next_adders<J: Headed>(
    alloc: Global,
    queues: &Queues<J>,
    makers: &mut Makers<J>,
    counts: Counts,
) -> Result<Vec<Adder<Placed<J>>>, Memory>
    requires makers { makers.old.items ≡ makers_of counts queues.now.items }
    requires some { 0 < counts.left }
    requires few { counts.adders < 64 }
    ensures makers { OnOk result (makers.new.items ≡ makers_of (one_adder counts) queues.now.items) }
    ensures adders { IfOk result (λ list. list.items ≡ new_adders counts queues.now.items) }
{
    let mut list = Vec::with_capacity(alloc, queues.len())?;
    for number in 0..queues.len() {
        list.push_reserved(next_adder_at(&queues[number], makers, number, counts));
    }
    Ok(list)
}

/// The next taker's pass of each queue.
pub fn next_takers<J: Headed>(
    alloc: Global,
    queues: &Queues<J>,
    makers: &mut Makers<J>,
    counts: Counts,
) -> Result<Vec<Taker<Placed<J>>>, Memory>
    requires makers { makers.old.items ≡ makers_of counts queues.now.items }
    requires some { 0 < counts.left }
    ensures makers { OnOk result (makers.new.items ≡ makers_of (one_taker counts) queues.now.items) }
    ensures takers { IfOk result (λ list. list.items ≡ new_takers counts queues.now.items) }
{
    let mut list = Vec::with_capacity(alloc, queues.len())?;
    for number in 0..queues.len() {
        list.push_reserved(next_taker_at(&queues[number], makers, number, counts));
    }
    Ok(list)
}
