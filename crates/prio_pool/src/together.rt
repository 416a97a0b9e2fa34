// The passes and ends of a pool, put together.
ghost use Rattle.std.specs.Prelude.{◌≡◌, ◌≢◌, ◌≤◌, [], ◌∷◌, ◌++◌, length, None, All, IfSome, IfNone};
ghost use Rattle.pool_model.specs.Endings.{RanWhatItTook, records_of};
ghost use Rattle.pool_model.specs.Passes.{HasNoGap, adds_total};
ghost use Rattle.prio_pool.specs.Gathering.{OneEndMore, AreTogether, AddersMore, EndsMore, IsOf, FoundAs, ends_left};

use crate::adders::Adders;
use crate::make::Queues;
use crate::passes::{HelperEnd, WorkerEnd};
use job_trait::Headed;
use pool_runs::{Placed, Records};
use std::alloc::Global;
use std::collections::LinkedList;
use task_queue::{EndMark, Gathered, Watch};

/// Puts the passes of the other adders to those of the first, and counts their adds.
pub fn put_passes<J: Headed>(
    queues: &Queues<J>,
    gathered: &mut Vec<Gathered<Placed<J>>>,
    mut others: LinkedList<Adders<J>>,
    passes: u32,
) -> u64
    requires together { AreTogether passes queues.now.items gathered.old.items }
    requires of { All (λ p. (p.pool.queues ≡ queues.now.items) × (p.pool.passes ≡ passes)) others }
    requires few { length others ≤ 64 }
    ensures gathered { AddersMore passes queues.now.items gathered.old.items others gathered.new.items }
    ensures total { result ≡ adds_total others }
    ensures few { result ≤ 274877906880 }
    ensures gaps { All HasNoGap others }
    ensures pushed { All (λ p. length p.pushed ≡ length queues.now.items) others }
{
    let mut total = 0;
    while let Some(adders) = others.pop_front() {
        adders.told();
        total += adders.count();
        adders.put_to(queues, gathered);
    }
    total
}

// Puts an end to the others, and gives its records.
fn put_end<J: Headed>(
    queues: &Queues<J>,
    mark: &EndMark,
    gathered: &mut Vec<Gathered<Placed<J>>>,
    begun: &mut Watch,
    end: WorkerEnd<J>,
    passes: u32,
) -> Records
    requires together { AreTogether passes queues.now.items gathered.old.items }
    requires of { IsOf passes queues.now.items mark.now.mark end }
    requires begun { (begun.old.mark ≡ mark.now.mark) × (begun.old.found ≢ None) }
    ensures gathered { OneEndMore passes queues.now.items gathered.old.items end gathered.new.items }
    ensures begun { begun.new ≡ begun.old }
    ensures records { result ≡ end.records }
    ensures ran { RanWhatItTook end }
    ensures popped { length end.popped ≡ length queues.now.items }
    ensures found { FoundAs begun.old.found end }
    ensures short { length result ≤ 70368744177664 }
{
    let WorkerEnd { takers, records } = end;
    takers.told();
    let watch = takers.put_to(queues, gathered);
    mark.agree(begun, watch);
    records
}

// The end that comes next: a worker's, or behind these a helper's. Both lists are turned round.
fn next_end<J>(ends: &mut Vec<WorkerEnd<J>>, helped: &mut Vec<HelperEnd<J>>) -> Option<WorkerEnd<J>>
    ensures some { IfSome result (λ e. ends_left ends.old.items helped.old.items ≡ e ∷ ends_left ends.new.items helped.new.items) }
    ensures none { IfNone result (ends_left ends.old.items helped.old.items ≡ []) }
{
    if let Some(end) = ends.pop() {
        return Some(end);
    }
    let HelperEnd { takers, records } = helped.pop()?;
    Some(WorkerEnd { takers, records })
}

/// Puts the ends of all workers and then those of all helpers to the others. It gives their records, in the order of the ends.
pub fn put_ends<J: Headed>(
    alloc: Global,
    queues: &Queues<J>,
    mark: &EndMark,
    passes: u32,
    gathered: &mut Vec<Gathered<Placed<J>>>,
    mut begun: Watch,
    mut ends: Vec<WorkerEnd<J>>,
    mut helped: Vec<HelperEnd<J>>,
) -> Records
    requires together { AreTogether passes queues.now.items gathered.old.items }
    requires of { All (IsOf passes queues.now.items mark.now.mark) (ends.items ++ helped.items) }
    requires begun { (begun.mark ≡ mark.now.mark) × (begun.found ≢ None) }
    requires few { length (ends.items ++ helped.items) ≤ 128 }
    ensures gathered { EndsMore passes queues.now.items gathered.old.items (ends.items ++ helped.items) gathered.new.items }
    ensures records { result ≡ records_of (ends.items ++ helped.items) }
    ensures ran { All RanWhatItTook (ends.items ++ helped.items) }
    ensures popped { All (λ e. length e.popped ≡ length queues.now.items) (ends.items ++ helped.items) }
    ensures found { All (FoundAs begun.found) (ends.items ++ helped.items) }
{
    let mut records = Records::new(alloc);
    ends.reverse();
    helped.reverse();
    while let Some(end) = next_end(&mut ends, &mut helped) {
        let more = put_end(queues, mark, gathered, &mut begun, end, passes);
        records.append(more);
    }
    records
}
