// The passes of one adder, and of one worker or helper, as a pool is made.
ghost use Rattle.std.specs.Prelude.{◌≡◌, ◌<◌, ◌≤◌, [], ◌∷◌, None, length, IfOk, OnOk};
ghost use Rattle.prio_pool.specs.Made.{id_over, makers_of, new_pass, new_takers_seen, one_adder, one_taker};

use crate::adders::{Adders, Room};
use crate::make::{Counts, Makers, Queues, next_adders, next_takers};
use crate::takers::Takers;
use fan_base::Memory;
use job_trait::Headed;
use std::alloc::{AllocError, Global};
use std::collections::LinkedList;
use std::snapshot::Snapshot;
use task_queue::{EndMark, Looks, Watch};

/// The passes of the next adder, in a list of its own.
pub fn new_place<J: Headed>(
    alloc: Global,
    queues: &Queues<J>,
    makers: &mut Makers<J>,
    counts: Counts,
    mark: &EndMark,
) -> Result<LinkedList<Adders<J>>, Memory>
    requires makers { makers.old.items ≡ makers_of counts queues.now.items }
    requires some { 0 < counts.left }
    requires few { counts.adders < 64 }
    ensures makers { OnOk result (makers.new.items ≡ makers_of (one_adder counts) queues.now.items) }
    ensures adders { IfOk result (λ list. list ≡ new_pass (id_over queues.now.items counts.passes mark.now.mark) counts.adders ∷ []) }
{
    let adders = next_adders(alloc, queues, makers, counts)?;
    let gathered = Vec::with_capacity(alloc, queues.len())?;
    let rests = Vec::with_capacity(alloc, queues.len())?;
    let one = Adders {
        adders,
        number: counts.adders,
        passes: counts.passes,
        count: 0,
        mark: Snapshot::of(mark),
        room: Room { gathered, rests },
    };
    let list = list_of(alloc, one)?;
    Ok(list)
}

// A list of one.
fn list_of<J>(alloc: Global, one: Adders<J>) -> Result<LinkedList<Adders<J>>, Memory>
    ensures { IfOk result (λ list. list ≡ one ∷ []) }
{
    let mut list = LinkedList::new(alloc);
    list.push_back(one).map_err(AllocError::from)?;
    Ok(list)
}

/// The passes of the next worker or helper.
pub fn new_takers<J: Headed>(
    alloc: Global,
    queues: &Queues<J>,
    makers: &mut Makers<J>,
    counts: Counts,
    watch: Watch,
) -> Result<Takers<J>, Memory>
    requires makers { makers.old.items ≡ makers_of counts queues.now.items }
    requires some { 0 < counts.left }
    requires queues { length queues.now.items ≤ 256 }
    requires watch { (watch.looks ≡ 0) × (watch.found ≡ None) }
    ensures makers { OnOk result (makers.new.items ≡ makers_of (one_taker counts) queues.now.items) }
    ensures takers { IfOk result (λ t. t ≡ new_takers_seen (id_over queues.now.items counts.passes watch.mark) counts.takers) }
{
    let takers = next_takers(alloc, queues, makers, counts)?;
    Ok(Takers {
        takers,
        looks: Looks::new(),
        watch,
        number: counts.takers,
        passes: counts.passes,
    })
}
