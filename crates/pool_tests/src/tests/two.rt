// A pool with two adders and two helpers.
ghost use Rattle.std.specs.Prelude.{◌≡◌, ◌∷◌, ◌+◌, ◌<◌, ◌≤◌, [], length};
ghost use Rattle.pool_tests.specs.Ending.{HasBegunToEnd, IsPassOf};

use super::{
    Begun, Note, Numbered, begin_with, check_list, end_pool, ids, last_of, let_go, list_with_room,
    new_pool, new_slots, next_back, same, work_at,
};
use fan_base::{OpenGate, Refused};
use job_trait::Job;
use keep_alive::{KeepAlive, KeepOwner};
use pool_model::{Ticket, passes_in_order_are_all};
use prio_pool::{
    Helped, HelperPass, Pool, PoolParts, PoolPass, Returned, Runs, new_passes_are_unused,
};
use std::alloc::Global;
use std::process::Abort;
use std::sync::Wait;

// The two items of a list.
fn both_of<X, R: Abort>(rt: &R, mut list: Vec<X>) -> (X, X)
    requires { length list.items ≡ 2 }
    ensures { list.items ≡ result.0 ∷ result.1 ∷ [] }
{
    let second = last_of(rt, &mut list);
    let first = last_of(rt, &mut list);
    list.destroy_empty();
    (first, second)
}

// A list of two.
fn list_of_both<X, R: Abort>(rt: &R, alloc: Global, first: X, second: X) -> Vec<X>
    ensures { result.items ≡ first ∷ second ∷ [] }
{
    let mut list = list_with_room(rt, alloc, 2);
    list.push_reserved(first);
    list.push_reserved(second);
    list
}

// Adds a task with a pass. It gets the ticket of this adder and this index.
fn add_with<J: Numbered, R: Abort + Wait>(
    rt: &R,
    pool: &Pool<J>,
    keep: &KeepAlive,
    pass: &mut PoolPass<J>,
    expected: (u32, u64),
    task: (i8, u64),
)
    requires exec { pool.now.exec.0 ≡ 7 }
    requires keep { keep.now.count ≡ pool.now.count }
    requires pass { IsPassOf pool.now expected.0 expected.1 pass.old }
    requires room { expected.1 < 4294967295 }
    ensures { IsPassOf pool.now expected.0 (expected.1 + 1) pass.new }
{
    let (priority, id) = task;
    match pool.add(rt, keep, pass, priority, J::of(id)) {
        Ok(ticket) => same(rt, (ticket.adder, ticket.index), expected),
        Err(Refused::Memory(job)) => {
            let _ = job.taken_apart();
            rt.panic("memory")
        }
    }
}

// Adds tasks with two passes, by turns, each with its priority and id: of each row the first pass's, then the second's.
fn add_rows_with_two<J: Numbered, R: Abort + Wait>(
    rt: &R,
    pool: &Pool<J>,
    keep: &KeepAlive,
    first: &mut PoolPass<J>,
    second: &mut PoolPass<J>,
    rows: &[((i8, u64), (i8, u64))],
)
    requires exec { pool.now.exec.0 ≡ 7 }
    requires keep { keep.now.count ≡ pool.now.count }
    requires first { IsPassOf pool.now 0 0 first.old }
    requires second { IsPassOf pool.now 1 0 second.old }
    requires few { length rows.now ≤ 1000 }
    ensures first { IsPassOf pool.now 0 (length rows.now) first.new }
    ensures second { IsPassOf pool.now 1 (length rows.now) second.new }
{
    for index in 0..rows.len() {
        let (one, other) = rows[index];
        add_with(rt, pool, keep, first, (0, index as u64), one);
        add_with(rt, pool, keep, second, (1, index as u64), other);
    }
}

// Helps once: a task runs.
fn help_with<J: Job<Vec<u64>>, R: Abort + Wait>(
    rt: &R,
    pool: &Pool<J>,
    helper: &mut HelperPass<J>,
    world: &mut Vec<u64>,
)
    requires { helper.old.pool ≡ pool.now.id }
    ensures { helper.new.pool ≡ pool.now.id }
{
    let ran = match pool.help(rt, helper, world, &OpenGate) {
        Helped::Ran => true,
        Helped::Empty => false,
    };
    same(rt, ran, true);
}

// Lets the keep-alive go, ends both helpers, and begins to stop or to join with both passes.
fn begin_with_two<J: Numbered, R: Abort + Wait>(
    rt: &R,
    alloc: Global,
    pool: &Pool<J>,
    keeping: (KeepOwner, KeepAlive),
    passes: (PoolPass<J>, PoolPass<J>),
    helpers: (HelperPass<J>, HelperPass<J>),
    stops: bool,
) -> Begun<J>
    requires owner { keeping.0.count ≡ pool.now.count }
    requires adders { pool.now.adders ≡ 2 }
    requires first { IsPassOf pool.now 0 3 passes.0 }
    requires second { IsPassOf pool.now 1 3 passes.1 }
    requires helpers { (pool.now.helpers ≡ 2) × (helpers.0.pool ≡ pool.now.id) × (helpers.1.pool ≡ pool.now.id) }
    ensures { HasBegunToEnd pool.now result.ending result.helped.items }
{
    passes_in_order_are_all();
    let (owner, keep) = keeping;
    let (first, second) = passes;
    let (one, other) = helpers;
    let_go(keep);
    let helped = list_of_both(rt, alloc, other.end(), one.end());
    let passes = list_of_both(rt, alloc, first, second);
    begin_with(rt, pool, owner, passes, helped, stops)
}

// Each of two adders adds three tasks, by turns, and most to one queue; each of two helpers runs one, and the pool is stopped or joined, and
// worked at.
fn run_with_two<J: Numbered, R: Abort + Wait>(
    rt: &R,
    alloc: Global,
    stops: bool,
    world: &mut Vec<u64>,
) -> (Runs, Returned<J>) {
    let PoolParts {
        pool,
        owner,
        keep,
        adders,
        workers,
        helpers,
    } = new_pool(rt, alloc, 2, 1, 2);
    new_passes_are_unused();
    let (mut first, mut second) = both_of(rt, adders);
    let (mut one, mut other) = both_of(rt, helpers);
    let rows = [
        ((0, 10), (127, 20)),
        ((-128, 11), (0, 21)),
        ((0, 12), (0, 22)),
    ];
    add_rows_with_two(rt, &pool, &keep, &mut first, &mut second, &rows);
    help_with(rt, &pool, &mut one, world);
    help_with(rt, &pool, &mut other, world);
    let begun = begin_with_two(
        rt,
        alloc,
        &pool,
        (owner, keep),
        (first, second),
        (one, other),
        stops,
    );
    let ends = work_at(rt, alloc, &pool, new_slots(rt, alloc, workers), world);
    end_pool(rt, pool, begun, ends, world, 6)
}

#[test]
fn two_adders_tasks_are_all_told_of(rt: HostRuntime) {
    let rt = &rt;
    let mut world = list_with_room(rt, rt.alloc(), 6);
    let (ran, _) = run_with_two::<Note, HostRuntime>(rt, rt.alloc(), false, &mut world);
    check_list(rt, ids(rt, rt.alloc(), ran), &[21, 12, 22, 11, 10, 20]);
    check_list(rt, world, &[20, 10, 21, 12, 22, 11]);
}

#[test]
fn two_adders_tasks_are_handed_back(rt: HostRuntime) {
    let rt = &rt;
    let mut world = list_with_room(rt, rt.alloc(), 6);
    let (ran, mut returned) = run_with_two::<Note, HostRuntime>(rt, rt.alloc(), true, &mut world);
    check_list(rt, ids(rt, rt.alloc(), ran), &[10, 20]);
    for (adder, index, id) in [(1, 1, 21), (0, 2, 12), (1, 2, 22), (0, 1, 11)] {
        let ticket = Ticket { adder, index };
        same(rt, next_back(&mut returned), Some((ticket, id)));
    }
    same(rt, next_back(&mut returned), None);
    check_list(rt, world, &[20, 10]);
}
