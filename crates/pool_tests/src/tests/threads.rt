// Four workers on threads of their own, between the calls of a gate that counts, beside one that adds, helps and ends the pool.
ghost use Rattle.std.specs.Prelude.{◌≡◌, ◌<◌, ◌≤◌, All, IfSome, None, length};
ghost use Rattle.pool_tests.specs.Ending.{IsAdding, HasBegunToEnd};

use super::kept::Kept;
use super::*;
use std::sync::atomic::{AtomicU64, Ordering};
use std::thread::{self, Threads, join_mut};

// Counts the tasks that began and those that ended, and the calls of each task. Once `most` have begun, it holds each further one
// until it is opened.
#[derive(Drop)]
struct CountGate {
    begun: AtomicU64,
    ended: AtomicU64,
    opened: AtomicU64,
    most: u64,
    // How many calls came of each task, by its id.
    calls: Vec<AtomicU64>,
    // How many calls came where another was due.
    faults: AtomicU64,
}

impl CountGate {
    fn new<R: Abort>(rt: &R, alloc: Global, most: u64, tasks: u32) -> CountGate {
        let mut calls = Vec::new(alloc);
        for _ in 0..tasks {
            calls.push(AtomicU64::new(0)).expect(rt, "memory");
        }
        CountGate {
            begun: AtomicU64::new(0),
            ended: AtomicU64::new(0),
            opened: AtomicU64::new(0),
            most,
            calls,
            faults: AtomicU64::new(0),
        }
    }

    // Notes a call of a task, of which so many are to have come.
    fn note(&self, job: JobId, came: u64) {
        let found = match self.calls.get(job.0 as usize) {
            Some(calls) => calls.fetch_add(1, Ordering::SeqCst),
            None => u64::MAX,
        };
        if found != came {
            self.faults.fetch_add(1, Ordering::SeqCst);
        }
    }

    // How many tasks had both calls, and how many calls came where another was due.
    fn passed(&self) -> (u64, u64) {
        let mut passed = 0u64;
        for calls in &self.calls {
            if calls.load(Ordering::SeqCst) == 2 {
                passed = passed.saturating_add(1);
            }
        }
        (passed, self.faults.load(Ordering::SeqCst))
    }
}

// Waits until the number is there.
fn await_count(number: &AtomicU64, count: u64) {
    for _ in 0..u64::MAX {
        if number.load(Ordering::SeqCst) >= count {
            return;
        }
        thread::yield_now();
    }
}

impl Gate for CountGate {
    fn before(&self, job: JobId) {
        self.note(job, 0);
        if self.begun.fetch_add(1, Ordering::SeqCst) >= self.most {
            await_count(&self.opened, 1);
        }
    }

    fn after(&self, job: JobId) {
        self.note(job, 1);
        self.ended.fetch_add(1, Ordering::SeqCst);
    }
}

// All of them work, each on a thread of its own.
fn all_work<R: Wait + Threads + Sync>(
    rt: &R,
    alloc: Global,
    pool: &Pool<Kept>,
    gate: &CountGate,
    slots: &mut Vec<Worker<Kept>>,
)
    requires passes { All (λ s. IfSome s.pass (λ p. p.pool ≡ pool.now.id)) slots.old.items }
    requires ends { All (λ s. s.end ≡ None) slots.old.items }
    ensures ends { All (λ s. IfSome s.end (λ e. e.pool ≡ pool.now.id)) slots.new.items }
    ensures count { length slots.new.items ≡ length slots.old.items }
{
    thread::for_each_mut(
        rt,
        slots,
        4,
        &|_, slot|
            requires pass { IfSome slot.now.pass (λ p. p.pool ≡ pool.now.id) }
            requires end { slot.now.end ≡ None }
            ensures { IfSome slot.exit.now.end (λ e. e.pool ≡ pool.entry.now.id) }
        { slot.work(rt, pool, &mut Vec::new(alloc), gate) },
    );
}

// What is done beside workers, where it helps behind each task if the pool has a helper.
#[derive(Clone, Copy)]
struct Plan {
    // So many tasks are added, each second one with this priority and the others with 0.
    tasks: u32,
    second: i8,
    // Behind each so many it waits until all of them have ended, so that the workers go to sleep and are woken in between; never, where
    // this is 0.
    group: u64,
    // Whether it begins to stop, and not to join.
    stops: bool,
    // How many tasks the gate lets begin, and then holds each further one until the end of the pool has begun. Where it is less than the
    // tasks, the end begins once each worker is held.
    most: u64,
    // Whether one worker and a helper run them, and not four workers.
    helped: bool,
}

// How many workers and helpers a plan has.
fn counts_of(plan: Plan) -> (u32, u32)
    ensures { (0 < result.0) × (result.0 ≤ 64) × (result.1 ≤ 1) }
{
    if plan.helped { (1, 1) } else { (4, 0) }
}

// Adds the tasks of a plan.
fn add_tasks<J: Numbered, R: Abort + Wait>(
    rt: &R,
    alloc: Global,
    pool: &Pool<J>,
    gate: &CountGate,
    plan: Plan,
    adding: &mut Adding<J>,
)
    requires { IsAdding pool.now adding.old.owner adding.old.keep adding.old.pass adding.old.helper 0 }
    ensures { IsAdding pool.now adding.new.owner adding.new.keep adding.new.pass adding.new.helper plan.tasks }
{
    let mut world = Vec::new(alloc);
    for id in 0..plan.tasks as u64 {
        let priority = if id % 2 == 1 { plan.second } else { 0 };
        add(rt, pool, adding, priority, id, id);
        help(rt, pool, &mut adding.helper, &mut world, gate, None);
        if plan.group > 0 && (id + 1) % plan.group == 0 {
            await_count(&gate.ended, id + 1);
        }
    }
}

// What adds, and what it has begun: a join or a stop.
type Adder<J> = Slot<Adding<J>, Begun<J>>;

// Adds tasks, waits until so many have begun where the gate holds any, begins to join or to stop, and then opens the gate.
fn add_beside<J: Numbered, R: Abort + Wait>(
    rt: &R,
    alloc: Global,
    pool: &Pool<J>,
    gate: &CountGate,
    plan: Plan,
    adder: &mut Adder<J>,
)
    requires adding { IfSome adder.old.pass (λ a. IsAdding pool.now a.owner a.keep a.pass a.helper 0) }
    requires end { adder.old.end ≡ None }
    ensures { IfSome adder.new.end (λ b. HasBegunToEnd pool.now b.ending b.helped.items) }
{
    let Some(mut adding) = adder.pass.take() else {
        return;
    };
    add_tasks(rt, alloc, pool, gate, plan, &mut adding);
    if gate.most < u64::MAX {
        await_count(&gate.begun, gate.most.saturating_add(4));
    }
    let begun = begin_to_end(rt, alloc, pool, adding, plan.stops);
    gate.opened.store(1, Ordering::SeqCst);
    adder.put_end(begun);
}

// Compares what the gate counted: both calls of each task that has a record. Where it held four workers, none was taken since.
fn check_counts<R: Abort>(rt: &R, counts: &CountGate, records: u64) {
    if counts.most == 400 {
        same(rt, records, 404);
    }
    same(rt, counts.passed(), (records, 0));
}

// Ends a pool whose workers have worked, and for which what a plan says has been done. None of its tasks is left where it is joined, and none is
// lost.
fn end_beside<J: Numbered, R: Abort + Wait>(
    rt: &R,
    alloc: Global,
    pool: Pool<J>,
    gate: &CountGate,
    plan: Plan,
    workers: Vec<Worker<J>>,
    adder: Adder<J>,
)
    requires ends { All (λ s. IfSome s.end (λ e. e.pool ≡ pool.id)) workers.items }
    requires count { length workers.items ≡ pool.workers }
    requires begun { IfSome adder.end (λ b. HasBegunToEnd pool b.ending b.helped.items) }
{
    let ends = all_ends(rt, alloc, workers);
    let tasks = plan.tasks as usize;
    let mut world = Vec::new(alloc);
    let left = end_pool(rt, pool, adder.end(rt), ends, &mut world, tasks);
    same(rt, world.len(), 0);
    check_counts(rt, gate, check_tasks(rt, alloc, left, tasks));
}

// A thousand tasks of two priorities and a join, beside four workers.
const THOUSAND: Plan = Plan {
    tasks: 1000,
    second: 127,
    group: 0,
    stops: false,
    most: u64::MAX,
    helped: false,
};

#[test]
fn four_workers_run_a_thousand_tasks(rt: HostRuntime) {
    let rt = &rt;
    let alloc = rt.alloc();
    let Opened {
        pool,
        adding,
        mut workers,
    } = open_pool::<Kept, HostRuntime>(rt, alloc, 4, 0);
    let mut adder = new_slot(adding);
    let gate = CountGate::new(rt, alloc, u64::MAX, 1000);
    add_beside(rt, alloc, &pool, &gate, THOUSAND, &mut adder);
    all_work(rt, alloc, &pool, &gate, &mut workers);
    end_beside(rt, alloc, pool, &gate, THOUSAND, workers, adder);
}

// Four workers: one by one, and as a stream, before a join; and a thousand before a stop, where the gate holds the four, or none. Then a
// worker and a helper: a thousand before a join.
#[test]
fn workers_beside_one_that_adds_lose_no_task(rt: HostRuntime) {
    let rt = &rt;
    let alloc = rt.alloc();
    let stop = Plan {
        stops: true,
        ..THOUSAND
    };
    let plans = [
        Plan {
            tasks: 5000,
            second: 0,
            group: 1,
            ..THOUSAND
        },
        Plan {
            tasks: 20_000,
            second: 0,
            group: 1000,
            ..THOUSAND
        },
        Plan { most: 400, ..stop },
        stop,
        Plan {
            second: 0,
            helped: true,
            ..THOUSAND
        },
    ];
    for plan in plans {
        let (workers, helpers) = counts_of(plan);
        let Opened {
            pool,
            adding,
            mut workers,
        } = open_pool::<Kept, HostRuntime>(rt, alloc, workers, helpers);
        let mut adder = new_slot(adding);
        let gate = CountGate::new(rt, alloc, plan.most, plan.tasks);
        join_mut(
            rt,
            &mut ||
                requires passes { All (λ s. IfSome s.pass (λ p. p.pool ≡ pool.id)) workers.items }
                requires ends { All (λ s. s.end ≡ None) workers.items }
                ensures ends { All (λ s. IfSome s.end (λ e. e.pool ≡ pool.id)) workers.exit.items }
                ensures count { length workers.exit.items ≡ length workers.entry.items }
            { all_work(rt, alloc, &pool, &gate, &mut workers) },
            &mut ||
                requires adding { IfSome adder.pass (λ a. IsAdding pool a.owner a.keep a.pass a.helper 0) }
                requires end { adder.end ≡ None }
                ensures { IfSome adder.exit.end (λ b. HasBegunToEnd pool b.ending b.helped.items) }
            { add_beside(rt, alloc, &pool, &gate, plan, &mut adder) },
        );
        end_beside(rt, alloc, pool, &gate, plan, workers, adder);
    }
}
