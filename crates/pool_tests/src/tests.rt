// Pools on one thread and on several.
ghost use Rattle.std.specs.Prelude.{◌≡◌, ◌⊎◌, ◌+◌, ◌<◌, ◌≤◌, ◌∷◌, ◌++◌, [], length, map, option_to_list, vec_capacity, All, Contains, IfSome, Some, None};
ghost use Rattle.pool_model.specs.Passes.{AreAllPasses, AreAllEnds, adds_of};
ghost use Rattle.prio_pool.specs.Made.{IsNewPool};
ghost use Rattle.pool_tests.specs.Ending.{IsAdding, IsHelper, HasBegunToEnd, tests_exec};

use fan_base::{ExecId, Gate, JobId, Mark, OpenGate, Refused};
use job_trait::{Head, Headed, Job};
use keep_alive::{KeepAlive, KeepOwner};
use pool_model::Ticket;
use prio_pool::{
    Helped, HelperEnd, HelperPass, Joining, Pool, PoolEnd, PoolParts, PoolPass, Returned, Runs,
    Stopping, WorkerEnd, WorkerPass, new_passes_are_unused, queue_for, run_direct,
};
use std::alloc::Global;
use std::fmt::Debug;
use std::process::Abort;
use std::sync::Wait;

mod kept;
mod queue;
mod threads;
mod two;

// It notes its id in the world, and is done with its number.
#[derive(Clone, Copy)]
struct Note(Head);

impl Headed for Note {
    ghost head = { λ note. note.0 };

    fn id(&self) -> JobId {
        self.0.id
    }

    fn exec(&self) -> ExecId {
        self.0.exec
    }
}

impl Job<Vec<u64>> for Note {
    ghost runs = { λ id before mark after. (after.items ≡ before.items ++ id.0 ∷ []) ⊎ (after.items ≡ before.items) };

    fn run<R: Wait>(self, _rt: &R, world: &mut Vec<u64>) -> Mark {
        match world.push(self.0.id.0) {
            Ok(()) => Mark::Done(self.0.number),
            Err(_) => Mark::Memory,
        }
    }
}

// A job that is made from an id, for the executor 7, and is run or taken apart. What a test does it does for any such job, so that it
// is proved without what one job is.
trait Numbered: Job<Vec<u64>> {
    fn of(id: u64) -> Self
        ensures { (Self.head result).exec.0 ≡ 7 };

    // Its id.
    fn taken_apart(self) -> u64;
}

impl Numbered for Note {
    fn of(id: u64) -> Note {
        Note(Head {
            id: JobId(id),
            exec: ExecId(7),
            number: id / 2,
        })
    }

    fn taken_apart(self) -> u64 {
        self.0.id.0
    }
}

// Compares two values. A test compares by this, since each assertion that a body makes of its own makes that body dearer to prove.
fn same<T: PartialEq + Debug + Copy, R: Abort>(rt: &R, found: T, expected: T) {
    assert_eq!(rt; found, expected);
}

// Compares the numbers of two lists.
fn check_list<R: Abort>(rt: &R, found: Vec<u64>, expected: &[u64]) {
    same(rt, found.as_slice(), expected);
}

// The queues of five priorities in a pool of so many.
fn check_queues<R: Abort>(rt: &R, queues: u32, expected: [u32; 5])
    requires { (0 < queues) × (queues ≤ 256) }
{
    let priorities = [-128, -1, 0, 1, 127];
    for index in 0..5 {
        same(rt, queue_for(queues, priorities[index]), expected[index]);
    }
}

#[test]
fn each_priority_has_its_queue(rt: HostRuntime) {
    let rows = [
        (1, [0, 0, 0, 0, 0]),
        (2, [0, 0, 1, 1, 1]),
        (3, [0, 0, 1, 2, 2]),
        (5, [0, 1, 2, 3, 4]),
    ];
    for (queues, expected) in rows {
        if 0 < queues && queues <= 256 {
            check_queues(&rt, queues, expected);
        }
    }
}

// What adds to a pool with one adder, and helps there: the keep-alive, its owner, the pass, and the helper's pass, where there is one.
struct Adding<J> {
    owner: KeepOwner,
    keep: KeepAlive,
    pass: PoolPass<J>,
    helper: Option<HelperPass<J>>,
}

// Adds a task. It gets the ticket of the one adder with this index. Where memory is refused the job comes back, and another is added once more.
fn add<J: Numbered, R: Abort + Wait>(
    rt: &R,
    pool: &Pool<J>,
    adding: &mut Adding<J>,
    priority: i8,
    id: u64,
    index: u64,
)
    requires adding { IsAdding pool.now adding.old.owner adding.old.keep adding.old.pass adding.old.helper index }
    requires room { index < 4294967295 }
    ensures { IsAdding pool.now adding.new.owner adding.new.keep adding.new.pass adding.new.helper (index + 1) }
{
    for _ in 0..2 {
        match pool.add(rt, &adding.keep, &mut adding.pass, priority, J::of(id)) {
            Ok(ticket) => {
                same(rt, (ticket.adder, ticket.index), (0, index));
                return;
            }
            Err(Refused::Memory(job)) => same(rt, job.taken_apart(), id),
        }
    }
    rt.panic("memory")
}

// Adds the first tasks of a pass, each with its priority and id. (A loop, since each add in a row of calls makes the next one dearer to prove.)
fn add_rows<J: Numbered, R: Abort + Wait>(
    rt: &R,
    pool: &Pool<J>,
    adding: &mut Adding<J>,
    rows: &[(i8, u64)],
)
    requires adding { IsAdding pool.now adding.old.owner adding.old.keep adding.old.pass adding.old.helper 0 }
    requires few { length rows.now ≤ 1000 }
    ensures { IsAdding pool.now adding.new.owner adding.new.keep adding.new.pass adding.new.helper (length rows.now) }
{
    for index in 0..rows.len() {
        let (priority, id) = rows[index];
        add(rt, pool, adding, priority, id, index as u64);
    }
}

// Helps once, where there is a helper. Its world grows by the job that ran, if any; and one ran, or none, where that is asked for.
#[tactic(auto, using(crate::proofs::Lists::helper_of_pool, crate::proofs::Lists::helper_stays))]
fn help<J: Job<Vec<u64>>, G: Gate, R: Abort + Wait>(
    rt: &R,
    pool: &Pool<J>,
    helper: &mut Option<HelperPass<J>>,
    world: &mut Vec<u64>,
    gate: &G,
    expected: Option<bool>,
)
    requires { IsHelper pool.now helper.old }
    ensures { IsHelper pool.now helper.new }
{
    let before = world.len();
    if let Some(helper) = helper {
        let ran = match pool.help(rt, helper, world, gate) {
            Helped::Ran => true,
            Helped::Empty => false,
        };
        let grown = world.len().saturating_sub(before);
        same(
            rt,
            (grown, ran),
            (usize::from(ran), expected.unwrap_or(ran)),
        );
    }
}

// The end of the helper, where there is one.
fn end_helper<J: Headed, R: Abort>(
    rt: &R,
    alloc: Global,
    helper: Option<HelperPass<J>>,
) -> Vec<HelperEnd<J>>
    ensures { result.items ≡ option_to_list helper }
{
    match helper {
        Some(helper) => list_of(rt, alloc, helper.end()),
        None => Vec::new(alloc),
    }
}

// An empty list with room for so many. Where memory is refused it is asked for once more.
fn list_with_room<X, R: Abort>(rt: &R, alloc: Global, room: usize) -> Vec<X>
    ensures items { result.items ≡ [] }
    ensures room { room ≤ vec_capacity result }
{
    match Vec::with_capacity(alloc, room) {
        Ok(list) => list,
        Err(_) => Vec::with_capacity(alloc, room).expect(rt, "memory"),
    }
}

// A list of one.
fn list_of<X, R: Abort>(rt: &R, alloc: Global, item: X) -> Vec<X>
    ensures { result.items ≡ item ∷ [] }
{
    let mut list = list_with_room(rt, alloc, 1);
    list.push_reserved(item);
    list
}

// A pool whose end has begun, by a join or by a stop, and the ends of its helpers.
struct Begun<J: Headed> {
    ending: Result<Joining<J>, Stopping<J>>,
    helped: Vec<HelperEnd<J>>,
}

// Begins to stop or to join, with the passes of all adders. (Tests call the pool by such functions, which tell them no more than they need.)
fn begin_with<J: Headed, R: Wait>(
    rt: &R,
    pool: &Pool<J>,
    owner: KeepOwner,
    passes: Vec<PoolPass<J>>,
    helped: Vec<HelperEnd<J>>,
    stops: bool,
) -> Begun<J>
    requires owner { owner.count ≡ pool.now.count }
    requires passes { AreAllPasses pool.now.id pool.now.adders passes.items }
    requires helped { AreAllEnds pool.now.id pool.now.helpers helped.items }
    ensures { HasBegunToEnd pool.now result.ending result.helped.items }
{
    if stops {
        let ending = Err(pool.begin_stop(rt, owner, passes));
        Begun { ending, helped }
    } else {
        let ending = Ok(pool.begin_join(rt, owner, passes));
        Begun { ending, helped }
    }
}

// Lets a keep-alive go.
fn let_go(keep: KeepAlive) {
    let _ = keep.release();
}

// Lets the keep-alive go, ends the helper, and begins to stop or to join.
fn begin_to_end<J: Headed, R: Abort + Wait>(
    rt: &R,
    alloc: Global,
    pool: &Pool<J>,
    adding: Adding<J>,
    stops: bool,
) -> Begun<J>
    requires { IsAdding pool.now adding.owner adding.keep adding.pass adding.helper (length (adds_of adding.pass)) }
    ensures { HasBegunToEnd pool.now result.ending result.helped.items }
{
    let Adding {
        owner,
        keep,
        pass,
        helper,
    } = adding;
    let_go(keep);
    let helped = end_helper(rt, alloc, helper);
    let passes = list_of(rt, alloc, pass);
    begin_with(rt, pool, owner, passes, helped, stops)
}

// Works with the one worker of a pool.
fn work_at<J: Job<Vec<u64>>, R: Abort + Wait>(
    rt: &R,
    alloc: Global,
    pool: &Pool<J>,
    workers: Vec<Worker<J>>,
    world: &mut Vec<u64>,
) -> Vec<WorkerEnd<J>>
    requires workers { All (λ s. IfSome s.pass (λ p. p.pool ≡ pool.now.id)) workers.items }
    requires ends { All (λ s. s.end ≡ None) workers.items }
    requires one { (length workers.items ≡ 1) × (pool.now.workers ≡ 1) }
    ensures { AreAllEnds pool.now.id pool.now.workers result.items }
{
    let mut worker = only_of(rt, workers);
    worker.work(rt, pool, world, &OpenGate);
    list_of(rt, alloc, worker.end(rt))
}

// What is left of a pool that has accepted so many tasks: the records of all of them, or, where it was stopped, of some, and the other
// tasks, which are handed back.
fn check_end<J: Numbered, R: Abort>(
    rt: &R,
    end: PoolEnd<J>,
    stops: bool,
    tasks: usize,
) -> (Runs, Returned<J>) {
    let PoolEnd {
        accepted,
        ran,
        mut returned,
    } = end;
    let all = ran.len().saturating_add(returned.len());
    same(
        rt,
        (accepted, ran.stopped(), all),
        (tasks as u64, stops, tasks),
    );
    if !stops {
        same(rt, returned.len(), 0);
        same(rt, next_back(&mut returned), None);
    }
    (ran, returned)
}

// Joins or stops a pool with so many tasks, as it was begun.
fn end_pool<J: Numbered, R: Abort + Wait>(
    rt: &R,
    pool: Pool<J>,
    begun: Begun<J>,
    ends: Vec<WorkerEnd<J>>,
    world: &mut Vec<u64>,
    tasks: usize,
) -> (Runs, Returned<J>)
    requires begun { HasBegunToEnd pool begun.ending begun.helped.items }
    requires ends { AreAllEnds pool.id pool.workers ends.items }
{
    let Begun { ending, helped } = begun;
    match ending {
        Ok(joining) => {
            let end = pool.join(rt, joining, ends, helped, world);
            check_end(rt, end, false, tasks)
        }
        Err(stopping) => check_end(rt, pool.stop(rt, stopping, ends, helped), true, tasks),
    }
}

// The ids of the records, in order, and how many there are.
fn ids<R: Abort>(rt: &R, alloc: Global, mut ran: Runs) -> Vec<u64> {
    let mut ids = list_with_room(rt, alloc, ran.len());
    for _ in 0..ran.len() {
        let record = ran.pop().expect(rt, "a record");
        ids.push(record.job().0).expect(rt, "memory");
    }
    ids
}

// The last item of a list, which is taken. Its type is a parameter, so that this is proved without what a pass is.
fn last_of<X, R: Abort>(rt: &R, list: &mut Vec<X>) -> X
    ensures { list.old.items ≡ list.new.items ++ result ∷ [] }
{
    let Some(item) = list.pop() else {
        rt.panic("an item")
    };
    item
}

// The one item of a list.
fn only_of<X, R: Abort>(rt: &R, mut list: Vec<X>) -> X
    requires { length list.items ≡ 1 }
    ensures { list.items ≡ result ∷ [] }
{
    let item = last_of(rt, &mut list);
    list.destroy_empty();
    item
}

// A pool of three queues, one adder, so many workers, and at most one helper.
struct Opened<J: Headed> {
    pool: Pool<J>,
    adding: Adding<J>,
    workers: Vec<Worker<J>>,
}

// Makes a pool of three queues. Where memory is refused it is asked for once more.
fn new_pool<J: Headed, R: Abort>(
    rt: &R,
    alloc: Global,
    adders: u32,
    workers: u32,
    helpers: u32,
) -> PoolParts<J>
    requires adders { (0 < adders) × (adders ≤ 64) }
    requires workers { (0 < workers) × (workers ≤ 64) }
    requires helpers { helpers ≤ 64 }
    ensures { IsNewPool tests_exec 3 adders workers helpers 0 result.pool result.owner result.keep result.adders.items result.workers.items result.helpers.items }
{
    match Pool::new(alloc, ExecId(7), 3, adders, workers, helpers, 0) {
        Ok(parts) => parts,
        Err(_) => Pool::new(alloc, ExecId(7), 3, adders, workers, helpers, 0).expect(rt, "memory"),
    }
}

fn open_pool<J: Headed, R: Abort>(rt: &R, alloc: Global, workers: u32, helpers: u32) -> Opened<J>
    requires workers { (0 < workers) × (workers ≤ 64) }
    requires helpers { helpers ≤ 1 }
    ensures adding { IsAdding result.pool result.adding.owner result.adding.keep result.adding.pass result.adding.helper 0 }
    ensures workers { All (λ s. IfSome s.pass (λ p. p.pool ≡ result.pool.id)) result.workers.items }
    ensures ends { All (λ s. s.end ≡ None) result.workers.items }
    ensures count { (length result.workers.items ≡ workers) × (result.pool.workers ≡ workers) }
{
    let PoolParts {
        pool,
        owner,
        keep,
        adders,
        workers,
        mut helpers,
    } = new_pool(rt, alloc, 1, workers, helpers);
    let pass = only_of(rt, adders);
    let helper = helpers.pop();
    helpers.destroy_empty();
    new_passes_are_unused();
    Opened {
        pool,
        adding: Adding {
            owner,
            keep,
            pass,
            helper,
        },
        workers: new_slots(rt, alloc, workers),
    }
}

// One that works on a thread: its pass, and its end once it has worked. A thread is lent it, since what goes into a closure needs code
// that drops it. Their types are parameters, so that what needs neither is proved without them.
struct Slot<P, E> {
    pass: Option<P>,
    end: Option<E>,
}

fn new_slot<P, E>(pass: P) -> Slot<P, E>
    ensures { (result.pass ≡ Some pass) × (result.end ≡ None) }
{
    Slot {
        pass: Some(pass),
        end: None,
    }
}

impl<P, E> Slot<P, E> {
    // Keeps its end.
    fn put_end(&mut self, end: E)
        requires { self.old.end ≡ None }
        ensures { self.new.end ≡ Some end }
    {
        match self.end.replace(end) {
            None => {}
            Some(_) => unreachable!(),
        }
    }

    // Its end, once it has worked.
    fn end<R: Abort>(self, rt: &R) -> E
        ensures { self.end ≡ Some result }
    {
        let Slot { pass, end } = self;
        match (pass, end) {
            (None, Some(end)) => end,
            (Some(_pass), _) => rt.panic("a worker that has not worked"),
            (None, None) => rt.panic("an end"),
        }
    }
}

// A worker of a pool.
type Worker<J> = Slot<WorkerPass<J>, WorkerEnd<J>>;

// Slots of those that have not worked.
fn new_slots<P, E, R: Abort>(rt: &R, alloc: Global, mut passes: Vec<P>) -> Vec<Slot<P, E>>
    ensures passes { All (λ s. IfSome s.pass (Contains passes.items)) result.items }
    ensures ends { All (λ s. s.end ≡ None) result.items }
    ensures count { length result.items ≡ length passes.items }
{
    let mut slots = list_with_room(rt, alloc, passes.len());
    while let Some(pass) = passes.pop() {
        slots.push_reserved(new_slot(pass));
    }
    passes.destroy_empty();
    slots
}

// The ends of all that have worked.
fn all_ends<P, E, R: Abort>(rt: &R, alloc: Global, mut slots: Vec<Slot<P, E>>) -> Vec<E>
    ensures ends { All (λ e. Contains (map (λ s. s.end) slots.items) (Some e)) result.items }
    ensures count { length result.items ≡ length slots.items }
{
    let mut ends = list_with_room(rt, alloc, slots.len());
    while let Some(slot) = slots.pop() {
        ends.push_reserved(slot.end(rt));
    }
    slots.destroy_empty();
    ends
}

impl<J: Job<Vec<u64>>> Slot<WorkerPass<J>, WorkerEnd<J>> {
    // Works with this world, between the calls of the gate.
    fn work<R: Wait, G: Gate>(&mut self, rt: &R, pool: &Pool<J>, world: &mut Vec<u64>, gate: &G)
        requires pass { IfSome self.old.pass (λ p. p.pool ≡ pool.now.id) }
        requires end { self.old.end ≡ None }
        ensures { IfSome self.new.end (λ e. e.pool ≡ pool.now.id) }
    {
        if let Some(pass) = self.pass.take() {
            self.put_end(pool.work(rt, pass, world, gate));
        }
    }
}

// The ticket and the id of the next task that was handed back, which is taken apart.
fn next_back<J: Numbered>(returned: &mut Returned<J>) -> Option<(Ticket, u64)> {
    let (ticket, job) = returned.pop()?;
    Some((ticket, job.taken_apart()))
}

// Adds tasks, begins to join or to stop, and works on this thread with a worker. A helper finds no job before, and one once the
// tasks are added. What is left is compared.
fn run_alone<J: Numbered, R: Abort + Wait>(
    rt: &R,
    alloc: Global,
    rows: &[(i8, u64)],
    helpers: u32,
    stops: bool,
    world: &mut Vec<u64>,
) -> (Runs, Returned<J>)
    requires few { length rows.now ≤ 1000 }
    requires helpers { helpers ≤ 1 }
{
    let Opened {
        pool,
        mut adding,
        workers,
    } = open_pool::<J, R>(rt, alloc, 1, helpers);
    help(rt, &pool, &mut adding.helper, world, &OpenGate, Some(false));
    add_rows(rt, &pool, &mut adding, rows);
    help(rt, &pool, &mut adding.helper, world, &OpenGate, Some(true));
    let begun = begin_to_end(rt, alloc, &pool, adding, stops);
    let ends = work_at(rt, alloc, &pool, workers, world);
    end_pool(rt, pool, begun, ends, world, rows.len())
}

// Adds tasks, joins, and works. The tasks have to run in this order, and each has to have its record.
fn run_rows<J: Numbered, R: Abort + Wait>(
    rt: &R,
    alloc: Global,
    rows: &[(i8, u64)],
    expected: &[u64],
)
    requires { length rows.now ≤ 1000 }
{
    let mut world = list_with_room(rt, alloc, rows.len());
    let (ran, _) = run_alone::<J, R>(rt, alloc, rows, 0, false, &mut world);
    check_list(rt, ids(rt, alloc, ran), expected);
    check_list(rt, world, expected);
}

#[test]
fn the_highest_queue_runs_first(rt: HostRuntime) {
    let rows = [(0, 10), (-128, 11), (127, 12), (0, 13)];
    run_rows::<Note, HostRuntime>(&rt, rt.alloc(), &rows, &[12, 10, 13, 11]);
}

#[test]
fn an_empty_pool_ends(rt: HostRuntime) {
    run_rows::<Note, HostRuntime>(&rt, rt.alloc(), &[], &[]);
}

// What a stopped pool handed back, where so many tasks have a record and so many came back.
fn came_back<J: Numbered, R: Abort>(
    rt: &R,
    left: (Runs, Returned<J>),
    expected: (usize, usize),
) -> Returned<J> {
    let (ran, returned) = left;
    same(rt, (ran.len(), returned.len()), expected);
    returned
}

// The job that comes back first.
fn first_back<J: Numbered, R: Abort>(rt: &R, returned: &mut Returned<J>) -> J {
    let (ticket, job) = returned.pop().expect(rt, "a task");
    same(rt, (ticket.adder, ticket.index, job.id().0), (0, 0, 20));
    job
}

// Runs the job that comes back next, and compares its record: its index, its queue, its id, its executor 7, and the number that its run
// marks as done.
fn run_back<J: Numbered, R: Abort + Wait>(
    rt: &R,
    returned: &mut Returned<J>,
    world: &mut Vec<u64>,
    place: (u64, u32, u64),
    number: u64,
) {
    let record = returned.run_next(rt, world).expect(rt, "a task");
    let found = (record.ticket().index, record.queue(), record.job().0);
    same(rt, found, place);
    let marked = (record.exec(), record.mark());
    same(rt, marked, (ExecId(7), Mark::Done(number)));
}

// Runs a job outside of the pool.
fn run_outside<J: Numbered, R: Abort + Wait>(rt: &R, job: J, world: &mut Vec<u64>) {
    let direct = run_direct(rt, 2, job, world);
    let found = (direct.queue(), direct.job().0, direct.mark());
    same(rt, found, (2, 20, Mark::Done(10)));
}

// Stops a pool with two tasks before its worker works. None of them ran, and both come back.
fn run_what_comes_back<J: Numbered, R: Abort + Wait>(rt: &R, alloc: Global) {
    let rows = [(0, 20), (0, 21)];
    let mut world = list_with_room(rt, alloc, rows.len());
    let left = run_alone::<J, R>(rt, alloc, &rows, 0, true, &mut world);
    let mut returned = came_back(rt, left, (0, 2));
    same(rt, world.len(), 0);
    let job = first_back(rt, &mut returned);
    run_back(rt, &mut returned, &mut world, (1, 1, 21), 10);
    same(rt, returned.run_next(rt, &mut world).is_none(), true);
    run_outside(rt, job, &mut world);
    check_list(rt, world, &[21, 20]);
}

#[test]
fn a_stopped_pool_hands_its_tasks_back(rt: HostRuntime) {
    run_what_comes_back::<Note, HostRuntime>(&rt, rt.alloc());
}

// Each id below a count has to stand here once: in order they are 0, 1, 2, and so on.
fn check_once<R: Abort>(rt: &R, mut ids: Vec<u64>, count: usize) {
    ids.sort_unstable();
    same(rt, ids.len(), count);
    for index in 0..ids.len() {
        same(rt, ids[index], index as u64);
    }
}

// Puts the index of a ticket behind those that are there. The ticket is of the one adder, and its index is the id of its task.
fn put_index<R: Abort>(rt: &R, indexes: &mut Vec<u64>, ticket: Ticket, id: u64) {
    same(rt, (ticket.adder, ticket.index), (0, id));
    indexes.push(id).expect(rt, "memory");
}

// Puts the indexes of the records' tickets behind those that are there.
fn put_ran<R: Abort>(rt: &R, indexes: &mut Vec<u64>, mut ran: Runs) {
    for _ in 0..ran.len() {
        let record = ran.pop().expect(rt, "a record");
        put_index(rt, indexes, record.ticket(), record.job().0);
    }
}

// The same for the tasks that were handed back.
fn put_back<J: Numbered, R: Abort>(rt: &R, indexes: &mut Vec<u64>, mut returned: Returned<J>) {
    for _ in 0..returned.len() {
        let (ticket, id) = next_back(&mut returned).expect(rt, "a task");
        put_index(rt, indexes, ticket, id);
    }
    same(rt, next_back(&mut returned), None);
}

// What is left of a pool whose tasks have the indexes of their tickets as ids. Each of so many has to have a record, or to be handed back,
// once. It gives how many have a record.
fn check_tasks<J: Numbered, R: Abort>(
    rt: &R,
    alloc: Global,
    left: (Runs, Returned<J>),
    tasks: usize,
) -> u64 {
    let (ran, returned) = left;
    let records = ran.len();
    let mut indexes = Vec::new(alloc);
    put_ran(rt, &mut indexes, ran);
    put_back(rt, &mut indexes, returned);
    check_once(rt, indexes, tasks);
    records as u64
}
