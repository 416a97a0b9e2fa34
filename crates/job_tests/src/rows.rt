// A job that notes its id in a world, through both executors, and what callers know of the world after that.
ghost use Rattle.std.specs.Prelude.{◌≡◌, ◌⊎◌, ◌≤◌, [], ◌∷◌, ◌++◌, map, length, false};
ghost use Rattle.job_trait.specs.Marks.{IsDone};
ghost use Rattle.job_trait.specs.Runs.{Leads, RunsAll, IsKnownBackwards, done_of};

use fan_base::{ExecId, JobId, Mark, Refused};
use job_trait::{
    Executor, Head, Headed, InlineExecutor, Job, ManualExecutor, OfJob, WorldFact, WorldRelation,
    all_jobs_of_two_lists, all_jobs_were_done, related_by_each_run,
};
use std::alloc::Global;
use std::sync::Wait;
use std::test::Fail;

// It notes its id, and is done with its number.
#[derive(Clone, Copy, Debug, PartialEq, Eq)]
struct Note(Head);

impl Headed for Note {
    ghost head = { λ note. note.0 };

    fn id(&self) -> JobId {
        self.0.id
    }

    fn exec(&self) -> ExecId {
        self.0.exec
    }
}

impl Job<Vec<u64>> for Note {
    ghost runs = { λ id before mark after. (after.items ≡ before.items ++ id.0 ∷ []) ⊎ (after.items ≡ before.items) };

    fn run<R: Wait>(self, _rt: &R, world: &mut Vec<u64>) -> Mark {
        match world.push(self.0.id.0) {
            Ok(()) => Mark::Done(self.0.number),
            Err(_) => Mark::Memory,
        }
    }
}

fn make_note(id: u64) -> Note
    ensures { result.0.exec.0 ≡ 7 }
{
    Note(Head {
        id: JobId(id),
        exec: ExecId(7),
        number: id / 2,
    })
}

fn is_taken(answer: Result<(), Refused<Note>>) -> bool {
    match answer {
        Ok(()) => true,
        Err(Refused::Memory(_)) => false,
    }
}

// Adds two notes, and says whether both were taken.
fn add_two<E: Executor<Note>, R: Wait>(rt: &R, executor: &mut E) -> bool
    requires { (E.number executor.old).0 ≡ 7 }
    ensures { E.number executor.new ≡ E.number executor.old }
{
    let first = is_taken(executor.add(rt, make_note(10)));
    let second = is_taken(executor.add(rt, make_note(21)));
    first && second && executor.exec() == ExecId(7)
}

#[test]
fn a_job_runs_at_once(rt: HostRuntime) -> Result<(), Fail> {
    let alloc: Global = rt.alloc();
    let mut world = Vec::new(alloc);
    let mut executor = InlineExecutor::new(ExecId(7), &mut world);
    assert_eq!(rt; executor.last(), None);
    assert!(rt; add_two(&rt, &mut executor));
    assert_eq!(rt; executor.last(), Some((JobId(21), Mark::Done(10))));
    drop(executor);
    assert_eq!(rt; world.as_slice(), [10, 21].as_slice());
    Ok(())
}

#[test]
fn kept_jobs_run_the_oldest_first(rt: HostRuntime) -> Result<(), Fail> {
    let alloc: Global = rt.alloc();
    let mut world = Vec::new(alloc);
    let mut executor = ManualExecutor::new(alloc, ExecId(7));
    assert!(rt; add_two(&rt, &mut executor));
    assert!(rt; is_taken(executor.add(&rt, make_note(3))));
    assert!(rt; world.is_empty());
    assert_eq!(rt; executor.run(&rt, 1, &mut world), 1);
    assert_eq!(rt; world.as_slice(), [10].as_slice());
    assert_eq!(rt; executor.take_back(), Some(make_note(21)));
    assert_eq!(rt; executor.drain(&rt, &mut world), 1);
    assert_eq!(rt; executor.take_back(), None);
    assert_eq!(rt; world.as_slice(), [10, 3].as_slice());
    executor.close();
    Ok(())
}

// The world is lent to an executor, which ends: the caller knows what one note made of it.
fn run_inline<R: Wait>(rt: &R, note: Note, world: &mut Vec<u64>)
    requires { note.0.exec.0 ≡ 7 }
    ensures { (world.new.items ≡ world.old.items ++ note.0.id.0 ∷ []) ⊎ (world.new.items ≡ world.old.items) }
{
    let mut executor = InlineExecutor::new(ExecId(7), world);
    match executor.add(rt, note) {
        Ok(()) => {}
        Err(_) => unreachable!(),
    }
}

// Runs the jobs in two parts, and knows that all ran.
fn run_in_two_parts<W, J: Job<W>, R: Wait>(
    rt: &R,
    executor: &mut ManualExecutor<J>,
    n: usize,
    world: &mut W,
)
    ensures ran { RunsAll J.runs (map J.head executor.old.jobs) world.old world.new }
    ensures left { executor.new ≡ record { exec = executor.old.exec; jobs = [] } }
{
    executor.run(rt, n, world);
    executor.drain(rt, world);
    all_jobs_of_two_lists::<W, OfJob<J>>();
}

struct Grows;

impl WorldRelation<Vec<u64>> for Grows {
    ghost relates = { λ before after. length before.items ≤ length after.items };
}

// Notes take nothing out of a world.
fn run_notes<R: Wait>(rt: &R, executor: &mut ManualExecutor<Note>, world: &mut Vec<u64>)
    ensures { length world.old.items ≤ length world.new.items }
{
    executor.drain(rt, world);
    related_by_each_run::<Vec<u64>, OfJob<Note>, Grows>();
}

#[test]
fn what_a_caller_knows_of_its_world(rt: HostRuntime) -> Result<(), Fail> {
    let alloc: Global = rt.alloc();
    let mut world = Vec::new(alloc);
    let mut executor = ManualExecutor::new(alloc, ExecId(7));
    assert!(rt; add_two(&rt, &mut executor));
    run_in_two_parts(&rt, &mut executor, 1, &mut world);
    run_inline(&rt, make_note(3), &mut world);
    assert!(rt; is_taken(executor.add(&rt, make_note(4))));
    run_notes(&rt, &mut executor, &mut world);
    assert_eq!(rt; world.as_slice(), [10, 21, 3, 4].as_slice());
    Ok(())
}

// A note that may be neither copied nor dropped.
struct Kept(Head);

impl Headed for Kept {
    ghost head = { λ kept. kept.0 };

    fn id(&self) -> JobId {
        self.0.id
    }

    fn exec(&self) -> ExecId {
        self.0.exec
    }
}

impl Job<Vec<u64>> for Kept {
    ghost runs = { λ id before mark after. (after.items ≡ before.items ++ id.0 ∷ []) ⊎ (after.items ≡ before.items) };

    fn run<R: Wait>(self, _rt: &R, world: &mut Vec<u64>) -> Mark {
        let Kept(head) = self;
        match world.push(head.id.0) {
            Ok(()) => Mark::Done(head.number),
            Err(_) => Mark::Memory,
        }
    }
}

fn make_kept(id: u64) -> Kept
    ensures { result.0.exec.0 ≡ 7 }
{
    Kept(Head {
        id: JobId(id),
        exec: ExecId(7),
        number: id,
    })
}

// Takes a job apart that was handed back, and says its id.
fn taken_apart(kept: Kept) -> u64 {
    let Kept(head) = kept;
    head.id.0
}

// The id of a job that was handed back, 0 where none was.
fn refused_id(answer: Result<(), Refused<Kept>>) -> u64 {
    match answer {
        Ok(()) => 0,
        Err(Refused::Memory(kept)) => taken_apart(kept),
    }
}

#[test]
fn a_job_that_may_not_be_dropped_is_run_or_handed_back(rt: HostRuntime) -> Result<(), Fail> {
    let alloc: Global = rt.alloc();
    let mut world = Vec::new(alloc);
    let mut inline = InlineExecutor::new(ExecId(7), &mut world);
    assert_eq!(rt; refused_id(inline.add(&rt, make_kept(5))), 0);
    drop(inline);
    let mut manual = ManualExecutor::new(alloc, ExecId(7));
    let first = refused_id(manual.add(&rt, make_kept(6)));
    let second = refused_id(manual.add(&rt, make_kept(8)));
    let third = refused_id(manual.add(&rt, make_kept(9)));
    let ran = manual.run(&rt, 1, &mut world);
    let back = match manual.take_back() {
        Some(kept) => taken_apart(kept),
        None => 0,
    };
    let drained = manual.drain(&rt, &mut world);
    manual.close();
    assert_eq!(rt; (first, second, third), (0, 0, 0));
    assert_eq!(rt; (ran, back, drained), (1, 8, 1));
    assert_eq!(rt; world.as_slice(), [5, 6, 9].as_slice());
    Ok(())
}

// What a run wrote, and whether one of them found no memory.
#[derive(Drop)]
struct Log {
    items: Vec<u64>,
    refused: bool,
}

// It writes its id.
#[derive(Drop)]
struct Write(Head);

impl Headed for Write {
    ghost head = { λ write. write.0 };

    fn id(&self) -> JobId {
        self.0.id
    }

    fn exec(&self) -> ExecId {
        self.0.exec
    }
}

impl Job<Log> for Write {
    ghost runs = { λ id before mark after. after.refused ≡ false → (before.refused ≡ false) × IsDone mark };

    fn run<R: Wait>(self, _rt: &R, log: &mut Log) -> Mark {
        match log.items.push(self.0.id.0) {
            Ok(()) => Mark::Done(self.0.number),
            Err(_) => {
                log.refused = true;
                Mark::Memory
            }
        }
    }
}

struct NoneRefused;

impl WorldFact<Log> for NoneRefused {
    ghost holds = { λ log. log.refused ≡ false };
}

// Where the last world has the fact, each job that ran was done.
fn drain_done<W, J: Job<W>, F: WorldFact<W>, R: Wait>(
    rt: &R,
    executor: &mut ManualExecutor<J>,
    world: &mut W,
)
    requires { IsKnownBackwards J.runs F.holds (λ _ mark. IsDone mark) }
    ensures { F.holds world.new → Leads J.runs world.old (map done_of (map J.head executor.old.jobs)) world.new }
{
    executor.drain(rt, world);
    all_jobs_were_done::<W, OfJob<J>, F>();
}

fn make_write(id: u64) -> Write
    ensures { result.0.exec.0 ≡ 7 }
{
    Write(Head {
        id: JobId(id),
        exec: ExecId(7),
        number: id,
    })
}

#[test]
fn a_flag_that_is_down_at_the_end_was_never_up(rt: HostRuntime) -> Result<(), Fail> {
    let alloc: Global = rt.alloc();
    let mut log = Log {
        items: Vec::new(alloc),
        refused: false,
    };
    let mut executor = ManualExecutor::new(alloc, ExecId(7));
    let taken = executor.add(&rt, make_write(5)).is_ok();
    drain_done::<Log, Write, NoneRefused, HostRuntime>(&rt, &mut executor, &mut log);
    assert!(rt; taken && !log.refused);
    assert_eq!(rt; log.items.as_slice(), [5].as_slice());
    Ok(())
}
