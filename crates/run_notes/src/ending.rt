ghost use Rattle.std.specs.Prelude.{◌≡◌, ◌⊎◌, ◌+◌, ◌<◌, ◌≤◌, ◌↔◌, ◌++◌, ◌∷◌, [], false, true, length, map, IsTrue};
ghost use Rattle.job_trait.specs.Marks.{IsDone};
ghost use Rattle.job_trait.specs.Runs.{IsKnownBackwards};
ghost use Rattle.pool_model.specs.Accounts.{AllRun};
ghost use Rattle.pool_model.specs.Passes.{AreAllPasses, AreAllEnds, adds_total};
ghost use Rattle.pool_model.specs.Seen.{task_of};
ghost use Rattle.run_notes.specs.Accounts.{AccountsFor, AllDone, AllRanBack, AreRunsOfSome, HaveAllRun, RanBack, SomeLed};

use crate::notes::RunRecords;
use job_trait::{Job, WorldFact};
use pool_model::stop_accounts_for_each;
use prio_pool::{
    HelperEnd, Joining, Pool, PoolEnd, Returned, RunRecord, Runs, Stopping, WorkerEnd,
};
use std::alloc::Global;
use std::sync::Wait;

/// What became of the tasks that a pool accepted.
#[derive(Drop)]
pub struct PoolNotes {
    /// How many the pool accepted.
    pub accepted: u64,
    /// What the pool ran.
    pub ran: Runs,
    /// What was handed back, and then run.
    pub returned: RunRecords,
    /// Whether a record found no memory. Its task has run all the same, and so have those behind it.
    pub missed: bool,
}

/// Ends a pool that is joined. What still waits is run on this world.
pub fn end_joined<J: Job<W>, W, F: WorldFact<W>, R: Wait>(
    rt: &R,
    alloc: Global,
    pool: Pool<J>,
    joining: Joining<J>,
    ends: Vec<WorkerEnd<J>>,
    helped: Vec<HelperEnd<J>>,
    world: &mut W,
) -> PoolNotes
    requires pool { joining.pool ≡ pool.id }
    requires joining { AreAllPasses pool.id pool.adders joining.passes }
    requires ends { AreAllEnds pool.id pool.workers ends.items }
    requires helped { AreAllEnds pool.id pool.helpers helped.items }
    requires known { IsKnownBackwards J.runs F.holds (λ _ mark. IsDone mark) }
    ensures accepted { result.accepted ≡ adds_total joining.passes }
    ensures all { AllRun joining.passes result.ran.records }
    ensures led { SomeLed J.runs world.old world.new }
    ensures fact { F.holds world.new → F.holds world.old }
    ensures account { F.holds world.new → AllDone (ends.items ++ helped.items) → AccountsFor joining.passes result }
    ensures joined { (result.ran.stopped ≡ false) × (result.returned ≡ []) × (result.missed ≡ false) }
{
    let PoolEnd {
        accepted,
        ran,
        returned: _,
    } = pool.join(rt, joining, ends, helped, world);
    PoolNotes {
        accepted,
        ran,
        returned: RunRecords::new(alloc),
        missed: false,
    }
}

/// Ends a pool that is stopped. All that is handed back is run on this world, in order, whether its records find memory or not.
pub fn end_stopped<J: Job<W>, W, F: WorldFact<W>, R: Wait>(
    rt: &R,
    alloc: Global,
    pool: Pool<J>,
    stopping: Stopping<J>,
    ends: Vec<WorkerEnd<J>>,
    helped: Vec<HelperEnd<J>>,
    world: &mut W,
) -> PoolNotes
    requires pool { stopping.pool ≡ pool.id }
    requires stopping { AreAllPasses pool.id pool.adders stopping.passes }
    requires ends { AreAllEnds pool.id pool.workers ends.items }
    requires helped { AreAllEnds pool.id pool.helpers helped.items }
    requires known { IsKnownBackwards J.runs F.holds (λ _ mark. IsDone mark) }
    ensures accepted { result.accepted ≡ adds_total stopping.passes }
    ensures all { HaveAllRun J.head J.runs stopping.passes result.ran.records result.returned world.old world.new }
    ensures fact { F.holds world.new → F.holds world.old }
    ensures account { F.holds world.new → AllDone (ends.items ++ helped.items) → result.missed ≡ false → AccountsFor stopping.passes result }
    ensures stopped { result.ran.stopped ≡ true }
    ensures few { length result.ran.records + length result.returned ≤ result.accepted }
    ensures missed { IsTrue result.missed ↔ (length result.ran.records + length result.returned < result.accepted) }
{
    stop_accounts_for_each::<J>();
    let PoolEnd {
        accepted,
        ran,
        mut returned,
    } = pool.stop(rt, stopping, ends, helped);
    let (records, missed) = run_back(rt, alloc, &mut returned, world);
    PoolNotes {
        accepted,
        ran,
        returned: records,
        missed,
    }
}

/// Runs all tasks that were handed back, in order. It gives their records, and whether one of these found no memory.
fn run_back<J: Job<W>, W, R: Wait>(
    rt: &R,
    alloc: Global,
    returned: &mut Returned<J>,
    world: &mut W,
) -> (RunRecords, bool)
    ensures all { AllRanBack J.head J.runs returned.old world.old world.new }
    ensures kept { AreRunsOfSome (map (task_of J.head) returned.old) result.0 }
    ensures back { result.1 ≡ false → RanBack J.head J.runs returned.old result.0 world.old world.new }
    ensures missed { result.1 ≡ true → length result.0 < length returned.old }
    ensures whole { result.1 ≡ false → length result.0 ≡ length returned.old }
{
    let mut records = RunRecords::new(alloc);
    let mut missed = false;
    'tasks: while let Some(record) = returned.run_next(rt, world) {
        keep(&mut records, record, &mut missed);
    }
    (records, missed)
}

/// Puts a record behind the others, or notes that it is missing.
fn keep(records: &mut RunRecords, made: RunRecord, missed: &mut bool)
    ensures kept { missed.new ≡ false → (missed.old ≡ false) × (records.new ≡ records.old ++ made ∷ []) }
    ensures lost { missed.new ≡ true → missed.old ≡ false → records.new ≡ records.old }
    ensures either { (records.new ≡ records.old ++ made ∷ []) ⊎ (records.new ≡ records.old) }
{
    match records.push(made) {
        Ok(()) => {}
        Err(_) => *missed = true,
    }
}
