//! How what was opened goes through the threads to the close. The functions do nothing: their clauses are laws.
ghost use Rattle.std.specs.Prelude.{◌≡◌, ◌+◌, List, false, map};
ghost use Rattle.std.specs.List.{All};
ghost use Rattle.event_base.specs.Seen.{BaseSeen, new_base};
ghost use Rattle.fan_model.specs.Tasks.{printer_exec};
ghost use Rattle.fan_parts.specs.declared.jobs.PrintJob.{PrintJob};
ghost use Rattle.notify_queue.specs.Ends.{Sending};
ghost use Rattle.pool_model.specs.Passes.{AreAllEnds};
ghost use Rattle.pool_model.specs.Seen.{EndSeen, PoolId};
ghost use Rattle.run_gathering.specs.Awaited.{TableSeen};
ghost use Rattle.run_gathering.specs.Dealt.{AreAllDealt};
ghost use Rattle.run_notes.specs.Accounts.{AllDone};
ghost use Rattle.run_printing.specs.Ends.{IsBaseOf, IsNewBase};
ghost use Rattle.run_stages.specs.Stages.{AllRan, AllReady};
ghost use Rattle.run_tasks.specs.declared.world.TaskEnds.{TaskEnds};
ghost use Rattle.run_tasks.specs.Seen.{TaskSeen, WorldSeen};
ghost use Rattle.run_tasks.specs.Worlds.{AreEndsFor, Follows, TaskRan, told_of};
ghost use Rattle.run_threads.specs.declared.gatherer.GatherSlot.{GatherSlot};
ghost use Rattle.run_threads.specs.declared.worker.WorkerSlot.{WorkerSlot};
ghost use Rattle.run_threads.specs.Slots.{HasGatheredIn, HasWorked, IsReadyToGather, IsReadyToWork};
ghost use Rattle.run_setup.specs.Closing.{AreEndsOf, AreGathered, AreTaskEnds, AreWorldEnds, HaveWorked, IsPrinterBase, IsPrinterEnd, some_refused};
ghost use Rattle.run_setup.specs.Ids.{RunIds};
ghost use Rattle.run_setup.specs.Slots.{AreGatherSlots, AreWorkers, HaveTables, IsNewWorld};

use fan_parts::RunName;

/// The slots of a new run are ready for their threads, where each base has its own table, and its printer's base is new.
pub fn a_setup_is_ready<N: RunName>()
    ensures gatherers { (ids : RunIds) (slots : List (GatherSlot N N.RunName)) (tables : List TableSeen) → AreGatherSlots N.asked ids slots
        → HaveTables slots tables → AreAllDealt N.asked tables → AllReady (IsReadyToGather N.asked) slots }
    ensures workers { (ids : RunIds) (pool : PoolId) (slots : List (WorkerSlot TaskSeen (WorldSeen N))) → AreWorkers ids pool slots
        → AllReady (IsReadyToWork pool) slots }
    ensures printer { (ids : RunIds) (base : BaseSeen (PrintJob N))
        → base ≡ new_base (printer_exec N.asked.bases) 0 ids.printer (N.asked.bases + 1) → IsNewBase base }
{}

/// What the threads leave is what the close asks for; and where no world notes want of memory, each task that a worker took was done.
pub fn what_ran_can_be_closed<N: RunName>()
    ensures gathered { (ids : RunIds) (old new : List (GatherSlot N N.RunName)) → AreGatherSlots N.asked ids old → AllRan HasGatheredIn old new
        → AreGathered N.asked ids new }
    ensures worked { (old new : List (WorkerSlot TaskSeen (WorldSeen N))) → AllRan (HasWorked TaskRan) old new → HaveWorked new }
    ensures worlds { (ids : RunIds) (pool : PoolId) (slots : List (WorkerSlot TaskSeen (WorldSeen N)))
        (ends : List EndSeen) (worlds : List (TaskEnds N)) → AreWorkers ids pool slots → AreEndsOf slots ends worlds → AreWorldEnds ids worlds }
    ensures ends { (ids : RunIds) (pool : PoolId) (slots : List (WorkerSlot TaskSeen (WorldSeen N)))
        (ends : List EndSeen) (worlds : List (TaskEnds N)) → AreWorkers ids pool slots → AreEndsOf slots ends worlds
        → AreAllEnds pool ids.workers ends }
    ensures done { (ids : RunIds) (pool : PoolId) (slots : List (WorkerSlot TaskSeen (WorldSeen N)))
        (ends : List EndSeen) (worlds : List (TaskEnds N)) → AreWorkers ids pool slots → AreEndsOf slots ends worlds
        → All (λ w. w.refused ≡ false) worlds → AllDone ends }
    ensures printed { (ids : RunIds) (old new : BaseSeen (PrintJob N))
        → old ≡ new_base (printer_exec N.asked.bases) 0 ids.printer (N.asked.bases + 1) → IsBaseOf old new → IsPrinterBase N.asked ids new }
    ensures front { (ids : RunIds) (old new : WorldSeen N) (ends : TaskEnds N) → IsNewWorld ids 0 old → Follows old new
        → AreEndsFor (map told_of new.posters) ends.posters.items
        → ends.pass ≡ new.pass → (ends.refused ≡ false → (new.refused ≡ false) × (ends.tally.handed ≡ new.tally.handed)) → AreTaskEnds ids 0 ends }
    ensures poster { (ids : RunIds) (e : Sending (PrintJob N)) → e.queue ≡ ids.printer → e.number ≡ 0 → IsPrinterEnd N.asked ids 0 e }
{}

/// Where a run notes no want of memory, none of its stages and worlds does.
pub fn nothing_was_refused<N: RunName>()
    ensures worlds { (gatherers : List (GatherSlot N N.RunName)) (worlds : List (TaskEnds N)) (front : TaskEnds N)
        → some_refused gatherers worlds front ≡ false → All (λ w. w.refused ≡ false) worlds }
    ensures front { (gatherers : List (GatherSlot N N.RunName)) (worlds : List (TaskEnds N)) (front : TaskEnds N)
        → some_refused gatherers worlds front ≡ false → front.refused ≡ false }
{}
