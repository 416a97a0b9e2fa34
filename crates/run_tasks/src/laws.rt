ghost use Rattle.std.specs.Prelude.{◌≡◌, List, false, length};
ghost use Rattle.std.specs.List.{All};
ghost use Rattle.fan_base.specs.declared.number.Mark.TheVariants as mark;
ghost use Rattle.fan_model.specs.Report.{Asking};
ghost use Rattle.fan_model.specs.Tasks.{queue_of, task_run};
ghost use Rattle.fan_parts.specs.Facts.{IsAskOf};
ghost use Rattle.run_tasks.specs.Heads.{task_head};
ghost use Rattle.run_tasks.specs.Seen.{TaskSeen, WorldSeen};
ghost use Rattle.run_tasks.specs.Leaving.{CountsTasks};
ghost use Rattle.run_tasks.specs.Worlds.{Follows, TaskRan};
ghost use Rattle.job_trait.specs.Marks.{IsDone};
ghost use Rattle.job_trait.specs.Runs.{Leads, Ran};
ghost use Rattle.pool_model.specs.Records.{Record, ran_of};

use fan_parts::RunName;

/// The run of a task as its head tells it, done and from the queue of its query's priority, is the one that a report expects of its query
/// and shard on its executor. This function does nothing: its clause is the law.
pub fn heads_are_runs()
    ensures { (asked : Asking) (task : TaskSeen) (is_ask : IsAskOf asked task.ask.number task.ask.asks task.ask.before) →
        let head = task_head asked task in
        task_run asked.lines asked.shards task.exec is_ask.query task.shard
        ≡ record { queue = queue_of is_ask.query.query.prio; exec = head.exec; id = head.id; mark = mark.Done head.number } }
{}

/// What tasks that ran one after another keep of their world; and where it doesn't note at the end that memory was refused, each of their
/// records is of a run that was done, and its tally counts cores that they freed. This function does nothing: its clauses are the law.
pub fn tasks_keep_their_world<N: RunName>()
    ensures follows { (w v : WorldSeen N) (list : List Ran) → Leads TaskRan w list v → Follows w v }
    ensures done { (w v : WorldSeen N) (records : List Record) → Leads TaskRan w (ran_of records) v → v.refused ≡ false → All (λ r. IsDone r.mark) records }
    ensures tally { (w v : WorldSeen N) (records : List Record) → Leads TaskRan w (ran_of records) v → v.refused ≡ false → CountsTasks (length records) w.tally v.tally }
{}
