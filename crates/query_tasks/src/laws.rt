//! What the tasks of a query come to, in the words of a report. The function does nothing: its clauses are a law.
ghost use Rattle.std.specs.Prelude.{◌≡◌, ℕ, map};
ghost use Rattle.std.specs.List.{range_with_len};
ghost use Rattle.fan_base.specs.declared.number.ExecId.{ExecId};
ghost use Rattle.fan_model.specs.Report.{Asking};
ghost use Rattle.fan_model.specs.Tasks.{pool_exec, queue_of, task_run};
ghost use Rattle.fan_parts.specs.Facts.{IsAskOf};
ghost use Rattle.fan_parts.specs.Seen.{AskSeen};
ghost use Rattle.query_tasks.specs.Starting.{adds_for, runs_for};
ghost use Rattle.run_notes.specs.Told.{run_of_add};

/// The adds of a query's tasks to the queue of its priority ask for the runs that a report expects of it on the pool's executor; and the runs
/// of its tasks without the pool are those that it expects on the executor that they had.
pub fn tasks_are_runs()
    ensures added { (asked : Asking) (ask : AskSeen) (is_ask : IsAskOf asked ask.number ask.asks ask.before) (shards : ℕ) →
        map run_of_add (adds_for asked ask (queue_of is_ask.query.query.prio) shards)
        ≡ map (task_run asked.lines asked.shards pool_exec is_ask.query) (range_with_len 0 shards) }
    ensures ran_here { (asked : Asking) (ask : AskSeen) (is_ask : IsAskOf asked ask.number ask.asks ask.before) (exec : ExecId) (shards : ℕ) →
        runs_for asked ask (queue_of is_ask.query.query.prio) exec shards
        ≡ map (task_run asked.lines asked.shards exec is_ask.query) (range_with_len 0 shards) }
{}
