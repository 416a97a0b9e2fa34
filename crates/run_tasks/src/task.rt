ghost use Rattle.std.specs.Prelude.{◌≡◌, ◌<◌};
ghost use Rattle.fan_model.specs.Tasks.{job_of};
ghost use Rattle.run_tasks.specs.Heads.{task_head};

use fan_base::{ExecId, JobId};
use fan_parts::{NumberedAsk, RunName, TaskProducer};
use job_trait::Headed;
use std::marker::Model;

/// The task of a query over a shard. It must be run.
pub struct ShardTask<'t, 'i, N: RunName> {
    pub(crate) producer: TaskProducer<'t, N>,
    pub(crate) ask: NumberedAsk<'i, N>,
    pub(crate) shard: u32,
    pub(crate) exec: ExecId,
}

impl<'t, 'i, N: RunName> Model for ShardTask<'t, 'i, N> {
    ghost use Rattle.std.specs.Prelude.{◌≡◌, ◌<◌};
    ghost use Rattle.fan_model.specs.Tasks.{job_of};
    ghost use Rattle.run_tasks.specs.Seen.{TaskSeen};

    ghost Value = { TaskSeen };

    ghost view = { λ t. record { producer = t.producer; ask = t.ask; shard = t.shard; exec = t.exec } };

    ghost invariant = { λ t. (t.shard < N.asked.shards) × (t.producer.no ≡ (job_of t.ask.number t.shard).0) };

    ghost use Rattle.query_grammar.specs.contracts.expr.Expr as expr;
    ghost use Rattle.std.specs.Coded.{codes};

    ghost coded = { Prim.hlevel (codes, expr.the_row.coded) };
}

impl<'t, 'i: 't, N: RunName> ShardTask<'t, 'i, N> {
    /// The task of this query over the shard with this number. It sets the value of the producer's core, which has the task's number, and
    /// runs on this executor.
    pub fn new(
        producer: TaskProducer<'t, N>,
        ask: NumberedAsk<'i, N>,
        shard: u32,
        exec: ExecId,
    ) -> ShardTask<'t, 'i, N>
        requires shard { shard < N.asked.shards }
        requires core { producer.no ≡ (job_of ask.number shard).0 }
        ensures { result ≡ record { producer = producer.entry; ask = ask.entry; shard = shard; exec = exec } }
    {
        ShardTask {
            producer,
            ask,
            shard,
            exec,
        }
    }
}

impl<'t, 'i: 't, N: RunName> Headed for ShardTask<'t, 'i, N> {
    ghost use Rattle.run_tasks.specs.Heads.{task_head};

    ghost head = { task_head N.asked };

    fn id(&self) -> JobId {
        JobId(64 * u64::from(self.ask.number()) + u64::from(self.shard))
    }

    fn exec(&self) -> ExecId {
        self.exec
    }
}
