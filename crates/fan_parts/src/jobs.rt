ghost use Rattle.std.specs.Prelude.{◌≡◌};
ghost use Rattle.fan_parts.specs.Facts.{IsScoring};

use crate::ask::NumberedAsk;
use crate::cores::{InnerProducer, ReplyFire, TaskFire};
use crate::reply::CancelledReply;
use crate::run_name::RunName;
use fan_base::{ExecId, JobId};
use job_trait::Headed;
use query_parts::Ranking;
use std::marker::Model;

// The first id of scorings: all ids of tasks are below it.
const FIRST_SCORING: u64 = 4_294_967_296;

/// The scoring of a `top`, whose words' weights are known: the shards are scored, and the inner core gets the reply. It must be spent.
pub struct Scoring<'i, N: RunName> {
    inner: InnerProducer<'i, N>,
    ask: NumberedAsk<'i, N>,
    place: u32,
    ranking: Ranking,
}

impl<'i, N: RunName> Model for Scoring<'i, N> {
    ghost use Rattle.fan_parts.specs.Facts.{IsScoring};
    ghost use Rattle.fan_parts.specs.Seen.{ScoringSeen};

    ghost Value = { ScoringSeen };

    ghost view = { λ s. record { inner = s.inner; ask = s.ask; place = s.place; ranking = s.ranking } };

    ghost invariant = { λ s. IsScoring N.asked (record { inner = s.inner; ask = s.ask; place = s.place; ranking = s.ranking }) };

    ghost use Rattle.query_grammar.specs.contracts.expr.Expr as expr;
    ghost use Rattle.std.specs.Coded.{codes};

    ghost coded = { Prim.hlevel (codes, expr.the_row.coded) };
}

impl<'i, N: RunName> Scoring<'i, N> {
    /// The scoring of this query by this ranking.
    pub fn new(
        inner: InnerProducer<'i, N>,
        ask: NumberedAsk<'i, N>,
        place: u32,
        ranking: Ranking,
    ) -> Scoring<'i, N>
        requires { IsScoring N.asked (record { inner = inner; ask = ask; place = place; ranking = ranking }) }
        ensures { result ≡ record { inner = inner.entry; ask = ask.entry; place = place; ranking = ranking } }
    {
        Scoring {
            inner,
            ask,
            place,
            ranking,
        }
    }

    /// The producer of the inner core, the query, the place of its reply, and its ranking.
    pub fn into_parts(self) -> (InnerProducer<'i, N>, NumberedAsk<'i, N>, u32, Ranking)
        ensures parts { result ≡ (self.entry.inner, self.entry.ask, self.entry.place, self.entry.ranking) }
        ensures is_scoring { IsScoring N.asked self.entry }
    {
        let Scoring {
            inner,
            ask,
            place,
            ranking,
        } = self;
        (inner, ask, place, ranking)
    }

    /// The place of its reply.
    pub fn place(&self) -> u32
        ensures { result ≡ self.now.place }
    {
        self.place
    }
}

/// That the scoring of the query whose reply has a place is to be made, on the base with this executor. It may be dropped.
#[derive(Clone, Copy, Debug, PartialEq, Eq)]
pub struct ScoreCall {
    pub place: u32,
    pub exec: ExecId,
}

/// What runs on a gathering base. A fire must be unpacked.
pub enum GatherJob<N: RunName> {
    /// A part that fired, posted by who got the fire.
    Task(TaskFire<N>),
    /// A loop callback.
    Score(ScoreCall),
}

impl<N: RunName> Headed for GatherJob<N> {
    ghost use Rattle.fan_parts.specs.Heads.{gather_head};

    ghost head = { gather_head };

    fn id(&self) -> JobId {
        match self {
            GatherJob::Task(fire) => {
                let callback = fire.callback();
                JobId(64 * u64::from(callback.number()) + u64::from(callback.shard()))
            }
            GatherJob::Score(call) => JobId(FIRST_SCORING + u64::from(call.place)),
        }
    }

    fn exec(&self) -> ExecId {
        match self {
            GatherJob::Task(fire) => fire.callback().exec(),
            GatherJob::Score(call) => call.exec,
        }
    }
}

/// What runs on the printer's base. A fire must be unpacked.
pub enum PrintJob<N: RunName> {
    /// A reply that fired.
    Replied(ReplyFire<N>),
    /// The reply of a query that has no core.
    Cancelled(CancelledReply<N>),
}

impl<N: RunName> Headed for PrintJob<N> {
    ghost use Rattle.fan_model.specs.Tasks.{printer_exec};
    ghost use Rattle.fan_parts.specs.Heads.{print_id};

    ghost head = { λ job. record { id = record { 0 = print_id job }; exec = printer_exec N.asked.bases; number = 0 } };

    fn id(&self) -> JobId {
        match self {
            PrintJob::Replied(fire) => JobId(fire.no()),
            PrintJob::Cancelled(reply) => JobId(u64::from(reply.place())),
        }
    }

    fn exec(&self) -> ExecId {
        match self {
            PrintJob::Replied(fire) => fire.callback().exec(),
            PrintJob::Cancelled(reply) => reply.exec(),
        }
    }
}
