ghost use Rattle.std.specs.Prelude.{◌≡◌, ◌+◌, ℕ, List, [], Some, true, false, IfNone, IfSome, length};
ghost use Rattle.fan_base.specs.Outcome.{fault_of};
ghost use Rattle.core_word.specs.Count.{raised};
ghost use Rattle.core_word.specs.declared.view.Sight.TheVariants as seen;
ghost use Rattle.event_base.specs.Calls.{IsReached};
ghost use Rattle.event_base.specs.Looping.{count_of_callbacks};
ghost use Rattle.fan_parts.specs.declared.jobs.PrintJob.{PrintJob};
ghost use Rattle.fan_parts.specs.Facts.{IsAnswerAt, IsRankingOf};
ghost use Rattle.fan_parts.specs.Heads.{gather_head};
ghost use Rattle.run_gathering.specs.Bringing.{HasAllParts, IsBrought};
ghost use Rattle.run_gathering.specs.Gathering.{GathersBy, HoldsFor, IsValue, Schedules, KeepsWaiting};

use crate::merge::{Gathered, gather_parts};
use crate::table::{PartBrought, PartTable};
use crate::world::Gathering;
use collect_ops::Listed;
use core_word::Tally;
use event_base::{Agenda, LoopJob, calls_in_a_row};
use fan_base::{Fault, Mark, Refused, Try};
use fan_parts::{
    End, GatherJob, InnerKey, NumberedAsk, Part, PlacedReply, ReplyProducer, RunName, ScoreCall,
    Scoring, TaskFire, forward_awaited, spend_gather_job, spend_scoring,
};
use query_parts::Ranking;
use std::alloc::{AllocFailed, Global};
use std::sync::Wait;

type GatherAgenda<N> = Agenda<GatherJob<N>>;

impl<'r, 'i: 'r, N: RunName> LoopJob<Gathering<'r, 'i, N>> for GatherJob<N> {
    ghost use Rattle.run_gathering.specs.Gathering.{Runs};

    ghost runs = { Runs };

    /// A fire's part arrives at its desk; the next scoring is made. The mark is `Memory` from the first refusal on, whichever job met it.
    fn run<R: Wait>(
        self,
        rt: &R,
        world: &mut Gathering<'r, 'i, N>,
        agenda: &mut GatherAgenda<N>,
    ) -> Mark {
        match self {
            GatherJob::Task(fire) => take_part(rt, world, agenda, fire),
            GatherJob::Score(_call) => score_next(rt, world),
        }
        if world.refused {
            Mark::Memory
        } else {
            Mark::Done(0)
        }
    }
}

/// The part of a fire is brought to its query's desk. Where it isn't awaited, nothing is done with it.
fn take_part<'r, 'i: 'r, N: RunName, R: Wait>(
    rt: &R,
    world: &mut Gathering<'r, 'i, N>,
    agenda: &mut GatherAgenda<N>,
    fire: TaskFire<N>,
)
    ensures did { (forwards : ℕ) × (posts : List (PrintJob N)) × GathersBy 1 forwards posts world.old world.new
        × HoldsFor forwards posts (world.old, agenda.old) (world.new, agenda.new) }
    ensures agenda { Schedules agenda.old agenda.new }
    ensures waits { KeepsWaiting 0 0 (world.old, agenda.old) (world.new, agenda.new) }
    ensures calls { IsReached gather_head agenda.old agenda.new }
{
    calls_in_a_row::<GatherJob<N>>();
    match bring_part(world.alloc, &mut world.table, fire, &mut world.tally) {
        PartBrought::Complete(parts, end) => complete(rt, world, agenda, parts, end),
        PartBrought::Refused(end) => refuse(rt, world, end),
        PartBrought::Kept(_receipt) => {}
        PartBrought::Unawaited => {}
    }
}

/// The outcome of a fire is brought to its query's desk. Where it isn't awaited, it is let go.
fn bring_part<'r, 'i: 'r, N: RunName>(
    alloc: Global,
    table: &mut PartTable<'r, 'i, N>,
    fire: TaskFire<N>,
    tally: &mut Tally,
) -> PartBrought<'r, 'i, N>
    ensures brought { IsBrought fire.callback.number fire.callback.shard fire.outcome table.old table.new result }
    ensures all { HasAllParts N.asked.shards result }
    ensures tally { tally.new ≡ record tally.old { handed = raised tally.old.handed } }
{
    let (_no, outcome, callback) = fire.unpack(tally);
    table.bring(alloc, callback.number(), callback.shard(), outcome)
}

/// There was no memory for a desk: its reply's core gets want of memory.
fn refuse<'r, 'i: 'r, N: RunName, R: Wait>(
    rt: &R,
    world: &mut Gathering<'r, 'i, N>,
    end: End<'r, 'i, N>,
)
    ensures did { (posts : List (PrintJob N)) × GathersBy 0 0 posts world.old world.new × (world.new.refused ≡ false → length posts ≡ 1) }
    ensures waiting { world.new.waiting ≡ world.old.waiting }
    ensures noted { world.new.refused ≡ true }
{
    let (reply, _ask, _place, _inner) = end.into_parts();
    let outcome = refusal(world, Fault::Memory);
    world.fulfil(rt, reply, outcome);
}

/// A desk is complete: its parts are merged, and its reply's core is fulfilled, or forwarded to an inner core.
fn complete<'r, 'i: 'r, N: RunName, R: Wait>(
    rt: &R,
    world: &mut Gathering<'r, 'i, N>,
    agenda: &mut GatherAgenda<N>,
    parts: Listed<Try<Part<N>>>,
    end: End<'r, 'i, N>,
)
    requires { length parts ≡ N.asked.shards }
    ensures did { (forwards : ℕ) × (posts : List (PrintJob N)) × GathersBy 0 forwards posts world.old world.new
        × HoldsFor forwards posts (world.old, agenda.old) (world.new, agenda.new) }
    ensures agenda { Schedules agenda.old agenda.new }
    ensures waits { KeepsWaiting 0 0 (world.old, agenda.old) (world.new, agenda.new) }
    ensures calls { IsReached gather_head agenda.old agenda.new }
{
    calls_in_a_row::<GatherJob<N>>();
    let (reply, ask, place, inner) = end.into_parts();
    match gather_parts(world.alloc, &ask, place, parts) {
        Ok(Gathered::Reply(answer)) => world.fulfil(rt, reply, Try::Value(answer)),
        Ok(Gathered::Ranking(ranking)) => {
            let Some(key) = inner else { unreachable!() };
            let scoring = forward(rt, reply, key, ask, place, ranking, &mut world.tally);
            schedule(world, agenda, scoring);
        }
        Err(fault) => {
            let outcome = refusal(world, fault);
            world.fulfil(rt, reply, outcome);
        }
    }
}

/// Forwards the reply's core of a ranking to an inner core, which has the number of the reply's place too, and gives the scoring that it waits for.
fn forward<'r, 'i: 'r, N: RunName, R: Wait>(
    rt: &R,
    reply: ReplyProducer<'r, 'i, N>,
    key: InnerKey<'i, N>,
    ask: NumberedAsk<'i, N>,
    place: u32,
    ranking: Ranking,
    tally: &mut Tally,
) -> Scoring<'i, N>
    requires awaited { reply.sight ≡ seen.CallbackLeft }
    requires answer { IsAnswerAt N.asked place ask.number ask.asks ask.before }
    requires ranking { IsRankingOf N.asked ask.asks ask.before ranking }
    ensures number { result.inner.no ≡ place }
    ensures tally { tally.new ≡ record tally.old { made = raised tally.old.made; forwarded = raised tally.old.forwarded; freed = raised tally.old.freed } }
{
    let inner = forward_awaited(rt, reply, key, u64::from(place), tally);
    Scoring::new(inner, ask, place, ranking)
}

/// Notes that a reply has no answer, and gives the fault as its outcome. It is want of memory: the others never come.
fn refusal<'r, 'i: 'r, N: RunName>(
    world: &mut Gathering<'r, 'i, N>,
    fault: Fault,
) -> Try<PlacedReply<N>>
    ensures did { GathersBy 0 0 [] world.old world.new }
    ensures waiting { world.new.waiting ≡ world.old.waiting }
    ensures noted { world.new.refused ≡ true }
    ensures fault { fault_of result ≡ Some fault }
{
    world.refused = true;
    match fault {
        Fault::Memory => Try::Memory,
        Fault::Broken => Try::Broken,
        Fault::Cancelled(number) => Try::Cancelled(number),
    }
}

/// Has a scoring run in the next loop phase, behind those that are scheduled. Where there is no memory for that, it is spent.
fn schedule<'r, 'i: 'r, N: RunName>(
    world: &mut Gathering<'r, 'i, N>,
    agenda: &mut GatherAgenda<N>,
    scoring: Scoring<'i, N>,
)
    ensures did { GathersBy 0 0 [] world.old world.new }
    ensures agenda { Schedules agenda.old agenda.new }
    ensures held { world.new.refused ≡ false → count_of_callbacks agenda.new ≡ count_of_callbacks agenda.old + 1 }
    ensures waits { KeepsWaiting 0 0 (world.old, agenda.old) (world.new, agenda.new) }
    ensures calls { IsReached gather_head agenda.old agenda.new }
{
    calls_in_a_row::<GatherJob<N>>();
    let call = ScoreCall {
        place: scoring.place(),
        exec: agenda.exec(),
    };
    if let Err(AllocFailed { value }) = world.scorings.push_back(scoring) {
        world.refused = true;
        spend_scoring(value, &mut world.tally);
        return;
    }
    match agenda.run_in_loop(GatherJob::Score(call)) {
        Ok(()) => {}
        Err(Refused::Memory(job)) => {
            world.refused = true;
            spend_gather_job(job, &mut world.tally);
            let Some(scoring) = world.scorings.pop_back() else {
                unreachable!()
            };
            spend_scoring(scoring, &mut world.tally);
        }
    }
}

/// The next of the scorings that are scheduled is made. None waits only where a message is, or was, a scoring job, which never comes: then want
/// of memory is noted.
fn score_next<'r, 'i: 'r, N: RunName, R: Wait>(rt: &R, world: &mut Gathering<'r, 'i, N>)
    ensures did { (posts : List (PrintJob N)) × GathersBy 0 0 posts world.old world.new × (world.new.refused ≡ false → length posts ≡ 1) }
    ensures waits { world.new.refused ≡ false → world.new.waiting + 1 ≡ world.old.waiting }
{
    match world.scorings.pop_front() {
        Some(scoring) => score(rt, world, scoring),
        None => world.refused = true,
    }
}

/// The shards are scored, and the inner core is fulfilled.
fn score<'r, 'i: 'r, N: RunName, R: Wait>(
    rt: &R,
    world: &mut Gathering<'r, 'i, N>,
    scoring: Scoring<'i, N>,
)
    ensures did { (posts : List (PrintJob N)) × GathersBy 0 0 posts world.old world.new × (world.new.refused ≡ false → length posts ≡ 1) }
    ensures waiting { world.new.waiting ≡ world.old.waiting }
{
    let (inner, ask, place, ranking) = scoring.into_parts();
    let outcome = scored(world, &ask, place, &ranking);
    world.fulfil(rt, inner, outcome);
}

/// The reply of a ranking over all shards, or want of memory, which is noted.
fn scored<'r, 'i: 'r, N: RunName>(
    world: &mut Gathering<'r, 'i, N>,
    ask: &NumberedAsk<'i, N>,
    place: u32,
    ranking: &Ranking,
) -> Try<PlacedReply<N>>
    requires answer { IsAnswerAt N.asked place ask.now.number ask.now.asks ask.now.before }
    requires ranking { IsRankingOf N.asked ask.now.asks ask.now.before ranking.now }
    ensures did { GathersBy 0 0 [] world.old world.new }
    ensures waiting { world.new.waiting ≡ world.old.waiting }
    ensures answer { world.new.refused ≡ false → IsValue result }
    ensures fault { IfSome (fault_of result) (λ fault. fault ≡ Fault.Memory) }
{
    match ranking.answer(world.alloc, world.shards.all(), ask.before()) {
        Ok(reply) => Try::Value(PlacedReply::new(place, ask.number(), reply)),
        Err(_) => refusal(world, Fault::Memory),
    }
}
