ghost use Rattle.std.specs.Prelude.{◌≡◌, ℕ, [], false, IfSome, length};
ghost use Rattle.notify_queue.specs.Ends.{AreAllEnds, IsDry};
ghost use Rattle.event_base.specs.Closing.{AreOn, held_by};
ghost use Rattle.event_base.specs.Looping.{HoldsNoCallback, IsLoop};
ghost use Rattle.fan_model.specs.Tasks.{printer_exec};
ghost use Rattle.fan_parts.specs.Heads.{gather_head};
ghost use Rattle.run_gathering.specs.Dealt.{AwaitsAll};
ghost use Rattle.run_gathering.specs.Gathering.{HoldsScorings, Runs, TookIn};
ghost use Rattle.run_gathering.specs.Stages.{CameTo, IsSameBase};

use crate::table::PartTable;
use crate::world::Gathering;
use core_word::Tally;
use event_base::{BaseEnd, EventBase, LoopEnd, QueueNote, Why, rounds_keep_the_base};
use fan_parts::{BasePoster, GatherJob, PrintJob, RunName, RunShards, spend_gather_job};
use notify_queue::SenderEnd;
use std::alloc::Global;
use std::sync::Wait;

type GatherBase<N> = EventBase<GatherJob<N>>;

/// A gathering base that has run. It must be spent by [`close_gathering`].
pub struct GatherStage<N: RunName> {
    pub base: GatherBase<N>,
    /// The end of its poster to the printer's base.
    pub printer: SenderEnd<PrintJob<N>>,
    pub tally: Tally,
    /// Whether memory was refused.
    pub refused: bool,
}

/// The end of a gathering base.
pub struct GatherEnd<N: RunName> {
    pub queue: QueueNote,
    pub printer: SenderEnd<PrintJob<N>>,
    pub tally: Tally,
    pub refused: bool,
}

/// Runs a gathering base until all its posters have ended and nothing is left, or until a round finds no memory, and ends its poster to
/// the printer's base. `table` is the table of this base, which awaits all parts of its queries, so that each part that is posted to it finds
/// its desk. What is awaited at the end is spent. It may wait.
pub fn gather<'r, 'i: 'r, N: RunName + 'static, R: Wait>(
    rt: &R,
    alloc: Global,
    base: GatherBase<N>,
    printer: BasePoster<PrintJob<N>>,
    shards: RunShards<'i, N>,
    table: PartTable<'r, 'i, N>,
) -> GatherStage<N>
    requires exec { printer.exec ≡ printer_exec N.asked.bases }
    requires holds { HoldsScorings base.agenda }
    requires table { AwaitsAll N.asked base.agenda.exec table }
    ensures base { IsSameBase base result.base }
    ensures did { CameTo base result.base printer.sender result.printer result.tally result.refused }
    ensures closed { result.refused ≡ false → IsDry result.base.queue × HoldsNoCallback result.base.agenda }
    ensures empty { result.refused ≡ false → held_by result.base.agenda ≡ [] }
{
    let mut base = base;
    let mut world = Gathering::new(alloc, shards, table, printer);
    until_closed(rt, &mut base, &mut world);
    let (printer, tally, refused) = world.into_parts();
    GatherStage {
        base,
        printer: printer.end(rt),
        tally,
        refused,
    }
}

/// Runs it until it is closed, or a round finds no memory.
fn until_closed<'r, 'i: 'r, N: RunName + 'static, R: Wait>(
    rt: &R,
    base: &mut GatherBase<N>,
    world: &mut Gathering<'r, 'i, N>,
)
    requires { HoldsScorings base.old.agenda }
    ensures did { TookIn world.old base.old world.new base.new }
    ensures base { IsSameBase base.old base.new }
    ensures closed { world.new.refused ≡ false → IsDry base.new.queue × HoldsNoCallback base.new.agenda }
{
    for _ in rt.forever() {
        match loop_once_more(rt, base, world) {
            Some(Why::Closed) => return,
            Some(Why::Terminated) => {}
            None => {
                world.refused = true;
                return;
            }
        }
    }
    unreachable!()
}

/// One loop of the base, and why it ended. None: a round found no memory.
fn loop_once_more<'r, 'i: 'r, N: RunName + 'static, R: Wait>(
    rt: &R,
    base: &mut GatherBase<N>,
    world: &mut Gathering<'r, 'i, N>,
) -> Option<Why>
    requires { HoldsScorings base.old.agenda }
    ensures did { TookIn world.old base.old world.new base.new }
    ensures base { IsSameBase base.old base.new }
    ensures closed { result ≡ Some Why.Closed → IsDry base.new.queue × HoldsNoCallback base.new.agenda }
    ensures whole { IfSome result (λ why. (rounds : ℕ) × IsLoop gather_head Runs rounds why world.old base.old world.new base.new) }
{
    rounds_keep_the_base::<Gathering<'r, 'i, N>, GatherJob<N>>();
    match base.loop_until_closed(rt, world) {
        Ok(LoopEnd { rounds: _, why }) => Some(why),
        Err(_) => None,
    }
}

/// Ends a gathering base, with the ends of all its posters, and spends what it holds still.
pub fn close_gathering<N: RunName, R: Wait>(
    rt: &R,
    stage: GatherStage<N>,
    ends: Vec<SenderEnd<GatherJob<N>>>,
) -> GatherEnd<N>
    requires ends { AreAllEnds stage.base.queue ends.items }
    requires posts { AreOn gather_head stage.base.agenda.exec ends.items }
    ensures exec { result.queue.exec ≡ stage.base.agenda.exec }
    ensures note { IsDry stage.base.queue → (result.queue.put ≡ result.queue.taken) × (result.queue.left ≡ 0) }
    ensures taken { result.queue.taken ≡ length stage.base.queue.taken }
    ensures printer { result.printer ≡ stage.printer }
    ensures tally { IsDry stage.base.queue → held_by stage.base.agenda ≡ [] → result.tally ≡ stage.tally }
    ensures refused { result.refused ≡ stage.refused }
{
    let GatherStage {
        base,
        printer,
        mut tally,
        refused,
    } = stage;
    let BaseEnd { queue, mut rest } = base.close(rt, ends);
    while let Some(job) = rest.pop() {
        spend_gather_job(job, &mut tally);
    }
    rest.end();
    GatherEnd {
        queue,
        printer,
        tally,
        refused,
    }
}
