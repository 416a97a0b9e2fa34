//! What is done with what must be spent, where a post, an add or a close finds no memory: no continuation runs. A query whose parts don't all
//! come is answered with want of memory, to nobody, once its base closes its table.
ghost use Rattle.std.specs.Prelude.{◌≡◌};
ghost use Rattle.fan_parts.specs.Spending.{SpendsGatherJob, SpendsPrintJob, with_core, with_fire};

use crate::awaited::fulfil_awaited;
use crate::cores::{End, ReplyFire, TaskFire};
use crate::jobs::{GatherJob, PrintJob, Scoring};
use crate::run_name::RunName;
use core_word::Tally;
use fan_base::Try;

/// Spends a fire of a task's core: its part and its callback are dropped. The part stays awaited with its query's base.
pub fn spend_task<N: RunName>(fire: TaskFire<N>, t: &mut Tally)
    ensures { t.new ≡ with_fire t.old }
{
    let (_no, _outcome, _callback) = fire.unpack(t);
}

/// Spends the end of a desk: its reply's core gets want of memory, and the fire of that is spent.
pub fn spend_end<N: RunName>(end: End<'_, '_, N>, t: &mut Tally)
    ensures { t.new ≡ with_core t.old }
{
    let (reply, _ask, _place, _inner) = end.into_parts();
    let fire = fulfil_awaited(reply, Try::Memory, t);
    spend_reply(fire, t);
}

/// Spends a fire of a reply's core or an inner core: its outcome and its callback are dropped.
pub fn spend_reply<N: RunName>(fire: ReplyFire<N>, t: &mut Tally)
    ensures { t.new ≡ with_fire t.old }
{
    let (_no, _outcome, _callback) = fire.unpack(t);
}

/// Spends a scoring: its inner core gets want of memory, and the fire of that is spent.
pub fn spend_scoring<N: RunName>(scoring: Scoring<'_, N>, t: &mut Tally)
    ensures { t.new ≡ with_core t.old }
{
    let (inner, _ask, _place, _ranking) = scoring.into_parts();
    let fire = fulfil_awaited(inner, Try::Memory, t);
    spend_reply(fire, t);
}

/// Spends what was for a gathering base.
pub fn spend_gather_job<N: RunName>(job: GatherJob<N>, t: &mut Tally)
    ensures { SpendsGatherJob job t.old t.new }
{
    match job {
        GatherJob::Task(fire) => spend_task(fire, t),
        GatherJob::Score(_call) => {}
    }
}

/// Spends what was for the printer's base.
pub fn spend_print_job<N: RunName>(job: PrintJob<N>, t: &mut Tally)
    ensures { SpendsPrintJob job t.old t.new }
{
    match job {
        PrintJob::Replied(fire) => spend_reply(fire, t),
        PrintJob::Cancelled(_reply) => {}
    }
}
