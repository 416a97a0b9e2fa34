ghost use Rattle.std.specs.Prelude.{◌≤◌, IfOk};
ghost use Rattle.run_setup.specs.Opening.{HasOpened};

use event_base::EventBase;
use fan_base::{ExecId, Memory};
use fan_parts::{GatherJob, PrintJob, RunName};
use prio_pool::{Pool, PoolParts};
use run_bases::{Bases, Column, close_unused, open_base, open_bases};
use run_tasks::ShardTask;
use std::alloc::Global;
use std::sync::Wait;

/// The bases, their posters, and the pool.
pub(crate) struct Opened<'t, 'i: 't, N: RunName> {
    pub(crate) gathering: Bases<GatherJob<N>>,
    pub(crate) printer: EventBase<PrintJob<N>>,
    pub(crate) column: Column<PrintJob<N>>,
    pub(crate) parts: PoolParts<ShardTask<'t, 'i, N>>,
}

/// Opens all bases and the pool. Where memory runs out, those that were opened are closed.
pub(crate) fn open_all<'t, 'i: 't, N: RunName + 'static, R: Wait>(
    rt: &R,
    alloc: Global,
    workers: u32,
    bases: u32,
) -> Result<Opened<'t, 'i, N>, Memory>
    requires workers { (1 ≤ workers) × (workers ≤ 32) }
    requires bases { bases ≤ 8 }
    ensures { IfOk result (λ opened. HasOpened N.asked workers bases opened) }
{
    let gathering = open_bases(rt, alloc, 1, bases, workers + 1)?;
    let Ok((printer, column)) = open_base(alloc, ExecId(bases + 1), bases + 1) else {
        gathering.give_up(rt, workers + 1);
        return Err(Memory);
    };
    match Pool::new(alloc, ExecId(0), 3, 1, workers, 1, 0) {
        Ok(parts) => Ok(Opened {
            gathering,
            printer,
            column,
            parts,
        }),
        Err(Memory) => {
            close_unused(rt, printer, column, bases + 1);
            gathering.give_up(rt, workers + 1);
            Err(Memory)
        }
    }
}
