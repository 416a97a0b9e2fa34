use event_base::EventBase;
use fan_parts::{BasePoster, GatherJob, PrintJob, RunName, RunShards};
use run_gathering::{GatherStage, PartTable, gather};
use run_stages::Stage;
use std::alloc::Global;
use std::sync::Wait;

/// The stage of a gathering base: the base, its poster to the printer's base and what is awaited of its queries before it has run, what
/// it came to afterwards, and the shards.
pub struct GatherSlot<'r, 'i: 'r, N: RunName> {
    pub base: Option<EventBase<GatherJob<N>>>,
    pub printer: Option<BasePoster<PrintJob<N>>>,
    pub table: Option<PartTable<'r, 'i, N>>,
    pub shards: RunShards<'i, N>,
    pub stage: Option<GatherStage<N>>,
    pub alloc: Global,
}

impl<'r, 'i: 'r, N: RunName + 'static> Stage<()> for GatherSlot<'r, 'i, N> {
    ghost use Rattle.run_threads.specs.Slots.{HasGatheredIn, IsReadyToGather};

    ghost ready = { λ shared slot. IsReadyToGather N.asked slot };

    ghost ran = { λ shared old new. HasGatheredIn old new };

    /// Gathers until all posters to the base have ended. It may wait.
    fn run<R: Wait>(&mut self, rt: &R, _shared: &()) {
        let Some(base) = self.base.take() else {
            unreachable!()
        };
        let Some(printer) = self.printer.take() else {
            unreachable!()
        };
        let Some(table) = self.table.take() else {
            unreachable!()
        };
        let stage = gather(rt, self.alloc, base, printer, self.shards.again(), table);
        let none = self.stage.replace(stage);
        let None = none else { unreachable!() };
    }
}
