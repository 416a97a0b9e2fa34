use event_base::EventBase;
use fan_base::Sink;
use fan_parts::{PrintJob, RunName};
use run_printing::{PrintStage, print_replies};
use run_stages::Stage;
use std::alloc::Global;
use std::sync::Wait;

/// The printer's stage: its base before it has run, what it came to afterwards, and the sink. All of them are lent.
pub struct PrinterSlot<'k, N: RunName, K> {
    pub base: &'k mut Option<EventBase<PrintJob<N>>>,
    pub sink: &'k mut K,
    pub stage: &'k mut Option<PrintStage<PrintJob<N>>>,
    pub alloc: Global,
}

impl<'k, N: RunName, K: Sink> Stage<()> for PrinterSlot<'k, N, K> {
    ghost use Rattle.run_threads.specs.Slots.{HasPrintedIn, IsReadyToPrint};

    ghost ready = { λ shared slot. IsReadyToPrint slot };

    ghost ran = { λ shared old new. HasPrintedIn N.asked.lines K.holds K.faults old new };

    fn run<R: Wait>(&mut self, rt: &R, _shared: &()) {
        let Some(base) = self.base.take() else {
            unreachable!()
        };
        let stage = print_replies(rt, self.alloc, base, &mut *self.sink);
        let none = self.stage.replace(stage);
        let None = none else { unreachable!() };
    }
}
