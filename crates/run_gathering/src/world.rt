ghost use Rattle.std.specs.Prelude.{◌≡◌, true, false, List, length};
ghost use Rattle.core_word.specs.declared.view.Sight.TheVariants as seen;
ghost use Rattle.fan_model.specs.Tasks.{printer_exec};
ghost use Rattle.fan_parts.specs.declared.jobs.PrintJob.{PrintJob};
ghost use Rattle.run_gathering.specs.Gathering.{GathersBy, IsValue, PutsFire, no_counts};

use crate::table::PartTable;
use core_word::{Producer, Tally};
use fan_base::{Refused, Try};
use fan_parts::{
    BasePoster, PlacedReply, PrintJob, ReplyCallback, RunName, RunShards, Scoring, fulfil_awaited,
    spend_print_job, spend_scoring,
};
use std::alloc::Global;
use std::collections::VecDeque;
use std::marker::Model;
use std::sync::Wait;

/// What a gathering base works on: the shards, what is awaited of its queries, the scorings that are scheduled, the poster to the
/// printer's base, what became of cores, and whether memory was refused. It must be spent by `into_parts`.
pub struct Gathering<'r, 'i, N: RunName> {
    pub(crate) shards: RunShards<'i, N>,
    pub(crate) table: PartTable<'r, 'i, N>,
    pub(crate) scorings: VecDeque<Scoring<'i, N>>,
    printer: BasePoster<PrintJob<N>>,
    pub(crate) tally: Tally,
    pub(crate) refused: bool,
    pub(crate) alloc: Global,
}

impl<'r, 'i, N: RunName> Model for Gathering<'r, 'i, N> {
    ghost use Rattle.std.specs.Prelude.{◌≡◌, length};
    ghost use Rattle.fan_model.specs.Tasks.{printer_exec};
    ghost use Rattle.run_gathering.specs.Seen.{GatheringSeen};

    ghost Value = { GatheringSeen N };

    ghost view = { λ w. record { printer = w.printer; tally = w.tally; refused = w.refused; waiting = length w.scorings.items } };

    ghost invariant = { λ w. w.printer.exec ≡ printer_exec N.asked.bases };
}

impl<'r, 'i: 'r, N: RunName> Gathering<'r, 'i, N> {
    /// One that has done nothing.
    pub fn new(
        alloc: Global,
        shards: RunShards<'i, N>,
        table: PartTable<'r, 'i, N>,
        printer: BasePoster<PrintJob<N>>,
    ) -> Gathering<'r, 'i, N>
        requires { printer.exec ≡ printer_exec N.asked.bases }
        ensures { result ≡ record { printer = printer; tally = no_counts; refused = false; waiting = 0 } }
    {
        Gathering {
            shards,
            table,
            scorings: VecDeque::new(alloc),
            printer,
            tally: Tally::new(),
            refused: false,
            alloc,
        }
    }

    /// The poster, the tally, and whether memory was refused. What is awaited still and scorings that are left are spent: their queries'
    /// cores get want of memory.
    pub fn into_parts(self) -> (BasePoster<PrintJob<N>>, Tally, bool)
        ensures { self.entry ≡ record { printer = result.0; tally = result.1; refused = result.2; waiting = self.entry.waiting } }
    {
        let Gathering {
            shards: _,
            table,
            scorings,
            printer,
            tally,
            refused,
            alloc: _,
        } = self;
        table.close();
        let mut scorings = scorings;
        'scorings: while let Some(scoring) = scorings.pop_front() {
            spend_scoring(scoring, &mut Tally::new());
        }
        scorings.destroy_empty();
        (printer, tally, refused)
    }

    /// Fulfils a core whose callback waits with this outcome, which is a value where no refusal is noted, frees it, and posts the fire to the
    /// printer's base.
    pub(crate) fn fulfil<P, R: Wait>(
        &mut self,
        rt: &R,
        producer: Producer<'_, PlacedReply<N>, ReplyCallback<N>, P>,
        outcome: Try<PlacedReply<N>>,
    )
        requires awaited { producer.sight ≡ seen.CallbackLeft }
        requires answer { self.old.refused ≡ false → IsValue outcome }
        ensures did { (posts : List (PrintJob N)) × GathersBy 0 0 posts self.old self.new × (self.new.refused ≡ false → length posts ≡ 1) }
        ensures fire { self.new.refused ≡ false → PutsFire outcome self.old self.new }
        ensures waiting { self.new.waiting ≡ self.old.waiting }
    {
        let fire = fulfil_awaited(producer, outcome, &mut self.tally);
        match self.printer.post(rt, PrintJob::Replied(fire)) {
            Ok(()) => {}
            Err(Refused::Memory(job)) => {
                self.refused = true;
                spend_print_job(job, &mut self.tally);
            }
        }
    }
}
