ghost use Rattle.std.specs.Prelude.{◌≡◌, false, true, [], ◌∷◌};
ghost use Rattle.fan_base.specs.declared.number.Mark.TheVariants as mark;
ghost use Rattle.job_trait.specs.Marks.{IsMarkOf};
ghost use Rattle.reply_printer.specs.Printing.{KeepsPrinting};
ghost use Rattle.run_printing.specs.Events.{Event, IsOf, event_of, mark_by, mark_of};
ghost use Rattle.run_printing.specs.Worlds.{IsUpToDate, LeavesCounts, PrintsEvent, RunsAs, sink_of};

use core_word::Tally;
use fan_base::{Mark, Sink, Try};
use fan_parts::{CancelledReply, PlacedReply, ReplyFire, RunName};
use query_model::Reply;
use reply_printer::{Printer, Progress};
use std::alloc::Global;

/// What the printer's base prints with. It is lent to each message that runs there.
pub struct PrintWorld<'w, K> {
    pub(crate) alloc: Global,
    pub(crate) printer: &'w mut Printer,
    pub(crate) sink: &'w mut K,
    pub(crate) tally: &'w mut Tally,
    // Whether a core fired without a reply.
    pub(crate) missed: bool,
}

impl<'w, K: Sink> PrintWorld<'w, K> {
    // Unpacks a fire, and prints its reply.
    pub(crate) fn take_fire<N: RunName>(&mut self, fire: ReplyFire<N>) -> Mark
        ensures ran { RunsAs N.asked.lines K.holds K.faults (event_of fire.outcome) self.old self.new }
        ensures mark { IsMarkOf 0 result }
        ensures told { result ≡ mark_by (event_of fire.outcome) self.new.printer.now.progress }
    {
        let (_, outcome, _) = fire.unpack(&mut *self.tally);
        self.take_outcome(outcome)
    }

    // Prints the reply of a core that fired, or notes that it is missing.
    fn take_outcome<N: RunName>(&mut self, outcome: Try<PlacedReply<N>>) -> Mark
        ensures is_of { IsOf N.asked.lines (event_of outcome) }
        ensures did { PrintsEvent N.asked.lines K.holds K.faults (event_of outcome) self.old self.new }
        ensures tally { self.new.tally.now ≡ self.old.tally.now }
        ensures mark { IsMarkOf 0 result }
        ensures told { result ≡ mark_by (event_of outcome) self.new.printer.now.progress }
    {
        match outcome {
            Try::Value(reply) => self.take_answer(reply),
            Try::Broken | Try::Memory | Try::Cancelled(_) => self.miss(),
        }
    }

    fn take_answer<N: RunName>(&mut self, reply: PlacedReply<N>) -> Mark
        ensures is_of { IsOf N.asked.lines (Event.answered reply.place reply.number reply.reply) }
        ensures did { PrintsEvent N.asked.lines K.holds K.faults (Event.answered reply.place reply.number reply.reply) self.old self.new }
        ensures tally { self.new.tally.now ≡ self.old.tally.now }
        ensures mark { IsMarkOf 0 result }
        ensures told { result ≡ mark_of self.new.printer.now.progress }
    {
        let (place, number, reply) = reply.into_parts();
        self.print(place, number, reply)
    }

    // Prints that a query was cancelled.
    pub(crate) fn take_cancelled<N: RunName>(&mut self, reply: CancelledReply<N>) -> Mark
        ensures ran { RunsAs N.asked.lines K.holds K.faults (Event.cancelled reply.place reply.number) self.old self.new }
        ensures mark { IsMarkOf 0 result }
        ensures told { result ≡ mark_of self.new.printer.now.progress }
    {
        let place = reply.place();
        self.print(place, reply.number(), Reply::Cancelled)
    }

    // Prints a reply at its place. The mark tells where there was no memory for it.
    fn print(&mut self, place: u32, number: u32, reply: Reply) -> Mark
        ensures keeps { KeepsPrinting ((place, (number, reply)) ∷ []) self.old.printer.now self.new.printer.now (sink_of K.holds K.faults self.old) (sink_of K.holds K.faults self.new) }
        ensures waits { IsUpToDate self.new.printer.now }
        ensures same { LeavesCounts self.old self.new }
        ensures mark { IsMarkOf 0 result }
        ensures told { result ≡ mark_of self.new.printer.now.progress }
    {
        self.printer.print(
            self.alloc,
            &mut *self.sink,
            u64::from(place),
            u64::from(number),
            reply,
        );
        match self.printer.progress() {
            Progress::Memory => Mark::Memory,
            _ => Mark::Done(0),
        }
    }

    fn miss(&mut self) -> Mark
        ensures missed { self.new ≡ record self.old { missed = true } }
        ensures mark { IsMarkOf 0 result }
        ensures told { result ≡ mark.Memory }
    {
        self.missed = true;
        Mark::Memory
    }
}
