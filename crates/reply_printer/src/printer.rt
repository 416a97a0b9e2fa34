ghost use Rattle.std.specs.Prelude.{◌≡◌, ◌≢◌, ◌<◌, ◌^◌, ◌-◌, ◌⊎◌, [], ◌∷◌};
ghost use Rattle.fan_base.specs.Outside.{shown};
ghost use Rattle.query_model.specs.Output.{reply_text};
ghost use Rattle.reply_order.specs.Orders.{next_of};
ghost use Rattle.reply_printer.specs.Printing.{GoesOn, HasHad, IsNew, KeepsPrinting, PrintsLine, Waits};

use crate::write::write_all;
use fan_base::Sink;
use query_model::Reply;
use query_text::reply_line;
use reply_order::Orderer;
use std::alloc::Global;

/// How far a printer is.
#[derive(Clone, Copy, Debug, PartialEq, Eq)]
pub enum Progress {
    /// Each reply whose turn has come is written.
    Writing,
    /// A write failed. Nothing more is written, and replies are ordered as before.
    WriteFault,
    /// There was no memory for a reply or its line. Nothing more is written, and no reply is taken.
    Memory,
    /// A reply came for a place that had one. Nothing more is written, and no reply is taken.
    Repeated,
}

/// Writes replies in the order of their places, which come in any order.
#[derive(Drop)]
pub struct Printer {
    orderer: Orderer<(u64, Reply)>,
    progress: Progress,
}

impl Printer {
    /// A printer that was given nothing and waits for the reply of place 0.
    pub fn new(alloc: Global) -> Printer
        ensures { IsNew result }
    {
        Printer {
            orderer: Orderer::new(alloc, 0),
            progress: Progress::Writing,
        }
    }

    /// How far it is.
    pub fn progress(&self) -> Progress
        ensures { result ≡ self.now.progress }
    {
        self.progress
    }

    /// The place whose reply goes out next: all before it went out.
    pub fn next_place(&self) -> u64
        ensures { result ≡ next_of self.now.orderer }
    {
        self.orderer.next_place()
    }

    /// Takes the reply of a place, below 2^64 - 1, to the query with a number, and writes each line whose turn has come. Each write
    /// offers the sink the whole rest of a line. A printer that writes no more leaves the sink alone.
    pub fn print<K: Sink>(
        &mut self,
        alloc: Global,
        sink: &mut K,
        place: u64,
        number: u64,
        reply: Reply,
    )
        requires { place < 2 ^ 64 - 1 }
        ensures keeps { KeepsPrinting ((place, (number, reply)) ∷ []) self.old self.new
            (shown (K.holds sink.old) (K.faults sink.old)) (shown (K.holds sink.new) (K.faults sink.new)) }
        ensures waits { GoesOn self.new.progress → Waits self.new.orderer }
        ensures silent { self.old.progress ≢ Progress.Writing → sink.new ≡ sink.old }
        ensures repeated { self.new.progress ≡ Progress.Repeated → (self.old.progress ≡ Progress.Repeated) ⊎ HasHad self.old.orderer place }
    {
        match self.progress {
            Progress::Writing | Progress::WriteFault => {}
            Progress::Memory | Progress::Repeated => return,
        }
        if place < self.orderer.next_place() || self.orderer.holds(place) {
            self.progress = Progress::Repeated;
            return;
        }
        match self.orderer.put(place, (number, reply)) {
            Ok(()) => self.print_next(alloc, sink),
            Err(_) => self.progress = Progress::Memory,
        }
    }

    /// Writes each line whose turn has come.
    fn print_next<K: Sink>(&mut self, alloc: Global, sink: &mut K)
        ensures keeps { KeepsPrinting [] self.old self.new (shown (K.holds sink.old) (K.faults sink.old)) (shown (K.holds sink.new) (K.faults sink.new)) }
        ensures waits { Waits self.new.orderer }
        ensures silent { self.old.progress ≢ Progress.Writing → sink.new ≡ sink.old }
        ensures repeated { self.new.progress ≡ Progress.Repeated → self.old.progress ≡ Progress.Repeated }
    {
        'lines: while let Some((number, reply)) = self.orderer.next() {
            self.progress = print_line(alloc, sink, self.progress, number, &reply);
        }
    }
}

/// Writes the line of a reply, where all before it is written, and tells how far the printer is then.
fn print_line<K: Sink>(
    alloc: Global,
    sink: &mut K,
    progress: Progress,
    number: u64,
    reply: &Reply,
) -> Progress
    ensures line { PrintsLine progress (reply_text number reply.now) (shown (K.holds sink.old) (K.faults sink.old)) (shown (K.holds sink.new) (K.faults sink.new)) result }
    ensures silent { progress ≢ Progress.Writing → sink.new ≡ sink.old }
{
    if progress != Progress::Writing {
        return progress;
    }
    match reply_line(alloc, number, reply) {
        Ok(line) => match write_all(sink, line.as_slice()) {
            Ok(()) => Progress::Writing,
            Err(_) => Progress::WriteFault,
        },
        Err(_) => Progress::Memory,
    }
}
