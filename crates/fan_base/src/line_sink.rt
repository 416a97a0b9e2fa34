ghost use Rattle.std.specs.Prelude.{◌≡◌, ◌<◌, ◌↔◌, Some, IsErr, IfOk, length};
ghost use Rattle.fan_base.specs.Outside.{shown, Writes};
ghost use Rattle.fan_base.specs.Store.{after_write, FailsNext, write_size};

use crate::gate::LineGate;
use crate::refusal::Failed;
use crate::sink::{MemSink, Sink};
use std::marker::Model;

/// A sink in memory that tells a gate of the bytes that it takes. Contracts see it as the sink in memory.
#[derive(Drop)]
pub struct LineSink<'g> {
    gate: &'g LineGate,
    sink: MemSink,
}

impl<'g> Model for LineSink<'g> {
    ghost use Rattle.fan_base.specs.Store.{Store};

    ghost Value = { Store };

    ghost view = { λ s. s.sink };
}

impl<'g> LineSink<'g> {
    /// Writes to the sink, and tells the gate.
    pub fn new(gate: &'g LineGate, sink: MemSink) -> LineSink<'g>
        ensures { result ≡ sink }
    {
        LineSink { gate, sink }
    }

    /// The sink, with all that was written.
    pub fn into_inner(self) -> MemSink
        ensures { result ≡ self.entry }
    {
        let LineSink { gate: _, sink } = self;
        sink
    }
}

impl<'g> Sink for LineSink<'g> {
    ghost holds = { λ s. Some s.holds };

    ghost faults = { λ s. s.faults };

    fn write(&mut self, bytes: &[u8]) -> Result<usize, Failed>
        requires { 0 < length bytes.now }
        ensures writes { Writes (shown (Some self.old.holds) self.old.faults) (shown (Some self.new.holds) self.new.faults) result bytes.now }
        ensures fails { IsErr result ↔ FailsNext self.old }
        ensures some { IfOk result (λ n. 0 < n) }
        ensures size { IfOk result (λ n. n ≡ write_size self.old (length bytes.now)) }
        ensures after { self.new ≡ after_write self.old bytes.now result }
    {
        let size = self.sink.write(bytes)?;
        self.gate.took(&bytes[..size]);
        Ok(size)
    }
}
