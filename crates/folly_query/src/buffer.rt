ghost use Rattle.std.specs.Prelude.{◌≡◌, ◌<◌, [], Some, length};
ghost use Rattle.fan_base.specs.Outside.{shown, Writes};

use fan_base::{Failed, Sink};
use std::alloc::Global;

/// A sink in memory that grows. A write that finds no memory fails.
#[derive(Drop)]
pub struct Buffer {
    bytes: Vec<u8>,
    faults: u64,
}

impl Buffer {
    /// A sink that has taken nothing yet.
    pub fn new(alloc: Global) -> Buffer
        ensures bytes { result.bytes.items ≡ [] }
        ensures faults { result.faults ≡ 0 }
    {
        Buffer {
            bytes: Vec::new(alloc),
            faults: 0,
        }
    }

    /// What it holds.
    pub fn bytes(&self) -> &[u8]
        ensures { result.now ≡ self.now.bytes.items }
    {
        self.bytes.as_slice()
    }
}

impl Sink for Buffer {
    ghost holds = { λ b. Some b.bytes.items };

    ghost faults = { λ b. b.faults };

    fn write(&mut self, bytes: &[u8]) -> Result<usize, Failed>
        requires { 0 < length bytes.now }
        ensures writes { Writes (shown (Some self.old.bytes.items) self.old.faults) (shown (Some self.new.bytes.items) self.new.faults) result bytes.now }
    {
        match self.bytes.extend_from_slice(bytes) {
            Ok(()) => Ok(bytes.len()),
            Err(_) => {
                self.faults = self.faults.saturating_add(1);
                Err(Failed)
            }
        }
    }
}
