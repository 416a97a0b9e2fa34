ghost use Rattle.std.specs.Prelude.{◌≡◌, ◌<◌, ◌≤◌, ◌↔◌, ℕ, List, Option, Some, None, Ok, IsErr, IfOk, OnErr, ◌+◌, ◌++◌, length, min, vec_capacity, vec_len};
ghost use Rattle.fan_base.specs.Outside.{last_count, raised, shown, Writes};
ghost use Rattle.fan_base.specs.Store.{after_write, empty_store, FailsNext, write_size};

use crate::refusal::{Failed, Memory};
use std::alloc::Global;
use std::io::Write;
use std::marker::Model;

/// Where bytes are written to.
///
/// `holds` is what was written so far, where the sink tells it; `faults` counts its failures and never falls.
pub trait Sink {
    ghost holds: { Self → Option (List ℕ) };

    ghost faults: { Self → ℕ };

    /// Takes the front of `bytes` and tells how many bytes that is. To take none is a failure.
    fn write(&mut self, bytes: &[u8]) -> Result<usize, Failed>
        requires { 0 < length bytes.now }
        ensures writes { Writes (shown (holds self.old) (faults self.old)) (shown (holds self.new) (faults self.new)) result bytes.now };
}

/// A sink in memory, whose failures are chosen before.
#[derive(Debug, Drop)]
pub struct MemSink {
    bytes: Vec<u8>,
    capacity: usize,
    piece: usize,
    fails: Vec<u64>,
    calls: u64,
    faults: u64,
}

impl Model for MemSink {
    ghost use Rattle.std.specs.Prelude.{◌<◌, ◌≤◌, vec_len, vec_capacity};
    ghost use Rattle.fan_base.specs.Store.{Store};

    ghost Value = { Store };

    ghost view = { λ s. record { holds = s.bytes.items; capacity = s.capacity; piece = s.piece; fails = s.fails.items; calls = s.calls; faults = s.faults } };

    ghost invariant = { λ s. (0 < s.piece) × (vec_len s.bytes ≤ s.capacity) × (s.capacity ≤ vec_capacity s.bytes) };
}

impl MemSink {
    /// A sink with room for `capacity` bytes that takes at most `piece` of them in a call. The calls whose numbers, from 0,
    /// stand in `fails` fail, and so does each call once the room is used up.
    pub fn new(
        alloc: Global,
        capacity: usize,
        piece: usize,
        fails: Vec<u64>,
    ) -> Result<MemSink, Memory>
        requires { 0 < piece }
        ensures { IfOk result (λ sink. sink ≡ empty_store capacity piece fails.items) }
    {
        Ok(MemSink {
            bytes: Vec::with_capacity(alloc, capacity)?,
            capacity,
            piece,
            fails,
            calls: 0,
            faults: 0,
        })
    }

    /// What it holds.
    pub fn bytes(&self) -> &[u8]
        ensures { result.now ≡ self.now.holds }
    {
        self.bytes.as_slice()
    }

    fn store(&mut self, bytes: &[u8]) -> Result<usize, Failed>
        ensures fails { IsErr result ↔ FailsNext self.old }
        ensures size { IfOk result (λ n. n ≡ write_size self.old (length bytes.now)) }
        ensures after { self.new ≡ after_write self.old bytes.now result }
        ensures piece { 0 < self.old.piece }
        ensures faults { self.old.faults ≤ last_count }
    {
        let call = self.calls;
        self.calls = call.saturating_add(1);
        let room = self.capacity - self.bytes.len();
        if room == 0 || self.fails.contains(&call) {
            self.faults = self.faults.saturating_add(1);
            return Err(Failed);
        }
        let size = self.piece.min(bytes.len().min(room));
        append(&mut self.bytes, &bytes[..size]);
        Ok(size)
    }
}

impl Sink for MemSink {
    ghost holds = { λ s. Some s.holds };

    ghost faults = { λ s. s.faults };

    fn write(&mut self, bytes: &[u8]) -> Result<usize, Failed>
        requires { 0 < length bytes.now }
        ensures writes { Writes (shown (Some self.old.holds) self.old.faults) (shown (Some self.new.holds) self.new.faults) result bytes.now }
        ensures fails { IsErr result ↔ FailsNext self.old }
        ensures some { IfOk result (λ n. 0 < n) }
        ensures size { IfOk result (λ n. n ≡ write_size self.old (length bytes.now)) }
        ensures after { self.new ≡ after_write self.old bytes.now result }
    {
        self.store(bytes)
    }
}

/// Appends to a vector that has the room.
fn append(kept: &mut Vec<u8>, bytes: &[u8])
    requires { vec_len kept.old + length bytes.now ≤ vec_capacity kept.old }
    ensures items { kept.new.items ≡ kept.old.items ++ bytes.now }
    ensures len { vec_len kept.new ≡ vec_len kept.old + length bytes.now }
    ensures capacity { vec_capacity kept.old ≤ vec_capacity kept.new }
{
    match kept.extend_from_slice(bytes) {
        Ok(()) => {}
        Err(_) => unreachable!(),
    }
}

/// A sink that takes all, and tells only how many bytes that was. Contracts see it as that number.
#[derive(Debug, Drop)]
pub struct NullSink {
    taken: u64,
}

impl Model for NullSink {
    ghost use Rattle.std.specs.Prelude.{ℕ};

    ghost Value = { ℕ };

    ghost view = { λ s. s.taken };
}

impl NullSink {
    /// A sink that has taken nothing yet.
    pub fn new() -> NullSink
        ensures { result ≡ 0 }
    {
        NullSink { taken: 0 }
    }

    /// How many bytes it has taken. The number stays at the last of its type.
    pub fn taken(&self) -> u64
        ensures { result ≡ self.now }
    {
        self.taken
    }
}

impl Sink for NullSink {
    ghost holds = { λ _. None };

    ghost faults = { λ _. 0 };

    fn write(&mut self, bytes: &[u8]) -> Result<usize, Failed>
        requires { 0 < length bytes.now }
        ensures writes { Writes (shown None 0) (shown None 0) result bytes.now }
        ensures all { result ≡ Ok (length bytes.now) }
        ensures taken { self.new ≡ min (self.old + length bytes.now) last_count }
    {
        self.taken = self.taken.saturating_add(bytes.len() as u64);
        Ok(bytes.len())
    }
}

/// The sink that a writer of std is. A failed write, and one that takes nothing, raises its count of faults. It tells of bytes
/// what the writer tells, and it doesn't flush: each whole text ends with a line feed.
#[derive(Drop)]
pub struct StdSink<W> {
    writer: W,
    faults: u64,
}

impl<W> Model for StdSink<W> {
    ghost use Rattle.std.specs.Prelude.{ℕ};

    ghost Value = { W × ℕ };

    ghost view = { λ s. (s.writer, s.faults) };
}

impl<W> StdSink<W> {
    /// Takes the writer.
    pub fn new(writer: W) -> StdSink<W>
        ensures { result ≡ (writer, 0) }
    {
        StdSink { writer, faults: 0 }
    }
}

impl<W: Write> Sink for StdSink<W> {
    ghost holds = { λ s. W.contents s.0 };

    ghost faults = { λ s. s.1 };

    fn write(&mut self, bytes: &[u8]) -> Result<usize, Failed>
        requires { 0 < length bytes.now }
        ensures writes { Writes (shown (W.contents self.old.0) self.old.1) (shown (W.contents self.new.0) self.new.1) result bytes.now }
        ensures some { IfOk result (λ n. 0 < n) }
        ensures counted { OnErr result (self.new.1 ≡ raised self.old.1) }
    {
        match self.writer.write(bytes) {
            Ok(size) if size > 0 => Ok(size),
            _ => {
                self.faults = self.faults.saturating_add(1);
                Err(Failed)
            }
        }
    }
}
