ghost use Rattle.std.specs.Prelude.{◌≡◌, ◌<◌, ◌≤◌, ◌↔◌, ℕ, List, Option, Some, IsErr, IfOk, OnErr, Contains, length, take, drop, min};
ghost use Rattle.fan_base.specs.Outside.{last_count, raised, Reads, shown};
ghost use Rattle.fan_base.specs.Supply.{after_read, fresh_supply, read_size};

use crate::refusal::Failed;
use std::io::Read;
use std::marker::Model;

/// Where bytes are read from.
///
/// `left` is what is still to be read, where the source tells it; `faults` counts its failures and never falls.
pub trait Source {
    ghost left: { Self → Option (List ℕ) };

    ghost faults: { Self → ℕ };

    /// Reads into the front of `buf` and tells how many bytes. No byte is the end.
    fn read(&mut self, buf: &mut [u8]) -> Result<usize, Failed>
        requires { 0 < length buf.old }
        ensures reads { Reads (shown (left self.old) (faults self.old)) (shown (left self.new) (faults self.new)) result buf.new };
}

/// A source in memory, whose failures are chosen before.
#[derive(Debug, Drop)]
pub struct MemSource {
    bytes: Vec<u8>,
    at: usize,
    piece: usize,
    fails: Vec<u64>,
    calls: u64,
    faults: u64,
}

impl Model for MemSource {
    ghost use Rattle.std.specs.Prelude.{◌<◌, ◌≤◌, drop, vec_len};
    ghost use Rattle.fan_base.specs.Supply.{Supply};

    ghost Value = { Supply };

    ghost view = { λ s. record { left = drop s.at s.bytes.items; piece = s.piece; fails = s.fails.items; calls = s.calls; faults = s.faults } };

    ghost invariant = { λ s. (0 < s.piece) × (s.at ≤ vec_len s.bytes) };
}

impl MemSource {
    /// A source of these bytes that gives at most `piece` of them in a call. The calls whose numbers, from 0, stand in
    /// `fails` fail.
    pub fn new(bytes: Vec<u8>, piece: usize, fails: Vec<u64>) -> MemSource
        requires { 0 < piece }
        ensures { result ≡ fresh_supply bytes.items piece fails.items }
    {
        MemSource {
            bytes,
            at: 0,
            piece,
            fails,
            calls: 0,
            faults: 0,
        }
    }

    fn supply(&mut self, buf: &mut [u8]) -> Result<usize, Failed>
        ensures fails { IsErr result ↔ Contains self.old.fails self.old.calls }
        ensures size { IfOk result (λ n. n ≡ read_size self.old (length buf.old)) }
        ensures bytes { IfOk result (λ n. take n buf.new ≡ take n self.old.left) }
        ensures after { self.new ≡ after_read self.old result }
        ensures piece { 0 < self.old.piece }
        ensures faults { self.old.faults ≤ last_count }
    {
        let call = self.calls;
        self.calls = call.saturating_add(1);
        if self.fails.contains(&call) {
            self.faults = self.faults.saturating_add(1);
            return Err(Failed);
        }
        let size = give(&self.bytes[self.at..], self.piece, buf);
        self.at += size;
        Ok(size)
    }
}

impl Source for MemSource {
    ghost left = { λ s. Some s.left };

    ghost faults = { λ s. s.faults };

    fn read(&mut self, buf: &mut [u8]) -> Result<usize, Failed>
        requires { 0 < length buf.old }
        ensures reads { Reads (shown (Some self.old.left) self.old.faults) (shown (Some self.new.left) self.new.faults) result buf.new }
        ensures fails { IsErr result ↔ Contains self.old.fails self.old.calls }
        ensures size { IfOk result (λ n. n ≡ read_size self.old (length buf.old)) }
        ensures bytes { IfOk result (λ n. take n buf.new ≡ take n self.old.left) }
        ensures after { self.new ≡ after_read self.old result }
    {
        self.supply(buf)
    }
}

/// A source in memory that never fails.
#[derive(Debug, Drop)]
pub struct CleanSource {
    bytes: Vec<u8>,
    at: usize,
}

impl Model for CleanSource {
    ghost use Rattle.std.specs.Prelude.{ℕ, List, ◌≤◌, drop, vec_len};

    ghost Value = { List ℕ };

    ghost view = { λ s. drop s.at s.bytes.items };

    ghost invariant = { λ s. s.at ≤ vec_len s.bytes };
}

impl CleanSource {
    /// A source of these bytes.
    pub fn new(bytes: Vec<u8>) -> CleanSource
        ensures { result ≡ bytes.items }
    {
        CleanSource { bytes, at: 0 }
    }
}

impl Source for CleanSource {
    ghost left = { λ s. Some s };

    ghost faults = { λ _. 0 };

    fn read(&mut self, buf: &mut [u8]) -> Result<usize, Failed>
        requires { 0 < length buf.old }
        ensures reads { Reads (shown (Some self.old) 0) (shown (Some self.new) 0) result buf.new }
        ensures size { result ≡ Ok (min (length buf.old) (length self.old)) }
    {
        let size = give(&self.bytes[self.at..], usize::MAX, buf);
        self.at += size;
        Ok(size)
    }
}

/// Copies the front of `bytes` to the front of `buf`: as many as both have, and at most `piece`.
fn give(bytes: &[u8], piece: usize, buf: &mut [u8]) -> usize
    ensures size { result ≡ min piece (min (length buf.old) (length bytes.now)) }
    ensures bytes { take result buf.new ≡ take result bytes.now }
{
    let size = piece.min(buf.len().min(bytes.len()));
    buf[..size].copy_from_slice(&bytes[..size]);
    size
}

/// The source that a reader of std is. A failed read raises its count of faults. It tells of bytes what the reader tells.
#[derive(Drop)]
pub struct StdSource<R> {
    reader: R,
    faults: u64,
}

impl<R> Model for StdSource<R> {
    ghost use Rattle.std.specs.Prelude.{ℕ};

    ghost Value = { R × ℕ };

    ghost view = { λ s. (s.reader, s.faults) };
}

impl<R> StdSource<R> {
    /// Takes the reader.
    pub fn new(reader: R) -> StdSource<R>
        ensures { result ≡ (reader, 0) }
    {
        StdSource { reader, faults: 0 }
    }
}

impl<R: Read> Source for StdSource<R> {
    ghost left = { λ s. R.remaining s.0 };

    ghost faults = { λ s. s.1 };

    fn read(&mut self, buf: &mut [u8]) -> Result<usize, Failed>
        requires { 0 < length buf.old }
        ensures reads { Reads (shown (R.remaining self.old.0) self.old.1) (shown (R.remaining self.new.0) self.new.1) result buf.new }
        ensures counted { OnErr result (self.new.1 ≡ raised self.old.1) }
    {
        match self.reader.read(buf) {
            Ok(size) => Ok(size),
            Err(_) => {
                self.faults = self.faults.saturating_add(1);
                Err(Failed)
            }
        }
    }
}
