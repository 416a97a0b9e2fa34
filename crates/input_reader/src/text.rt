ghost use Rattle.std.specs.Prelude.{◌≡◌, ◌≢◌, ◌+◌, ◌≤◌, ◌<◌, ◌^◌, ◌++◌, [], Err, IfOk, IfSome, IfNone, drop, get_or, length, ℕ};
ghost use Rattle.query_model.specs.declared.fault.BadInput.{BadInput};
ghost use Rattle.query_model.specs.Pieces.{Bytes, line_feed};
ghost use Rattle.query_model.specs.Reading.{Accepts, Refuses};
ghost use Rattle.input_reader.specs.Texts.{EndsInFeed, HasNoFeed, IsReadAs, IsTextSoFar};

use crate::end::ReadEnd;
use fan_base::Memory;
use line_table::LineTable;
use query_model::{BadInput, InputFault};
use query_text::Reading;
use std::alloc::Global;

/// The lines that were read, or the first refusal among them.
#[derive(Drop)]
pub(crate) enum ReadLines {
    UpTo(Reading),
    Refused(BadInput),
}

/// What was read of the bytes of an input so far: its lines, the bytes of the line that is open, and how many bytes there were in all.
#[derive(Drop)]
pub(crate) struct TextSoFar {
    lines: ReadLines,
    tail: Vec<u8>,
    len: usize,
}

impl TextSoFar {
    /// No bytes.
    pub(crate) fn new(alloc: Global) -> TextSoFar
        ensures { (shards : ℕ) → IsTextSoFar shards [] result }
    {
        TextSoFar {
            lines: ReadLines::UpTo(Reading::new(alloc)),
            tail: Vec::new(alloc),
            len: 0,
        }
    }

    /// How many bytes were read.
    pub(crate) fn len(&self) -> usize
        ensures { result ≡ self.now.len }
    {
        self.len
    }

    /// The same with one more chunk.
    pub(crate) fn with(self, alloc: Global, shards: u32, chunk: &[u8]) -> Result<TextSoFar, Memory>
        requires some { (text : Bytes) × IsTextSoFar shards text self }
        requires room { self.len + length chunk.now < 2 ^ 32 }
        ensures len { IfOk result (λ more. more.len ≡ self.len + length chunk.now) }
        ensures text { IfOk result (λ more. (text : Bytes) → IsTextSoFar shards text self → IsTextSoFar shards (text ++ chunk.now) more) }
    {
        let TextSoFar {
            lines,
            mut tail,
            len,
        } = self;
        let lines = lines_with(alloc, shards, lines, &mut tail, chunk)?;
        Ok(TextSoFar {
            lines,
            tail,
            len: len + chunk.len(),
        })
    }

    /// The lines of all bytes, or the first refusal.
    pub(crate) fn end(self, alloc: Global, shards: u32) -> Result<LineTable, ReadEnd>
        requires some { (text : Bytes) × IsTextSoFar shards text self }
        requires room { self.len < 2 ^ 32 }
        ensures accepted { IfOk result (λ lines. (text : Bytes) → IsTextSoFar shards text self →
            Accepts text shards (record { lines = lines })) }
        ensures refused { (bad : BadInput) → result ≡ Err (ReadEnd.Bad bad) → (text : Bytes) → IsTextSoFar shards text self →
            Refuses text shards bad }
        ensures no_fault { result ≢ Err ReadEnd.Fault }
        ensures not_too_large { result ≢ Err ReadEnd.TooLarge }
    {
        let TextSoFar {
            lines,
            tail,
            len: _,
        } = self;
        match lines {
            ReadLines::UpTo(reading) => read_last(alloc, shards, reading, tail.as_slice()),
            ReadLines::Refused(bad) => Err(ReadEnd::Bad(bad)),
        }
    }
}

/// The lines with those that end in one more chunk. Behind a refusal nothing is kept of it.
fn lines_with(
    alloc: Global,
    shards: u32,
    lines: ReadLines,
    tail: &mut Vec<u8>,
    chunk: &[u8],
) -> Result<ReadLines, Memory>
    requires some { (text : Bytes) × IsReadAs shards text tail.old.items lines × (length text + length chunk.now < 2 ^ 32) }
    ensures { IfOk result (λ more. (text : Bytes) → IsReadAs shards text tail.old.items lines →
        IsReadAs shards (text ++ chunk.now) tail.new.items more) }
{
    match lines {
        ReadLines::UpTo(reading) => read_closed(alloc, shards, reading, tail, chunk),
        ReadLines::Refused(bad) => Ok(ReadLines::Refused(bad)),
    }
}

/// Reads the lines that end in a chunk. What comes behind the last of them stays open.
fn read_closed(
    alloc: Global,
    shards: u32,
    reading: Reading,
    tail: &mut Vec<u8>,
    chunk: &[u8],
) -> Result<ReadLines, Memory>
    requires room { reading.number + length tail.old.items + length chunk.now < 2 ^ 64 }
    ensures { IfOk result (λ lines. (text : Bytes) → IsReadAs shards text tail.old.items (ReadLines.UpTo reading) →
        IsReadAs shards (text ++ chunk.now) tail.new.items lines) }
{
    let Some((closed, rest)) = cut_last(chunk) else {
        tail.extend_from_slice(chunk)?;
        return Ok(ReadLines::UpTo(reading));
    };
    tail.extend_from_slice(closed)?;
    match reading.read(alloc, shards, tail.as_slice()) {
        Ok(more) => {
            tail.clear();
            tail.extend_from_slice(rest)?;
            Ok(ReadLines::UpTo(more))
        }
        Err(InputFault::Bad(bad)) => {
            tail.clear();
            Ok(ReadLines::Refused(bad))
        }
        Err(InputFault::Memory) => Err(Memory),
    }
}

/// Reads the line that is open, with no line feed behind it.
fn read_last(
    alloc: Global,
    shards: u32,
    reading: Reading,
    tail: &[u8],
) -> Result<LineTable, ReadEnd>
    requires room { reading.number + length tail.now < 2 ^ 64 }
    ensures accepted { IfOk result (λ lines. (text : Bytes) → IsReadAs shards text tail.now (ReadLines.UpTo reading) →
        Accepts text shards (record { lines = lines })) }
    ensures refused { (bad : BadInput) → result ≡ Err (ReadEnd.Bad bad) → (text : Bytes) →
        IsReadAs shards text tail.now (ReadLines.UpTo reading) → Refuses text shards bad }
    ensures no_fault { result ≢ Err ReadEnd.Fault }
    ensures not_too_large { result ≢ Err ReadEnd.TooLarge }
{
    match reading.read(alloc, shards, tail) {
        Ok(reading) => Ok(reading.into_table()),
        Err(InputFault::Bad(bad)) => Err(ReadEnd::Bad(bad)),
        Err(InputFault::Memory) => Err(ReadEnd::Memory),
    }
}

/// The chunk up to its last line feed, and what comes behind it. None where it has no line feed.
fn cut_last(chunk: &[u8]) -> Option<(&[u8], &[u8])>
    ensures parts { IfSome result (λ parts. (chunk.now ≡ parts.0.now ++ parts.1.now) × EndsInFeed parts.0.now × HasNoFeed parts.1.now) }
    ensures none { IfNone result (HasNoFeed chunk.now) }
{
    let last = last_feed(chunk)?;
    Some((&chunk[..last + 1], &chunk[last + 1..]))
}

/// The place of the last line feed.
fn last_feed(chunk: &[u8]) -> Option<usize>
    ensures feed { IfSome result (λ place. (place < length chunk.now) × (get_or chunk.now place 0 ≡ line_feed)) }
    ensures last { IfSome result (λ place. HasNoFeed (drop (place + 1) chunk.now)) }
    ensures none { IfNone result (HasNoFeed chunk.now) }
{
    let mut end = chunk.len();
    'bytes: while end > 0 {
        end -= 1;
        if chunk[end] == b'\n' {
            return Some(end);
        }
    }
    None
}
