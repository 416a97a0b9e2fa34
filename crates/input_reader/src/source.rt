ghost use Rattle.std.specs.Prelude.{◌≡◌, ◌≢◌, ◌≤◌, List, ℕ, Err, IfOk, IfSome, IfNone, length, take, vec_len};
ghost use Rattle.fan_base.specs.Outside.{FaultsRose, shown};
ghost use Rattle.query_model.specs.declared.fault.BadInput.{BadInput};
ghost use Rattle.query_model.specs.Reading.{Accepts, Refuses};
ghost use Rattle.std.specs.Io.KnownBytes.{Keeps};
ghost use Rattle.input_reader.specs.Sources.{FailsBehind, ReadsAll, ReadsChunk, ReadsSome, ReadsTooMuch};

use crate::end::ReadEnd;
use crate::text::TextSoFar;
use fan_base::Source;
use line_table::LineTable;
use std::alloc::{AllocError, Global};

/// The bytes that an input has at most.
pub const MOST_BYTES: usize = 67_108_864;

/// How many bytes a read asks for.
const CHUNK: usize = 65_536;

/// Reads all that the source has left: the lines of an input that is to be answered over so many shards, their documents by numbers.
///
/// A fault of the source comes first, then that it has more than [`MOST_BYTES`], then the first line that is refused.
pub fn read_source<S: Source>(
    alloc: Global,
    source: &mut S,
    shards: u32,
) -> Result<LineTable, ReadEnd>
    ensures accepted { IfOk result (λ lines. (text : List ℕ)
        × ReadsAll (shown (S.left source.old) (S.faults source.old)) (shown (S.left source.new) (S.faults source.new)) text
        × Accepts text shards (record { lines = lines })) }
    ensures refused { (bad : BadInput) → result ≡ Err (ReadEnd.Bad bad) → ((text : List ℕ)
        × ReadsAll (shown (S.left source.old) (S.faults source.old)) (shown (S.left source.new) (S.faults source.new)) text
        × Refuses text shards bad) }
    ensures fault { result ≡ Err ReadEnd.Fault → ((text : List ℕ)
        × FailsBehind (shown (S.left source.old) (S.faults source.old)) (shown (S.left source.new) (S.faults source.new)) text) }
    ensures too_large { result ≡ Err ReadEnd.TooLarge → ((text : List ℕ)
        × ReadsTooMuch (shown (S.left source.old) (S.faults source.old)) (shown (S.left source.new) (S.faults source.new)) text) }
    ensures memory { result ≡ Err ReadEnd.Memory → ((text : List ℕ)
        × ReadsSome (shown (S.left source.old) (S.faults source.old)) (shown (S.left source.new) (S.faults source.new)) text) }
{
    let mut chunk = zeros(alloc, CHUNK)?;
    let mut text = TextSoFar::new(alloc);
    'reads: while text.len() <= MOST_BYTES {
        let n = match read_chunk(source, chunk.as_mut_slice()) {
            Some(n) => n,
            None => return Err(ReadEnd::Fault),
        };
        if n == 0 {
            return text.end(alloc, shards);
        }
        text = text.with(alloc, shards, &chunk[..n])?;
    }
    Err(ReadEnd::TooLarge)
}

/// Reads some bytes into the front of a chunk. None where the source failed.
fn read_chunk<S: Source>(source: &mut S, chunk: &mut [u8]) -> Option<usize>
    requires { length chunk.old ≡ CHUNK }
    ensures within { IfSome result (λ n. n ≤ length chunk.new) }
    ensures size { length chunk.new ≡ length chunk.old }
    ensures some { IfSome result (λ n.
        ReadsChunk (shown (S.left source.old) (S.faults source.old)) (shown (S.left source.new) (S.faults source.new)) (take n chunk.new)) }
    ensures kept { IfNone result (Keeps (S.left source.old) (S.left source.new)) }
    ensures rose { IfNone result (FaultsRose (S.faults source.old) (S.faults source.new)) }
{
    match source.read(chunk) {
        Ok(n) => Some(n),
        Err(_) => None,
    }
}

fn zeros(alloc: Global, len: usize) -> Result<Vec<u8>, AllocError>
    ensures { IfOk result (λ made. vec_len made ≡ len) }
{
    vec![in alloc; 0u8; len]
}
