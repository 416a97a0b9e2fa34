ghost use Rattle.std.specs.Prelude.{◌≡◌, ◌≤◌, ◌%◌, ◌==◌, IfOk, length, sum};
ghost use Rattle.std.specs.List.{count_by};
ghost use Rattle.query_model.specs.Generated.{summary_of};
ghost use Rattle.query_model.specs.Pieces.{line_feed};

use fan_base::Memory;
use std::alloc::Global;

/// How many bytes are counted in one byte, so that a machine does many of them together.
const PART: usize = 224;

/// The line that sums up replies: of how many documents and queries they are, how many lines and bytes they have, and the sum of
/// the bytes, modulo 2^64.
pub fn summary_text(
    alloc: Global,
    docs: u32,
    queries: u32,
    replies: &[u8],
) -> Result<Vec<u8>, Memory>
    ensures { IfOk result (λ line. line.items ≡ summary_of docs queries replies.now) }
{
    let lines = lines_of(replies);
    let bytes = replies.len();
    let sum = sum_of(replies);
    let line = format!(in alloc;
        "documents {docs} queries {queries} lines {lines} bytes {bytes} sum {sum}\n"
    )?;
    Ok(line.into_bytes())
}

/// How many line feeds there are, part by part.
fn lines_of(bytes: &[u8]) -> usize
    ensures { result ≡ count_by (λ byte. byte == line_feed) bytes.now }
{
    let mut lines = 0;
    let mut at = 0;
    'parts: while at < bytes.len() {
        let end = at.saturating_add(PART).min(bytes.len());
        lines += usize::from(lines_in(&bytes[at..end]));
        at = end;
    }
    lines
}

/// How many line feeds a part has.
fn lines_in(part: &[u8]) -> u8
    requires { length part.now ≤ 224 }
    ensures { result ≡ count_by (λ byte. byte == line_feed) part.now }
{
    let mut lines = 0;
    for &byte in part {
        lines += u8::from(byte == b'\n');
    }
    lines
}

/// The sum of the bytes, modulo 2^64.
fn sum_of(bytes: &[u8]) -> u64
    ensures { result ≡ sum bytes.now % 18446744073709551616 }
{
    let mut sum = 0u128;
    for &byte in bytes {
        sum += byte as u128;
    }
    (sum % (1 << 64)) as u64
}
