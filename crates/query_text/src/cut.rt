ghost use Rattle.std.specs.Prelude.{◌≡◌, ◌≢◌, ◌==◌, ◌+◌, ◌≤◌, false, ℕ, List, ◌++◌, ◌∷◌, [], length, take, drop, All, MatchOption};
ghost use Rattle.std.specs.List.{position_or_len};

use std::simd::prelude::*;

/// How many bytes are looked at together.
pub const LANES: usize = 16;

/// What stands before the first `at`, and what stands behind it; all of the bytes and nothing where it doesn't occur.
pub fn cut(bytes: &[u8], at: u8) -> (&[u8], Option<&[u8]>)
    ensures front { All (λ byte. (byte == at) ≡ false) result.0.now }
    ensures whole { MatchOption result.1 (bytes.now ≡ result.0.now) (λ after. bytes.now ≡ result.0.now ++ at ∷ after.now) }
{
    let place = before(bytes, at);
    if place < bytes.len() {
        (&bytes[..place], Some(&bytes[place + 1..]))
    } else {
        (bytes, None)
    }
}

/// How many bytes stand before the first `at`.
fn before(bytes: &[u8], at: u8) -> usize
    ensures { result ≡ position_or_len (λ byte. byte == at) bytes.now }
{
    let mut from = 0;
    'groups: while bytes.len() - from >= LANES {
        let passed = lanes_before(bytes, from, at);
        if passed != LANES {
            return from + passed;
        }
        from += LANES;
    }
    'rest: while from < bytes.len() && bytes[from] != at {
        from += 1;
    }
    from
}

/// The same of the 16 bytes behind `from`.
pub fn lanes_before(bytes: &[u8], from: usize, at: u8) -> usize
    requires { from + LANES ≤ length bytes.now }
    ensures { result ≡ position_or_len (λ byte. byte == at) (take LANES (drop from bytes.now)) }
{
    let lanes = u8x16::from_slice(&bytes[from..]);
    let marks = lanes.simd_eq(u8x16::splat(at)).to_bitmask();
    if marks == 0 {
        LANES
    } else {
        marks.trailing_zeros() as usize
    }
}
