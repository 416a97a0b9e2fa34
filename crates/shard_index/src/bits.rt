ghost use Rattle.std.specs.Prelude.{◌≡◌, ◌*◌, ◌<◌, ◌&&◌, ◌||◌, ℕ, All, List, Bool, IfOk, length, nat_eq, not, if◌then◌else◌};
ghost use Rattle.fan_base.specs.declared.doc.Doc.{Doc};
ghost use Rattle.shard_index.specs.Bits.{AreBits, bit_of};
ghost use Rattle.shard_index.specs.Places.{places_where};

use crate::narrow::is_kept;
use std::alloc::{AllocError, Global};

/// Bits for so many documents, of which those at these places are set.
pub fn bits_at(alloc: Global, count: usize, places: &[u32]) -> Result<Vec<u64>, AllocError>
    requires { All (λ place. place < count) places.now }
    ensures { (test : Doc → Bool) (docs : List Doc) → length docs ≡ count → places.now ≡ places_where test docs
        → IfOk result (λ bits. AreBits bits.items test docs) }
{
    let mut bits = vec![in alloc; 0; count / 64 + 1]?;
    for place in places {
        set_bit(&mut bits, *place);
    }
    Ok(bits)
}

/// Sets the bit of a place.
fn set_bit(bits: &mut Vec<u64>, place: u32)
    requires { place < 64 * length bits.old.items }
    ensures many { length bits.new.items ≡ length bits.old.items }
    ensures bits { (i : ℕ) → bit_of bits.new.items i ≡ (bit_of bits.old.items i || nat_eq i place) }
{
    let at = place as usize / 64;
    bits[at] |= 1 << (place % 64);
}

/// Whether the bit of a place is set.
fn has_bit(bits: &[u64], place: u32) -> bool
    requires { place < 64 * length bits.now }
    ensures { result ≡ bit_of bits.now place }
{
    let at = place as usize / 64;
    (bits[at] >> (place % 64)) & 1 == 1
}

/// The places whose bits are set, or, where those aren't wanted, whose bits aren't. Each is written where the next one that is kept belongs.
pub fn narrow_by_bits(
    alloc: Global,
    places: &[u32],
    bits: &[u64],
    wanted: bool,
) -> Result<Vec<u32>, AllocError>
    requires { All (λ place. place < 64 * length bits.now) places.now }
    ensures { (p q : Doc → Bool) (docs : List Doc) → places.now ≡ places_where p docs → AreBits bits.now q docs
        → IfOk result (λ kept. kept.items ≡ places_where (λ doc. p doc && (if wanted then q doc else not (q doc))) docs) }
{
    let mut kept = vec![in alloc; 0; places.len()]?;
    let mut many = 0;
    for place in places {
        let has = has_bit(bits, *place);
        kept[many] = *place;
        many += usize::from(is_kept(wanted, has));
    }
    kept.truncate(many);
    Ok(kept)
}
