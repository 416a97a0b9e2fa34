//! A spot: a slot, and a place in its list, in one number.
ghost use Rattle.std.specs.Prelude.{◌≡◌, ◌+◌, ◌*◌, ◌/◌, ◌%◌, ◌<◌};

// Places have 54 bits, and slots the other ten.
pub(crate) const PLACES: u64 = 18014398509481984;

/// The spot of a place in a slot's list.
pub fn spot_of(slot: usize, place: usize) -> u64
    requires slot { slot < 1024 }
    requires place { place < 18014398509481984 }
    ensures spot { result ≡ slot * 18014398509481984 + place }
    ensures slot { result / 18014398509481984 ≡ slot }
    ensures place { result % 18014398509481984 ≡ place }
{
    slot as u64 * PLACES + place as u64
}

// The slot of a spot.
pub(crate) fn slot_of(spot: u64) -> usize
    ensures { result ≡ spot / 18014398509481984 }
{
    (spot / PLACES) as usize
}

// The place of a spot.
pub(crate) fn place_of(spot: u64) -> usize
    ensures { result ≡ spot % 18014398509481984 }
{
    (spot % PLACES) as usize
}
