//! In which of the 1,024 slots an entry stands.
ghost use Rattle.std.specs.Prelude.{◌≡◌, ℕ, ◌+◌, ◌-◌, ◌<◌, ◌≤◌};
ghost use Rattle.tick_wheel.specs.Place.{slot_for};

/// The longest delay.
pub const MAX_DELAY: u64 = 4294967295;

// The slot of an entry with a due tick, when it is placed at another tick.
pub(crate) fn slot_of(due: u64, at: u64) -> usize
    requires { at ≤ due }
    ensures at { result ≡ slot_for at due }
    ensures within { result < 1024 }
{
    let wait = due - at;
    if wait < 256 {
        (due % 256) as usize
    } else if wait < 65536 {
        256 + (due / 256 % 256) as usize
    } else if wait < 16777216 {
        512 + (due / 65536 % 256) as usize
    } else {
        768 + (due / 16777216 % 256) as usize
    }
}
