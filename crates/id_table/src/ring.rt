//! The cells as a ring: where an id's cells begin, which comes next, and how far it is from one to another.
ghost use Rattle.std.specs.Prelude.{◌≡◌, ◌<◌, ◌≤◌};
ghost use Rattle.id_table.specs.Ring.{home_of, next, distance};

// 2^64 divided by the golden ratio: the upper bits of its multiples are spread evenly, those of successive ones the more so.
const FACTOR: u64 = 0x9e37_79b9_7f4a_7c15;

// The cell at which the cells of an id begin, among three times 2^bits: three fourths of the upper bits of a multiple.
#[tactic(auto, unfolding(crate::specs::Ring::home_of))]
pub(crate) fn home(bits: u32, id: u64) -> usize
    requires some { 2 < bits }
    requires within { bits < 57 }
    ensures { result ≡ home_of bits id }
{
    ((id.wrapping_mul(FACTOR) >> (60 - bits)) * 3 / 16) as usize
}

// The cell after this one, the first after the last.
#[tactic(auto, unfolding(crate::specs::Ring::next))]
pub(crate) fn after(size: usize, cell: usize) -> usize
    requires { cell < size }
    ensures { result ≡ next size cell }
{
    if cell + 1 < size { cell + 1 } else { 0 }
}

// How many steps it is from one cell to another.
#[tactic(auto, unfolding(crate::specs::Ring::distance))]
pub(crate) fn steps_from(size: usize, from: usize, to: usize) -> usize
    requires from { from < size }
    requires to { to < size }
    ensures { result ≡ distance size from to }
{
    if from <= to {
        to - from
    } else {
        to + (size - from)
    }
}
