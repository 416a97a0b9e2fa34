ghost use Rattle.std.specs.Prelude.{◌≤◌, ◌^◌, ◌↔◌, All, IsTrue};
ghost use Rattle.fan_model.specs.Totals.{totals_by};
ghost use Rattle.run_notes.specs.Counting.{AreCoresBy, ArePutBy};

use core_word::Tally;
use event_base::QueueNote;

/// How many queries were answered: in all, of those that rank, and by the base on which they are gathered.
#[derive(Drop)]
pub struct Counted {
    pub answered: u64,
    pub tops: u64,
    pub by_base: Vec<u64>,
}

/// Whether as many cores were forwarded, freed and used again as so many answered queries come to. How many were made and handed over isn't
/// looked at.
pub fn cores_agree(counted: &Counted, shards: u32, tally: &Tally) -> bool
    requires answered { counted.now.answered ≤ 2 ^ 32 }
    requires tops { counted.now.tops ≤ 2 ^ 32 }
    requires shards { shards ≤ 64 }
    ensures { IsTrue result ↔ AreCoresBy tally.now (totals_by counted.now.answered counted.now.tops shards) }
{
    let tasks = counted.answered * u64::from(shards);
    tally.forwarded() == counted.tops
        && tally.freed() == tasks + counted.answered + counted.tops
        && tally.reopened() == tasks
}

/// Whether each of these queues had a message for each task of its base's queries.
pub fn puts_agree(counted: &Counted, shards: u32, notes: &[QueueNote]) -> bool
    requires counts { All (λ count. count ≤ 2 ^ 32) counted.now.by_base.items }
    requires shards { shards ≤ 64 }
    ensures { IsTrue result ↔ ArePutBy shards counted.now.by_base.items notes.now }
{
    if notes.len() != counted.by_base.len() {
        return false;
    }
    for place in 0..notes.len() {
        let count = counted.by_base[place];
        if notes[place].put() != u64::from(shards) * count {
            return false;
        }
    }
    true
}
