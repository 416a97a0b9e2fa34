ghost use Rattle.std.specs.Prelude.{◌≡◌, List, IfOk, IfSome, length};
ghost use Rattle.fan_base.specs.declared.doc.Doc.{Doc};
ghost use Rattle.fan_base.specs.declared.word.Word.{Word};
ghost use Rattle.word_table.specs.Numbers.{number_in};
ghost use Rattle.shard_index.specs.Bits.{AreBits, AreSortedFor, HasBits};
ghost use Rattle.shard_index.specs.Places.{has_word};

use crate::bits::bits_at;
use std::alloc::{AllocError, Global};
use word_table::Sorted;

/// The words that stand in many of the documents. Beside each are its bits, one for each document, set where the word stands.
#[derive(Drop)]
pub struct Frequent {
    /// Their numbers, ascending.
    numbers: Vec<u32>,
    bits: Vec<Vec<u64>>,
}

impl Frequent {
    /// Those of so many words that stand in at least one of 32 of so many documents, and in 64 at least: the bits of each take less room
    /// than its places with their times.
    pub fn of(
        alloc: Global,
        sorted: &Sorted,
        words: usize,
        count: usize,
    ) -> Result<Frequent, AllocError>
        requires { (known : List Word) × (docs : List Doc) × (length known ≡ words) × (length docs ≡ count) × AreSortedFor sorted.now known docs }
        ensures { (known : List Word) (docs : List Doc) → length docs ≡ count → AreSortedFor sorted.now known docs
            → IfOk result (λ frequent. HasBits frequent known docs) }
    {
        let least = (count / 32).max(64);
        let mut numbers = Vec::new(alloc);
        let mut bits = Vec::new(alloc);
        for at in 0..sorted.len() {
            let (number, places) = sorted.at(at);
            if places.len() >= least && (number as usize) < words {
                let beside = bits_at(alloc, count, places)?;
                numbers.push(number)?;
                bits.push(beside)?;
            }
        }
        Ok(Frequent { numbers, bits })
    }

    /// The bits of the word with this number, where it is one of these.
    pub fn bits(&self, number: usize) -> Option<&[u64]>
        requires { (known : List Word) × (docs : List Doc) × HasBits self.now known docs }
        ensures { (known : List Word) (docs : List Doc) (word : Word) → HasBits self.now known docs → number ≡ number_in known word
            → IfSome result (λ bits. AreBits bits.now (has_word word) docs) }
    {
        let at = self
            .numbers
            .partition_point(|other| (*other as usize) < number);
        if at < self.numbers.len() && self.numbers[at] as usize == number {
            return Some(self.bits[at].as_slice());
        }
        None
    }
}
