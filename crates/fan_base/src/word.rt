ghost use Rattle.std.specs.Prelude.{◌≡◌, ◌≢◌, ◌==◌, ◌↔◌, ◌≤◌, ◌∷◌, [], ℕ, List, length, take, IsTrue, Err, IfOk};
ghost use Rattle.std.proofs.Common.{rules};
ghost use Rattle.std.specs.Cmp.{partial_order_from_own_ties};
ghost use Rattle.std.specs.Cmp.Lexicographic.{pointwise, slice_cmp};
ghost use Rattle.std.specs.Cmp.Rules.{comparing, hashing};
ghost use Rattle.std.specs.List.{list_all, prefix_len};
ghost use Rattle.std.specs.Ordering.{as_partial_cmp, nat_cmp};
ghost use Rattle.fan_base.specs.Word.{IsWord, is_filled, is_word, is_word_byte, padded};

use std::cmp::Ordering;
use std::hash::{Hash, Hasher};
use std::marker::Model;
use std::simd::prelude::*;

/// How many bytes a word has at most.
const LONGEST: usize = 32;

/// How many bytes are looked at together.
const LANES: usize = 16;

/// A word of a text: 1 to 32 bytes out of `a` to `z` and `0` to `9`. It is kept in place, in 32 bytes with zeros behind the
/// word, and takes no memory of its own.
#[derive(Clone, Copy, Debug)]
pub struct Word {
    bytes: [u8; 32],
}

impl Model for Word {
    ghost use Rattle.std.specs.Prelude.{ℕ, List};

    ghost Value = { List ℕ };

    ghost use Rattle.fan_base.specs.Word.{bytes_of, IsKept, kept, kept-bytes_of};

    ghost view = { bytes_of };

    ghost invariant = { IsKept };

    ghost inverse = { kept };

    ghost inverse_ok = { kept-bytes_of };
}

/// Why bytes are no word.
#[derive(Clone, Copy, Debug, PartialEq, Eq)]
pub enum WordFault {
    /// They are none, too many, or one of them is no letter from `a` to `z` and no digit.
    BadWord,
    /// Want of memory. It doesn't come as long as a word is kept in place.
    Memory,
}

impl Word {
    /// The word of these bytes: 1 to 32 letters from `a` to `z` and digits.
    pub fn new(bytes: &[u8]) -> Result<Word, WordFault>
        ensures word { IfOk result (λ w. (w ≡ bytes.now) × IsWord bytes.now) }
        ensures bad { (result ≡ Err WordFault.BadWord) ↔ (¬ IsWord bytes.now) }
        ensures in_place { result ≢ Err WordFault.Memory }
    {
        if !is_word(bytes) {
            return Err(WordFault::BadWord);
        }
        Ok(Word {
            bytes: padded(bytes),
        })
    }

    /// Whether the first so many of these bytes are a word. 16 bytes are looked at together, whatever stands behind the word.
    pub fn is_front(bytes: &[u8], size: usize) -> bool
        requires room { LANES ≤ length bytes.now }
        requires few { size ≤ LANES }
        ensures { result ≡ is_word (take size bytes.now) }
    {
        0 < size && size <= word_lanes(bytes)
    }

    /// The word that the first so many of these bytes are.
    pub fn of_front(bytes: &[u8], size: usize) -> Word
        requires room { LANES ≤ length bytes.now }
        requires few { size ≤ LANES }
        requires word { IsWord (take size bytes.now) }
        ensures { result ≡ take size bytes.now }
    {
        Word {
            bytes: padded_front(bytes, size),
        }
    }

    /// Its bytes.
    pub fn as_bytes(&self) -> &[u8]
        ensures bytes { result.now ≡ self.now }
        ensures word { IsWord self.now }
    {
        &self.bytes[..filled(&self.bytes)]
    }

    /// Its bytes, and zeros behind them: so words can be told apart, and read as numbers, with no look at their lengths.
    pub fn as_array(&self) -> &[u8; 32]
        ensures bytes { result.now ≡ padded self.now }
        ensures word { IsWord self.now }
    {
        &self.bytes
    }
}

/// How many bytes stand before the first zero.
fn filled(bytes: &[u8]) -> usize
    ensures { result ≡ prefix_len is_filled bytes.now }
{
    bytes.iter().take_while(|&&byte| byte != 0).count()
}

fn is_word(bytes: &[u8]) -> bool
    ensures { result ≡ is_word bytes.now }
{
    !bytes.is_empty() && (bytes.len() <= LONGEST && are_word_bytes(bytes))
}

fn are_word_bytes(bytes: &[u8]) -> bool
    ensures { result ≡ list_all is_word_byte bytes.now }
{
    bytes.iter().all(|&byte| is_word_byte(byte))
}

fn is_word_byte(byte: u8) -> bool
    ensures { result ≡ is_word_byte byte }
{
    byte.is_ascii_lowercase() || byte.is_ascii_digit()
}

/// The bytes in the front of an array, and zeros behind them.
fn padded(bytes: &[u8]) -> [u8; 32]
    requires { length bytes.now ≤ LONGEST }
    ensures { result ≡ padded bytes.now }
{
    let mut array = [0; LONGEST];
    array[..bytes.len()].copy_from_slice(bytes);
    array
}

/// How many of the first 16 bytes, from the first on, may stand in a word.
fn word_lanes(bytes: &[u8]) -> usize
    requires { LANES ≤ length bytes.now }
    ensures { result ≡ prefix_len is_word_byte (take LANES bytes.now) }
{
    let lanes = u8x16::from_slice(bytes);
    let no_letter = lanes.simd_lt(u8x16::splat(b'a')) | lanes.simd_gt(u8x16::splat(b'z'));
    let no_digit = lanes.simd_lt(u8x16::splat(b'0')) | lanes.simd_gt(u8x16::splat(b'9'));
    let marks = (no_letter & no_digit).to_bitmask();
    if marks == 0 {
        LANES
    } else {
        marks.trailing_zeros() as usize
    }
}

/// The first so many bytes in the front of an array, and zeros behind them.
fn padded_front(bytes: &[u8], size: usize) -> [u8; 32]
    requires room { LANES ≤ length bytes.now }
    requires few { size ≤ LANES }
    ensures { result ≡ padded (take size bytes.now) }
{
    let places = u8x16::from_array([0, 1, 2, 3, 4, 5, 6, 7, 8, 9, 10, 11, 12, 13, 14, 15]);
    let kept = places.simd_lt(u8x16::splat(size as u8));
    let front = kept.select(u8x16::from_slice(bytes), u8x16::splat(0));
    let mut array = [0; LONGEST];
    front.copy_to_slice(&mut array);
    array
}

impl PartialEq for Word {
    ghost eq = { pointwise ◌==◌ };

    ghost laws = { Prim.search (comparing, rules) };

    fn eq(&self, other: &Word) -> bool {
        self.bytes == other.bytes
    }
}

impl Eq for Word {
    ghost laws = { Prim.search (comparing, rules) };
}

impl Hash for Word {
    ghost hash_input = { λ word. padded word ∷ [] };

    ghost respects_eq = { Prim.search (hashing, rules) };

    fn hash<H: Hasher>(&self, state: &mut H) {
        state.write(&self.bytes);
    }
}

impl PartialOrd for Word {
    ghost partial_cmp = { as_partial_cmp (slice_cmp nat_cmp) };

    ghost laws = { partial_order_from_own_ties (Prim.search (comparing, rules)) (Prim.search (comparing, rules)) };

    fn partial_cmp(&self, other: &Word) -> Option<Ordering> {
        Some(self.cmp(other))
    }
}

impl Ord for Word {
    ghost cmp = { slice_cmp nat_cmp };

    ghost total = { Prim.search (comparing, rules) };

    ghost matches_partial_cmp = { Prim.search (comparing, rules) };

    ghost matches_eq = { Prim.search (comparing, rules) };

    fn cmp(&self, other: &Word) -> Ordering {
        self.bytes.cmp(&other.bytes)
    }
}
