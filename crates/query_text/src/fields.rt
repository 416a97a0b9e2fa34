ghost use Rattle.std.specs.Prelude.{◌≡◌, ◌≤◌, ◌↔◌, ◌∷◌, ◌++◌, [], All, IfSome, IsTrue, MatchOption, length, take};
ghost use Rattle.std.specs.Iterator.{YieldsFirstRef, item_count};
ghost use Rattle.query_model.specs.Pieces.{fields, space};
ghost use Rattle.query_text.specs.Cuts.{HasNoSpaceFirst};

use crate::cut::{LANES, cut, lanes_before};
use std::marker::Model;

/// The fields of a line that are still to be read, from the first on.
#[derive(Drop)]
pub struct Fields<'a> {
    rest: &'a [u8],
}

impl<'a> Model for Fields<'a> {
    ghost use Rattle.std.specs.Prelude.{ℕ, List};
    ghost use Rattle.query_model.specs.Pieces.{fields};

    ghost Value = { List (List ℕ) };

    ghost view = { λ f. fields f.rest.now };
}

impl<'a> Fields<'a> {
    /// The fields of a line.
    pub fn new(line: &'a [u8]) -> Self
        ensures { result ≡ fields line.now }
    {
        Fields { rest: line }
    }

    /// About how many fields are left, taken for three bytes long.
    pub fn guess(&self) -> usize {
        self.rest.len() / 4
    }

    /// The next field in its place: the line from there on, and how many bytes the field has.
    pub fn next_place(&mut self) -> Option<(&'a [u8], usize)>
        ensures within { IfSome result (λ place. place.1 ≤ length place.0.now) }
        ensures first { MatchOption result (self.old ≡ []) (λ place. self.old ≡ take place.1 place.0.now ∷ self.new) }
    {
        let (line, size, after) = first_place(self.rest)?;
        self.rest = after;
        Some((line, size))
    }

    /// Whether no field is left.
    pub fn is_empty(&self) -> bool
        ensures { IsTrue result ↔ (self.now ≡ []) }
    {
        first_field(self.rest).is_none()
    }
}

impl<'a> Iterator for Fields<'a> {
    type Item = &'a [u8];

    ghost next_gives = { YieldsFirstRef (λ f. f) };

    ghost remaining = { item_count (λ f. f) };

    fn next(&mut self) -> Option<&'a [u8]> {
        let (field, after) = first_field(self.rest)?;
        self.rest = after;
        Some(field)
    }
}

/// The first field of a line, and what stands behind it.
fn first_field(line: &[u8]) -> Option<(&[u8], &[u8])>
    ensures { MatchOption result (fields line.now ≡ []) (λ cut. fields line.now ≡ cut.0.now ∷ fields cut.1.now) }
{
    let (line, size, after) = first_place(line)?;
    Some((&line[..size], after))
}

/// A line from its first field on, how many bytes the field has, and what stands behind it.
fn first_place(line: &[u8]) -> Option<(&[u8], usize, &[u8])>
    ensures within { IfSome result (λ place. place.1 ≤ length place.0.now) }
    ensures first { MatchOption result (fields line.now ≡ []) (λ place. fields line.now ≡ take place.1 place.0.now ∷ fields place.2.now) }
{
    match near_place(line) {
        Some(place) => Some(place),
        None => far_place(line),
    }
}

/// The same where the line begins with the field and its first 16 bytes have a space behind it, as those of most words. Else none.
fn near_place(line: &[u8]) -> Option<(&[u8], usize, &[u8])>
    ensures within { IfSome result (λ place. place.1 ≤ length place.0.now) }
    ensures first { IfSome result (λ place. fields line.now ≡ take place.1 place.0.now ∷ fields place.2.now) }
{
    if line.len() < LANES || line[0] == b' ' {
        return None;
    }
    let size = lanes_before(line, 0, b' ');
    if size < LANES {
        Some((line, size, &line[size + 1..]))
    } else {
        None
    }
}

/// The same for any line.
fn far_place(line: &[u8]) -> Option<(&[u8], usize, &[u8])>
    ensures within { IfSome result (λ place. place.1 ≤ length place.0.now) }
    ensures first { MatchOption result (fields line.now ≡ []) (λ place. fields line.now ≡ take place.1 place.0.now ∷ fields place.2.now) }
{
    let (_, rest) = split_spaces(line);
    if rest.is_empty() {
        return None;
    }
    let (field, after) = cut(rest, b' ');
    match after {
        Some(after) => Some((rest, field.len(), after)),
        None => Some((rest, field.len(), &[])),
    }
}

/// The spaces at the start of a text, and what stands behind them.
pub fn split_spaces(text: &[u8]) -> (&[u8], &[u8])
    ensures spaces { All (λ byte. byte ≡ space) result.0.now }
    ensures whole { text.now ≡ result.0.now ++ result.1.now }
    ensures first { HasNoSpaceFirst result.1.now }
{
    match text.iter().position(|byte| *byte != b' ') {
        Some(place) => (&text[..place], &text[place..]),
        None => (text, &[]),
    }
}
