ghost use Rattle.std.specs.Prelude.{◌≡◌, ◌∷◌, ◌++◌, [], All, false, MatchOption};
ghost use Rattle.std.specs.Iterator.{YieldsFirstRef, item_count};
ghost use Rattle.query_model.specs.Expressions.{parts, is_sign};
ghost use Rattle.query_text.specs.Cuts.{ends_run, IsAtEndOfRun};

use crate::fields::split_spaces;
use std::marker::Model;

/// The parts of an expression's text that are still to be read: signs, and what stands between them and between spaces.
#[derive(Drop)]
pub struct Parts<'a> {
    rest: &'a [u8],
}

impl<'a> Model for Parts<'a> {
    ghost use Rattle.std.specs.Prelude.{ℕ, List};
    ghost use Rattle.query_model.specs.Expressions.{parts};

    ghost Value = { List (List ℕ) };

    ghost view = { λ p. parts p.rest.now };
}

impl<'a> Parts<'a> {
    /// The parts of a text.
    pub fn new(text: &'a [u8]) -> Self
        ensures { result ≡ parts text.now }
    {
        Parts { rest: text }
    }
}

impl<'a> Iterator for Parts<'a> {
    type Item = &'a [u8];

    ghost next_gives = { YieldsFirstRef (λ p. p) };

    ghost remaining = { item_count (λ p. p) };

    fn next(&mut self) -> Option<&'a [u8]> {
        let (part, after) = first_part(self.rest)?;
        self.rest = after;
        Some(part)
    }
}

/// The first part of a text, and what stands behind it.
fn first_part(text: &[u8]) -> Option<(&[u8], &[u8])>
    ensures { MatchOption result (parts text.now ≡ []) (λ cut. parts text.now ≡ cut.0.now ∷ parts cut.1.now) }
{
    let (_, rest) = split_spaces(text);
    if rest.is_empty() {
        return None;
    }
    if is_sign(rest[0]) {
        return Some((&rest[..1], &rest[1..]));
    }
    Some(run(rest))
}

/// What stands before the first space or sign, and that with what stands behind it.
fn run(text: &[u8]) -> (&[u8], &[u8])
    ensures clear { All (λ byte. ends_run byte ≡ false) result.0.now }
    ensures whole { text.now ≡ result.0.now ++ result.1.now }
    ensures stops { IsAtEndOfRun result.1.now }
{
    match text.iter().position(|byte| ends_run(*byte)) {
        Some(place) => (&text[..place], &text[place..]),
        None => (text, &[]),
    }
}

fn ends_run(byte: u8) -> bool
    ensures { result ≡ ends_run byte }
{
    byte == b' ' || is_sign(byte)
}

fn is_sign(byte: u8) -> bool
    ensures { result ≡ is_sign byte }
{
    byte == b'|' || (byte == b'!' || (byte == b'(' || byte == b')'))
}
