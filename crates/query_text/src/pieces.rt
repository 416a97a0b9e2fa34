ghost use Rattle.std.specs.Prelude.{◌≡◌, ◌∷◌, [], MatchOption};
ghost use Rattle.std.specs.Iterator.{YieldsFirstRef, item_count};
ghost use Rattle.query_model.specs.Pieces.{pieces};

use crate::cut::cut;
use std::marker::Model;

/// The pieces of an input that are still to be read, from the first on.
#[derive(Drop)]
pub struct Pieces<'a> {
    rest: &'a [u8],
}

impl<'a> Model for Pieces<'a> {
    ghost use Rattle.std.specs.Prelude.{ℕ, List};
    ghost use Rattle.query_model.specs.Pieces.{pieces};

    ghost Value = { List (List ℕ) };

    ghost view = { λ p. pieces p.rest.now };
}

impl<'a> Pieces<'a> {
    /// The pieces of some bytes.
    pub fn new(bytes: &'a [u8]) -> Self
        ensures { result ≡ pieces bytes.now }
    {
        Pieces { rest: bytes }
    }
}

impl<'a> Iterator for Pieces<'a> {
    type Item = &'a [u8];

    ghost next_gives = { YieldsFirstRef (λ p. p) };

    ghost remaining = { item_count (λ p. p) };

    fn next(&mut self) -> Option<&'a [u8]> {
        let (piece, after) = first_piece(self.rest)?;
        self.rest = after;
        Some(piece)
    }
}

/// The first piece of a text, and what stands behind its line feed; none where the text is empty.
#[tactic(auto, unfolding(query_model::specs::Pieces::pieces))]
fn first_piece(text: &[u8]) -> Option<(&[u8], &[u8])>
    ensures { MatchOption result (pieces text.now ≡ []) (λ cut. pieces text.now ≡ cut.0.now ∷ pieces cut.1.now) }
{
    if text.is_empty() {
        return None;
    }
    let (piece, after) = cut(text, b'\n');
    match after {
        Some(after) => Some((piece, after)),
        None => Some((piece, &[])),
    }
}
