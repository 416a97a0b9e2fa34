ghost use Rattle.std.specs.Prelude.{◌≡◌, ◌++◌, ◌∷◌, [], OnOk};
ghost use Rattle.query_text.specs.Writing.{bytes_if, text_at, wraps_both, wraps_either};

use query_grammar::{Expr, Node};
use std::alloc::AllocError;

/// Where an expression stands in a larger one.
#[derive(Clone, Copy, Debug, PartialEq, Eq)]
pub enum Place {
    /// Behind a `!`, or on the right of a both.
    Fact,
    /// On the left of a both, or on the right of an either.
    Both,
    /// On the left of an either, or alone.
    Either,
}

impl Place {
    /// Whether a both stands in brackets here.
    fn wraps_both(self) -> bool
        ensures { result ≡ wraps_both self }
    {
        match self {
            Place::Fact => true,
            Place::Both | Place::Either => false,
        }
    }

    /// Whether an either stands in brackets here.
    fn wraps_either(self) -> bool
        ensures { result ≡ wraps_either self }
    {
        match self {
            Place::Fact | Place::Both => true,
            Place::Either => false,
        }
    }
}

/// Puts the canonical text of an expression behind the text. It calls itself once for each level of the tree.
pub fn push_expr(text: &mut Vec<u8>, place: Place, e: &Expr) -> Result<(), AllocError>
    ensures { OnOk result (text.new.items ≡ text.old.items ++ text_at place e.now) }
{
    match e.node() {
        Node::Word(word) => text.extend_from_slice(word.as_bytes()),
        Node::Not(e) => {
            text.extend_from_slice(b"!")?;
            push_expr(text, Place::Fact, e)
        }
        Node::Both(a, b) => {
            push_if(text, place.wraps_both(), b'(')?;
            push_expr(text, Place::Both, a)?;
            text.extend_from_slice(b" ")?;
            push_expr(text, Place::Fact, b)?;
            push_if(text, place.wraps_both(), b')')
        }
        Node::Either(a, b) => {
            push_if(text, place.wraps_either(), b'(')?;
            push_expr(text, Place::Either, a)?;
            text.extend_from_slice(b" | ")?;
            push_expr(text, Place::Both, b)?;
            push_if(text, place.wraps_either(), b')')
        }
    }
}

fn push_if(text: &mut Vec<u8>, wanted: bool, byte: u8) -> Result<(), AllocError>
    ensures { OnOk result (text.new.items ≡ text.old.items ++ bytes_if wanted (byte ∷ [])) }
{
    if wanted {
        text.push(byte)?;
    }
    Ok(())
}
