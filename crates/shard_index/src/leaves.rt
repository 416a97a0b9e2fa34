ghost use Rattle.std.specs.Prelude.{◌≡◌, ◌&&◌, IfSome, not, if◌then◌else◌};
ghost use Rattle.fan_base.specs.declared.doc.Doc.{Doc};
ghost use Rattle.shard_index.specs.Places.{has_word, holds_in};

use fan_base::Word;
use query_grammar::{Expr, Node};

/// The words of two expressions where the first is a word, and the second is one too or the complement of one, and whether the second's
/// is wanted.
pub fn two_words<'e>(a: &'e Expr, b: &'e Expr) -> Option<(&'e Word, &'e Word, bool)>
    ensures { IfSome result (λ two. (doc : Doc) → (has_word two.0.now doc && (if two.2 then has_word two.1.now doc else not (has_word two.1.now doc)))
        ≡ (holds_in a.now doc && holds_in b.now doc)) }
{
    let first = word_in(a)?;
    let (second, wanted) = leaf_in(b)?;
    Some((first, second, wanted))
}

/// The word that an expression is.
fn word_in(e: &Expr) -> Option<&Word>
    ensures { IfSome result (λ word. (doc : Doc) → has_word word.now doc ≡ holds_in e.now doc) }
{
    match e.node() {
        Node::Word(word) => Some(word),
        _ => None,
    }
}

/// The word that an expression is, or the one of which it is the complement, and whether it is the word.
fn leaf_in(e: &Expr) -> Option<(&Word, bool)>
    ensures { IfSome result (λ leaf. (doc : Doc) → (if leaf.1 then has_word leaf.0.now doc else not (has_word leaf.0.now doc)) ≡ holds_in e.now doc) }
{
    match e.node() {
        Node::Word(word) => Some((word, true)),
        Node::Not(e) => Some((word_in(e)?, false)),
        _ => None,
    }
}

/// Whether an expression is a choice of words with more than so many other choices in its first parts.
pub fn is_long_choice(e: &Expr, many: u32) -> bool {
    is_long(e, many) && are_words(e)
}

/// Whether an expression is a word or a choice of words. The last parts are looked at first, since where one is another the first parts
/// are asked next.
fn are_words(e: &Expr) -> bool {
    match e.node() {
        Node::Word(_) => true,
        Node::Either(a, b) => are_words(b) && are_words(a),
        _ => false,
    }
}

/// Whether an expression is a choice with more than so many others in its first parts.
fn is_long(e: &Expr, many: u32) -> bool {
    match e.node() {
        Node::Either(a, _) => many == 0 || is_long(a, many - 1),
        _ => false,
    }
}
