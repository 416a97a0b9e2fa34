ghost use Rattle.std.specs.Prelude.{◌≡◌};
ghost use Rattle.query_grammar.specs.Truth.{is_true};

use fan_base::Doc;
use query_grammar::{Expr, Node};

/// Whether the expression holds for the document. It calls itself once for each level of the tree.
pub fn holds(e: &Expr, d: &Doc) -> bool
    ensures { result ≡ is_true e.now d.now.words }
{
    match e.node() {
        Node::Word(word) => d.words.as_slice().contains(word),
        Node::Not(e) => !holds(e, d),
        Node::Both(a, b) => holds(a, d) && holds(b, d),
        Node::Either(a, b) => holds(a, d) || holds(b, d),
    }
}
