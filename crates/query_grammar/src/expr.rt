ghost use Rattle.std.specs.Prelude.{◌≡◌, IfOk};

use fan_base::Word;
use std::alloc::{AllocError, Global};
use std::marker::Model;

/// An expression over the words of a document. Contracts see it as a tree.
#[cycle(expr)]
#[derive(Debug, Drop)]
pub struct Expr {
    node: Node,
}

/// The uppermost part of an expression.
#[cycle(expr)]
#[derive(Debug, Drop)]
pub enum Node {
    /// Holds where the word stands in the document.
    Word(Word),
    /// Holds where the other doesn't.
    Not(Box<Expr>),
    /// Holds where both do.
    Both(Box<Expr>, Box<Expr>),
    /// Holds where one of them does, or both.
    Either(Box<Expr>, Box<Expr>),
}

impl Model for Expr {
    ghost use Rattle.query_grammar.specs.Tree.{Tree, tree_code, size_of};

    ghost Value = { Tree };

    ghost coded = { tree_code };

    ghost use Rattle.query_grammar.specs.Nodes.{tree_at};

    ghost view = { λ e. tree_at e.node };

    ghost size = { size_of };

    ghost use Rattle.query_grammar.specs.Size.{falls};

    ghost size_decreases = { λ e h. falls e.node };
}

impl Expr {
    ghost use Rattle.query_grammar.specs.Tree.{Tree};
    ghost use Rattle.query_grammar.specs.Nodes.{tree_at};

    /// The expression that holds where the word stands in the document.
    pub fn word(word: Word) -> Expr
        ensures { result ≡ Tree.word word }
    {
        Expr {
            node: Node::Word(word),
        }
    }

    /// The expression that holds where `e` doesn't. Where there is no memory, `e` is dropped.
    pub fn not(alloc: Global, e: Expr) -> Result<Expr, AllocError>
        ensures { IfOk result (λ made. made ≡ Tree.not e) }
    {
        let e = Box::new(alloc, e)?;
        Ok(Expr { node: Node::Not(e) })
    }

    /// The expression that holds where both do. Where there is no memory, they are dropped.
    pub fn both(alloc: Global, a: Expr, b: Expr) -> Result<Expr, AllocError>
        ensures { IfOk result (λ made. made ≡ Tree.both a b) }
    {
        let a = Box::new(alloc, a)?;
        let b = Box::new(alloc, b)?;
        Ok(Expr {
            node: Node::Both(a, b),
        })
    }

    /// The expression that holds where one of them does, or both. Where there is no memory, they are dropped.
    pub fn either(alloc: Global, a: Expr, b: Expr) -> Result<Expr, AllocError>
        ensures { IfOk result (λ made. made ≡ Tree.either a b) }
    {
        let a = Box::new(alloc, a)?;
        let b = Box::new(alloc, b)?;
        Ok(Expr {
            node: Node::Either(a, b),
        })
    }

    /// The uppermost part, to match on.
    pub fn node(&self) -> &Node
        ensures { tree_at result.now ≡ self.now }
    {
        &self.node
    }
}
