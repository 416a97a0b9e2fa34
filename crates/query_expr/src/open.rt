ghost use Rattle.std.specs.Prelude.{◌≡◌, IfOk};
ghost use Rattle.query_expr.specs.Steps.{empty, negated, with_fact, whole_of};

use query_grammar::Expr;
use std::alloc::{AllocError, Global};

/// What was read behind a bracket that is open, or behind the start.
#[derive(Drop)]
pub struct Open {
    /// What stands before the last bar.
    pub alternatives: Option<Expr>,
    /// The facts behind it.
    pub facts: Option<Expr>,
    /// The bangs behind these.
    pub bangs: usize,
}

impl Open {
    /// With nothing read.
    pub fn new() -> Open
        ensures { result ≡ empty }
    {
        Open {
            alternatives: None,
            facts: None,
            bangs: 0,
        }
    }

    /// With a fact more.
    pub fn with_fact(self, alloc: Global, fact: Expr) -> Result<Open, AllocError>
        ensures { IfOk result (λ new. new ≡ with_fact self fact) }
    {
        let Open {
            alternatives,
            facts,
            bangs,
        } = self;
        let fact = negated(alloc, bangs, fact)?;
        let fact = match facts {
            None => fact,
            Some(before) => Expr::both(alloc, before, fact)?,
        };
        Ok(Open {
            alternatives,
            facts: Some(fact),
            bangs: 0,
        })
    }

    /// The expression that was read, where nothing is missing.
    pub fn into_whole(self, alloc: Global) -> Result<Option<Expr>, AllocError>
        ensures { IfOk result (λ whole. whole ≡ whole_of self) }
    {
        let Open {
            alternatives,
            facts,
            bangs,
        } = self;
        let Some(last) = facts else { return Ok(None) };
        if bangs > 0 {
            return Ok(None);
        }
        match alternatives {
            None => Ok(Some(last)),
            Some(before) => Ok(Some(Expr::either(alloc, before, last)?)),
        }
    }
}

/// The expression behind so many bangs.
fn negated(alloc: Global, bangs: usize, fact: Expr) -> Result<Expr, AllocError>
    ensures { IfOk result (λ e. e ≡ negated bangs fact) }
{
    let mut e = fact;
    for _ in 0..bangs {
        e = Expr::not(alloc, e)?;
    }
    Ok(e)
}
