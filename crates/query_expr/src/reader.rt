ghost use Rattle.std.specs.Prelude.{◌≡◌, ◌≤◌, ◌+◌, reverse};
ghost use Rattle.query_expr.specs.Steps.{depth_below};

use crate::open::Open;
use fan_base::Word;
use query_grammar::limits::MOST_DEPTH;
use query_grammar::{Expr, ExprFault, Token};
use std::alloc::Global;

/// What was read of an expression so far.
#[derive(Drop)]
pub struct Reader {
    /// What stands behind the innermost open bracket, or behind the start.
    pub top: Open,
    /// What stands before that bracket, the innermost last.
    pub below: Vec<Open>,
    /// The brackets and bangs that are open.
    pub depth: usize,
    pub ghost counted: { depth ≡ top.bangs + depth_below (reverse below.items) },
    pub ghost shallow: { depth ≤ 64 },
}

impl Reader {
    ghost use Rattle.std.specs.Prelude.{[], IfOk, IfErr, IsTrue, ◌⊎◌, ◌↔◌};
    ghost use Rattle.query_expr.specs.Steps.{step, finish, empty};
    ghost use Rattle.query_expr.specs.Readers.{reading_of, StopsAt};

    /// Before the first token.
    pub fn new(alloc: Global) -> Reader
        ensures { reading_of result ≡ record { top = empty; below = [] } }
    {
        Reader {
            top: Open::new(),
            below: Vec::new(alloc),
            depth: 0,
        }
    }

    /// Reads the token, which stands at this place.
    pub fn step(self, alloc: Global, place: usize, token: Token) -> Result<Reader, ExprFault>
        ensures ok { IfOk result (λ new. step (reading_of self) token ≡ Some (reading_of new)) }
        ensures err { IfErr result (λ fault. StopsAt place (reading_of self) token fault) }
    {
        match token {
            Token::Word(word) => self.word(alloc, word),
            Token::Bang => self.bang(place),
            Token::Left => self.left(place),
            Token::Bar => self.bar(alloc, place),
            Token::Right => self.right(alloc, place),
        }
    }

    fn is_deepest(&self) -> bool
        ensures { IsTrue result ↔ (self.now.depth ≡ 64) }
    {
        self.depth == MOST_DEPTH
    }

    fn word(self, alloc: Global, word: Word) -> Result<Reader, ExprFault>
        ensures ok { IfOk result (λ new. step (reading_of self) (Token.Word word) ≡ Some (reading_of new)) }
        ensures err { IfErr result (λ fault. fault ≡ ExprFault.Memory) }
    {
        let Reader { top, below, depth } = self;
        let depth = depth - top.bangs;
        let top = top.with_fact(alloc, Expr::word(word))?;
        Ok(Reader { top, below, depth })
    }

    fn bang(self, place: usize) -> Result<Reader, ExprFault>
        ensures ok { IfOk result (λ new. step (reading_of self) Token.Bang ≡ Some (reading_of new)) }
        ensures err { IfErr result (λ fault. StopsAt place (reading_of self) Token.Bang fault) }
    {
        if self.is_deepest() {
            return Err(ExprFault::TooDeep(place));
        }
        let Reader { top, below, depth } = self;
        let Open {
            alternatives,
            facts,
            bangs,
        } = top;
        let top = Open {
            alternatives,
            facts,
            bangs: bangs + 1,
        };
        Ok(Reader {
            top,
            below,
            depth: depth + 1,
        })
    }

    fn left(self, place: usize) -> Result<Reader, ExprFault>
        ensures ok { IfOk result (λ new. step (reading_of self) Token.Left ≡ Some (reading_of new)) }
        ensures err { IfErr result (λ fault. StopsAt place (reading_of self) Token.Left fault) }
    {
        if self.is_deepest() {
            return Err(ExprFault::TooDeep(place));
        }
        let Reader {
            top,
            mut below,
            depth,
        } = self;
        if below.push(top).is_err() {
            return Err(ExprFault::Memory);
        }
        Ok(Reader {
            top: Open::new(),
            below,
            depth: depth + 1,
        })
    }

    fn bar(self, alloc: Global, place: usize) -> Result<Reader, ExprFault>
        ensures ok { IfOk result (λ new. step (reading_of self) Token.Bar ≡ Some (reading_of new)) }
        ensures err { IfErr result (λ fault. StopsAt place (reading_of self) Token.Bar fault) }
    {
        let Reader { top, below, depth } = self;
        match top.into_whole(alloc)? {
            None => Err(ExprFault::Unexpected(place)),
            Some(e) => Ok(Reader {
                top: Open {
                    alternatives: Some(e),
                    facts: None,
                    bangs: 0,
                },
                below,
                depth,
            }),
        }
    }

    fn right(self, alloc: Global, place: usize) -> Result<Reader, ExprFault>
        ensures ok { IfOk result (λ new. step (reading_of self) Token.Right ≡ Some (reading_of new)) }
        ensures err { IfErr result (λ fault. StopsAt place (reading_of self) Token.Right fault) }
    {
        let Reader {
            top,
            mut below,
            depth,
        } = self;
        let Some(outer) = below.pop() else {
            return Err(ExprFault::Unexpected(place));
        };
        let Some(e) = top.into_whole(alloc)? else {
            return Err(ExprFault::Unexpected(place));
        };
        let depth = depth - 1 - outer.bangs;
        let top = outer.with_fact(alloc, e)?;
        Ok(Reader { top, below, depth })
    }

    /// The expression, where the tokens end here.
    pub fn finish(self, alloc: Global) -> Result<Expr, ExprFault>
        ensures ok { IfOk result (λ e. finish (reading_of self) ≡ Some e) }
        ensures unclosed { result ≡ Err ExprFault.Unclosed → finish (reading_of self) ≡ None }
        ensures faults { IfErr result (λ fault. (fault ≡ ExprFault.Unclosed) ⊎ (fault ≡ ExprFault.Memory)) }
    {
        if !self.below.is_empty() {
            return Err(ExprFault::Unclosed);
        }
        let Reader { top, below, depth } = self;
        top.into_whole(alloc)?.ok_or(ExprFault::Unclosed)
    }
}
