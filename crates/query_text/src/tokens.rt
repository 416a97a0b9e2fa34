ghost use Rattle.std.specs.Prelude.{◌≡◌, ◌≤◌, ◌++◌, ◌∷◌, [], Ok, IfErr, IfOk, OnOk, length, take};
ghost use Rattle.query_grammar.specs.Tree.{Tree};
ghost use Rattle.query_model.specs.Expressions.{GivesTree, kind_of, parts};
ghost use Rattle.query_text.specs.Outcomes.{FailsAs, Gives, GivesBy, GivesItems};
ghost use Rattle.query_text.specs.Sayings.{first_tokens, most_kept, token_in, tokens_behind};

use crate::fault::LineFault;
use crate::fields::Fields;
use crate::parts::Parts;
use crate::words::word_of;
use query_expr::parse;
use query_grammar::{Expr, ExprFault, Token};
use query_model::{BadKind, Limit};
use std::alloc::{AllocError, Global};

/// How many tokens of an expression are kept: one more than it may have.
const MOST_KEPT: usize = 1_025;

/// The first 1,025 tokens of the fields behind an ask; all of them are checked.
pub fn first_tokens(alloc: Global, mut fields: Fields<'_>) -> Result<Vec<Token>, LineFault>
    ensures { GivesItems result (first_tokens fields.entry) }
{
    let mut tokens = Vec::new(alloc);
    'fields: while let Some(field) = fields.next() {
        push_tokens(&mut tokens, field)?;
    }
    Ok(tokens)
}

fn push_tokens(tokens: &mut Vec<Token>, field: &[u8]) -> Result<(), LineFault>
    requires { length tokens.old.items ≤ most_kept }
    ensures ok { OnOk result (tokens_behind tokens.old.items (parts field.now) ≡ Ok tokens.new.items) }
    ensures few { OnOk result (length tokens.new.items ≤ most_kept) }
    ensures err { IfErr result (λ fault. FailsAs fault (tokens_behind tokens.old.items (parts field.now))) }
{
    let mut parts = Parts::new(field);
    'parts: while let Some(part) = parts.next() {
        push_first(tokens, token_in(part)?)?;
    }
    Ok(())
}

/// Puts a token behind the others, where there is room for it.
fn push_first(tokens: &mut Vec<Token>, token: Token) -> Result<(), AllocError>
    requires { length tokens.old.items ≤ most_kept }
    ensures first { OnOk result (tokens.new.items ≡ take most_kept (tokens.old.items ++ token ∷ [])) }
    ensures few { OnOk result (length tokens.new.items ≤ most_kept) }
{
    if tokens.len() < MOST_KEPT {
        tokens.push(token)?;
    }
    Ok(())
}

fn token_in(part: &[u8]) -> Result<Token, LineFault>
    ensures { Gives result (token_in part.now) }
{
    if part == b"|".as_slice() {
        Ok(Token::Bar)
    } else if part == b"!".as_slice() {
        Ok(Token::Bang)
    } else if part == b"(".as_slice() {
        Ok(Token::Left)
    } else if part == b")".as_slice() {
        Ok(Token::Right)
    } else {
        Ok(Token::Word(word_of(part)?))
    }
}

/// The expression that the tokens are.
pub fn expr_of(alloc: Global, tokens: &[Token]) -> Result<Expr, LineFault>
    ensures { GivesBy result (GivesTree tokens.now) }
{
    match parse(alloc, tokens) {
        Ok(expr) => Ok(expr),
        Err(ExprFault::Memory) => Err(LineFault::Memory),
        Err(fault) => Err(LineFault::Bad(kind_of(fault))),
    }
}

/// The kind of refusal of a line whose expression has this fault.
fn kind_of(fault: ExprFault) -> BadKind
    ensures { result ≡ kind_of fault }
{
    match fault {
        ExprFault::TooLong => BadKind::Limit(Limit::Tokens),
        ExprFault::TooDeep(_) => BadKind::Limit(Limit::Depth),
        fault => BadKind::BadExpr(fault),
    }
}
