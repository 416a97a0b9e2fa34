//! A plain program that finds the tree of tokens, or their fault, by trying each way in which the grammar forms a phrase.
ghost use Rattle.std.specs.Prelude.{◌<◌, ◌≤◌, ◌≢◌, ◌↔◌, length, IsTrue, IfOk, IfErr};
ghost use Rattle.query_grammar.specs.Grammar.{Kind, CanGoOn};
ghost use Rattle.query_grammar.specs.Faults.{Accepts, Refuses};
ghost use Rattle.text_tests.specs.Slow.{Finds, FindsBeside, FindsBar};

use fan_base::Word;
use query_grammar::{Expr, ExprFault, Token};
use std::alloc::{AllocError, Global};

#[cycle(slow)]
fn fact_of(alloc: Global, tokens: &[Token]) -> Result<Option<Expr>, AllocError>
    ensures { IfOk result (λ found. Finds Kind.fact tokens.now found) }
{
    let Some((first, rest)) = tokens.split_first() else {
        return Ok(None);
    };
    match *first {
        Token::Word(word) => {
            if rest.is_empty() {
                Ok(Some(Expr::word(word)))
            } else {
                Ok(None)
            }
        }
        Token::Bang => match fact_of(alloc, rest)? {
            None => Ok(None),
            Some(e) => Ok(Some(Expr::not(alloc, e)?)),
        },
        Token::Left => {
            let Some((last, inner)) = rest.split_last() else {
                return Ok(None);
            };
            match *last {
                Token::Right => either_of(alloc, inner),
                _ => Ok(None),
            }
        }
        Token::Bar | Token::Right => Ok(None),
    }
}

#[cycle(slow)]
fn beside_at(alloc: Global, tokens: &[Token], place: usize) -> Result<Option<Expr>, AllocError>
    requires above { 0 < place }
    requires below { place < length tokens.now }
    ensures { IfOk result (λ found. FindsBeside place tokens.now found) }
{
    let Some(f) = fact_of(alloc, &tokens[place..])? else {
        return Ok(None);
    };
    let Some(b) = both_of(alloc, &tokens[..place])? else {
        return Ok(None);
    };
    Ok(Some(Expr::both(alloc, b, f)?))
}

#[cycle(slow)]
fn both_of(alloc: Global, tokens: &[Token]) -> Result<Option<Expr>, AllocError>
    ensures { IfOk result (λ found. Finds Kind.both tokens.now found) }
{
    for place in 1..tokens.len() {
        match beside_at(alloc, tokens, place)? {
            Some(e) => return Ok(Some(e)),
            None => {}
        }
    }
    fact_of(alloc, tokens)
}

#[cycle(slow)]
fn bar_at(alloc: Global, tokens: &[Token], place: usize) -> Result<Option<Expr>, AllocError>
    requires { place < length tokens.now }
    ensures { IfOk result (λ found. FindsBar place tokens.now found) }
{
    match tokens[place] {
        Token::Bar => {}
        _ => return Ok(None),
    }
    let Some(b) = both_of(alloc, &tokens[place + 1..])? else {
        return Ok(None);
    };
    let Some(e) = either_of(alloc, &tokens[..place])? else {
        return Ok(None);
    };
    Ok(Some(Expr::either(alloc, e, b)?))
}

#[cycle(slow)]
fn either_of(alloc: Global, tokens: &[Token]) -> Result<Option<Expr>, AllocError>
    ensures { IfOk result (λ found. Finds Kind.either tokens.now found) }
{
    for place in 0..tokens.len() {
        match bar_at(alloc, tokens, place)? {
            Some(e) => return Ok(Some(e)),
            None => {}
        }
    }
    both_of(alloc, tokens)
}

/// Whether some expression begins with the tokens: it does where a word and some brackets complete them.
fn goes_on(alloc: Global, tokens: &[Token], word: Word) -> Result<bool, AllocError>
    requires { length tokens.now ≤ 64 }
    ensures { IfOk result (λ yes. IsTrue yes ↔ CanGoOn tokens.now) }
{
    let mut whole = tokens.to_vec(alloc)?;
    whole.push(Token::Word(word))?;
    for _ in 0..tokens.len() + 1 {
        match either_of(alloc, &whole)? {
            Some(_) => return Ok(true),
            None => whole.push(Token::Right)?,
        }
    }
    Ok(false)
}

/// What `parse` answers, for a few tokens. The word is any one.
pub fn parse_slowly(alloc: Global, tokens: &[Token], word: Word) -> Result<Expr, ExprFault>
    requires { length tokens.now ≤ 64 }
    ensures accepted { IfOk result (λ tree. Accepts tokens.now tree) }
    ensures refused { IfErr result (λ fault. fault ≢ ExprFault.Memory → Refuses tokens.now fault) }
{
    if tokens.is_empty() {
        return Err(ExprFault::Empty);
    }
    for place in 0..tokens.len() {
        let goes_on = goes_on(alloc, &tokens[..place + 1], word)?;
        if !goes_on {
            return Err(ExprFault::Unexpected(place));
        }
    }
    match either_of(alloc, tokens)? {
        Some(e) => Ok(e),
        None => Err(ExprFault::Unclosed),
    }
}
