ghost use Rattle.std.specs.Prelude.{◌≡◌};
ghost use Rattle.query_model.specs.Lines.{GivesLine, after_behind, ask_behind, ask_of, expr_behind, prio_behind, query_from, query_with, top_behind};
ghost use Rattle.query_model.specs.Expressions.{tokens_of};
ghost use Rattle.query_text.specs.Outcomes.{GivesBy};
ghost use Rattle.query_text.specs.Sayings.{GivesAskBy, GivesTreeBy};

use crate::fault::{LineFault, MISSING_FIELD, UNKNOWN_COMMAND};
use crate::fields::Fields;
use crate::keyword::keyword_of;
use crate::number::number_field;
use crate::so_far::SoFar;
use crate::tokens::{expr_of, first_tokens};
use crate::words::{without_spare, words_of};
use query_grammar::Expr;
use query_model::limits::{MOST_DELAY, MOST_RANKED, MOST_WORDS};
use query_model::{Ask, ExprAsk, Keyword, Line, Prio, Query};
use std::alloc::Global;

/// The query that the fields behind `after` give.
pub fn after_line(
    alloc: Global,
    shards: u32,
    so_far: &SoFar,
    mut fields: Fields<'_>,
) -> Result<Option<Line>, LineFault>
    ensures { GivesBy result (GivesLine shards so_far.now (after_behind fields.entry)) }
{
    let delay = fields.next().ok_or(MISSING_FIELD)?;
    let delay = number_field(delay, 1, MOST_DELAY)?;
    let name = fields.next().ok_or(MISSING_FIELD)?;
    query_from(alloc, shards, so_far, Some(delay), keyword_of(name), fields)
}

/// The query with this delay that begins with this keyword.
pub fn query_from(
    alloc: Global,
    shards: u32,
    so_far: &SoFar,
    delay: Option<u32>,
    name: Option<Keyword>,
    fields: Fields<'_>,
) -> Result<Option<Line>, LineFault>
    ensures { GivesBy result (GivesLine shards so_far.now (query_from delay name fields.entry)) }
{
    match name {
        Some(Keyword::Lo) => prio_line(alloc, shards, so_far, delay, Prio::Lo, fields),
        Some(Keyword::Mid) => prio_line(alloc, shards, so_far, delay, Prio::Mid, fields),
        Some(Keyword::Hi) => prio_line(alloc, shards, so_far, delay, Prio::Hi, fields),
        name => query_line(alloc, shards, so_far, delay, Prio::Mid, name, fields),
    }
}

/// The query that the fields behind a priority word give.
fn prio_line(
    alloc: Global,
    shards: u32,
    so_far: &SoFar,
    delay: Option<u32>,
    prio: Prio,
    mut fields: Fields<'_>,
) -> Result<Option<Line>, LineFault>
    ensures { GivesBy result (GivesLine shards so_far.now (prio_behind delay prio fields.entry)) }
{
    let name = fields.next().ok_or(MISSING_FIELD)?;
    query_line(alloc, shards, so_far, delay, prio, keyword_of(name), fields)
}

/// The query with this delay and priority, from its ask on, where there is room for one more.
fn query_line(
    alloc: Global,
    shards: u32,
    so_far: &SoFar,
    delay: Option<u32>,
    prio: Prio,
    name: Option<Keyword>,
    fields: Fields<'_>,
) -> Result<Option<Line>, LineFault>
    ensures { GivesBy result (GivesLine shards so_far.now (query_with delay prio name fields.entry)) }
{
    let ask = ask_named(alloc, name, fields)?;
    so_far.query_room(shards)?;
    Ok(Some(Line::Query(Query { delay, prio, ask })))
}

/// What an ask with this name asks.
fn ask_named(alloc: Global, name: Option<Keyword>, fields: Fields<'_>) -> Result<Ask, LineFault>
    ensures { GivesBy result (GivesAskBy (ask_behind name fields.entry)) }
{
    match name {
        Some(Keyword::Find) => expr_behind(alloc, ExprAsk::Find, fields),
        Some(Keyword::Count) => expr_behind(alloc, ExprAsk::Count, fields),
        Some(Keyword::Exists) => expr_behind(alloc, ExprAsk::Present, fields),
        Some(Keyword::Top) => top_behind(alloc, fields),
        _ => Err(UNKNOWN_COMMAND),
    }
}

/// What the fields behind the name of such an ask ask.
fn expr_behind(alloc: Global, asks: ExprAsk, fields: Fields<'_>) -> Result<Ask, LineFault>
    ensures { GivesBy result (GivesAskBy (expr_behind asks fields.entry)) }
{
    match expr_in(alloc, fields) {
        Ok(expr) => Ok(ask_of(asks, expr)),
        Err(fault) => Err(fault),
    }
}

fn ask_of(asks: ExprAsk, expr: Expr) -> Ask
    ensures { result ≡ ask_of asks expr }
{
    match asks {
        ExprAsk::Find => Ask::Find(expr),
        ExprAsk::Count => Ask::Count(expr),
        ExprAsk::Present => Ask::Present(expr),
    }
}

/// The expression that these fields are.
fn expr_in(alloc: Global, fields: Fields<'_>) -> Result<Expr, LineFault>
    ensures { GivesBy result (GivesTreeBy (tokens_of fields.entry)) }
{
    let tokens = first_tokens(alloc, fields)?;
    expr_of(alloc, tokens.as_slice())
}

/// What the fields behind `top` ask.
fn top_behind(alloc: Global, mut fields: Fields<'_>) -> Result<Ask, LineFault>
    ensures { GivesBy result (GivesAskBy (top_behind fields.entry)) }
{
    let most = fields.next().ok_or(MISSING_FIELD)?;
    let most = number_field(most, 1, MOST_RANKED)?;
    if fields.is_empty() {
        return Err(MISSING_FIELD);
    }
    let room = fields.guess().min(MOST_WORDS);
    let words = words_of(alloc, fields, room)?;
    Ok(Ask::Top(most, without_spare(words)))
}
