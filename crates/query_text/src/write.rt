ghost use Rattle.std.specs.Prelude.{◌≡◌, ◌++◌, ◌∷◌, [], ℕ, IfOk, OnOk};
ghost use Rattle.std.specs.Fmt.{decimal};
ghost use Rattle.std.specs.List.{join_with_byte};
ghost use Rattle.query_model.specs.Pieces.{Bytes, space};
ghost use Rattle.query_model.specs.declared.line.Ask.TheVariants as ask;
ghost use Rattle.query_model.specs.declared.line.Line.TheVariants as line;
ghost use Rattle.query_model.specs.Canonical.{ask_fields, canonical_text, delay_fields, expr_text, line_text, prio_fields};
ghost use Rattle.query_model.specs.Reading.{Accepts};
ghost use Rattle.query_text.specs.Writing.{before_spaces, behind_spaces};

use crate::expr_text::{Place, push_expr};
use fan_base::{Doc, Memory, Word, Words};
use query_expr::canonical_tokens_are_accepted;
use query_grammar::Expr;
use query_model::laws::canonical_text_is_accepted;
use query_model::{Ask, Input, Line, Prio, Query};
use std::alloc::{AllocError, Global};

/// The canonical text of an input: a line for each of its lines, fields parted by one space, no leading zeros, and brackets
/// only where they are needed. It is read as the same input again, for each number of shards for which some bytes are.
#[tactic(auto, unfolding(query_model::specs::Canonical::canonical_text))]
pub fn write_input(alloc: Global, input: &Input) -> Result<Vec<u8>, Memory>
    ensures text { IfOk result (λ text. text.items ≡ canonical_text input.now) }
    ensures accepted { (bytes : Bytes) (shards : ℕ) → Accepts bytes shards input.now →
        IfOk result (λ text. Accepts text.items shards input.now) }
{
    canonical_text_is_accepted();
    canonical_tokens_are_accepted();
    let mut text = Vec::new(alloc);
    for line in input.lines.as_slice() {
        push_line(alloc, &mut text, line)?;
        text.extend_from_slice(b"\n")?;
    }
    Ok(text)
}

/// Puts the text of a line behind the text, without its end.
fn push_line(alloc: Global, text: &mut Vec<u8>, line: &Line) -> Result<(), AllocError>
    ensures { OnOk result (text.new.items ≡ text.old.items ++ line_text line.now) }
{
    match line {
        Line::Doc(doc) => push_doc(alloc, text, doc),
        Line::Query(query) => push_query(alloc, text, query),
        Line::Tick(ticks) => push_named(alloc, text, b"tick", *ticks),
        Line::Cancel(number) => push_named(alloc, text, b"cancel", *number),
    }
}

fn push_doc(alloc: Global, text: &mut Vec<u8>, doc: &Doc) -> Result<(), AllocError>
    ensures { OnOk result (text.new.items ≡ text.old.items ++ line_text (line.Doc doc.now)) }
{
    push_named(alloc, text, b"doc", doc.id)?;
    push_words(text, doc.words.as_slice())
}

fn push_query(alloc: Global, text: &mut Vec<u8>, query: &Query) -> Result<(), AllocError>
    ensures { OnOk result (text.new.items ≡ text.old.items ++ line_text (line.Query query.now)) }
{
    push_delay(alloc, text, query.delay)?;
    push_prio(text, query.prio)?;
    push_ask(alloc, text, &query.ask)
}

fn push_delay(alloc: Global, text: &mut Vec<u8>, delay: Option<u32>) -> Result<(), AllocError>
    ensures { OnOk result (text.new.items ≡ text.old.items ++ before_spaces (delay_fields delay)) }
{
    match delay {
        Some(delay) => {
            push_named(alloc, text, b"after", delay)?;
            text.push(b' ')?;
            Ok(())
        }
        None => Ok(()),
    }
}

fn push_prio(text: &mut Vec<u8>, prio: Prio) -> Result<(), AllocError>
    ensures { OnOk result (text.new.items ≡ text.old.items ++ before_spaces (prio_fields prio)) }
{
    match prio {
        Prio::Lo => text.extend_from_slice(b"lo "),
        Prio::Mid => Ok(()),
        Prio::Hi => text.extend_from_slice(b"hi "),
    }
}

fn push_ask(alloc: Global, text: &mut Vec<u8>, ask: &Ask) -> Result<(), AllocError>
    ensures { OnOk result (text.new.items ≡ text.old.items ++ join_with_byte space (ask_fields ask.now)) }
{
    match ask {
        Ask::Find(expr) => push_asked(text, b"find ", expr),
        Ask::Count(expr) => push_asked(text, b"count ", expr),
        Ask::Present(expr) => push_asked(text, b"exists ", expr),
        Ask::Top(most, words) => push_top(alloc, text, *most, words),
    }
}

fn push_top(alloc: Global, text: &mut Vec<u8>, most: u32, words: &Words) -> Result<(), AllocError>
    ensures { OnOk result (text.new.items ≡ text.old.items ++ join_with_byte space (ask_fields (ask.Top most words.now))) }
{
    push_named(alloc, text, b"top", most)?;
    push_words(text, words.as_slice())
}

fn push_asked(text: &mut Vec<u8>, name: &[u8], expr: &Expr) -> Result<(), AllocError>
    ensures { OnOk result (text.new.items ≡ text.old.items ++ (name.now ++ expr_text expr.now)) }
{
    text.extend_from_slice(name)?;
    push_expr(text, Place::Either, expr)
}

/// A name, and a number behind a space.
fn push_named(alloc: Global, text: &mut Vec<u8>, name: &[u8], number: u32) -> Result<(), AllocError>
    ensures { OnOk result (text.new.items ≡ text.old.items ++ (name.now ++ space ∷ decimal number)) }
{
    text.extend_from_slice(name)?;
    text.push(b' ')?;
    let digits = format!(in alloc; "{number}")?;
    text.extend_from_slice(digits.as_bytes())
}

/// Words, each behind a space.
fn push_words(text: &mut Vec<u8>, words: &[Word]) -> Result<(), AllocError>
    ensures { OnOk result (text.new.items ≡ text.old.items ++ behind_spaces words.now) }
{
    for word in words {
        text.push(b' ')?;
        text.extend_from_slice(word.as_bytes())?;
    }
    Ok(())
}
