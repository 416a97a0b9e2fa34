ghost use Rattle.std.specs.Prelude.{◌≡◌, ◌++◌, IfOk};
ghost use Rattle.std.specs.Fmt.{decimal};
ghost use Rattle.query_model.specs.declared.reply.Reply.TheVariants as reply;
ghost use Rattle.query_model.specs.Output.{error_text, reply_text, kind_text, limit_text, presence_text};

use crate::digits::{push_byte, push_decimal};
use fan_base::Memory;
use query_model::{BadInput, BadKind, Hits, Limit, Reply};
use std::alloc::Global;

/// How many bytes most parts of a line have at most: a number behind a space, and a score.
const PART_ROOM: usize = 12;

/// How many bytes a line without parts has at most: two numbers of 20 digits, a colon, and the longest text beside them.
const REST_ROOM: usize = 48;

/// The line of a reply to the query with the number `n`.
pub fn reply_line(alloc: Global, n: u64, reply: &Reply) -> Result<Vec<u8>, Memory>
    ensures { IfOk result (λ line. line.items ≡ reply_text n reply.now) }
{
    match reply {
        Reply::Find(hits) => find_line(alloc, n, hits),
        Reply::Count(total) => count_line(alloc, n, *total),
        Reply::Present(present) => presence_line(alloc, n, *present),
        Reply::Top(scores) => top_line(alloc, n, scores.as_slice()),
        Reply::Cancelled => cancelled_line(alloc, n),
    }
}

fn find_line(alloc: Global, n: u64, hits: &Hits) -> Result<Vec<u8>, Memory>
    ensures { IfOk result (λ line. line.items ≡ reply_text n (reply.Find hits.now)) }
{
    let mut text = line_start(alloc, n, b" find ", hits.ids.len())?;
    push_decimal(&mut text, hits.total)?;
    push_byte(&mut text, b':')?;
    for id in hits.ids.as_slice() {
        push_byte(&mut text, b' ')?;
        push_decimal(&mut text, u64::from(*id))?;
    }
    push_byte(&mut text, b'\n')?;
    Ok(text)
}

fn count_line(alloc: Global, n: u64, total: u64) -> Result<Vec<u8>, Memory>
    ensures { IfOk result (λ line. line.items ≡ reply_text n (reply.Count total)) }
{
    let mut text = line_start(alloc, n, b" count ", 0)?;
    push_decimal(&mut text, total)?;
    push_byte(&mut text, b'\n')?;
    Ok(text)
}

fn presence_line(alloc: Global, n: u64, present: bool) -> Result<Vec<u8>, Memory>
    ensures { IfOk result (λ line. line.items ≡ reply_text n (reply.Present present)) }
{
    let mut text = line_start(alloc, n, b" exists ", 0)?;
    text.extend_from_slice(presence_text(present).as_bytes())?;
    push_byte(&mut text, b'\n')?;
    Ok(text)
}

fn presence_text(present: bool) -> &'static str
    ensures { result.now ≡ presence_text present }
{
    if present { "yes" } else { "no" }
}

fn top_line(alloc: Global, n: u64, scores: &[(u32, u64)]) -> Result<Vec<u8>, Memory>
    ensures { IfOk result (λ line. line.items ≡ reply_text n (reply.Top scores.now)) }
{
    let mut text = line_start(alloc, n, b" top ", scores.len())?;
    push_decimal(&mut text, scores.len() as u64)?;
    push_byte(&mut text, b':')?;
    for (id, score) in scores {
        push_byte(&mut text, b' ')?;
        push_decimal(&mut text, u64::from(*id))?;
        push_byte(&mut text, b'=')?;
        push_decimal(&mut text, *score)?;
    }
    push_byte(&mut text, b'\n')?;
    Ok(text)
}

fn cancelled_line(alloc: Global, n: u64) -> Result<Vec<u8>, Memory>
    ensures { IfOk result (λ line. line.items ≡ reply_text n reply.Cancelled) }
{
    line_start(alloc, n, b" cancelled\n", 0)
}

/// The start of a line: a number, and what kind of reply it is. There is room for the rest of the line, with so many parts.
fn line_start(alloc: Global, n: u64, kind: &[u8], parts: usize) -> Result<Vec<u8>, Memory>
    ensures { IfOk result (λ text. text.items ≡ decimal n ++ kind.now) }
{
    let room = parts.saturating_mul(PART_ROOM).saturating_add(REST_ROOM);
    let mut text = Vec::with_capacity(alloc, room)?;
    push_decimal(&mut text, n)?;
    text.extend_from_slice(kind)?;
    Ok(text)
}

/// The line that says why an input was refused.
pub fn error_line(alloc: Global, bad: &BadInput) -> Result<Vec<u8>, Memory>
    ensures { IfOk result (λ line. line.items ≡ error_text bad.now) }
{
    let number = bad.line;
    let kind = kind_text(bad.kind);
    Ok(format!(in alloc; "error line {number}: {kind}\n")?.into_bytes())
}

fn kind_text(kind: BadKind) -> &'static str
    ensures { result.now ≡ kind_text kind }
{
    match kind {
        BadKind::BadByte => "bad byte",
        BadKind::UnknownCommand => "unknown command",
        BadKind::BadNumber => "bad number",
        BadKind::BadWord => "bad word",
        BadKind::DuplicateDoc => "duplicate document",
        BadKind::BadExpr(_) => "bad expression",
        BadKind::MissingField => "missing field",
        BadKind::ExtraField => "extra field",
        BadKind::Limit(limit) => limit_text(limit),
    }
}

fn limit_text(limit: Limit) -> &'static str
    ensures { result.now ≡ limit_text limit }
{
    match limit {
        Limit::Words => "too many words",
        Limit::Documents => "too many documents",
        Limit::Queries => "too many queries",
        Limit::Tasks => "too many tasks",
        Limit::Ticks => "too many ticks",
        Limit::Depth => "expression too deep",
        Limit::Tokens => "expression too long",
    }
}
