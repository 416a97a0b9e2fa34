ghost use Rattle.std.specs.Prelude.{◌≡◌, ◌≤◌, ◌∷◌, IfOk, map};
ghost use Rattle.std.specs.Char.{to_ascii_lowercase};
ghost use Rattle.std.specs.List.{list_all};
ghost use Rattle.std.specs.Str.Lines.{strip_carriage_return};
ghost use Rattle.query_model.specs.Pieces.{is_printable, is_skipped};
ghost use Rattle.query_model.specs.Lines.{LineBehind, GivesLine, cancel_behind, doc_behind, fields_behind, line_said, said_behind, said_by, tick_behind};
ghost use Rattle.query_text.specs.Cuts.{is_small};
ghost use Rattle.query_text.specs.Outcomes.{Gives, GivesBy};

use crate::fault::{BAD_BYTE, LineFault, MISSING_FIELD, UNKNOWN_COMMAND};
use crate::fields::{Fields, split_spaces};
use crate::keyword::keyword_of;
use crate::number::{number_alone, number_field};
use crate::query::{after_line, query_from};
use crate::so_far::SoFar;
use crate::words::words_of;
use fan_base::Doc;
use query_model::limits::{MOST_QUERIES, MOST_TICKS, MOST_WORDS};
use query_model::{Keyword, Line};
use std::alloc::{AllocError, Global};

/// For how many words, by a guess from the bytes that are left of the line, a room is small.
const FEW_WORDS: usize = 32;

/// The line that a piece stands for behind the lines so far, or none where it is skipped.
#[tactic(auto, unfolding(query_model::specs::Lines::said_behind))]
pub fn line_of(
    alloc: Global,
    shards: u32,
    so_far: &SoFar,
    piece: &[u8],
) -> Result<Option<Line>, LineFault>
    ensures { GivesBy result (LineBehind shards so_far.now piece.now) }
{
    let text = without_return(piece);
    if is_skipped(text) {
        return Ok(None);
    }
    text_line(alloc, shards, so_far, text)
}

/// A piece without the one carriage return at its end, if it has one.
fn without_return(piece: &[u8]) -> &[u8]
    ensures { result.now ≡ strip_carriage_return piece.now }
{
    let size = piece.len();
    if size > 0 && piece[size - 1] == b'\r' {
        &piece[..size - 1]
    } else {
        piece
    }
}

fn is_skipped(text: &[u8]) -> bool
    ensures { result ≡ is_skipped text.now }
{
    let (_, rest) = split_spaces(text);
    if rest.is_empty() {
        true
    } else {
        rest[0] == b'#'
    }
}

/// The line of a text that isn't skipped. Only a text with capital letters is copied.
fn text_line(
    alloc: Global,
    shards: u32,
    so_far: &SoFar,
    text: &[u8],
) -> Result<Option<Line>, LineFault>
    ensures { GivesBy result (GivesLine shards so_far.now (line_said so_far.now text.now)) }
{
    if are_small(text) {
        return fields_line(alloc, shards, so_far, Fields::new(text));
    }
    if !is_printable(text) {
        return Err(BAD_BYTE);
    }
    let lowered = lowercase(alloc, text)?;
    fields_line(alloc, shards, so_far, Fields::new(lowered.as_slice()))
}

/// Whether a text is printable and has no capital letter.
fn are_small(text: &[u8]) -> bool
    ensures { result ≡ list_all is_small text.now }
{
    let mut all = true;
    for byte in text {
        all &= is_small(*byte);
    }
    all
}

fn is_small(byte: u8) -> bool
    ensures { result ≡ is_small byte }
{
    is_printable_byte(byte) && byte.to_ascii_lowercase() == byte
}

fn is_printable(text: &[u8]) -> bool
    ensures { result ≡ list_all is_printable text.now }
{
    let mut all = true;
    for byte in text {
        all &= is_printable_byte(*byte);
    }
    all
}

fn is_printable_byte(byte: u8) -> bool
    ensures { result ≡ is_printable byte }
{
    0x20 <= byte && byte <= 0x7E
}

fn lowercase(alloc: Global, text: &[u8]) -> Result<Vec<u8>, AllocError>
    ensures { IfOk result (λ lowered. lowered.items ≡ map to_ascii_lowercase text.now) }
{
    text.iter()
        .map(|byte| byte.to_ascii_lowercase())
        .collect(alloc)
}

/// The line with these fields.
fn fields_line(
    alloc: Global,
    shards: u32,
    so_far: &SoFar,
    mut fields: Fields<'_>,
) -> Result<Option<Line>, LineFault>
    ensures { GivesBy result (GivesLine shards so_far.now (fields_behind so_far.now fields.entry)) }
{
    let name = fields.next().ok_or(UNKNOWN_COMMAND)?;
    keyword_line(alloc, shards, so_far, keyword_of(name), fields)
}

/// The line that begins with this keyword.
fn keyword_line(
    alloc: Global,
    shards: u32,
    so_far: &SoFar,
    name: Option<Keyword>,
    fields: Fields<'_>,
) -> Result<Option<Line>, LineFault>
    ensures { GivesBy result (GivesLine shards so_far.now (said_by so_far.now name fields.entry)) }
{
    match name {
        Some(Keyword::Doc) => Ok(Some(Line::Doc(doc_of(alloc, so_far, fields)?))),
        Some(Keyword::Tick) => Ok(Some(Line::Tick(ticks_of(so_far, fields)?))),
        Some(Keyword::Cancel) => Ok(Some(Line::Cancel(cancelled_of(fields)?))),
        Some(Keyword::After) => after_line(alloc, shards, so_far, fields),
        name => query_from(alloc, shards, so_far, None, name, fields),
    }
}

/// The document that the fields behind `doc` give.
fn doc_of(alloc: Global, so_far: &SoFar, mut fields: Fields<'_>) -> Result<Doc, LineFault>
    ensures { Gives result (doc_behind so_far.now fields.entry) }
{
    let id = fields.next().ok_or(MISSING_FIELD)?;
    let id = number_field(id, 0, u32::MAX)?;
    let room = room_for(&fields);
    let words = words_of(alloc, fields, room)?;
    so_far.doc_room(id)?;
    Ok(Doc { id, words })
}

/// For how many words of a document there is room at first. For more than a few it is always the same room, so that it lies where that
/// of the document before lay, which is gone. Small rooms an allocator gives again by itself.
fn room_for(fields: &Fields<'_>) -> usize {
    let guess = fields.guess();
    if guess <= FEW_WORDS {
        guess
    } else {
        MOST_WORDS
    }
}

/// The ticks that the fields behind `tick` give.
fn ticks_of(so_far: &SoFar, fields: Fields<'_>) -> Result<u32, LineFault>
    ensures { Gives result (tick_behind so_far.now fields.entry) }
{
    let ticks = number_alone(fields, 1, MOST_TICKS)?;
    so_far.tick_room(ticks)?;
    Ok(ticks)
}

/// The number of the query that the fields behind `cancel` give.
fn cancelled_of(fields: Fields<'_>) -> Result<u32, LineFault>
    ensures { Gives result (cancel_behind fields.entry) }
{
    number_alone(fields, 1, MOST_QUERIES as u32)
}
