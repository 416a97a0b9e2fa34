ghost use Rattle.std.specs.Prelude.{◌≡◌, ◌+◌, ◌≤◌, ◌^◌, IfOk, OnOk, length};
ghost use Rattle.word_table.specs.Numbers.{Knows, with_words, words_in};
ghost use Rattle.line_table.specs.Numbered.{HasNumbers, IsNumberedLine, line_by};
ghost use Rattle.line_table.specs.Rooms.{words_of_line};

use fan_base::Memory;
use query_model::{Line, Query};
use std::alloc::Global;
use word_table::{Dictionary, NumberedDoc};

/// A line, its document by numbers.
#[derive(Debug, Drop)]
pub(crate) enum TableLine {
    Doc(NumberedDoc),
    Query(Query),
    Tick(u32),
    Cancel(u32),
}

impl TableLine {
    /// The line, its document by numbers. New words get numbers.
    pub(crate) fn number(dictionary: &mut Dictionary, line: Line) -> Result<TableLine, Memory>
        requires known { Knows dictionary.old (words_in dictionary.old) }
        requires few { length (words_in dictionary.old) + length (words_of_line line) ≤ 2 ^ 32 }
        ensures knows { OnOk result (Knows dictionary.new (with_words (words_in dictionary.old) (words_of_line line))) }
        ensures numbered { IfOk result (λ numbered. IsNumberedLine (with_words (words_in dictionary.old) (words_of_line line)) numbered line) }
    {
        match line {
            Line::Doc(doc) => Ok(TableLine::Doc(dictionary.number_doc(&doc)?)),
            Line::Query(query) => Ok(TableLine::Query(query)),
            Line::Tick(ticks) => Ok(TableLine::Tick(ticks)),
            Line::Cancel(number) => Ok(TableLine::Cancel(number)),
        }
    }

    /// The line, with words again.
    pub(crate) fn into_line(self, alloc: Global, dictionary: &Dictionary) -> Result<Line, Memory>
        requires numbers { HasNumbers (words_in dictionary.now) self }
        ensures { IfOk result (λ line. line ≡ line_by (words_in dictionary.now) self) }
    {
        match self {
            TableLine::Doc(numbered) => Ok(Line::Doc(dictionary.doc_by(alloc, &numbered)?)),
            TableLine::Query(query) => Ok(Line::Query(query)),
            TableLine::Tick(ticks) => Ok(Line::Tick(ticks)),
            TableLine::Cancel(number) => Ok(Line::Cancel(number)),
        }
    }
}
