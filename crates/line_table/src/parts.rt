ghost use Rattle.std.specs.Prelude.{◌≡◌, ◌++◌, ◌∷◌, [], IfOk, OnOk, map};
ghost use Rattle.std.specs.Option.{option_to_list};
ghost use Rattle.query_model.specs.Alike.{without_words};
ghost use Rattle.query_model.specs.Documents.{docs_of};
ghost use Rattle.word_table.specs.Tables.{IsTableOf};
ghost use Rattle.line_table.specs.Numbered.{bare_line, numbered_doc};

use crate::line::TableLine;
use crate::push::push;
use crate::table::LineTable;
use fan_base::{Doc, Memory, Words};
use query_model::{Line, Lines};
use std::alloc::Global;
use word_table::{DocTable, NumberedDoc};

impl LineTable {
    /// The documents by numbers, with the dictionary, and the lines without words. No number is copied.
    pub fn into_parts(self, alloc: Global) -> Result<(DocTable, Lines), Memory>
        ensures docs { IfOk result (λ parts. IsTableOf parts.0 (docs_of self)) }
        ensures lines { IfOk result (λ parts. parts.1 ≡ map without_words self) }
    {
        let LineTable { dictionary, lines } = self;
        let mut docs = Vec::new(alloc);
        let mut bare = Vec::with_capacity(alloc, lines.len())?;
        for line in lines {
            put_apart(alloc, line, &mut docs, &mut bare)?;
        }
        let table = DocTable::new(alloc, dictionary, docs)?;
        Ok((table, Lines::from_vec(bare)))
    }
}

/// Puts a line without words behind the others, and its document, if it is one, behind the documents.
fn put_apart(
    alloc: Global,
    line: TableLine,
    docs: &mut Vec<NumberedDoc>,
    bare: &mut Vec<Line>,
) -> Result<(), Memory>
    ensures docs { OnOk result (docs.new.items ≡ docs.old.items ++ option_to_list (numbered_doc line)) }
    ensures lines { OnOk result (bare.new.items ≡ bare.old.items ++ bare_line line ∷ []) }
{
    let line = match line {
        TableLine::Doc(doc) => {
            let id = doc.id;
            push(docs, doc)?;
            bare_doc(alloc, id)
        }
        TableLine::Query(query) => Line::Query(query),
        TableLine::Tick(ticks) => Line::Tick(ticks),
        TableLine::Cancel(number) => Line::Cancel(number),
    };
    push(bare, line)
}

/// The line of a document without words.
fn bare_doc(alloc: Global, id: u32) -> Line
    ensures { result ≡ Line.Doc (record { id = id; words = [] }) }
{
    Line::Doc(Doc {
        id,
        words: Words::new(alloc),
    })
}
