ghost use Rattle.std.specs.Prelude.{◌≤◌, ◌<◌};
ghost use Rattle.query_model.specs.Generated.{draw_doc, draw_docs};
ghost use Rattle.query_gen.specs.Drawn.{AreAllWords, IsDrawn};

use crate::draws::{Draws, all_words};
use fan_base::{Doc, Memory, Word};
use line_table::LineTable;
use query_model::Line;
use std::alloc::{AllocError, Global};

/// How many words a drawn document has at most.
const LONGEST: u64 = 60;

impl Draws {
    /// The document at a place, from 0, of words out of all that can be drawn.
    fn document(&mut self, alloc: Global, all: &[Word], place: u32) -> Result<Line, AllocError>
        requires place { place < 20000 }
        requires all { AreAllWords all.now }
        ensures { IsDrawn (draw_doc place) result self.old self.new }
    {
        let more = self.number(LONGEST);
        let words = self.words(alloc, all, 1 + more)?;
        Ok(Line::Doc(Doc {
            id: 3 * place + 1,
            words,
        }))
    }

    /// The lines of so many documents.
    pub(crate) fn documents(&mut self, alloc: Global, count: u32) -> Result<LineTable, Memory>
        requires { count ≤ 20000 }
        ensures { IsDrawn (draw_docs 0 count) result self.old self.new }
    {
        let all = all_words(alloc)?;
        let mut lines = LineTable::new(alloc);
        let mut place = 0;
        'documents: while place < count {
            lines = lines.with(self.document(alloc, all.as_slice(), place)?)?;
            place += 1;
        }
        Ok(lines)
    }
}
