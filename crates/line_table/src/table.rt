ghost use Rattle.std.specs.Prelude.{◌≡◌, ◌++◌, ◌∷◌, [], IfOk, length};
ghost use Rattle.line_table.specs.Rooms.{IsRoomFor};

use crate::line::TableLine;
use crate::push::push;
use fan_base::Memory;
use query_model::{Line, Lines};
use std::alloc::Global;
use std::marker::Model;
use word_table::{Dictionary, numbers_stay};

/// The lines of an input, its documents with numbers of a dictionary's words in place of words.
#[derive(Drop)]
pub struct LineTable {
    pub(crate) dictionary: Dictionary,
    pub(crate) lines: Vec<TableLine>,
}

impl Model for LineTable {
    ghost use Rattle.std.specs.Prelude.{List};
    ghost use Rattle.query_model.specs.declared.line.Line.{Line};
    ghost use Rattle.line_table.specs.Tables.{IsTable, lines_of};

    ghost Value = { List Line };

    ghost view = { lines_of };

    ghost invariant = { IsTable };

    ghost use Rattle.query_grammar.specs.contracts.expr.Expr as expr;
    ghost use Rattle.std.specs.Coded.{codes};

    ghost coded = { Prim.hlevel (codes, expr.the_row.coded) };
}

impl LineTable {
    /// No lines.
    pub fn new(alloc: Global) -> LineTable
        ensures { result ≡ [] }
    {
        LineTable {
            dictionary: Dictionary::new(alloc),
            lines: Vec::new(alloc),
        }
    }

    /// How many lines it has.
    pub fn len(&self) -> usize
        ensures { result ≡ length self.now }
    {
        self.lines.len()
    }

    /// The lines with one more, for which there is room.
    pub fn with(self, line: Line) -> Result<LineTable, Memory>
        requires room { IsRoomFor self line }
        ensures { IfOk result (λ more. more ≡ self ++ line ∷ []) }
    {
        numbers_stay();
        let LineTable {
            mut dictionary,
            mut lines,
        } = self;
        let line = TableLine::number(&mut dictionary, line)?;
        push(&mut lines, line)?;
        Ok(LineTable { dictionary, lines })
    }

    /// The lines, with words again.
    pub fn into_lines(self, alloc: Global) -> Result<Lines, Memory>
        ensures { IfOk result (λ lines. lines ≡ self) }
    {
        let LineTable { dictionary, lines } = self;
        let mut all = Vec::with_capacity(alloc, lines.len())?;
        for line in lines {
            push(&mut all, line.into_line(alloc, &dictionary)?)?;
        }
        Ok(Lines::from_vec(all))
    }
}
