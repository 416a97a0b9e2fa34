ghost use Rattle.std.specs.Prelude.{◌≡◌, ◌⊎◌, ◌+◌, ◌≤◌, ◌<◌, ◌^◌, ◌++◌, [], ℕ, Ok, Err, Option, IfOk, length};
ghost use Rattle.std.specs.Option.{option_to_list};
ghost use Rattle.query_model.specs.declared.fault.BadInput.{BadInput};
ghost use Rattle.query_model.specs.declared.line.Line.{Line};
ghost use Rattle.query_model.specs.Lines.{LineBehind};
ghost use Rattle.query_model.specs.Pieces.{Bytes};
ghost use Rattle.query_model.specs.Reading.{Refuses};
ghost use Rattle.query_text.specs.Progress.{EndsLine, HasReadText};

use crate::fault::LineFault;
use crate::line::line_of;
use crate::pieces::Pieces;
use crate::so_far::SoFar;
use line_table::LineTable;
use query_model::laws::{lines_by_facts, one_piece_more};
use query_model::{BadInput, InputFault};
use std::alloc::Global;
use std::marker::Model;

/// An input of which some lines were read: what comes behind them is read by [`Reading::read`], as much at a time as the caller has.
#[derive(Drop)]
pub struct Reading {
    lines: SoFar,
    number: u64,
}

impl Model for Reading {
    ghost use Rattle.query_text.specs.Progress.{ReadSoFar};

    ghost Value = { ReadSoFar };

    ghost view = { λ r. record { lines = r.lines; number = r.number } };

    ghost use Rattle.query_grammar.specs.contracts.expr.Expr as expr;
    ghost use Rattle.std.specs.Coded.{codes};

    ghost coded = { Prim.hlevel (codes, expr.the_row.coded) };
}

impl Reading {
    /// An input of which nothing was read.
    pub fn new(alloc: Global) -> Reading
        ensures nothing { (shards : ℕ) → HasReadText shards [] result }
        ensures number { result.number ≡ 0 }
    {
        one_piece_more();
        Reading {
            lines: SoFar::new(alloc),
            number: 0,
        }
    }

    /// Reads what comes next, behind the end of a line. Where more is to come, it has to end with its last line's line feed.
    ///
    /// A refusal is that of the first line with an unmet check, whatever comes behind it.
    pub fn read(self, alloc: Global, shards: u32, bytes: &[u8]) -> Result<Reading, InputFault>
        requires room { self.number + length bytes.now < 2 ^ 64 }
        ensures more { IfOk result (λ more. (text : Bytes) → EndsLine text → HasReadText shards text self →
            HasReadText shards (text ++ bytes.now) more) }
        ensures refused { (bad : BadInput) → result ≡ Err (InputFault.Bad bad) → (text rest : Bytes) →
            EndsLine text → HasReadText shards text self → EndsLine bytes.now ⊎ (rest ≡ []) → Refuses (text ++ (bytes.now ++ rest)) shards bad }
        ensures number { IfOk result (λ more. more.number ≤ self.number + length bytes.now) }
    {
        one_piece_more();
        let Reading {
            mut lines,
            mut number,
        } = self;
        let mut pieces = Pieces::new(bytes);
        'pieces: while let Some(piece) = pieces.next() {
            number += 1;
            match read_piece(alloc, shards, lines, number, piece) {
                Ok(more) => lines = more,
                Err(fault) => return Err(fault),
            }
        }
        Ok(Reading { lines, number })
    }

    /// The lines, their documents by numbers.
    pub fn into_table(self) -> LineTable
        ensures { result ≡ self.lines }
    {
        let Reading { lines, .. } = self;
        lines.into_table()
    }
}

/// The lines with the one, if any, that the piece with this number stands for.
fn read_piece(
    alloc: Global,
    shards: u32,
    so_far: SoFar,
    number: u64,
    piece: &[u8],
) -> Result<SoFar, InputFault>
    ensures ok { IfOk result (λ more. (mark : Option Line) × LineBehind shards so_far piece.now (Ok mark) ×
        (more ≡ so_far ++ option_to_list mark)) }
    ensures refused { (bad : BadInput) → result ≡ Err (InputFault.Bad bad) →
        (bad.line ≡ number) × LineBehind shards so_far piece.now (Err bad.kind) }
{
    lines_by_facts();
    match line_of(alloc, shards, &so_far, piece) {
        Ok(Some(line)) => so_far.with(line),
        Ok(None) => Ok(so_far),
        Err(LineFault::Bad(kind)) => Err(InputFault::Bad(BadInput { line: number, kind })),
        Err(LineFault::Memory) => Err(InputFault::Memory),
    }
}
