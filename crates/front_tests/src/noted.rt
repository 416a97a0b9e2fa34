// A hook that notes the place, the number, and whether the work was begun.
ghost use Rattle.std.specs.Prelude.{◌≡◌, List, []};
ghost use Rattle.query_model.specs.declared.line.Line.{Line};
ghost use Rattle.front_walk.specs.Following.{IsInput};

use fan_base::{ExecId, Memory};
use front_walk::{AtTurn, QueryTurn, walk};
use query_model::laws::accepted_is_within_limits;
use query_model::{Lines, Query};
use query_text::read_input;
use std::alloc::Global;
use std::marker::{Brand, PhantomData};
use std::process::Abort;
use std::sync::Wait;

// The lines that a hook is for.
pub(crate) trait Named {
    ghost lines: { List Line };
}

impl Named for Brand {
    ghost lines = { [] };
}

// Place, number and documents before, and whether the work was begun.
pub(crate) type Note = (u64, u64, u32, bool);

#[derive(Drop)]
pub(crate) struct Noted<N> {
    notes: Vec<Note>,
    of: PhantomData<N>,
}

impl<N: Named> AtTurn for Noted<N> {
    ghost lines = { N.lines };

    ghost does = { λ place coming before sufficed after. Unit {0} };

    fn begin<R: Wait>(
        &mut self,
        _rt: &R,
        place: u64,
        turn: QueryTurn,
        _query: &Query,
    ) -> Result<(), Memory> {
        note(&mut self.notes, (place, turn.number, turn.documents, true))
    }

    fn cancel<R: Wait>(&mut self, _rt: &R, place: u64, number: u64) -> Result<(), Memory> {
        note(&mut self.notes, (place, number, 0, false))
    }
}

fn note(notes: &mut Vec<Note>, next: Note) -> Result<(), Memory> {
    match notes.push(next) {
        Ok(()) => Ok(()),
        Err(_) => Err(Memory),
    }
}

fn walk_named<N: Named, R: Wait>(rt: &R, alloc: Global, lines: &Lines) -> Result<Vec<Note>, Memory>
    requires input { IsInput lines.now }
    requires names { N.lines ≡ lines.now }
{
    let mut hook = Noted::<N> {
        notes: Vec::new(alloc),
        of: PhantomData,
    };
    walk(rt, alloc, ExecId(9), lines, &mut hook)?;
    Ok(hook.notes)
}

// What comes of a text, over four shards.
pub(crate) fn notes_of<R: Abort + Wait>(rt: &R, alloc: Global, text: &[u8]) -> Vec<Note> {
    accepted_is_within_limits();
    let input = match read_input(alloc, text, 4) {
        Ok(input) => input,
        Err(_) => rt.panic("refused"),
    };
    match walk_named::<Brand, R>(rt, alloc, &input.lines) {
        Ok(notes) => notes,
        Err(_) => rt.panic("memory"),
    }
}
