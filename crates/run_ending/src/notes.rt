ghost use Rattle.std.specs.Prelude.{◌≡◌, ◌↔◌, ◌++◌, ◌∷◌, [], true, false};
ghost use Rattle.std.specs.Bool.{OnTrue};

use event_base::QueueNote;
use run_notes::Notes;
use std::alloc::Global;

/// Whether all numbers agree, all notes are listed, and nobody notes want of memory.
pub fn is_fine(agrees: bool, listed: bool, refused: bool, missed: bool) -> bool
    ensures { (result ≡ true) ↔ ((agrees ≡ true) × (listed ≡ true) × (refused ≡ false) × (missed ≡ false)) }
{
    agrees && listed && !refused && !missed
}

/// These notes, and the printer's behind them, and whether there was memory for all.
pub fn list_notes(alloc: Global, gatherers: Vec<QueueNote>, printer: QueueNote) -> (Notes, bool)
    ensures { OnTrue result.1 (result.0 ≡ gatherers.items ++ printer ∷ []) }
{
    let mut notes = Notes::new(alloc);
    let mut listed = true;
    for note in gatherers {
        put_note(&mut notes, note, &mut listed);
    }
    put_note(&mut notes, printer, &mut listed);
    (notes, listed)
}

/// Puts a note behind the others, or tells that there was no memory for it.
fn put_note(notes: &mut Notes, note: QueueNote, listed: &mut bool)
    ensures { OnTrue listed.new ((listed.old ≡ true) × (notes.new ≡ notes.old ++ note ∷ [])) }
{
    match notes.push(note) {
        Ok(()) => {}
        Err(_) => *listed = false,
    }
}
