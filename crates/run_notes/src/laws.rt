//! What follows of the notes. The functions do nothing: their clauses are laws.
ghost use Rattle.std.specs.Prelude.{◌≡◌, ◌<◌, ◌+◌, ◌*◌, ℕ, List, [], ◌∷◌, ◌++◌, length, map};
ghost use Rattle.event_base.specs.Seen.{NoteSeen};
ghost use Rattle.query_model.specs.declared.line.Line.{Line};
ghost use Rattle.query_model.specs.Documents.{queries_of};
ghost use Rattle.fan_model.specs.Answered.{answered_in};
ghost use Rattle.fan_model.specs.Notes.{emptied, notes_of};
ghost use Rattle.fan_model.specs.Report.{Asking, IsPoolReport, PoolTold};
ghost use Rattle.fan_model.specs.Tasks.{printer_exec};
ghost use Rattle.run_notes.specs.declared.counting.Counted.{Counted};
ghost use Rattle.run_notes.specs.Counting.{AreEmptied, ArePutBy, HasCounted, puts_of};
ghost use Rattle.run_notes.specs.Told.{note_of};

use fan_model::laws::{a_task_for_each_shard, early_or_late};

/// Where each gathering base took all that was put to it, a message for each task of its queries, and the printer's one for each query, their
/// notes are those of a run over these lines.
pub fn notes_are_those_of_the_run()
    ensures { (lines : List Line) (shards bases : ℕ) (counted : Counted) (notes : List NoteSeen) (printer : NoteSeen) → HasCounted lines bases counted
        → ArePutBy shards counted.by_base.items notes → AreEmptied notes → note_of printer ≡ emptied (printer_exec bases) (length (queries_of lines))
        → map note_of (notes ++ printer ∷ []) ≡ notes_of lines shards bases }
{}

/// Where each gathering base got a message for each task of its queries, all of them together got one for each task.
pub fn messages_are_tasks()
    ensures { (lines : List Line) (shards bases : ℕ) (counted : Counted) (notes : List NoteSeen) → 0 < bases → HasCounted lines bases counted
        → ArePutBy shards counted.by_base.items notes → puts_of notes ≡ shards * length (answered_in lines) }
{}

/// Where what is told of the pool is its report, the tasks that it accepted and those that the front ran itself are all tasks: one for each shard
/// of each answered query.
pub fn accepted_or_late()
    ensures { (asked : Asking) (told : PoolTold) → IsPoolReport asked told
        → told.accepted + length told.direct ≡ length (answered_in asked.lines) * asked.shards }
{
    early_or_late();
    a_task_for_each_shard();
}
