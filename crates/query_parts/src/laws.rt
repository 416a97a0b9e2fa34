ghost use Rattle.std.specs.Prelude.{◌≡◌, ◌≤◌, ℕ, List, length, take};
ghost use Rattle.fan_base.specs.declared.doc.Doc.{Doc};
ghost use Rattle.query_model.specs.declared.line.Ask.{Ask};
ghost use Rattle.query_model.specs.declared.line.Line.{Line};
ghost use Rattle.query_model.specs.Documents.{docs_of};
ghost use Rattle.query_model.specs.Parts.{mark_of};
ghost use Rattle.query_parts.specs.Parts.{mark_in, part_answer};

/// The mark of a part is the number of the shard's documents that hold, or for `top` that have one of the words. This function does
/// nothing: its clause is the law.
pub fn marks_are_counts()
    ensures { (asks : Ask) (docs : List Doc) → mark_in (part_answer asks docs) ≡ mark_of asks docs }
{}

/// The documents whose lines stand before a place are the first of all documents, as many as they are. So a query is asked of the first
/// `before` of all documents, where `before` is their number. This function does nothing: its clauses are the law.
pub fn documents_before_are_the_first()
    ensures first { (lines : List Line) (place : ℕ) → take (length (docs_of (take place lines))) (docs_of lines) ≡ docs_of (take place lines) }
    ensures within { (lines : List Line) (place : ℕ) → length (docs_of (take place lines)) ≤ length (docs_of lines) }
{}
