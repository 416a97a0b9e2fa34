//! What follows from the definitions. These functions do nothing: their clauses are laws.
ghost use Rattle.std.specs.Prelude.{◌≡◌, ◌↔◌, ◌<◌, ◌+◌, ◌*◌, ◌++◌, ◌∷◌, [], ℕ, List, Option, Some, None, Ok, length, slice_get, Bool, false, not, nat_lt, map, filter, ◌≤◌, All};
ghost use Rattle.std.specs.List.Sorted.{IsPermutation};
ghost use Rattle.fan_base.specs.declared.doc.Doc.{Doc};
ghost use Rattle.query_model.specs.Pieces.{Bytes};
ghost use Rattle.query_model.specs.declared.line.Input.{Input};
ghost use Rattle.query_model.specs.declared.line.Line.{Line};
ghost use Rattle.query_model.specs.declared.line.Line.TheVariants as line;
ghost use Rattle.query_model.specs.declared.line.Query.{Query};
ghost use Rattle.query_model.specs.ByFacts.{IsSkipped, IsDocLine, IsTickLine, IsCancelLine, IsQueryLine};
ghost use Rattle.query_model.specs.Lines.{LineBehind};
ghost use Rattle.query_model.specs.Documents.{docs_of, queries_of, IsLine, IsWithinLimits};
ghost use Rattle.query_model.specs.Alike.{AreAlike, without_words};
ghost use Rattle.query_model.specs.Answers.{ranks_before};
ghost use Rattle.query_model.specs.Order.{Asked, Turn, asked_in, comes_before, docs_before, due_of, left_in, outcome_of, replies_of, turns_of};
ghost use Rattle.query_model.specs.Walk.{all_replies, progress_of, step};
ghost use Rattle.std.specs.List.{count_by, sum_by};
ghost use Rattle.query_model.specs.Lines.{is_query, ticks_of};
ghost use Rattle.query_model.specs.LineByLine.{Adds, answered_at, answered_now, cancelled_at, is_due, is_numbered, next_asked, numbered_before};
ghost use Rattle.query_model.specs.Reading.{Accepts, StandFor, kept};
ghost use Rattle.query_model.specs.Parts.{part_of};
ghost use Rattle.query_model.specs.Sorting.{sorted_by, IsOrder, IsInOrder, TellsApart};
ghost use Rattle.query_model.specs.Laws.{GrammarDecides, IsDecided};
ghost use Rattle.query_grammar.specs.Canonical.{KeepsCanonical};
ghost use Rattle.query_model.specs.Canonical.{canonical_text};
ghost use Rattle.query_model.specs.Written.{CanBeRead};

/// Bytes are accepted as exactly one input or refused with exactly one line and kind, since the grammar of expressions
/// decides.
pub fn input_is_decided()
    ensures { GrammarDecides → (bytes : Bytes) (shards : ℕ) → IsDecided bytes shards }
{}

/// What is accepted is within each limit.
pub fn accepted_is_within_limits()
    ensures { (bytes : Bytes) (shards : ℕ) (input : Input) → Accepts bytes shards input → IsWithinLimits input.lines shards }
{}

/// Lines are alike where they are the same but for the words of their documents. Any lines are alike to themselves and to the
/// same lines without those words.
pub fn alike_lines()
    ensures same { (lines : List Line) → AreAlike lines lines }
    ensures back { (lines others : List Line) → AreAlike lines others → AreAlike others lines }
    ensures joined { (lines between others : List Line) → AreAlike lines between → AreAlike between others → AreAlike lines others }
    ensures without { (lines : List Line) → AreAlike (map without_words lines) lines }
{}

/// Alike lines have the same queries at the same places, the same comes of each, and as many documents stand before it.
pub fn alike_lines_ask_the_same()
    ensures at { (lines others : List Line) (place : ℕ) (query : Query) → AreAlike lines others →
        slice_get lines place ≡ Some (line.Query query) → slice_get others place ≡ Some (line.Query query) }
    ensures queries { (lines others : List Line) → AreAlike lines others → queries_of lines ≡ queries_of others }
    ensures asked { (lines others : List Line) → AreAlike lines others → asked_in lines ≡ asked_in others }
    ensures outcome { (lines others : List Line) (a : Asked) → AreAlike lines others → outcome_of lines a ≡ outcome_of others a }
    ensures due { (lines others : List Line) (a : Asked) → AreAlike lines others → due_of lines a ≡ due_of others a }
    ensures left { (lines others : List Line) → AreAlike lines others → left_in lines ≡ left_in others }
    ensures documents { (lines others : List Line) → AreAlike lines others → length (docs_of lines) ≡ length (docs_of others) }
    ensures before { (lines others : List Line) (a : Asked) → AreAlike lines others →
        length (docs_before lines a) ≡ length (docs_before others a) }
{}

/// Lines each of whose numbers and words lie in their ranges are within the limits where alike lines are. So lines within the limits
/// are within them without the words of their documents.
pub fn alike_lines_are_within_limits()
    ensures alike { (lines others : List Line) (shards : ℕ) → AreAlike lines others → All IsLine lines →
        IsWithinLimits others shards → IsWithinLimits lines shards }
    ensures without { (lines : List Line) (shards : ℕ) → IsWithinLimits lines shards → IsWithinLimits (map without_words lines) shards }
{}

/// What a piece gives by facts that stand in no order: no line exactly where it is skipped, and a line exactly where it is the
/// line of that.
pub fn lines_by_facts()
    ensures none { (shards : ℕ) (before : List Line) (piece : Bytes) → LineBehind shards before piece (Ok None) ↔ IsSkipped piece }
    ensures doc { (shards : ℕ) (before : List Line) (piece : Bytes) (doc : Doc) →
        LineBehind shards before piece (Ok (Some (line.Doc doc))) ↔ IsDocLine before piece doc }
    ensures query { (shards : ℕ) (before : List Line) (piece : Bytes) (query : Query) →
        LineBehind shards before piece (Ok (Some (line.Query query))) ↔ IsQueryLine shards before piece query }
    ensures tick { (shards : ℕ) (before : List Line) (piece : Bytes) (n : ℕ) →
        LineBehind shards before piece (Ok (Some (line.Tick n))) ↔ IsTickLine before piece n }
    ensures cancel { (shards : ℕ) (before : List Line) (piece : Bytes) (n : ℕ) →
        LineBehind shards before piece (Ok (Some (line.Cancel n))) ↔ IsCancelLine piece n }
{}

/// One more piece stands for what it gives behind the lines before it.
pub fn one_piece_more()
    ensures none { (shards : ℕ) → StandFor shards [] [] }
    ensures more { (shards : ℕ) (ps : List Bytes) (marks : List (Option Line)) (piece : Bytes) (mark : Option Line) →
        StandFor shards ps marks → LineBehind shards (kept marks) piece (Ok mark) →
        StandFor shards (ps ++ piece ∷ []) (marks ++ mark ∷ []) }
{}

/// A sorted list has the same items and is in order. Where its order tells any two items apart, it is the only such list.
pub fn sorting<T>()
    ensures same { (goes_before : T → T → Bool) (items : List T) → IsPermutation items (sorted_by goes_before items) }
    ensures in_order { (goes_before : T → T → Bool) (items : List T) → IsOrder goes_before → IsInOrder goes_before (sorted_by goes_before items) }
    ensures only { (goes_before : T → T → Bool) (items other : List T) → IsOrder goes_before → TellsApart goes_before →
        IsPermutation items other → IsInOrder goes_before other → other ≡ sorted_by goes_before items }
{}

/// Ids, ranks and turns are sorted by orders. Those of ids and of ranks tell any two apart, that of turns the turns of two queries.
pub fn orders()
    ensures ids { IsOrder nat_lt }
    ensures ids_apart { TellsApart nat_lt }
    ensures ranks { IsOrder ranks_before }
    ensures ranks_apart { TellsApart ranks_before }
    ensures turns { IsOrder comes_before }
    ensures turns_apart { (a b : Turn) → comes_before a b ≡ false → comes_before b a ≡ false → a.number ≡ b.number }
{}

/// The order of answers, line by line. No lines have no turns and nobody waits. A document adds nothing. A query without delay
/// is answered at once, and one with a delay waits. Ticks answer those that they make due, and a cancel line takes the query
/// with its number from those that wait. What a line adds comes behind all turns before it.
pub fn turns_line_by_line()
    ensures none { (turns_of [] ≡ []) × (left_in [] ≡ []) }
    ensures doc { (lines : List Line) (doc : Doc) → Adds lines (line.Doc doc) [] (left_in lines) }
    ensures answered { (lines : List Line) (query : Query) → query.delay ≡ None →
        Adds lines (line.Query query) (answered_now lines query ∷ []) (left_in lines) }
    ensures delayed { (lines : List Line) (query : Query) (delay : ℕ) → query.delay ≡ Some delay → 1 ≤ delay →
        Adds lines (line.Query query) [] (left_in lines ++ next_asked lines query ∷ []) }
    ensures tick { (lines : List Line) (n : ℕ) →
        Adds lines (line.Tick n) (map (answered_at lines) (filter (is_due lines n) (left_in lines))) (filter (λ a. not (is_due lines n a)) (left_in lines)) }
    ensures cancel { (lines : List Line) (n : ℕ) →
        Adds lines (line.Cancel n) (map (cancelled_at lines) (filter (is_numbered n) (left_in lines))) (filter (λ a. not (is_numbered n a)) (left_in lines)) }
    ensures waiting { (lines : List Line) → IsInOrder numbered_before (left_in lines) }
{}

/// All replies to lines are those that one walk over the lines gives, which keeps the ticks, the documents and the queries that
/// wait.
pub fn one_walk_gives_all_replies()
    ensures { (lines : List Line) → All IsLine lines → replies_of lines ≡ all_replies (progress_of lines) }
{}

/// What the walk keeps behind some lines: their ticks, their documents and the number of their queries. One line more is one
/// step more.
pub fn one_walk_keeps_counts()
    ensures now { (lines : List Line) → (progress_of lines).now ≡ sum_by ticks_of lines }
    ensures documents { (lines : List Line) → (progress_of lines).documents ≡ docs_of lines }
    ensures asked { (lines : List Line) → (progress_of lines).asked ≡ count_by is_query lines }
    ensures more { (lines : List Line) (l : Line) → progress_of (lines ++ l ∷ []) ≡ step (progress_of lines) l }
{}

/// The part of a shard is the documents at the places that leave its number: the first at the place of its number, each next one
/// as many places on as there are shards. So the part of the documents before a query is the part at the places before it.
pub fn part_is_told_by_places()
    ensures { (docs : List Doc) (shards number i : ℕ) → number < shards →
        slice_get (part_of docs shards number) i ≡ slice_get docs (i * shards + number) }
{}

/// The canonical text of what is accepted is accepted again, as the same input, since the grammar of expressions keeps canonical
/// texts.
pub fn canonical_text_is_accepted()
    ensures { KeepsCanonical → (bytes : Bytes) (shards : ℕ) (input : Input) →
        Accepts bytes shards input → Accepts (canonical_text input) shards input }
{}

/// Which inputs are read of some bytes: those within the limits whose expressions are accepted by their canonical tokens. Each of
/// them is read of its canonical text.
pub fn inputs_that_are_read()
    ensures written { (shards : ℕ) (input : Input) → CanBeRead shards input → Accepts (canonical_text input) shards input }
    ensures read { KeepsCanonical → (bytes : Bytes) (shards : ℕ) (input : Input) → Accepts bytes shards input → CanBeRead shards input }
{}
