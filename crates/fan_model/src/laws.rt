//! What follows from the definitions. These functions do nothing: their clauses are laws.
ghost use Rattle.std.specs.Prelude.{◌≡◌, ℕ, ◌+◌, ◌*◌, List, [], ◌∷◌, ◌++◌, All, Option, Some, length, map, filter};
ghost use Rattle.std.specs.List.{count_by, filter_map, range_with_len, sum_by};
ghost use mathlib.Core.List.{IsPrefix};
ghost use Rattle.fan_base.specs.declared.number.ExecId.{ExecId};
ghost use Rattle.query_model.specs.declared.line.Input.{Input};
ghost use Rattle.query_model.specs.declared.line.Line.{Line};
ghost use Rattle.query_model.specs.declared.line.Line.TheVariants as line;
ghost use Rattle.query_model.specs.declared.line.Query.{Query};
ghost use Rattle.query_model.specs.declared.reply.Reply.{Reply};
ghost use Rattle.query_model.specs.Alike.{AreAlike};
ghost use Rattle.query_model.specs.Documents.{IsLine, docs_of, queries_of};
ghost use Rattle.query_model.specs.LineByLine.{next_asked};
ghost use Rattle.query_model.specs.Lines.{is_query, ticks_of};
ghost use Rattle.query_model.specs.Order.{Asked, asked_in, docs_before, due_of, left_in, replies_of};
ghost use Rattle.query_model.specs.Output.{output, reply_text};
ghost use Rattle.fan_model.specs.Answered.{answered_in, early_of, late_of};
ghost use Rattle.fan_model.specs.Comings.{Coming, ComesAt, IsAsked, answered_at_line, begun_by, come_at_line, come_in, comings_of, left_at_line, query_of, reply_to};
ghost use Rattle.fan_model.specs.Laws.{answer_of, is_answer};
ghost use Rattle.fan_model.specs.Places.{IsReplyAt, owed_from};
ghost use Rattle.fan_model.specs.Tasks.{task_runs};

use query_model::laws::{alike_lines_ask_the_same, turns_line_by_line};

/// The answered queries, in their order, give those of the replies that aren't cancelled.
pub fn answers_in_order()
    ensures { (lines : List Line) → filter is_answer (replies_of lines) ≡ map (answer_of lines) (answered_in lines) }
{}

/// Each answered query is early or late, in order.
pub fn early_or_late()
    ensures { (stop_at : Option ℕ) (queries : List Asked) → early_of stop_at queries ++ late_of stop_at queries ≡ queries }
{}

/// Each query has as many tasks as there are shards.
pub fn a_task_for_each_shard()
    ensures { (lines : List Line) (shards : ℕ) (exec : ExecId) (queries : List Asked) →
        length (task_runs lines shards exec queries) ≡ length queries * shards }
{}

/// What is owed at first is the whole output; the reply at a place is what is owed there before what is owed from the next one;
/// and nothing is owed behind the last.
pub fn printing()
    ensures all { (input : Input) → owed_from input.lines 0 ≡ output input }
    ensures next { (lines : List Line) (place number : ℕ) (reply : Reply) → IsReplyAt lines place number reply →
        owed_from lines place ≡ reply_text number reply ++ owed_from lines (place + 1) }
    ensures last { (lines : List Line) → owed_from lines (length (replies_of lines)) ≡ [] }
{}

/// The queries of some lines have the numbers 1, 2, 3 and so on: each stands at the place of its number, and its line at its own place.
/// So there is one query of each number. What is due or known of a query stays as lines are added.
pub fn queries_are_numbered()
    ensures numbers { (lines : List Line) → map (λ (a : Asked). a.number) (asked_in lines) ≡ range_with_len 1 (count_by is_query lines) }
    ensures each { (lines : List Line) → All (IsAsked lines) (asked_in lines) }
    ensures one { (lines : List Line) (a b : Asked) → IsAsked lines a → IsAsked lines b → a.number ≡ b.number → a ≡ b }
    ensures more { (lines rest : List Line) (a : Asked) → IsAsked lines a → IsAsked (lines ++ rest) a }
    ensures due { (lines rest : List Line) (a : Asked) → IsAsked lines a → due_of (lines ++ rest) a ≡ due_of lines a }
    ensures docs { (lines rest : List Line) (a : Asked) → IsAsked lines a → docs_before (lines ++ rest) a ≡ docs_before lines a }
{}

/// The query of the line behind some others: its due tick, and the documents before it.
pub fn the_next_query()
    ensures is { (lines : List Line) (query : Query) → IsAsked (lines ++ line.Query query ∷ []) (next_asked lines query) }
    ensures due { (lines : List Line) (query : Query) (delay : ℕ) → query.delay ≡ Some delay
        → due_of (lines ++ line.Query query ∷ []) (next_asked lines query) ≡ sum_by ticks_of lines + delay }
    ensures docs { (lines : List Line) (query : Query) → docs_before (lines ++ line.Query query ∷ []) (next_asked lines query) ≡ docs_of lines }
{}

/// What comes, place by place: it gives the replies in their order, and those that are begun are the answered queries in theirs.
pub fn comings_in_order()
    ensures replies { (lines : List Line) → map (reply_to lines) (comings_of lines) ≡ replies_of lines }
    ensures at { (lines : List Line) (place : ℕ) (coming : Coming) → ComesAt lines place coming →
        IsReplyAt lines place (reply_to lines coming).0 (reply_to lines coming).1 }
    ensures begun { (lines : List Line) → filter_map begun_by (comings_of lines) ≡ answered_in lines }
    ensures asked { (lines : List Line) → All (λ (c : Coming). IsAsked lines (query_of c)) (come_in lines) }
    ensures left { (lines : List Line) → All (IsAsked lines) (left_in lines) }
{}

/// What comes, line by line: a further line adds what it answers or cancels behind what came before, and who waits behind it.
/// So what comes at some lines comes first, whatever lines follow.
pub fn comings_line_by_line()
    ensures none { come_in [] ≡ [] }
    ensures comes { (lines : List Line) (l : Line) → IsLine l → come_in (lines ++ l ∷ []) ≡ come_in lines ++ come_at_line lines l }
    ensures answered { (lines : List Line) (l : Line) → IsLine l → answered_in (lines ++ l ∷ []) ≡ answered_in lines ++ answered_at_line lines l }
    ensures left { (lines : List Line) (l : Line) → IsLine l → left_in (lines ++ l ∷ []) ≡ left_at_line lines l }
    ensures first { (lines rest : List Line) → All IsLine rest → IsPrefix (come_in lines) (comings_of (lines ++ rest)) }
{
    turns_line_by_line();
}

/// Each query comes once, and has one reply.
pub fn each_query_has_a_reply()
    ensures comings { (lines : List Line) → length (comings_of lines) ≡ length (queries_of lines) }
    ensures replies { (lines : List Line) → length (replies_of lines) ≡ length (queries_of lines) }
{}

/// The same queries of alike lines are answered, in the same order, and the same comes at each place.
pub fn alike_lines_come_to_the_same()
    ensures answered { (lines others : List Line) → AreAlike lines others → answered_in lines ≡ answered_in others }
    ensures comings { (lines others : List Line) → AreAlike lines others → comings_of lines ≡ comings_of others }
{
    alike_lines_ask_the_same();
}
