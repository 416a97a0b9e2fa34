// What comes at one line.
ghost use Rattle.std.specs.Prelude.{◌≡◌, ◌++◌, ◌∷◌, [], take, Some, None, slice_get, is_ok, OnOk, OnErr};
ghost use Rattle.fan_base.specs.declared.doc.Doc.{Doc};
ghost use Rattle.query_model.specs.declared.line.Line.TheVariants as line;
ghost use Rattle.query_model.specs.Order.{Asked};
ghost use Rattle.fan_model.specs.Comings.{Coming, ComesAt, come_at_line};
ghost use Rattle.front_walk.specs.Coming.{IsCut};
ghost use Rattle.front_walk.specs.Following.{Follows, IsInput, IsTurnOf, Steps};

use crate::at_turn::{AtTurn, QueryTurn};
use crate::laws::known_laws;
use crate::state::WalkState;
use fan_base::Memory;
use query_model::{Line, Lines, Query};
use query_timers::DelayedQuery;
use std::sync::Wait;

/// The query of a line: without delay its work is begun, and with one it waits.
pub(crate) fn query<H: AtTurn, R: Wait>(
    rt: &R,
    lines: &Lines,
    i: usize,
    query: &Query,
    state: &mut WalkState<'_>,
    hook: &mut H,
) -> Result<(), Memory>
    requires input { IsInput lines.now × (H.lines ≡ lines.now) }
    requires line { slice_get lines.now i ≡ Some (line.Query query.now) }
    requires follows { Follows lines.now (take i lines.now) state.old }
    ensures ok { OnOk result (Steps H.does lines.now i (line.Query query.now) state.old hook.old state.new hook.new) }
    ensures memory { OnErr result (IsCut H.does state.old.place hook.old (come_at_line (take i lines.now) (line.Query query.now)) hook.new) }
{
    match query.delay {
        None => answer_now(rt, lines, i, query, state, hook),
        Some(delay) => wait(lines, i, query, delay, state),
    }
}

fn answer_now<H: AtTurn, R: Wait>(
    rt: &R,
    lines: &Lines,
    i: usize,
    query: &Query,
    state: &mut WalkState<'_>,
    hook: &mut H,
) -> Result<(), Memory>
    requires input { IsInput lines.now × (H.lines ≡ lines.now) }
    requires line { slice_get lines.now i ≡ Some (line.Query query.now) }
    requires none { query.now.delay ≡ None }
    requires follows { Follows lines.now (take i lines.now) state.old }
    ensures ok { OnOk result (Steps H.does lines.now i (line.Query query.now) state.old hook.old state.new hook.new) }
    ensures memory { OnErr result (IsCut H.does state.old.place hook.old (come_at_line (take i lines.now) (line.Query query.now)) hook.new) }
{
    known_laws();
    let Ok(()) = state.timers.skip() else {
        return Err(Memory);
    };
    let turn = QueryTurn {
        number: state.timers.asked(),
        line: i,
        documents: state.documents,
    };
    let Ok(()) = hook.begin(rt, state.place, turn, query) else {
        return Err(Memory);
    };
    state.place += 1;
    Ok(())
}

fn wait(
    lines: &Lines,
    i: usize,
    query: &Query,
    delay: u32,
    state: &mut WalkState<'_>,
) -> Result<(), Memory>
    requires input { IsInput lines.now }
    requires line { slice_get lines.now i ≡ Some (line.Query query.now) }
    requires some { query.now.delay ≡ Some delay }
    requires follows { Follows lines.now (take i lines.now) state.old }
    ensures ok { OnOk result (Follows lines.now (take i lines.now ++ line.Query query.now ∷ []) state.new) }
    ensures place { state.new.place ≡ state.old.place }
{
    known_laws();
    let Ok(()) = state.timers.delay(i, state.documents, delay) else {
        return Err(Memory);
    };
    Ok(())
}

/// A document: nothing comes.
pub(crate) fn document(lines: &Lines, i: usize, state: &mut WalkState<'_>)
    requires input { IsInput lines.now }
    requires line { (doc : Doc) × (slice_get lines.now i ≡ Some (line.Doc doc)) }
    requires follows { Follows lines.now (take i lines.now) state.old }
    ensures follows { (doc : Doc) → slice_get lines.now i ≡ Some (line.Doc doc)
        → Follows lines.now (take i lines.now ++ line.Doc doc ∷ []) state.new }
    ensures place { state.new.place ≡ state.old.place }
{
    known_laws();
    state.documents += 1;
}

/// So many ticks, as one round: the work of those that are due is begun, in order.
pub(crate) fn ticks<H: AtTurn, R: Wait>(
    rt: &R,
    lines: &Lines,
    i: usize,
    n: u32,
    state: &mut WalkState<'_>,
    hook: &mut H,
) -> Result<(), Memory>
    requires input { IsInput lines.now × (H.lines ≡ lines.now) }
    requires line { slice_get lines.now i ≡ Some (line.Tick n) }
    requires follows { Follows lines.now (take i lines.now) state.old }
    ensures ok { OnOk result (Steps H.does lines.now i (line.Tick n) state.old hook.old state.new hook.new) }
    ensures memory { OnErr result (IsCut H.does state.old.place hook.old (come_at_line (take i lines.now) (line.Tick n)) hook.new) }
{
    known_laws();
    let Ok(()) = state.timers.tick(rt, n) else {
        return Err(Memory);
    };
    'firing: while let Some(query) = state.timers.next_fired() {
        let Ok(()) = begin(rt, lines, query, state.place, hook) else {
            return Err(Memory);
        };
        state.place += 1;
    }
    Ok(())
}

// The work of a query that has fired is begun.
fn begin<H: AtTurn, R: Wait>(
    rt: &R,
    lines: &Lines,
    query: DelayedQuery,
    place: u64,
    hook: &mut H,
) -> Result<(), Memory>
    requires lines { H.lines ≡ lines.now }
    requires turn { IsTurnOf lines.now place query }
    ensures { (asked : Asked) → ComesAt lines.now place (Coming.begins asked) → H.does place (Coming.begins asked) hook.old (is_ok result) hook.new }
{
    let turn = QueryTurn {
        number: query.number,
        line: query.line,
        documents: query.documents,
    };
    let Some(Line::Query(query)) = lines.get(query.line) else {
        unreachable!()
    };
    hook.begin(rt, place, turn, query)
}

/// A cancel line: its query is cancelled, where it waits.
pub(crate) fn cancel<H: AtTurn, R: Wait>(
    rt: &R,
    lines: &Lines,
    i: usize,
    n: u32,
    state: &mut WalkState<'_>,
    hook: &mut H,
) -> Result<(), Memory>
    requires input { IsInput lines.now × (H.lines ≡ lines.now) }
    requires line { slice_get lines.now i ≡ Some (line.Cancel n) }
    requires follows { Follows lines.now (take i lines.now) state.old }
    ensures ok { OnOk result (Steps H.does lines.now i (line.Cancel n) state.old hook.old state.new hook.new) }
    ensures memory { OnErr result (IsCut H.does state.old.place hook.old (come_at_line (take i lines.now) (line.Cancel n)) hook.new) }
{
    known_laws();
    let Some(query) = state.timers.cancel(u64::from(n)) else {
        return Ok(());
    };
    let Ok(()) = hook.cancel(rt, state.place, query.number) else {
        return Err(Memory);
    };
    state.place += 1;
    Ok(())
}
