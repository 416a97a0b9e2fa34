ghost use Rattle.std.specs.Prelude.{◌≡◌, ◌<◌, [], length, take, map, OnOk, OnErr};
ghost use Rattle.std.specs.List.{count_by};
ghost use Rattle.fan_model.specs.Comings.{Coming, comings_of};
ghost use Rattle.query_model.specs.Order.{left_in};
ghost use Rattle.front_walk.specs.Coming.{Came, IsCut};
ghost use Rattle.front_walk.specs.Following.{CutAt, Follows, IsInput, StepsAt, is_delayed};

use crate::at_turn::AtTurn;
use crate::laws::known_laws;
use crate::lines::{cancel, document, query, ticks};
use crate::state::WalkState;
use fan_base::{ExecId, Memory};
use query_model::{Line, Lines};
use query_timers::{QueryTimers, cancel_homes};
use std::alloc::Global;
use std::sync::Wait;

/// Goes through the lines of an input: the hook is called once for each query, at its place in the order of answers. Its queries wait as
/// timers of a base with this executor. Where memory runs out, the hook was called up to some place, and nothing is left running.
pub fn walk<H: AtTurn, R: Wait>(
    rt: &R,
    alloc: Global,
    exec: ExecId,
    lines: &Lines,
    hook: &mut H,
) -> Result<(), Memory>
    requires input { IsInput lines.now }
    requires lines { H.lines ≡ lines.now }
    ensures done { OnOk result (Came H.does 0 hook.old (comings_of lines.now) hook.new) }
    ensures memory { OnErr result (IsCut H.does 0 hook.old (comings_of lines.now) hook.new) }
{
    known_laws();
    let Ok(mut homes) = cancel_homes(alloc, count_delayed(lines)) else {
        return Err(Memory);
    };
    let Ok(timers) = QueryTimers::new(rt, alloc, exec, homes.as_mut_slice()) else {
        return Err(Memory);
    };
    let mut state = WalkState {
        timers,
        documents: 0,
        place: 0,
    };
    let result = walk_on(rt, lines, &mut state, hook);
    let WalkState {
        timers,
        documents: _,
        place: _,
    } = state;
    timers.close(rt);
    result
}

// How many queries of the lines have a delay.
fn count_delayed(lines: &Lines) -> usize
    ensures { result ≡ count_by is_delayed lines.now }
{
    lines.iter().filter(|line| has_delay(line)).count()
}

fn has_delay(line: &Line) -> bool
    ensures { result ≡ is_delayed line.now }
{
    match line {
        Line::Query(query) => query.delay.is_some(),
        _ => false,
    }
}

// All lines, and then those that wait still.
fn walk_on<H: AtTurn, R: Wait>(
    rt: &R,
    lines: &Lines,
    state: &mut WalkState<'_>,
    hook: &mut H,
) -> Result<(), Memory>
    requires input { IsInput lines.now × (H.lines ≡ lines.now) }
    requires follows { Follows lines.now [] state.old }
    ensures done { OnOk result (Came H.does 0 hook.old (comings_of lines.now) hook.new) }
    ensures memory { OnErr result (IsCut H.does 0 hook.old (comings_of lines.now) hook.new) }
{
    known_laws();
    'lines: for i in 0..lines.len() {
        let Ok(()) = step(rt, lines, i, state, hook) else {
            return Err(Memory);
        };
    }
    let Ok(()) = give_up(rt, lines, state, hook) else {
        return Err(Memory);
    };
    Ok(())
}

// The line at a place.
fn step<H: AtTurn, R: Wait>(
    rt: &R,
    lines: &Lines,
    i: usize,
    state: &mut WalkState<'_>,
    hook: &mut H,
) -> Result<(), Memory>
    requires input { IsInput lines.now × (H.lines ≡ lines.now) }
    requires at { i < length lines.now }
    requires follows { Follows lines.now (take i lines.now) state.old }
    ensures ok { OnOk result (StepsAt H.does lines.now i state.old hook.old state.new hook.new) }
    ensures memory { OnErr result (CutAt H.does lines.now i state.old.place hook.old hook.new) }
{
    match lines.get(i) {
        Some(Line::Doc(_)) => {
            document(lines, i, state);
            Ok(())
        }
        Some(Line::Query(asked)) => query(rt, lines, i, asked, state, hook),
        Some(Line::Tick(n)) => ticks(rt, lines, i, *n, state, hook),
        Some(Line::Cancel(n)) => cancel(rt, lines, i, *n, state, hook),
        None => unreachable!(),
    }
}

// Behind all lines: those that wait still are cancelled, by number.
fn give_up<H: AtTurn, R: Wait>(
    rt: &R,
    lines: &Lines,
    state: &mut WalkState<'_>,
    hook: &mut H,
) -> Result<(), Memory>
    requires input { IsInput lines.now × (H.lines ≡ lines.now) }
    requires follows { Follows lines.now lines.now state.old }
    ensures ok { OnOk result (Came H.does state.old.place hook.old (map Coming.cancels (left_in lines.now)) hook.new) }
    ensures memory { OnErr result (IsCut H.does state.old.place hook.old (map Coming.cancels (left_in lines.now)) hook.new) }
{
    known_laws();
    'numbers: for earlier in 0..state.timers.asked() {
        let Some(query) = state.timers.give_up(earlier + 1) else {
            continue;
        };
        let Ok(()) = hook.cancel(rt, state.place, query.number) else {
            return Err(Memory);
        };
        state.place += 1;
    }
    Ok(())
}
