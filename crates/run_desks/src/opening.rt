ghost use Rattle.std.specs.Prelude.{◌≡◌, ◌+◌, ◌<◌, true, suc, cond, is_some, drop, length};
ghost use Rattle.core_word.specs.Count.{raised};
ghost use Rattle.fan_model.specs.Answered.{is_top};
ghost use Rattle.fan_model.specs.Comings.{comings_of};
ghost use Rattle.fan_parts.specs.Facts.{IsAnswerAt};
ghost use Rattle.query_opening.specs.Turns.{IsBegun};
ghost use Rattle.run_desks.specs.Keys.{AreKeysOf, HasKeysFor};

use crate::keys::DeskKeys;
use crate::laws::begun_query_is_asked;
use fan_base::ExecId;
use fan_parts::{End, InnerKey, NumberedAsk, RunName};
use query_model::Ask;
use query_opening::{begin_reply, numbered_ask};
use run_plan::BegunQuery;
use run_plan::laws::place_by_place;
use std::sync::Wait;

/// Begins the reply's core of a query whose turn has come, and gives the end of its desk.
pub(crate) fn begin_desk<'r, 'i: 'r, N: RunName + 'static, R: Wait>(
    rt: &R,
    keys: &mut DeskKeys<'r, 'i, N>,
    place: u32,
    query: BegunQuery,
) -> End<'r, 'i, N>
    requires begun { IsBegun N.asked place query.number query.line query.documents }
    requires of { AreKeysOf N.asked keys.old }
    requires keys { HasKeysFor (drop place (comings_of N.asked.lines)) keys.old }
    ensures number { result.ask.number ≡ query.number }
    ensures of { AreKeysOf N.asked keys.new }
    ensures tally { keys.new.tally ≡ record keys.old.tally { made = raised keys.old.tally.made } }
    ensures keys { HasKeysFor (drop (place + 1) (comings_of N.asked.lines)) keys.new }
{
    begun_query_is_asked::<N>();
    place_by_place();
    let BegunQuery {
        number,
        line,
        documents,
    } = query;
    let ask = numbered_ask(keys.lines, place, number, line, documents);
    // (for what it says of the ask)
    let _number = ask.number();
    begin_end(rt, keys, place, ask)
}

/// The end of a query's desk: its reply's core is begun, and it has an inner key exactly for `top`.
fn begin_end<'r, 'i: 'r, N: RunName + 'static, R: Wait>(
    rt: &R,
    keys: &mut DeskKeys<'r, 'i, N>,
    place: u32,
    ask: NumberedAsk<'i, N>,
) -> End<'r, 'i, N>
    requires answer { IsAnswerAt N.asked place ask.number ask.asks ask.before }
    requires of { AreKeysOf N.asked keys.old }
    requires reply { 0 < length keys.old.replies.items }
    requires inner { is_top ask.asks ≡ true → 0 < length keys.old.inners.items }
    ensures ask { result.ask ≡ ask.entry }
    ensures number { result.reply.no ≡ place }
    ensures replies { length keys.old.replies.items ≡ suc (length keys.new.replies.items) }
    ensures inners { length keys.old.inners.items ≡ cond (is_top ask.entry.asks) 1 0 + length keys.new.inners.items }
    ensures of { AreKeysOf N.asked keys.new }
    ensures tally { keys.new.tally ≡ record keys.old.tally { made = raised keys.old.tally.made } }
{
    let Some(key) = keys.replies.pop() else {
        unreachable!()
    };
    let inner = take_inner(&mut keys.inners, ask.ask());
    let printer = ExecId(keys.bases + 1);
    let reply = begin_reply(rt, key, place, printer, &mut keys.tally);
    End::new(reply, ask, place, inner)
}

/// An inner key, exactly where what is asked is a `top`.
fn take_inner<'i, N: RunName>(
    inners: &mut Vec<InnerKey<'i, N>>,
    ask: &Ask,
) -> Option<InnerKey<'i, N>>
    requires { is_top ask.now ≡ true → 0 < length inners.old.items }
    ensures top { is_some result ≡ is_top ask.now }
    ensures left { length inners.old.items ≡ cond (is_top ask.now) 1 0 + length inners.new.items }
{
    match ask {
        Ask::Top(_, _) => inners.pop(),
        Ask::Find(_) | Ask::Count(_) | Ask::Present(_) => None,
    }
}
