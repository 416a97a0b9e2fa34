//! A promise that names another core, whose outcome its callback gets.

use crate::promised::{Answer, answered};
use core_proxy::{NoProxy, Taker};
use core_word::{Consumer, Home, Key, Tally, Unspent};
use fan_base::{ExecId, Memory, Try};
use promise_api::promise;
use std::alloc::Global;

/// What the outer core has as its proxy.
pub type Inner<'i> = Consumer<'i, u64, u64, NoProxy>;

// The walk of the callback: it waits at the outer core, goes to the inner one, and fires there.
fn through<'i>(
    outer: Key<'_, u64, u64, Inner<'i>>,
    inner: Key<'i, u64, u64, NoProxy>,
    value: u64,
    callback: u64,
    t: &mut Tally,
) -> Option<Answer> {
    let (outer, asked) = promise(outer, 1, ExecId(0), t);
    let (inner, other) = promise(inner, 2, ExecId(0), t);
    let first = answered(asked.on(callback, t), t);
    let second = answered(outer.proxy(other.into_consumer(), t), t);
    let third = answered(inner.fulfil(Try::Value(value)), t);
    third.or(second).or(first)
}

/// A value is asked for, the promise of it names an inner core, and that core's promise is kept: the inner core's fire has the
/// callback that was given outside.
pub fn ask_another(
    alloc: Global,
    value: u64,
    callback: u64,
    t: &mut Tally,
) -> Result<Option<Answer>, Memory> {
    let mut inner = Home::new(alloc)?;
    let mut outer = Home::new(alloc)?;
    let (Some(one), Some(two)) = (outer.key(), inner.key()) else {
        unreachable!()
    };
    let answer = through(one, two, value, callback, t);
    let Unspent {
        outcome: _,
        callback: _,
        proxy,
        end: _,
    } = outer.close();
    if let Some(proxy) = proxy {
        Taker::give_up(proxy, t);
    }
    Ok(answer)
}
