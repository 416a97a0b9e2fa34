//! A promise and its future.

use core_proxy::{NoProxy, Proxy, settle};
use core_word::{Home, Landed, Tally};
use fan_base::{ExecId, Memory, Try};
use promise_api::{After, promise};
use std::alloc::Global;

/// An outcome, and the number that is its callback here.
pub type Answer = (Try<u64>, u64);

/// What an act of either side comes to: the outcome with its callback, where the other side had acted before. The side that
/// leaves second frees the core.
pub fn answered<P: Proxy<u64, u64>>(
    after: After<'_, u64, u64, P>,
    t: &mut Tally,
) -> Option<Answer> {
    let After { landed, left } = after;
    settle(left, t);
    match landed {
        Landed::Waiting => None,
        Landed::Fire(fire) => {
            let (_, outcome, callback) = fire.unpack(t);
            Some((outcome, callback))
        }
    }
}

/// A value is promised, asked for with a callback, and given: the side that acts second has both. The core's memory is a home,
/// which outlives both sides.
pub fn keep(
    alloc: Global,
    value: u64,
    callback: u64,
    t: &mut Tally,
) -> Result<Option<Answer>, Memory> {
    let mut home = Home::<u64, u64, NoProxy>::new(alloc)?;
    let Some(key) = home.key() else {
        unreachable!()
    };
    let (promise, future) = promise(key, 1, ExecId(0), t);
    let asked = answered(future.on(callback, t), t);
    let kept = answered(promise.fulfil(Try::Value(value)), t);
    Ok(kept.or(asked))
}
