//! What a callback can be given to.
ghost use Rattle.std.specs.Prelude.{Bool, true, false, List, Option};
ghost use Rattle.fan_base.specs.declared.outcome.Try.{Try};
ghost use Rattle.core_word.specs.Count.{raised};
ghost use Rattle.core_word.specs.declared.producer.Landed.{Landed};
ghost use Rattle.core_proxy.specs.Walk.{Stop, Given, GivenUp, WentOn, WentToProxy};
ghost use Rattle.core_proxy.specs.Settling.{GivenOut};

use core_word::{Forward, Landed, Leftover, Met, Passed, Tally};
use fan_base::Try;

/// What takes a callback for a result of type `T`, at once or through proxies.
pub trait Taker<T, C> {
    // The walk of a callback: the taker, the callback, whether it may run inline, the cores on the way, the answer.
    ghost gives: { Self → C → Bool → List Stop → Landed T C → Type 0 };

    // The walk of giving up: the taker, the cores on the way, the result that was left over.
    ghost gives_up: { Self → List Stop → Option (Try T) → Type 0 };

    /// Gives the callback, without the allowance to run inline, and passes it on through each proxy that it meets. It leaves
    /// each core on the way, and frees those that it leaves last. `Landed::Fire` is of the first core at which a result was
    /// found, and `Landed::Waiting` says that the callback waits at the first core where neither result nor proxy was.
    fn give(self, callback: C, t: &mut Tally) -> Landed<T, C>
        ensures { Given gives self callback false result t.old t.new };

    /// The same with the allowance to run inline, at each core.
    fn give_inline(self, callback: C, t: &mut Tally) -> Landed<T, C>
        ensures { Given gives self callback true result t.old t.new };

    /// Says that no callback will come, to each core in its turn: a proxy that is left over is given up too. A result that
    /// is left over is handed out.
    fn give_up(self, t: &mut Tally) -> Option<Try<T>>
        ensures { GivenUp gives_up self result t.old t.new };
}

/// Passes a forwarded callback on to its proxy, with the allowance to run inline exactly where it was set so.
pub fn pass_on<T, C, P: Taker<T, C>>(forward: Forward<C, P>, t: &mut Tally) -> Landed<T, C>
    ensures { Given P.gives forward.proxy forward.callback forward.inline result (record t.old { forwarded = raised t.old.forwarded }) t.new }
{
    let inline = forward.allows();
    let (callback, proxy) = forward.unpack(t);
    if inline {
        return proxy.give_inline(callback, t);
    }
    proxy.give(callback, t)
}

/// What a callback comes to that its core has met in this way. Of a taker nothing but its own calls says where a walk goes, so
/// that no body of this can make one up.
pub(crate) fn go_on<T, C, P: Taker<T, C>>(met: Met<T, C, P>, t: &mut Tally) -> Landed<T, C>
    ensures { WentOn P.gives met result t.old t.new }
{
    match met {
        Met::Waiting => Landed::Waiting,
        Met::Fire(fire) => Landed::Fire(fire),
        Met::Forward(forward) => pass_on(forward, t),
    }
}

/// What naming a proxy comes to, in the same way.
pub(crate) fn go_to<T, C, P: Taker<T, C>>(passed: Passed<C, P>, t: &mut Tally) -> Landed<T, C>
    ensures { WentToProxy P.gives passed result t.old t.new }
{
    match passed {
        Passed::Waiting => Landed::Waiting,
        Passed::Forward(forward) => pass_on(forward, t),
    }
}

/// What a last leave has left over comes to, in the same way.
pub(crate) fn give_out<T, C, P: Taker<T, C>>(
    leftover: Leftover<T, P>,
    t: &mut Tally,
) -> Option<Try<T>>
    ensures { GivenOut P.gives_up leftover result t.old t.new }
{
    match leftover {
        Leftover::Nothing => None,
        Leftover::Outcome(outcome) => Some(outcome),
        Leftover::Proxy(proxy) => proxy.give_up(t),
    }
}
