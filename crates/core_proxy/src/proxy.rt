//! What a core's proxy is.
ghost use Rattle.std.specs.Prelude.{Bool, List, Option};
ghost use Rattle.fan_base.specs.declared.outcome.Try.{Try};
ghost use Rattle.core_word.specs.declared.producer.Landed.{Landed};
ghost use Rattle.core_proxy.specs.Walk.{Stop, WentOn, WentToProxy, NeverGives, NeverGivesUp};
ghost use Rattle.core_proxy.specs.Settling.{Settled, GivenOut};

use core_word::{Landed, Left, Leftover, Met, Passed, Tally};
use fan_base::Try;

/// What a core can have as a proxy: a taker, or nothing at all. Its functions are over what a half answers, so that a core
/// without proxies has them too.
pub trait Proxy<T, C> {
    // The walk of a callback: the proxy, the callback, whether it may run inline, the cores on the way, the answer.
    ghost gives: { Self → C → Bool → List Stop → Landed T C → Type 0 };

    // The walk of giving up: the proxy, the cores on the way, the result that was left over.
    ghost gives_up: { Self → List Stop → Option (Try T) → Type 0 };

    /// What a callback comes to that its core has met in this way: it waits there, it fires, or it goes to the proxy.
    fn after_meeting(met: Met<T, C, Self>, t: &mut Tally) -> Landed<T, C>
        ensures { WentOn gives met result t.old t.new };

    /// What naming a proxy comes to: a callback that was there goes to it.
    fn after_passing(passed: Passed<C, Self>, t: &mut Tally) -> Landed<T, C>
        ensures { WentToProxy gives passed result t.old t.new };

    /// What a last leave has left over comes to: a proxy is given up, and a result is handed out.
    fn after_leaving(leftover: Leftover<T, Self>, t: &mut Tally) -> Option<Try<T>>
        ensures { GivenOut gives_up leftover result t.old t.new };
}

/// The proxy of a core that never has one: there is no value of this type.
#[derive(Drop)]
pub enum NoProxy {}

impl<T, C> Proxy<T, C> for NoProxy {
    ghost gives = { NeverGives };

    ghost gives_up = { NeverGivesUp };

    fn after_meeting(met: Met<T, C, NoProxy>, t: &mut Tally) -> Landed<T, C>
        ensures { WentOn NeverGives met result t.old t.new }
    {
        match met {
            Met::Waiting => Landed::Waiting,
            Met::Fire(fire) => Landed::Fire(fire),
            Met::Forward(forward) => {
                let (_callback, proxy) = forward.unpack(t);
                match proxy {}
            }
        }
    }

    fn after_passing(passed: Passed<C, NoProxy>, t: &mut Tally) -> Landed<T, C>
        ensures { WentToProxy NeverGives passed result t.old t.new }
    {
        match passed {
            Passed::Waiting => Landed::Waiting,
            Passed::Forward(forward) => {
                let (_callback, proxy) = forward.unpack(t);
                match proxy {}
            }
        }
    }

    fn after_leaving(leftover: Leftover<T, NoProxy>, t: &mut Tally) -> Option<Try<T>>
        ensures { GivenOut NeverGivesUp leftover result t.old t.new }
    {
        let _ = &*t;
        match leftover {
            Leftover::Nothing => None,
            Leftover::Outcome(outcome) => Some(outcome),
            Leftover::Proxy(proxy) => match proxy {},
        }
    }
}

/// Ends the husk of a last leave. A proxy that is left over is given up, and a result that is left over, here or there, is
/// handed out.
pub fn settle<T, C, P: Proxy<T, C>>(left: Left<'_, T, C, P>, t: &mut Tally) -> Option<Try<T>>
    ensures { Settled P.gives_up left.entry result t.old t.new }
{
    match left {
        Left::First(_) => None,
        Left::Last(leftover, husk) => {
            husk.end(t);
            P::after_leaving(leftover, t)
        }
    }
}
