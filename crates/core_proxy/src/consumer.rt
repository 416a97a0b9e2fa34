//! A consumer takes a callback: it sets it, or passes it on.
ghost use Rattle.std.specs.Prelude.{◌≡◌, Bool, List, Option};
ghost use Rattle.fan_base.specs.declared.outcome.Try.{Try};
ghost use Rattle.core_word.specs.Answers.{IfLast, MeetsAt};
ghost use Rattle.core_word.specs.declared.left.Leftover.{Leftover};
ghost use Rattle.core_word.specs.declared.producer.Landed.{Landed};
ghost use Rattle.core_proxy.specs.Walk.{Gives, GivesUp, Given, GivenUp, WentOn, WentToProxy};
ghost use Rattle.core_proxy.specs.Asking.{Asked, Stopped};
ghost use Rattle.core_proxy.specs.Settling.{GivenOut};

use crate::asker::{Asker, give_by, give_up_by};
use crate::proxy::Proxy;
use crate::taker::{Taker, give_out, go_on, go_to};
use core_word::{Consumer, Demand, Landed, Left, LeftC, Leftover, Met, Passed, Tally};
use fan_base::Try;

impl<'h, T, C, P: Proxy<T, C>> Taker<T, C> for Consumer<'h, T, C, P> {
    ghost gives = { Gives P.gives };

    ghost gives_up = { GivesUp P.gives_up };

    fn give(self, callback: C, t: &mut Tally) -> Landed<T, C> {
        give_by(self, callback, false, t)
    }

    fn give_inline(self, callback: C, t: &mut Tally) -> Landed<T, C> {
        give_by(self, callback, true, t)
    }

    fn give_up(self, t: &mut Tally) -> Option<Try<T>> {
        give_up_by(self, t)
    }
}

impl<'h, T, C, P> Asker<'h, T, C, P> for Consumer<'h, T, C, P> {
    ghost asks = { Asked };

    ghost stops = { Stopped };

    fn ask(self, callback: C, inline: bool) -> (Met<T, C, P>, Left<'h, T, C, P>) {
        let (met, left) = set(self, callback, inline);
        (met, left.leave())
    }

    fn stop(self) -> Left<'h, T, C, P> {
        Consumer::give_up(self).leave()
    }
}

impl<'h, T, C, P: Proxy<T, C>> Proxy<T, C> for Consumer<'h, T, C, P> {
    ghost gives = { Gives P.gives };

    ghost gives_up = { GivesUp P.gives_up };

    fn after_meeting(met: Met<T, C, Consumer<'h, T, C, P>>, t: &mut Tally) -> Landed<T, C>
        ensures { WentOn (Gives P.gives) met.entry result t.old t.new }
    {
        go_on(met, t)
    }

    fn after_passing(passed: Passed<C, Consumer<'h, T, C, P>>, t: &mut Tally) -> Landed<T, C>
        ensures { WentToProxy (Gives P.gives) passed.entry result t.old t.new }
    {
        go_to(passed, t)
    }

    fn after_leaving(leftover: Leftover<T, Consumer<'h, T, C, P>>, t: &mut Tally) -> Option<Try<T>>
        ensures { GivenOut (GivesUp P.gives_up) leftover.entry result t.old t.new }
    {
        give_out::<T, C, Consumer<'h, T, C, P>>(leftover, t)
    }
}

// Sets the callback, with or without the allowance to run inline.
fn set<'h, T, C, P>(
    consumer: Consumer<'h, T, C, P>,
    callback: C,
    inline: bool,
) -> (Met<T, C, P>, LeftC<'h, T, C, P>)
    ensures home { (result.1.home ≡ consumer.entry.home) × (result.1.use_number ≡ consumer.entry.use_number) × (result.1.no ≡ consumer.entry.no) }
    ensures act { result.1.demand ≡ Demand.Callback record { callback = callback; inline = inline } }
    ensures answer { MeetsAt result.1.found result.1.got consumer.entry.no callback inline result.0 }
{
    if inline {
        return consumer.set_callback_inline(callback);
    }
    consumer.set_callback(callback)
}
