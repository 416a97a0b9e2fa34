//! The side that sets an outcome.
ghost use Rattle.std.specs.Prelude.{◌≡◌};
ghost use Rattle.fan_base.specs.declared.outcome.Try.TheVariants as try;

use crate::after::After;
use core_proxy::Proxy;
use core_word::{Producer, Tally};
use fan_base::Try;
use std::marker::Model;

/// A promise of an outcome. It must be spent. Contracts see it as its core's producer.
pub struct Promise<'h, T, C, P> {
    producer: Producer<'h, T, C, P>,
}

impl<'h, T, C, P> Model for Promise<'h, T, C, P> {
    ghost use Rattle.core_word.specs.Seen.{SeenProducer};

    ghost Value = { SeenProducer };

    ghost view = { λ p. p.producer };
}

impl<'h, T, C, P> Promise<'h, T, C, P> {
    ghost use Rattle.promise_api.specs.Acts.{Fulfils, Proxies};

    pub(crate) fn new(producer: Producer<'h, T, C, P>) -> Promise<'h, T, C, P>
        ensures { result ≡ producer.entry }
    {
        Promise { producer }
    }

    /// Sets the outcome, and leaves. A callback that was there fires with it.
    pub fn fulfil(self, outcome: Try<T>) -> After<'h, T, C, P>
        ensures { Fulfils self.entry outcome result }
    {
        let Promise { producer } = self;
        let (landed, left) = producer.set_result(outcome);
        After {
            landed,
            left: left.leave(),
        }
    }

    /// Gives the promise up: sets `Try::Broken`, and leaves.
    pub fn abandon(self) -> After<'h, T, C, P>
        ensures { Fulfils self.entry try.Broken result }
    {
        self.fulfil(Try::Broken)
    }

    /// Names another core, whose outcome this one's callback gets, and leaves. A callback that was there is given to that
    /// core, with the allowance to run inline exactly where it was set with it.
    pub fn proxy(self, to: P, t: &mut Tally) -> After<'h, T, C, P>
    where
        P: Proxy<T, C>,
        ensures { Proxies P.gives self.entry to result t.old t.new }
    {
        let Promise { producer } = self;
        let (passed, left) = producer.set_proxy(to);
        let left = left.leave();
        let landed = P::after_passing(passed, t);
        After { landed, left }
    }
}
