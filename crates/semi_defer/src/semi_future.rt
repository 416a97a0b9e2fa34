//! A future that has no executor yet.
ghost use Rattle.std.specs.Prelude.{◌≡◌, false};
ghost use Rattle.core_word.specs.Count.{raised};
ghost use Rattle.promise_api.specs.Seen.{producer_of, consumer_of};

use crate::deferring::WAITING;
use core_proxy::Proxy;
use core_word::{Key, Left, Tally};
use fan_base::ExecId;
use promise_api::{After, Future, Promise, promise};
use std::marker::Model;

/// The outcome that a promise is of, where no executor was chosen. It must be spent.
pub struct SemiFuture<'h, T, C, P> {
    future: Future<'h, T, C, P>,
}

impl<'h, T, C, P> Model for SemiFuture<'h, T, C, P> {
    ghost use Rattle.core_word.specs.Seen.{SeenConsumer};

    ghost Value = { SeenConsumer };

    ghost view = { λ s. s.future.core };
}

/// Begins a core with this number, whose future has no executor yet.
pub fn semi<'h, T, C, P>(
    key: Key<'h, T, C, P>,
    no: u64,
    t: &mut Tally,
) -> (Promise<'h, T, C, P>, SemiFuture<'h, T, C, P>)
    ensures promise { result.0 ≡ producer_of key.entry no }
    ensures future { result.1 ≡ consumer_of key.entry no }
    ensures tally { t.new ≡ record t.old { made = raised t.old.made } }
{
    let (promise, future) = promise(key, no, WAITING, t);
    (promise, SemiFuture { future })
}

impl<'h, T, C, P> SemiFuture<'h, T, C, P> {
    ghost use Rattle.promise_api.specs.Acts.{Asks, GaveUp};

    /// The future on this executor.
    pub fn via(self, exec: ExecId) -> Future<'h, T, C, P>
        ensures { result ≡ record { core = self.entry; exec = exec } }
    {
        let SemiFuture { future } = self;
        future.via(exec)
    }

    /// Sets the callback of a deferral, which [`deferral`](crate::deferral) gives, and leaves. It is passed on where a proxy
    /// is there, and so on.
    pub fn defer(self, callback: C, t: &mut Tally) -> After<'h, T, C, P>
    where
        P: Proxy<T, C>,
        ensures { Asks P.gives self.entry callback false result t.old t.new }
    {
        let SemiFuture { future } = self;
        future.on(callback, t)
    }

    /// Says that no callback will come, and leaves.
    pub fn give_up(self) -> Left<'h, T, C, P>
        ensures { GaveUp self.entry result }
    {
        let SemiFuture { future } = self;
        future.detach()
    }
}
