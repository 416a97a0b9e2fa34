//! The side that waits for an outcome.
ghost use Rattle.std.specs.Prelude.{◌≡◌, true, false};
ghost use Rattle.core_word.specs.Count.{raised};

use crate::after::After;
use crate::chain::Chain;
use crate::start::promise;
use core_proxy::Proxy;
use core_word::{Consumer, Key, Left, Tally};
use fan_base::ExecId;
use job_steps::{Always, EnsureStep, FaultStep, OnFault, OnValue, ValueStep};
use std::marker::Model;

/// The outcome that a promise is of, and the executor of the next continuation. It must be spent.
pub struct Future<'h, T, C, P> {
    consumer: Consumer<'h, T, C, P>,
    exec: ExecId,
}

impl<'h, T, C, P> Model for Future<'h, T, C, P> {
    ghost use Rattle.promise_api.specs.Seen.{SeenFuture};

    ghost Value = { SeenFuture };

    ghost view = { λ f. record { core = f.consumer; exec = f.exec } };
}

impl<'h, T, C, P> Future<'h, T, C, P> {
    ghost use Rattle.promise_api.specs.Acts.{Asks, GaveUp};

    pub(crate) fn new(consumer: Consumer<'h, T, C, P>, exec: ExecId) -> Future<'h, T, C, P>
        ensures { result ≡ record { core = consumer.entry; exec = exec } }
    {
        Future { consumer, exec }
    }

    /// The same future with another executor for the next continuation.
    pub fn via(self, exec: ExecId) -> Future<'h, T, C, P>
        ensures { result ≡ record { core = self.entry.core; exec = exec } }
    {
        let Future { consumer, exec: _ } = self;
        Future { consumer, exec }
    }

    /// The executor of the next continuation.
    pub fn exec(&self) -> ExecId
        ensures { result ≡ self.now.exec }
    {
        self.exec
    }

    /// The consumer of its core, as a proxy has it.
    pub fn into_consumer(self) -> Consumer<'h, T, C, P>
        ensures { result ≡ self.entry.core }
    {
        let Future { consumer, exec: _ } = self;
        consumer
    }

    /// Says that no callback will come, and leaves.
    pub fn detach(self) -> Left<'h, T, C, P>
        ensures { GaveUp self.entry.core result }
    {
        self.into_consumer().give_up().leave()
    }

    /// Sets the callback, without the allowance to run inline, and leaves. It is passed on where a proxy is there, and so on.
    pub fn on(self, callback: C, t: &mut Tally) -> After<'h, T, C, P>
    where
        P: Proxy<T, C>,
        ensures { Asks P.gives self.entry.core callback false result t.old t.new }
    {
        let (met, left) = self.into_consumer().set_callback(callback);
        let left = left.leave();
        let landed = P::after_meeting(met, t);
        After { landed, left }
    }

    /// The same with the allowance to run inline.
    pub fn on_inline(self, callback: C, t: &mut Tally) -> After<'h, T, C, P>
    where
        P: Proxy<T, C>,
        ensures { Asks P.gives self.entry.core callback true result t.old t.new }
    {
        let (met, left) = self.into_consumer().set_callback_inline(callback);
        let left = left.leave();
        let landed = P::after_meeting(met, t);
        After { landed, left }
    }
}

impl<'h, 'd, T, K, U, D, Q, P> Future<'h, T, Chain<'d, OnValue<K>, U, D, Q>, P>
where
    K: ValueStep<T, Out = U, Later = Q> + Drop,
    P: Proxy<T, Chain<'d, OnValue<K>, U, D, Q>>,
{
    ghost use Rattle.promise_api.specs.Acts.{Asks};
    ghost use Rattle.promise_api.specs.Seen.{producer_of, consumer_of};

    /// Continues with a step on the value, on this future's executor. The new future is of the key's core and has this
    /// executor too.
    pub fn then(
        self,
        key: Key<'d, U, D, Q>,
        no: u64,
        cont: K,
        t: &mut Tally,
    ) -> (
        Future<'d, U, D, Q>,
        After<'h, T, Chain<'d, OnValue<K>, U, D, Q>, P>,
    )
        ensures future { result.0 ≡ record { core = consumer_of key.entry no; exec = self.entry.exec } }
        ensures chain { Asks P.gives self.entry.core (record { to = producer_of key.entry no; cont = record { step = cont }; exec = self.entry.exec }) false result.1 (record t.old { made = raised t.old.made }) t.new }
    {
        let exec = self.exec;
        let (to, future) = promise(key, no, exec, t);
        (
            future,
            self.on(Chain::of(to, OnValue { step: cont }, exec), t),
        )
    }

    /// The same with the allowance to run inline.
    pub fn then_inline(
        self,
        key: Key<'d, U, D, Q>,
        no: u64,
        cont: K,
        t: &mut Tally,
    ) -> (
        Future<'d, U, D, Q>,
        After<'h, T, Chain<'d, OnValue<K>, U, D, Q>, P>,
    )
        ensures future { result.0 ≡ record { core = consumer_of key.entry no; exec = self.entry.exec } }
        ensures chain { Asks P.gives self.entry.core (record { to = producer_of key.entry no; cont = record { step = cont }; exec = self.entry.exec }) true result.1 (record t.old { made = raised t.old.made }) t.new }
    {
        let exec = self.exec;
        let (to, future) = promise(key, no, exec, t);
        (
            future,
            self.on_inline(Chain::of(to, OnValue { step: cont }, exec), t),
        )
    }
}

impl<'h, 'd, T, K, D, Q, P> Future<'h, T, Chain<'d, OnFault<K>, T, D, Q>, P>
where
    K: FaultStep<T, Later = Q> + Drop,
    P: Proxy<T, Chain<'d, OnFault<K>, T, D, Q>>,
{
    ghost use Rattle.promise_api.specs.Acts.{Asks};
    ghost use Rattle.promise_api.specs.Seen.{producer_of, consumer_of};

    /// Continues with a step on the fault, as `then` does on the value.
    pub fn then_error(
        self,
        key: Key<'d, T, D, Q>,
        no: u64,
        cont: K,
        t: &mut Tally,
    ) -> (
        Future<'d, T, D, Q>,
        After<'h, T, Chain<'d, OnFault<K>, T, D, Q>, P>,
    )
        ensures future { result.0 ≡ record { core = consumer_of key.entry no; exec = self.entry.exec } }
        ensures chain { Asks P.gives self.entry.core (record { to = producer_of key.entry no; cont = record { step = cont }; exec = self.entry.exec }) false result.1 (record t.old { made = raised t.old.made }) t.new }
    {
        let exec = self.exec;
        let (to, future) = promise(key, no, exec, t);
        (
            future,
            self.on(Chain::of(to, OnFault { step: cont }, exec), t),
        )
    }
}

impl<'h, 'd, T, K, D, Q, P> Future<'h, T, Chain<'d, Always<K>, T, D, Q>, P>
where
    K: EnsureStep<Later = Q>,
    P: Proxy<T, Chain<'d, Always<K>, T, D, Q>>,
{
    ghost use Rattle.promise_api.specs.Acts.{Asks};
    ghost use Rattle.promise_api.specs.Seen.{producer_of, consumer_of};

    /// Continues with a step that is called in either case, and with the same outcome.
    pub fn ensure(
        self,
        key: Key<'d, T, D, Q>,
        no: u64,
        cont: K,
        t: &mut Tally,
    ) -> (
        Future<'d, T, D, Q>,
        After<'h, T, Chain<'d, Always<K>, T, D, Q>, P>,
    )
        ensures future { result.0 ≡ record { core = consumer_of key.entry no; exec = self.entry.exec } }
        ensures chain { Asks P.gives self.entry.core (record { to = producer_of key.entry no; cont = record { step = cont }; exec = self.entry.exec }) false result.1 (record t.old { made = raised t.old.made }) t.new }
    {
        let exec = self.exec;
        let (to, future) = promise(key, no, exec, t);
        (
            future,
            self.on(Chain::of(to, Always { step: cont }, exec), t),
        )
    }
}
