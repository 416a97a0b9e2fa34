//! The callback that a continuation is.
ghost use Rattle.std.specs.Prelude.{◌≡◌};
ghost use Rattle.fan_base.specs.declared.outcome.Try.TheVariants as try;

use crate::after::After;
use crate::promises::Promise;
use core_proxy::Proxy;
use core_word::Tally;
use fan_base::{ExecId, Try};
use job_steps::{Cont, Step};
use std::marker::Model;

/// A continuation, the promise that its outcome goes to, and the executor that it is to run on. It must be spent.
pub struct Chain<'d, K, U, D, Q> {
    to: Promise<'d, U, D, Q>,
    cont: K,
    exec: ExecId,
}

impl<'d, K, U, D, Q> Model for Chain<'d, K, U, D, Q> {
    ghost use Rattle.promise_api.specs.Seen.{SeenChain};

    ghost Value = { SeenChain K };

    ghost view = { λ c. record { to = c.to; cont = c.cont; exec = c.exec } };
}

impl<'d, K, U, D, Q> Chain<'d, K, U, D, Q> {
    ghost use Rattle.promise_api.specs.Acts.{Fulfils};
    ghost use Rattle.promise_api.specs.Chains.{RunsTo};

    /// The chain that runs this continuation and keeps this promise, on this executor.
    pub fn of(to: Promise<'d, U, D, Q>, cont: K, exec: ExecId) -> Chain<'d, K, U, D, Q>
        ensures { result ≡ record { to = to.entry; cont = cont; exec = exec } }
    {
        Chain { to, cont, exec }
    }

    /// The same promise and continuation, on another executor.
    pub fn via(self, exec: ExecId) -> Chain<'d, K, U, D, Q>
        ensures { result ≡ record { to = self.entry.to; cont = self.entry.cont; exec = exec } }
    {
        let Chain { to, cont, exec: _ } = self;
        Chain { to, cont, exec }
    }

    /// The executor that it is to run on.
    pub fn exec(&self) -> ExecId
        ensures { result ≡ self.now.exec }
    {
        self.exec
    }

    /// Runs the continuation on the outcome, once. Its promise is fulfilled where the outcome is there, and else proxied to
    /// the core that the continuation named.
    pub fn run<T>(self, outcome: Try<T>, t: &mut Tally) -> After<'d, U, D, Q>
    where
        K: Cont<T, Out = U, Later = Q>,
        Q: Proxy<U, D>,
        ensures { RunsTo K.steps Q.gives self.entry.to self.entry.cont outcome result t.old t.new }
    {
        let Chain { to, cont, exec: _ } = self;
        match cont.step(outcome) {
            Step::Now(outcome) => to.fulfil(outcome),
            Step::Later(core) => to.proxy(core, t),
        }
    }

    /// Drops the continuation and gives its promise up.
    pub fn abandon(self) -> After<'d, U, D, Q>
    where
        K: Drop,
        ensures { Fulfils self.entry.to try.Broken result }
    {
        let Chain {
            to,
            cont: _,
            exec: _,
        } = self;
        to.abandon()
    }
}
