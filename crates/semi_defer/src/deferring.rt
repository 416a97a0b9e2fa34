//! The callback of a deferral, the job that it adds, and the future whose executor is chosen later.
ghost use Rattle.std.specs.Prelude.{◌≡◌};
ghost use Rattle.semi_defer.specs.declared.state.Chosen.{Chosen};
ghost use Rattle.semi_defer.specs.Answers.{ChoosesAt};
ghost use Rattle.semi_defer.specs.Deferring.{LandsAt, RunsOnAt, callback_of, deferred_of, on_executor};
ghost use Rattle.core_word.specs.Count.{raised};

use crate::adder::{AddReceipt, Added, Adder};
use crate::holder::{ChooseReceipt, Holder};
use core_word::{Key, Left, Tally};
use fan_base::{ExecId, Try};
use promise_api::{Chain, Future, promise};
use std::marker::Model;

/// The executor of a chain, and of a future, that waits for one.
pub(crate) const WAITING: ExecId = ExecId(0);

/// A continuation with its outcome, and the promise that it keeps. It must be spent: by [`Chain::run`] on the chain's
/// executor where one was set, and by [`Chain::abandon`] where it was handed back.
pub struct DeferJob<'d, T, K, U, D, Q> {
    pub outcome: Try<T>,
    pub chain: Chain<'d, K, U, D, Q>,
}

/// The callback of a deferral, which [`SemiFuture::defer`](crate::SemiFuture::defer) sets. It must be spent.
pub struct DeferChain<'d, 'e, T, K, U, D, Q> {
    adder: Adder<'e, DeferJob<'d, T, K, U, D, Q>>,
    chain: Chain<'d, K, U, D, Q>,
}

impl<'d, 'e, T, K, U, D, Q> Model for DeferChain<'d, 'e, T, K, U, D, Q> {
    ghost use Rattle.semi_defer.specs.Deferring.{DeferChainSeen};

    ghost Value = { DeferChainSeen K };

    ghost view = { λ c. record { home = c.adder.home; chain = c.chain } };
}

/// Defers a continuation onto whichever executor is chosen later: begins the core of the key, and gives the future of that
/// core and the callback for [`SemiFuture::defer`](crate::SemiFuture::defer). Adder and holder are a pair. The chain waits
/// with executor 0.
pub fn deferral<'d, 'e, T, K, U, D, Q>(
    adder: Adder<'e, DeferJob<'d, T, K, U, D, Q>>,
    holder: Holder<'e, DeferJob<'d, T, K, U, D, Q>>,
    key: Key<'d, U, D, Q>,
    no: u64,
    cont: K,
    t: &mut Tally,
) -> (
    Deferred<'d, 'e, T, K, U, D, Q>,
    DeferChain<'d, 'e, T, K, U, D, Q>,
)
    requires pair { adder.home ≡ holder.home }
    ensures deferred { result.0 ≡ deferred_of holder.entry.home key.entry no }
    ensures callback { result.1 ≡ callback_of adder.entry.home key.entry no cont }
    ensures tally { t.new ≡ record t.old { made = raised t.old.made } }
{
    let (to, future) = promise(key, no, WAITING, t);
    let chain = Chain::of(to, cont, WAITING);
    (Deferred { holder, future }, DeferChain { adder, chain })
}

impl<'d, 'e, T, K, U, D, Q> DeferChain<'d, 'e, T, K, U, D, Q> {
    /// Adds the job of this outcome, as [`Adder::add`] does. Where an executor was set the job's chain is on it.
    pub fn land(
        self,
        outcome: Try<T>,
    ) -> (
        Added<DeferJob<'d, T, K, U, D, Q>>,
        AddReceipt<DeferJob<'d, T, K, U, D, Q>>,
    )
        ensures home { result.1.home ≡ self.entry.home }
        ensures answer { LandsAt (record { outcome = outcome; chain = self.entry.chain }) result.0 result.1.did }
    {
        let DeferChain { adder, chain } = self;
        let (added, receipt) = adder.add(DeferJob { outcome, chain });
        match added {
            Added::Kept => (Added::Kept, receipt),
            Added::RunOn(exec, job) => (Added::RunOn(exec, on(job, exec)), receipt),
            Added::Gone(job) => (Added::Gone(job), receipt),
        }
    }
}

// The same job on this executor.
fn on<'d, T, K, U, D, Q>(
    job: DeferJob<'d, T, K, U, D, Q>,
    exec: ExecId,
) -> DeferJob<'d, T, K, U, D, Q>
    ensures { result ≡ on_executor exec job.entry }
{
    let DeferJob { outcome, chain } = job;
    DeferJob {
        outcome,
        chain: chain.via(exec),
    }
}

/// A future that has no executor yet, and work that waits for one. It must be spent.
pub struct Deferred<'d, 'e, T, K, U, D, Q> {
    holder: Holder<'e, DeferJob<'d, T, K, U, D, Q>>,
    future: Future<'d, U, D, Q>,
}

impl<'d, 'e, T, K, U, D, Q> Model for Deferred<'d, 'e, T, K, U, D, Q> {
    ghost use Rattle.semi_defer.specs.Deferring.{DeferredSeen};

    ghost Value = { DeferredSeen };

    ghost view = { λ d. record { home = d.holder.home; future = d.future } };
}

impl<'d, 'e, T, K, U, D, Q> Deferred<'d, 'e, T, K, U, D, Q> {
    ghost use Rattle.promise_api.specs.Acts.{GaveUp};

    /// Chooses the executor of the work and of the future. The job comes out where it was kept, exactly as
    /// [`Holder::set_executor`] says, with its chain on this executor, and the caller runs it there.
    pub fn via(
        self,
        exec: ExecId,
    ) -> (
        Future<'d, U, D, Q>,
        Option<DeferJob<'d, T, K, U, D, Q>>,
        ChooseReceipt<'e, DeferJob<'d, T, K, U, D, Q>>,
    )
        ensures future { result.0 ≡ record { core = self.entry.future.core; exec = exec } }
        ensures home { result.2.home ≡ self.entry.home }
        ensures answer { RunsOnAt exec result.1 result.2.did }
    {
        let Deferred { holder, future } = self;
        let (job, receipt) = holder.set_executor(exec);
        let future = future.via(exec);
        match job {
            Some(job) => (future, Some(on(job, exec)), receipt),
            None => (future, None, receipt),
        }
    }

    /// Gives the future up: no executor comes. The job comes out where it was kept, exactly as [`Holder::detach`] says,
    /// and isn't to run.
    pub fn give_up(
        self,
    ) -> (
        Left<'d, U, D, Q>,
        Option<DeferJob<'d, T, K, U, D, Q>>,
        ChooseReceipt<'e, DeferJob<'d, T, K, U, D, Q>>,
    )
        ensures left { GaveUp self.entry.future.core result.0 }
        ensures home { result.2.home ≡ self.entry.home }
        ensures answer { ChoosesAt Chosen.Detached result.1 result.2.did }
    {
        let Deferred { holder, future } = self;
        let (job, receipt) = holder.detach();
        (future.detach(), job, receipt)
    }
}
