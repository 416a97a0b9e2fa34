// The interrupt of a query that waits.
ghost use Rattle.std.specs.Prelude.{◌≡◌, [], ◌∷◌, false, length, vec_capacity, All, IfOk};
ghost use Rattle.fan_base.specs.declared.number.JobId.{JobId};
ghost use Rattle.core_interrupt.specs.Seen.{HomeSeen};
ghost use Rattle.query_timers.specs.Seen.{id_of};

use crate::query::DelayedQuery;
use core_interrupt::{
    Armed, Heard, Hearer, InterruptHome, Raiser, armed_agrees, raise_where_armed,
};
use fan_base::{JobId, Memory};
use std::alloc::Global;
use std::marker::Model;

/// What is raised where a query is no longer wanted.
#[derive(Clone, Copy, Debug, PartialEq, Eq)]
pub struct Unwanted;

/// The memory of the interrupt of one query that waits. Its handler names the query's timer.
pub type CancelHome = InterruptHome<JobId, Unwanted>;

/// Both sides of an interrupt that nobody has used.
pub(crate) struct Pair<'h> {
    hearer: Hearer<'h, JobId, Unwanted>,
    raiser: Raiser<'h, JobId, Unwanted>,
}

impl<'h> Model for Pair<'h> {
    ghost use Rattle.std.specs.Prelude.{◌≡◌, []};
    ghost use Rattle.core_interrupt.specs.Seen.{HomeId};

    ghost Value = { HomeId };

    ghost view = { λ p. p.hearer.home };

    ghost invariant = { λ p. (p.raiser.home ≡ p.hearer.home) × (p.raiser.raised ≡ []) };
}

/// A query that waits, with its interrupt. Contracts see the query.
pub(crate) struct Waiter<'h> {
    query: DelayedQuery,
    armed: Armed<'h, JobId, Unwanted>,
    raiser: Raiser<'h, JobId, Unwanted>,
}

impl<'h> Model for Waiter<'h> {
    ghost use Rattle.std.specs.Prelude.{◌≡◌, [], ◌∷◌};
    ghost use Rattle.core_interrupt.specs.declared.history.HearEvent.TheVariants.{Kept};
    ghost use Rattle.query_timers.specs.declared.query.DelayedQuery.{DelayedQuery};
    ghost use Rattle.query_timers.specs.Seen.{id_of};

    ghost Value = { DelayedQuery };

    ghost view = { λ w. w.query };

    ghost invariant = { λ w. (w.armed.home ≡ w.raiser.home) × (w.armed.heard ≡ Kept (id_of w.query) ∷ []) × (w.raiser.raised ≡ []) };
}

/// So many homes, whose pairs nobody has taken.
pub fn cancel_homes(alloc: Global, count: usize) -> Result<Vec<CancelHome>, Memory>
    ensures untaken { IfOk result (λ homes. All (λ (home : HomeSeen). home.taken ≡ false) homes.items) }
    ensures count { IfOk result (λ homes. length homes.items ≡ count) }
{
    let Ok(mut homes) = Vec::with_capacity(alloc, count) else {
        return Err(Memory);
    };
    'making: while homes.len() < count {
        homes.push_reserved(InterruptHome::new(alloc)?);
    }
    Ok(homes)
}

/// The pairs of these homes, whose pairs nobody has taken.
pub(crate) fn pairs_of<'h>(
    alloc: Global,
    homes: &'h mut [CancelHome],
) -> Result<Vec<Pair<'h>>, Memory>
    requires { All (λ (home : HomeSeen). home.taken ≡ false) homes.old }
    ensures { IfOk result (λ pairs. length pairs.items ≡ length homes.old) }
{
    let Ok(mut pairs) = Vec::with_capacity(alloc, homes.len()) else {
        return Err(Memory);
    };
    for home in homes.iter_mut() {
        pairs.push_reserved(pair_of(home));
    }
    Ok(pairs)
}

fn pair_of<'h>(home: &'h mut CancelHome) -> Pair<'h>
    requires { home.old.taken ≡ false }
{
    let Some((hearer, raiser)) = home.pair() else {
        unreachable!()
    };
    Pair { hearer, raiser }
}

impl<'h> Pair<'h> {
    /// Sets the handler that names the query's timer.
    pub(crate) fn wait(self, query: DelayedQuery) -> Waiter<'h>
        ensures { result ≡ query }
    {
        let Pair { hearer, raiser } = self;
        let (heard, armed) = hearer.set_handler(JobId(query.number));
        match heard {
            Heard::Kept => Waiter {
                query,
                armed,
                raiser,
            },
            Heard::Call(_, _) => {
                armed_agrees(armed, raiser);
                unreachable!()
            }
        }
    }

    /// Ends an interrupt that is not used.
    pub(crate) fn end(self) {
        let Pair { hearer, raiser: _ } = self;
        let _unused = hearer.end();
    }
}

impl<'h> Waiter<'h> {
    pub(crate) fn query(&self) -> DelayedQuery
        ensures { result ≡ self.now }
    {
        self.query
    }

    /// The query is no longer wanted: the interrupt is raised, and its handler names the query's timer.
    pub(crate) fn raise(self) -> JobId
        ensures { result ≡ id_of self.entry }
    {
        let Waiter {
            query: _,
            armed,
            raiser,
        } = self;
        let (timer, _unwanted) = raise_where_armed(armed, raiser, Unwanted);
        timer
    }

    /// The query waits no more: its interrupt ends.
    pub(crate) fn end(self) -> DelayedQuery
        ensures { result ≡ self.entry }
    {
        let Waiter {
            query,
            armed,
            raiser: _,
        } = self;
        let _handler = armed.end();
        query
    }
}
