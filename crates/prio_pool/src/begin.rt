// The beginning of a pool's end.
ghost use Rattle.std.specs.Prelude.{◌≡◌, ◌+◌, ◌<◌, ◌≤◌, ◌++◌, length, All};
ghost use Rattle.pool_model.specs.declared.task.Ending.TheVariants.{Joins, Stops};
ghost use Rattle.pool_model.specs.Passes.{AreAllPasses};
ghost use Rattle.prio_pool.specs.Begun.{HasBegun, SetMark};

use crate::adders::Adders;
use crate::passes::PoolPass;
use crate::pool::Pool;
use crate::sleepers::Told;
use job_trait::Headed;
use keep_alive::{Joined, KeepOwner};
use pool_model::Ending;
use std::alloc::Global;
use std::collections::LinkedList;
use std::marker::Model;
use std::snapshot::Snapshot;
use std::sync::Wait;
use task_queue::{EndMark, OpenSeat};

/// A pool that is to be joined. It keeps the passes of all adders, so that no task can be added. Contracts see these, which
/// pool it is, and the count of its keep-alives.
pub struct Joining<J: Headed> {
    pub(crate) passes: LinkedList<Adders<J>>,
    pub(crate) begun: Told,
    pub(crate) joined: Joined,
    pub(crate) pool: Snapshot<Pool<J>>,
}

impl<J: Headed> Model for Joining<J> {
    ghost use Rattle.std.specs.Prelude.{◌≡◌};
    ghost use Rattle.pool_model.specs.declared.task.Ending.TheVariants.{Joins};
    ghost use Rattle.pool_model.specs.Seen.{EndingSeen};
    ghost use Rattle.prio_pool.specs.Begun.{SetMark};

    ghost Value = { EndingSeen };

    ghost view = { λ j. record { pool = j.pool.value.id; count = j.joined.count; ending = Joins; passes = j.passes } };

    ghost invariant = { λ j. SetMark j.pool.value Joins j.begun };
}

/// A pool that is to be stopped. It keeps the passes of all adders, so that no task can be added. Contracts see the same of it.
pub struct Stopping<J: Headed> {
    pub(crate) passes: LinkedList<Adders<J>>,
    pub(crate) begun: Told,
    pub(crate) joined: Joined,
    pub(crate) pool: Snapshot<Pool<J>>,
}

impl<J: Headed> Model for Stopping<J> {
    ghost use Rattle.std.specs.Prelude.{◌≡◌};
    ghost use Rattle.pool_model.specs.declared.task.Ending.TheVariants.{Stops};
    ghost use Rattle.pool_model.specs.Seen.{EndingSeen};
    ghost use Rattle.prio_pool.specs.Begun.{SetMark};

    ghost Value = { EndingSeen };

    ghost view = { λ j. record { pool = j.pool.value.id; count = j.joined.count; ending = Stops; passes = j.passes } };

    ghost invariant = { λ j. SetMark j.pool.value Stops j.begun };
}

fn put_behind<J>(list: &mut LinkedList<Adders<J>>, mut more: LinkedList<Adders<J>>)
    requires { length list.old + length more < 9223372036854775808 }
    ensures { list.new ≡ list.old ++ more }
{
    let _ = list.append(&mut more);
}

// The passes in one list, and their parts of the mark.
fn gather_parts<J>(
    alloc: Global,
    mark: &EndMark,
    mut passes: Vec<PoolPass<J>>,
) -> (LinkedList<Adders<J>>, OpenSeat)
    requires some { 0 < length passes.items }
    requires few { length passes.items ≤ 64 }
    requires mark { All (λ p. p.pool.mark ≡ mark.now.mark) passes.items }
    ensures list { result.0 ≡ passes.items }
    ensures parts { result.1 ≡ record { mark = mark.now.mark; parts = length passes.items } }
{
    let Some(last) = passes.pop() else {
        unreachable!()
    };
    let PoolPass {
        adders: mut list,
        seat: mut parts,
    } = last;
    while let Some(pass) = passes.pop() {
        let PoolPass { mut adders, seat } = pass;
        mark.put_parts(&mut parts, seat);
        put_behind(&mut adders, list);
        list = adders;
    }
    passes.destroy_empty();
    let _ = alloc;
    (list, parts)
}

impl<J: Headed> Pool<J> {
    // Waits for the keep-alives, marks the pool as ending, and tells its workers.
    fn begin<R: Wait>(
        &self,
        rt: &R,
        owner: KeepOwner,
        passes: Vec<PoolPass<J>>,
        ending: Ending,
    ) -> (LinkedList<Adders<J>>, Told, Joined)
        requires owner { owner.count ≡ self.now.count }
        requires passes { AreAllPasses self.now.id self.now.adders passes.items }
        ensures passes { result.0 ≡ passes.items }
        ensures mark { SetMark self.now ending result.1 }
        ensures count { result.2.count ≡ self.now.count }
    {
        let joined = owner.join(rt);
        let (list, parts) = gather_parts(self.alloc, self.mark.mark(), passes);
        let begun = self.mark.begin(&joined, parts, ending);
        (list, self.sleepers.wake_all(begun), joined)
    }

    /// Waits until each keep-alive of the pool is released, and begins to join it: its workers end once each queue is found
    /// empty. A keep-alive that is never released keeps it waiting.
    pub fn begin_join<R: Wait>(
        &self,
        rt: &R,
        owner: KeepOwner,
        passes: Vec<PoolPass<J>>,
    ) -> Joining<J>
        requires owner { owner.count ≡ self.now.count }
        requires passes { AreAllPasses self.now.id self.now.adders passes.items }
        ensures begun { HasBegun Joins self.now passes.items result }
    {
        let (passes, begun, joined) = self.begin(rt, owner, passes, Ending::Joins);
        Joining {
            passes,
            begun,
            joined,
            pool: Snapshot::of(self),
        }
    }

    /// Waits until each keep-alive of the pool is released, and begins to stop it: its workers take no further task once they
    /// find that. A keep-alive that is never released keeps it waiting.
    pub fn begin_stop<R: Wait>(
        &self,
        rt: &R,
        owner: KeepOwner,
        passes: Vec<PoolPass<J>>,
    ) -> Stopping<J>
        requires owner { owner.count ≡ self.now.count }
        requires passes { AreAllPasses self.now.id self.now.adders passes.items }
        ensures begun { HasBegun Stops self.now passes.items result }
    {
        let (passes, begun, joined) = self.begin(rt, owner, passes, Ending::Stops);
        Stopping {
            passes,
            begun,
            joined,
            pool: Snapshot::of(self),
        }
    }
}
