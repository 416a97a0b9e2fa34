//! A pool: two tasks of different priorities, a worker that runs them, and the join that accounts for them.
ghost use Rattle.std.specs.Prelude.{◌≡◌, ℕ, ◌+◌, ◌-◌, ◌^◌, ◌<◌, [], length, min, IfOk};
ghost use Rattle.std.specs.Bool.{OnTrue};
ghost use Rattle.pool_model.specs.Accounts.{records_with};
ghost use Rattle.pool_model.specs.Passes.{adds_of};

use fan_base::{ExecId, JobId, Mark, Memory, OpenGate};
use job_trait::{Head, Headed, Job};
use keep_alive::KeepAlive;
use pool_model::join_accounts_for_each;
use prio_pool::{Pool, PoolEnd, PoolParts, PoolPass, new_passes_are_unused};
use std::alloc::Global;
use std::sync::Wait;

/// A task, whose world counts how many ran.
#[derive(Clone, Copy)]
pub struct Task(Head);

impl Headed for Task {
    ghost head = { λ task. task.0 };

    fn id(&self) -> JobId {
        self.0.id
    }

    fn exec(&self) -> ExecId {
        self.0.exec
    }
}

impl Job<u64> for Task {
    ghost runs = { λ _ before _ after. after ≡ min (before + 1) (2 ^ 64 - 1) };

    fn run<R: Wait>(self, _rt: &R, count: &mut u64) -> Mark {
        *count = count.saturating_add(1);
        Mark::Done(self.0.number)
    }
}

fn make_task(id: u64) -> Task
    ensures { result.0.exec.0 ≡ 7 }
{
    Task(Head {
        id: JobId(id),
        exec: ExecId(7),
        number: 0,
    })
}

// Adds two tasks with the ids 1 and 2. `false`: there was no memory for one of them.
fn add_two<R: Wait>(
    rt: &R,
    pool: &Pool<Task>,
    keep: &KeepAlive,
    pass: &mut PoolPass<Task>,
    priorities: (i8, i8),
) -> bool
    requires keep { keep.now.count ≡ pool.now.count }
    requires pass { (pass.old.pool ≡ pool.now.id) × (adds_of pass.old ≡ []) }
    requires exec { pool.now.exec.0 ≡ 7 }
    ensures same { (pass.new.pool ≡ pass.old.pool) × (pass.new.number ≡ pass.old.number) }
    ensures added { OnTrue result (length (adds_of pass.new) ≡ 2) }
{
    pool.add(rt, keep, pass, priorities.0, make_task(1)).is_ok()
        && pool.add(rt, keep, pass, priorities.1, make_task(2)).is_ok()
}

/// Two tasks are added to a pool of three queues, and one worker runs. Once it is joined each of the two has one record, and
/// nothing is handed back.
pub fn run_two<R: Wait>(
    rt: &R,
    alloc: Global,
    priorities: (i8, i8),
    count: &mut u64,
) -> Result<PoolEnd<Task>, Memory>
    ensures accepted { IfOk result (λ end. end.accepted ≡ 2) }
    ensures once { IfOk result (λ end. (index : ℕ) → index < 2 → records_with 0 index end.ran.records ≡ 1) }
    ensures all { IfOk result (λ end. (length end.ran.records ≡ 2) × (end.returned ≡ [])) }
{
    let mut ends = Vec::with_capacity(alloc, 1)?;
    let PoolParts {
        pool,
        owner,
        keep,
        mut adders,
        mut workers,
        helpers,
    } = Pool::new(alloc, ExecId(7), 3, 1, 1, 0, 0)?;
    new_passes_are_unused();
    join_accounts_for_each();
    helpers.destroy_empty();
    let Some(worker) = workers.pop() else {
        unreachable!()
    };
    let Some(mut pass) = adders.pop() else {
        unreachable!()
    };
    workers.destroy_empty();
    let added = add_two(rt, &pool, &keep, &mut pass, priorities);
    adders.push_reserved(pass);
    let _ = keep.release();
    let joining = pool.begin_join(rt, owner, adders);
    ends.push_reserved(pool.work(rt, worker, count, &OpenGate));
    let end = pool.join(rt, joining, ends, Vec::new(alloc), count);
    if added { Ok(end) } else { Err(Memory) }
}
