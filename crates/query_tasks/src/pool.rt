use prio_pool::{HelperPass, Pool, PoolPass};
use run_tasks::ShardTask;

/// The pool that runs the tasks.
pub type TaskPool<'t, 'i, N> = Pool<ShardTask<'t, 'i, N>>;

/// The right to add tasks to the pool.
pub type TaskAdder<'t, 'i, N> = PoolPass<ShardTask<'t, 'i, N>>;

/// The right to help the pool.
pub type TaskHelper<'t, 'i, N> = HelperPass<ShardTask<'t, 'i, N>>;
