//! A run over threads: each query is fanned over the shards on a pool, its parts are gathered on event bases, and the replies are printed in
//! order.
//!
//! ```text
//! fan_run, fan_run_named: plan > inner homes > homes of replies > queries, awaited > homes of tasks, cells > bases, pool; then, beside each other,
//!   front        this thread:   adds the tasks, begins the pool's end; behind the workers it ends the pool, and runs what was handed back and what
//!                               came behind the stop
//!   workers      a thread each: the tasks; each part is posted to its query's base
//!   gatherers    a thread each: the parts of their queries, merged, to the printer
//!   printer      a thread:      the replies, in order, to the sink
//! closes: the bases with all ends of their posters, the homes; what was counted is compared; FanEnd
//! ```
#![tactic(auto)]

mod ending;
mod front;
mod inside;
mod levels;
mod plan;
mod run;

pub use fan_parts::RunName;
pub use levels::fan_run_named;
pub use run::{Knobs, fan_run};
pub use run_ending::{FanEnd, FanOutcome};
