//! The two phases of a run's front: before the workers have ended, and behind them.
//!
//! No header of Folly's has this: it is how this program's front goes about its pool (`prio_pool`). Bases and printer may run
//! beside both.
//!
//! ```text
//! first_phase   beside the workers: the early turns; the keep-alive is released; the pool's end begins: a join, or at the stop point a stop
//! second_phase  behind the workers: the pool ends, and what waited or was handed back is run; the late turns; the front's posters end
//!
//! FrontStart --first_phase--> FrontMid --second_phase, with all workers' ends--> FrontLeft
//!   the front, the owner       the front, the pool's      what became of the tasks, the ends of its posters,
//!   and first keep-alive,      end as it has begun,       whether memory was refused
//!   the adder, the helper      the helper
//! ```
//!
//! The promises, by clause. Of [`first_phase`]:
//! * what was added are the first of the tasks of all early queries, in the order of answers (`some`), and where no memory was
//!   refused all of them (`added`);
//! * the pool is stopped exactly where the run has a stop point and at least so many queries are answered (`stops`); the end
//!   that has begun is this pool's, with all its adders' passes (`pool`, `passes`), which are the one of the adder 0 (`adders`);
//! * where its world notes no refusal, a new one has begun a core for each task that was added (`made`);
//! * what the front helped with is in its helper's records (`helped`), and the front stays this run's, with the same poster
//!   (`front`, `printer`);
//! * where no memory was refused, the replies of all queries that are cancelled before the stop were posted, in order, and
//!   nothing else was (`posted`).
//!
//! Of [`second_phase`]:
//! * where no memory was refused and each recorded task was done, the pool's report is that of the run (`report`, by
//!   `IsPoolReport` of `fan_model`);
//! * the pool was stopped exactly where it is asked (`stopped`), and behind a stop, whether memory was refused or not, as many
//!   tasks are told as accepted as were added, each record is of one of these, no two of one, and the others were handed back
//!   (`account`, which doesn't say that these then ran), and no late task is told where the first phase says that memory was
//!   refused (`account`);
//! * behind a join, in the same way, each task that was added has one record among those of what the pool ran, and nothing was
//!   handed back (`ran`);
//! * what the front ran of late tasks are the first of them, in order, where its world notes no refusal (`late`); a refusal
//!   that it noted before stays noted (`refused`); where it notes none, the second phase counted no core as handed over
//!   (`handed`);
//! * where no memory was refused and the first phase began a core for each task that was added, so many cores more were made than
//!   forwarded as tasks were accepted and late ones run (`made`);
//! * behind a stop, where no memory was refused, the replies of all cancelled queries were posted (`posted`); without one
//!   nothing more was, and memory is said to be refused exactly where it was (`joined`);
//! * the ends are those of the front's posters and of its pass (`posters`, `pass`, `printer`).
//!
//! That a phase returns is said nowhere: the first waits until the pool's keep-alives are released, and either may wait for a
//! cell.
#![tactic(auto)]

mod first;
mod second;

pub use first::{FrontMid, FrontStart, first_phase};
pub use second::{FrontLeft, second_phase};
