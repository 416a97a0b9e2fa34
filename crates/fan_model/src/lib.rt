//! What a finished run over threads reports: which tasks it ran and where, what its queues took and gave, and what became of
//! its cores. All of it is a function of the lines of the input, the number of shards, that of gathering bases and the stop
//! point (`Asking`, specs/Report.antt). The definitions stand in `specs/`, over the language of `query_model`; the run and the
//! program are held to them (`fanout::fan_run`: `reports`). No header of Folly's has this: it is what this program reports.
//!
//! ```text
//! place by place in the order of answers:   begins, a query that is answered      cancels, one that is cancelled, or is left over
//!
//! with a stop point Q, of those that are answered:   the first Q are early        the others are late      (without one all are early)
//!   a task over each shard, on the executor of       the pool                     the front
//!
//! a task      id 64 * the query's number + the shard's; queue 0, 1 or 2 by the priority; as its mark how many of the shard's documents
//!             before the query hold, or for `top` have one of its words
//! executors   0 the pool, 1 and up the gathering bases, bases + 1 the printer's base, bases + 2 the front
//! messages    to a gathering base one for each task of its queries, to the printer's base one for each query
//! cores       one for each task, whose home is used again; one for each reply; one more for each `top`, to which the reply's is forwarded
//! ```
//!
//! The promises are laws, functions that do nothing but cite other laws:
//! * the answered queries in their order give the replies that aren't `cancelled` (`laws::answers_in_order`); each is early or
//!   late (`laws::early_or_late`), and has as many tasks as there are shards (`laws::a_task_for_each_shard`);
//! * what is owed at first is the whole output, the reply at a place comes next, and behind the last nothing is owed (`all`,
//!   `next`, `last` of `laws::printing`);
//! * queries are numbered from 1, one of each number (`laws::queries_are_numbered`, `laws::the_next_query`), and as many come,
//!   and have a reply, as there are (`laws::each_query_has_a_reply`);
//! * what comes gives the replies in their order (`laws::comings_in_order`), and a line more adds what it answers or cancels
//!   (`laws::comings_line_by_line`);
//! * lines that are the same but for the words of documents come to the same (`laws::alike_lines_come_to_the_same`);
//! * worked runs with their reports, computed from the definitions (`rows::worked_rows`).
//!
//! Nothing here says that a run ends.
#![tactic(auto)]

pub mod laws;
pub mod rows;
