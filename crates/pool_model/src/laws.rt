// Laws of passes, histories and accounts. Each body is empty: the contract is the law.
ghost use Rattle.std.specs.Prelude.{ℕ, List, Option, take};
ghost use Rattle.pool_model.specs.declared.task.Ending.{Ending};
ghost use Rattle.pool_model.specs.History.{Event, PoolHistory, accepts, outs};
ghost use Rattle.pool_model.specs.Records.{Record};
ghost use Rattle.pool_model.specs.Seen.{PoolId, PassSeen, Returned};
ghost use Rattle.pool_model.specs.Passes.{AreAllPasses, AreNumbered};
ghost use Rattle.pool_model.specs.Steps.{Step, Worked, TakesFromTheHighest};
ghost use Rattle.pool_model.specs.Accounts.{JoinAccounts, StopAccounts};
ghost use Rattle.pool_model.specs.Tickets.{Ascend, TicketsDiffer, tickets_of};

use job_trait::Headed;

/// Each beginning of a lawful history is lawful, so what is said of a whole history holds at every moment of it.
pub fn histories_are_lawful_throughout()
    ensures { (history : List Event) → PoolHistory history → (moment : ℕ) → PoolHistory (take moment history) }
{}

/// In a lawful history no two tasks that were accepted, and no two that left, have one ticket, and in what left the indexes of
/// each adder ascend.
pub fn tasks_leave_once()
    ensures accepted { (history : List Event) → PoolHistory history → TicketsDiffer (accepts history) }
    ensures left { (history : List Event) → PoolHistory history → TicketsDiffer (outs history) }
    ensures ascend { (history : List Event) → PoolHistory history → Ascend (tickets_of (outs history)) }
{}

/// The account of a join by sums is one by tickets: each record is of the run of an add, each ticket has one record, and
/// there are as many records as adds.
pub fn join_accounts_for_each()
    ensures { (pool : PoolId) (adders : ℕ) (passes : List PassSeen) (records : List Record) → JoinAccounts pool adders passes records }
{}

/// The same of a stop: each ticket has one record or is handed back once.
pub fn stop_accounts_for_each<J: Headed>()
    ensures { (pool : PoolId) (adders : ℕ) (passes : List PassSeen) (records : List Record) (returned : List (Returned J)) → StopAccounts J.head pool adders passes records returned }
{}

/// The passes of a pool's adders, in the order in which a new pool gives them, are all of them, whatever they have added.
pub fn passes_in_order_are_all()
    ensures { (pool : PoolId) (adders : ℕ) (passes : List PassSeen) → AreNumbered pool adders passes → AreAllPasses pool adders passes }
{}

/// In all that a worker did, each take follows, behind the take before it, a look at the mark that found no stop, and for each
/// higher queue a pop that found it empty.
pub fn takes_follow_empty_looks()
    ensures { (queues : ℕ) (end : Option Ending) (steps : List Step) → Worked queues end steps → TakesFromTheHighest queues steps }
{}
