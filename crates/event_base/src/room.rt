// Queues of callbacks, two of which can always be put together without memory.
ghost use Rattle.std.specs.Prelude.{◌≡◌, ◌+◌, ◌≤◌, ◌++◌, ◌∷◌, [], OnOk, OnErr, IfErr};
ghost use Rattle.std.specs.VecDeque.{deque_len, deque_capacity};
ghost use Rattle.fan_base.specs.declared.refusal.Refused.TheVariants.{Memory};

use fan_base::Refused;
use std::collections::VecDeque;

// Puts a job behind the others, with room in the queue for so many more.
pub(crate) fn push_with_room<J>(
    queue: &mut VecDeque<J>,
    job: J,
    more: usize,
) -> Result<(), Refused<J>>
    requires { deque_len queue.old + more ≤ deque_capacity queue.old }
    ensures ok { OnOk result (queue.new.items ≡ queue.old.items ++ job ∷ []) }
    ensures refused { IfErr result (λ back. (back ≡ Memory job) × (queue.new.items ≡ queue.old.items)) }
    ensures room { deque_len queue.new + more ≤ deque_capacity queue.new }
{
    queue.push_back(job)?;
    match queue.reserve(more) {
        Ok(()) => Ok(()),
        Err(_) => {
            let Some(job) = queue.pop_back() else {
                unreachable!()
            };
            Err(Refused::Memory(job))
        }
    }
}

// Puts a job behind the others, with room for all of them behind another queue.
pub(crate) fn push_behind<J>(
    queue: &mut VecDeque<J>,
    job: J,
    ahead: &mut VecDeque<J>,
) -> Result<(), Refused<J>>
    requires { deque_len ahead.old + deque_len queue.old ≤ deque_capacity ahead.old }
    ensures ok { OnOk result (queue.new.items ≡ queue.old.items ++ job ∷ []) }
    ensures refused { IfErr result (λ back. (back ≡ Memory job) × (queue.new.items ≡ queue.old.items)) }
    ensures ahead { ahead.new.items ≡ ahead.old.items }
    ensures room { deque_len ahead.new + deque_len queue.new ≤ deque_capacity ahead.new }
{
    queue.push_back(job)?;
    match ahead.reserve(queue.len()) {
        Ok(()) => Ok(()),
        Err(_) => {
            let Some(job) = queue.pop_back() else {
                unreachable!()
            };
            Err(Refused::Memory(job))
        }
    }
}

// Moves all jobs of a queue behind those of another, which has room for them.
pub(crate) fn join_queues<J>(ahead: &mut VecDeque<J>, queue: &mut VecDeque<J>)
    requires { deque_len ahead.old + deque_len queue.old ≤ deque_capacity ahead.old }
    ensures all { ahead.new.items ≡ ahead.old.items ++ queue.old.items }
    ensures empty { queue.new.items ≡ [] }
    ensures room { deque_len ahead.new + deque_len queue.new ≤ deque_capacity ahead.new }
{
    while let Some(job) = queue.pop_front() {
        ahead.push_back_reserved(job);
    }
}
