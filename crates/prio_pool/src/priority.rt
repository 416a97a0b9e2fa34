// The rule for priorities.
ghost use Rattle.std.specs.Prelude.{◌≡◌, ◌<◌, ◌≤◌};
ghost use Rattle.prio_pool.specs.Priority.{queue_of};

/// The queue that a priority goes to, with so many queues: 0 is the middle one, and each step is one queue, as far
/// as there are queues.
pub fn queue_for(queues: u32, priority: i8) -> u32
    requires { (0 < queues) × (queues ≤ 256) }
    ensures queue { result ≡ queue_of queues priority }
    ensures within { result < queues }
{
    let middle = queues / 2;
    if priority < 0 {
        middle.saturating_sub(u32::from(priority.unsigned_abs()))
    } else {
        (middle + u32::from(priority.unsigned_abs())).min(queues - 1)
    }
}
