//! A notification queue: two senders, and one receiver that has each sender's messages in its order.
ghost use Rattle.std.specs.Prelude.{◌≡◌, [], ◌∷◌, ◌++◌, IfOk};
ghost use Rattle.std.specs.Bool.{OnTrue};
ghost use Rattle.notify_queue.specs.Stamps.{messages_of};

use fan_base::Memory;
use notify_queue::{QueueEnd, Sender, SenderEnd, Stamped, queue};
use std::alloc::Global;
use std::sync::Wait;

/// What a receiver took, in the order in which it came, and the end of its queue.
#[derive(Drop)]
pub struct Heard {
    pub taken: Vec<Stamped<u64>>,
    pub end: QueueEnd<u64>,
}

// Puts two messages. `false`: there was no memory for one of them.
fn put_two<R: Wait>(rt: &R, sender: &mut Sender<u64>, messages: (u64, u64)) -> bool
    requires { sender.old.sent ≡ [] }
    ensures same { (sender.new.queue ≡ sender.old.queue) × (sender.new.number ≡ sender.old.number) }
    ensures sent { OnTrue result (sender.new.sent ≡ messages.0 ∷ messages.1 ∷ []) }
{
    sender.put(rt, messages.0).is_ok() && sender.put(rt, messages.1).is_ok()
}

/// Two senders put two messages each and end. The receiver takes up to three, and closes the queue: of each sender, what was
/// taken and then what is left is what it put, in its order.
pub fn hear_both<R: Wait>(
    rt: &R,
    alloc: Global,
    one: (u64, u64),
    other: (u64, u64),
) -> Result<Heard, Memory>
    ensures one { IfOk result (λ h. messages_of 0 h.taken.items ++ messages_of 0 h.end.rest.left ≡ one.0 ∷ one.1 ∷ []) }
    ensures other { IfOk result (λ h. messages_of 1 h.taken.items ++ messages_of 1 h.end.rest.left ≡ other.0 ∷ other.1 ∷ []) }
{
    let mut ends = Vec::with_capacity(alloc, 2)?;
    let (mut receiver, mut senders) = queue(alloc, 2)?;
    let Some(mut second) = senders.pop() else {
        unreachable!()
    };
    let Some(mut first) = senders.pop() else {
        unreachable!()
    };
    senders.destroy_empty();
    let one_put = put_two(rt, &mut first, one);
    let other_put = put_two(rt, &mut second, other);
    let taken = receiver.take_up_to(rt, 3);
    ends.push_reserved(first.end(rt));
    ends.push_reserved(second.end(rt));
    let end = receiver.close(rt, ends);
    if !one_put || !other_put {
        return Err(Memory);
    }
    Ok(Heard { taken: taken?, end })
}
