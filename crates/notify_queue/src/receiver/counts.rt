//! How many messages were taken of each sender.
ghost use Rattle.std.specs.Prelude.{◌≡◌, ℕ, ◌+◌, ◌^◌, ◌<◌, length, slice_index, slice_set, replicate, IfOk};
ghost use Rattle.std.specs.List.{All};
ghost use Rattle.notify_queue.specs.Stamps.{messages_of};

use crate::stamp::Stamped;
use fan_base::Memory;
use std::alloc::Global;

/// A count of 0 for each sender.
pub(crate) fn no_counts(alloc: Global, senders: u32) -> Result<Vec<u64>, Memory>
    ensures { IfOk result (λ counts. counts.items ≡ replicate senders 0) }
{
    let mut counts = Vec::with_capacity(alloc, senders as usize)?;
    for _ in 0..senders {
        counts.push_reserved(0);
    }
    Ok(counts)
}

/// One message of a sender more.
pub(crate) fn count_one(counts: &mut Vec<u64>, sender: u32)
    requires sender { sender < length counts.old.items }
    requires room { slice_index counts.old.items sender < 2 ^ 63 }
    ensures { counts.new.items ≡ slice_set counts.old.items sender (slice_index counts.old.items sender + 1) }
{
    counts[sender as usize] += 1;
}

/// So many messages more, each of its sender.
pub(crate) fn count_all<M>(counts: &mut Vec<u64>, messages: &[Stamped<M>])
    requires senders { All (λ x. x.stamp.sender < length counts.old.items) messages.now }
    requires room { (sender : ℕ) → sender < length counts.old.items → slice_index counts.old.items sender + length messages.now < 2 ^ 63 }
    ensures length { length counts.new.items ≡ length counts.old.items }
    ensures counts { (sender : ℕ) → sender < length counts.old.items
        → slice_index counts.new.items sender ≡ slice_index counts.old.items sender + length (messages_of sender messages.now) }
{
    for place in 0..messages.len() {
        count_one(counts, messages[place].stamp.sender);
    }
}
