//! How a queue is made.
ghost use Rattle.std.specs.Prelude.{◌≡◌, ◌≤◌, [], IfOk, OnOk};
ghost use Rattle.std.specs.Arc.{arc_value};
ghost use Rattle.notify_queue.specs.Delivery.{receiving};
ghost use Rattle.notify_queue.specs.Ends.{AreAllUnused, AreNewSenders, new_receiver};
ghost use Rattle.notify_queue.specs.Marks.{IsFirstSeatOf};
ghost use Rattle.notify_queue.specs.Passes.{IsFirstPassOf, known_by};

use crate::channel::Channel;
use crate::delivery::Pass;
use crate::marks::MarkSeat;
use crate::receiver::{Receiver, no_counts};
use crate::sender::{Sender, abandon_all};
use fan_base::Memory;
use std::alloc::Global;
use std::sync::Arc;

/// A queue of 1 to 64 senders, which have the numbers from 0 on. `Memory` comes where there is none for the queue, its marks,
/// its parker, its counts or the list of senders.
pub fn queue<M>(alloc: Global, senders: u32) -> Result<(Receiver<M>, Vec<Sender<M>>), Memory>
    requires some { 1 ≤ senders }
    requires few { senders ≤ 64 }
    ensures receiver { IfOk result (λ q. q.0 ≡ new_receiver q.0.queue senders) }
    ensures unused { IfOk result (λ q. AreAllUnused q.0 q.1.items) }
    ensures senders { IfOk result (λ q. AreNewSenders q.0.queue senders q.1.items) }
{
    let counts = no_counts(alloc, senders)?;
    let (channel, mut pass, mut seat, parker) = Channel::open(alloc, senders)?;
    let channel = Arc::new(alloc, channel).map_err(|_| Memory)?;
    let made = senders_of(alloc, &channel, senders, &mut pass, &mut seat)?;
    let receiver = Receiver::new(alloc, channel, pass, seat, parker, senders, counts);
    Ok((receiver, made))
}

fn senders_of<M>(
    alloc: Global,
    channel: &Arc<Channel<M>, Global>,
    senders: u32,
    pass: &mut Pass<M>,
    seat: &mut MarkSeat<M>,
) -> Result<Vec<Sender<M>>, Memory>
    requires few { senders ≤ 64 }
    requires pass { IsFirstPassOf (arc_value channel.now).line pass.old × (known_by pass.old ≡ receiving 0 [] []) }
    requires seat { IsFirstSeatOf (arc_value channel.now).marks.shared.table_id (arc_value channel.now).line 0 seat.old }
    requires slots { seat.old.table_id.slots ≡ senders }
    ensures made { IfOk result (λ made. AreNewSenders (record { line = (arc_value channel.now).line }) senders made.items) }
    ensures pass { OnOk result (IsFirstPassOf (arc_value channel.now).line pass.new × (known_by pass.new ≡ receiving senders [] [])) }
    ensures seat { OnOk result (IsFirstSeatOf seat.old.table_id (arc_value channel.now).line senders seat.new) }
{
    let mut made = Vec::with_capacity(alloc, senders as usize)?;
    for number in 0..senders {
        match Sender::another(channel, alloc, number, pass, seat) {
            Ok(sender) => made.push_reserved(sender),
            Err(memory) => {
                abandon_all(made);
                return Err(memory);
            }
        }
    }
    Ok(made)
}
