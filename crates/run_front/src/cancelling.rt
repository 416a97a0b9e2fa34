ghost use Rattle.std.specs.Prelude.{◌≡◌, ◌++◌, ◌∷◌, [], OnErr, OnOk};
ghost use Rattle.query_opening.specs.Turns.{IsCancelled};
ghost use Rattle.run_tasks.specs.Worlds.{told_of};
ghost use Rattle.run_front.specs.Fronts.{IsFrontOf};
ghost use Rattle.run_front.specs.Posted.{cancelled_job};

use crate::front::Front;
use core_word::Tally;
use fan_base::{ExecId, Memory, Refused};
use fan_parts::{PrintJob, RunName, spend_print_job};
use query_opening::cancelled_reply;
use std::sync::Wait;

/// Posts the reply of a query that is cancelled at a place. Where that finds no memory, the reply is dropped.
pub(crate) fn cancel_query<'c, 't, 'i: 't, N: RunName + 'static, R: Wait>(
    rt: &R,
    front: &mut Front<'c, 't, 'i, N>,
    place: u32,
    number: u32,
) -> Result<(), Memory>
    requires cancelled { IsCancelled N.asked place number }
    requires front { IsFrontOf N.asked front.old }
    ensures front { IsFrontOf N.asked front.new }
    ensures printer { told_of front.new.printer ≡ told_of front.old.printer }
    ensures posted { OnOk result (front.new.printer.sender.sent ≡ front.old.printer.sender.sent ++ cancelled_job N.asked place number ∷ []) }
    ensures unposted { OnErr result (front.new.printer ≡ front.old.printer) }
    ensures world { front.new.world ≡ front.old.world }
{
    let reply = cancelled_reply::<N>(place, number, ExecId(front.bases + 1));
    match front.printer.post(rt, PrintJob::Cancelled(reply)) {
        Ok(()) => Ok(()),
        Err(Refused::Memory(job)) => {
            spend_print_job(job, &mut Tally::new());
            Err(Memory)
        }
    }
}
