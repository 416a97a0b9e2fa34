ghost use Rattle.std.specs.Prelude.{◌≡◌};
ghost use Rattle.core_word.specs.Count.{raised};
ghost use Rattle.core_word.specs.declared.view.Sight.TheVariants as seen;
ghost use Rattle.fan_model.specs.Tasks.{printer_exec};

use core_word::{Key, Left, Met, Producer, Tally, halves_agree, no_producer_beside_husk};
use fan_base::{ExecId, Try};
use fan_parts::{ReplyCallback, ReplyKey, ReplyProducer, RunName, look_until_left};
use std::sync::Wait;

/// Begins the core of a reply, at the place that is its number, with the callback for the printer's base.
pub fn begin_reply<'r, 'i: 'r, N: RunName, R: Wait>(
    rt: &R,
    key: ReplyKey<'r, 'i, N>,
    place: u32,
    printer: ExecId,
    t: &mut Tally,
) -> ReplyProducer<'r, 'i, N>
    requires { printer ≡ printer_exec N.asked.bases }
    ensures core { (result.no ≡ place) × (result.sight ≡ seen.CallbackLeft) }
    ensures tally { t.new ≡ record t.old { made = raised t.old.made } }
{
    begin_awaited(rt, key, u64::from(place), ReplyCallback::new(printer), t)
}

/// Begins a core whose callback is set at once, leaves it on the consumer's side, and looks until the producer knows both.
pub fn begin_awaited<'h, T, C, P, R: Wait>(
    rt: &R,
    key: Key<'h, T, C, P>,
    no: u64,
    callback: C,
    t: &mut Tally,
) -> Producer<'h, T, C, P>
    ensures core { (result.home ≡ key.entry.home) × (result.no ≡ no) × (result.sight ≡ seen.CallbackLeft) }
    ensures tally { t.new ≡ record t.old { made = raised t.old.made } }
{
    let (mut producer, consumer) = key.start(no, t);
    let (met, left) = consumer.set_callback(callback);
    match met {
        Met::Waiting => {}
        Met::Fire(_fire) => {
            // The producer hasn't acted, so there is no result.
            look_until_left(rt, &mut producer);
            let (_landed, acted) = producer.set_result(Try::Broken);
            halves_agree(acted, left);
            unreachable!()
        }
        Met::Forward(_forward) => {
            look_until_left(rt, &mut producer);
            let (_landed, acted) = producer.set_result(Try::Broken);
            halves_agree(acted, left);
            unreachable!()
        }
    }
    match left.leave() {
        Left::First(_) => {}
        Left::Last(_leftover, husk) => {
            // The producer hasn't left.
            let (_landed, acted) = producer.set_result(Try::Broken);
            no_producer_beside_husk(acted, husk);
            unreachable!()
        }
    }
    look_until_left(rt, &mut producer);
    producer
}
