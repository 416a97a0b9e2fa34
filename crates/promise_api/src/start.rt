//! Where a promise and its future begin.
ghost use Rattle.std.specs.Prelude.{◌≡◌};
ghost use Rattle.core_word.specs.Count.{raised};
ghost use Rattle.promise_api.specs.Seen.{producer_of, consumer_of};

use crate::future::Future;
use crate::promises::Promise;
use core_word::{Consumer, Key, Producer, Tally};
use fan_base::ExecId;

/// Begins a core with this number. The future's next continuation is for this executor.
pub fn promise<'h, T, C, P>(
    key: Key<'h, T, C, P>,
    no: u64,
    exec: ExecId,
    t: &mut Tally,
) -> (Promise<'h, T, C, P>, Future<'h, T, C, P>)
    ensures promise { result.0 ≡ producer_of key.entry no }
    ensures future { result.1 ≡ record { core = consumer_of key.entry no; exec = exec } }
    ensures tally { t.new ≡ record t.old { made = raised t.old.made } }
{
    let (producer, consumer) = key.start(no, t);
    (Promise::new(producer), Future::new(consumer, exec))
}

/// The promise and the future of a core that was begun already. This does no step.
pub fn promise_of<'h, T, C, P>(
    producer: Producer<'h, T, C, P>,
    consumer: Consumer<'h, T, C, P>,
    exec: ExecId,
) -> (Promise<'h, T, C, P>, Future<'h, T, C, P>)
    requires { (producer.home ≡ consumer.home) × (producer.use_number ≡ consumer.use_number) }
    ensures promise { result.0 ≡ producer.entry }
    ensures future { result.1 ≡ record { core = consumer.entry; exec = exec } }
{
    (Promise::new(producer), Future::new(consumer, exec))
}
