ghost use Rattle.std.specs.Prelude.{◌≡◌};
ghost use Rattle.fan_parts.specs.Facts.{IsEnd, IsTaskCallback};

use crate::ask::NumberedAsk;
use crate::part::Part;
use crate::reply::{PlacedReply, ReplyCallback};
use crate::run_name::RunName;
use collect_ops::OwnedDesk;
use core_proxy::NoProxy;
use core_word::{Consumer, Fire, Home, Key, Producer};
use fan_base::ExecId;
use std::marker::{Model, PhantomData};

/// A reply with its callback, of a reply's core or of an inner core.
pub type ReplyFire<N> = Fire<PlacedReply<N>, ReplyCallback<N>>;

/// The memory of an inner core, which the reply's core of a `top` is forwarded to.
pub type InnerHome<N> = Home<PlacedReply<N>, ReplyCallback<N>, NoProxy>;

/// The key of an inner core's home, with which the core is begun.
pub type InnerKey<'i, N> = Key<'i, PlacedReply<N>, ReplyCallback<N>, NoProxy>;

/// The half of an inner core that sets the reply once it is scored.
pub type InnerProducer<'i, N> = Producer<'i, PlacedReply<N>, ReplyCallback<N>, NoProxy>;

/// The half of an inner core that gets the reply's callback. It is what a reply's core is forwarded to.
pub type InnerConsumer<'i, N> = Consumer<'i, PlacedReply<N>, ReplyCallback<N>, NoProxy>;

/// The memory of a reply's core.
pub type ReplyHome<'i, N> = Home<PlacedReply<N>, ReplyCallback<N>, InnerConsumer<'i, N>>;

/// The key of the home of a reply's core, with which the core is begun.
pub type ReplyKey<'r, 'i, N> = Key<'r, PlacedReply<N>, ReplyCallback<N>, InnerConsumer<'i, N>>;

/// The half of a reply's core that sets the reply, or names the inner core.
pub type ReplyProducer<'r, 'i, N> = Producer<
    'r,
    PlacedReply<N>,
    ReplyCallback<N>,
    InnerConsumer<'i, N>,
>;

/// The half of a reply's core that sets the callback, by which the reply goes to the printer.
pub type ReplyConsumer<'r, 'i, N> = Consumer<
    'r,
    PlacedReply<N>,
    ReplyCallback<N>,
    InnerConsumer<'i, N>,
>;

/// The desk at which the parts of a query are gathered, with all its arrivals.
pub type PartDesk<'r, 'i, N> = OwnedDesk<Part<N>, End<'r, 'i, N>>;

/// A part with its callback, of a task's core.
pub type TaskFire<N> = Fire<Part<N>, PartCallback<N>>;

/// The memory of a task's core.
pub type TaskHome<N> = Home<Part<N>, PartCallback<N>, NoProxy>;

/// The key of the home of a task's core, with which the core is begun.
pub type TaskKey<'t, N> = Key<'t, Part<N>, PartCallback<N>, NoProxy>;

/// The half of a task's core that sets the part. The task holds it.
pub type TaskProducer<'t, N> = Producer<'t, Part<N>, PartCallback<N>, NoProxy>;

/// The half of a task's core that sets the callback, by which the part goes to its gathering base. The front holds it.
pub type TaskConsumer<'t, N> = Consumer<'t, Part<N>, PartCallback<N>, NoProxy>;

/// What the last arrival at a query's desk gets: the producer of the reply's core, whose callback is set and whose consumer has left;
/// the query and the place of its reply; and for `top` the key of the inner core. It must be spent.
pub struct End<'r, 'i, N: RunName> {
    reply: ReplyProducer<'r, 'i, N>,
    ask: NumberedAsk<'i, N>,
    place: u32,
    inner: Option<InnerKey<'i, N>>,
}

impl<'r, 'i, N: RunName> Model for End<'r, 'i, N> {
    ghost use Rattle.fan_parts.specs.Facts.{IsEnd};
    ghost use Rattle.fan_parts.specs.Seen.{EndSeen};

    ghost Value = { EndSeen };

    ghost view = { λ e. record { reply = e.reply; ask = e.ask; place = e.place; inner = e.inner } };

    ghost invariant = { λ e. IsEnd N.asked (record { reply = e.reply; ask = e.ask; place = e.place; inner = e.inner }) };

    ghost use Rattle.query_grammar.specs.contracts.expr.Expr as expr;
    ghost use Rattle.std.specs.Coded.{codes};

    ghost coded = { Prim.hlevel (codes, expr.the_row.coded) };
}

impl<'r, 'i, N: RunName> End<'r, 'i, N> {
    /// The end of this query's desk.
    pub fn new(
        reply: ReplyProducer<'r, 'i, N>,
        ask: NumberedAsk<'i, N>,
        place: u32,
        inner: Option<InnerKey<'i, N>>,
    ) -> End<'r, 'i, N>
        requires { IsEnd N.asked (record { reply = reply; ask = ask; place = place; inner = inner }) }
        ensures { result ≡ record { reply = reply.entry; ask = ask.entry; place = place; inner = inner.entry } }
    {
        End {
            reply,
            ask,
            place,
            inner,
        }
    }

    /// The number of its query.
    pub fn number(&self) -> u32
        ensures { result ≡ self.now.ask.number }
    {
        self.ask.number()
    }

    /// The producer of the reply's core, the query, the place of its reply, and the inner key.
    pub fn into_parts(
        self,
    ) -> (
        ReplyProducer<'r, 'i, N>,
        NumberedAsk<'i, N>,
        u32,
        Option<InnerKey<'i, N>>,
    )
        ensures parts { self.entry ≡ record { reply = result.0; ask = result.1; place = result.2; inner = result.3 } }
        ensures is_end { IsEnd N.asked self.entry }
    {
        let End {
            reply,
            ask,
            place,
            inner,
        } = self;
        (reply, ask, place, inner)
    }
}

/// The callback of a task's core: the part is for its query's desk, on the base with this executor. It may be dropped.
#[derive(Drop)]
pub struct PartCallback<N: RunName> {
    number: u32,
    shard: u32,
    exec: ExecId,
    of: PhantomData<N>,
}

impl<N: RunName> Model for PartCallback<N> {
    ghost use Rattle.fan_parts.specs.Facts.{IsTaskCallback};
    ghost use Rattle.fan_parts.specs.Seen.{CallbackSeen};

    ghost Value = { CallbackSeen };

    ghost view = { λ c. record { number = c.number; shard = c.shard; exec = c.exec } };

    ghost invariant = { λ c. IsTaskCallback N.asked (record { number = c.number; shard = c.shard; exec = c.exec }) };
}

impl<N: RunName> PartCallback<N> {
    /// The callback of the task of this query and this shard.
    pub fn new(number: u32, shard: u32, exec: ExecId) -> PartCallback<N>
        requires { IsTaskCallback N.asked (record { number = number; shard = shard; exec = exec }) }
        ensures { result ≡ record { number = number; shard = shard; exec = exec } }
    {
        PartCallback {
            number,
            shard,
            exec,
            of: PhantomData,
        }
    }

    /// The number of its query.
    pub fn number(&self) -> u32
        ensures number { result ≡ self.now.number }
        ensures is_callback { IsTaskCallback N.asked self.now }
    {
        self.number
    }

    /// Its shard.
    pub fn shard(&self) -> u32
        ensures { result ≡ self.now.shard }
    {
        self.shard
    }

    /// The executor of the base on which its query is gathered.
    pub fn exec(&self) -> ExecId
        ensures exec { result ≡ self.now.exec }
        ensures is_callback { IsTaskCallback N.asked self.now }
    {
        self.exec
    }
}
