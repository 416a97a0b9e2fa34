ghost use Rattle.std.specs.Prelude.{◌≡◌};
ghost use Rattle.query_model.specs.declared.reply.Reply.TheVariants as reply;
ghost use Rattle.fan_model.specs.Places.{IsReplyAt};
ghost use Rattle.fan_model.specs.Tasks.{printer_exec};
ghost use Rattle.fan_parts.specs.Facts.{IsPlacedAnswer};

use crate::run_name::RunName;
use fan_base::ExecId;
use query_model::Reply;
use std::marker::{Model, PhantomData};

/// The answer at a place, from 0, in the order of answers, with the number of its query: the value of a reply's core and of an inner
/// core. It is never `Cancelled`. It may be dropped.
#[derive(Drop)]
pub struct PlacedReply<N: RunName> {
    place: u32,
    number: u32,
    reply: Reply,
    of: PhantomData<N>,
}

impl<N: RunName> Model for PlacedReply<N> {
    ghost use Rattle.fan_parts.specs.Facts.{IsPlacedAnswer};
    ghost use Rattle.fan_parts.specs.Seen.{PlacedSeen};

    ghost Value = { PlacedSeen };

    ghost view = { λ r. record { place = r.place; number = r.number; reply = r.reply } };

    ghost invariant = { λ r. IsPlacedAnswer N.asked r.place r.number r.reply };
}

impl<N: RunName> PlacedReply<N> {
    /// The answer at this place, of the query with this number.
    pub fn new(place: u32, number: u32, reply: Reply) -> PlacedReply<N>
        requires { IsPlacedAnswer N.asked place number reply }
        ensures { result ≡ record { place = place; number = number; reply = reply } }
    {
        PlacedReply {
            place,
            number,
            reply,
            of: PhantomData,
        }
    }

    /// Its place.
    pub fn place(&self) -> u32
        ensures { result ≡ self.now.place }
    {
        self.place
    }

    /// Its place, the number of its query, and the reply.
    pub fn into_parts(self) -> (u32, u32, Reply)
        ensures parts { result ≡ (self.place, self.number, self.reply) }
        ensures is_answer { IsPlacedAnswer N.asked result.0 result.1 result.2 }
    {
        let PlacedReply {
            place,
            number,
            reply,
            of: _,
        } = self;
        (place, number, reply)
    }
}

/// The callback of a reply's core: it is for the printer's base. It may be dropped.
#[derive(Drop)]
pub struct ReplyCallback<N: RunName> {
    exec: ExecId,
    of: PhantomData<N>,
}

impl<N: RunName> Model for ReplyCallback<N> {
    ghost use Rattle.std.specs.Prelude.{◌≡◌};
    ghost use Rattle.fan_base.specs.declared.number.ExecId.{ExecId};
    ghost use Rattle.fan_model.specs.Tasks.{printer_exec};

    ghost Value = { ExecId };

    ghost view = { λ c. c.exec };

    ghost invariant = { λ c. c.exec ≡ printer_exec N.asked.bases };
}

impl<N: RunName> ReplyCallback<N> {
    /// The callback with the executor of the printer's base.
    pub fn new(exec: ExecId) -> ReplyCallback<N>
        requires { exec ≡ printer_exec N.asked.bases }
        ensures { result ≡ exec }
    {
        ReplyCallback {
            exec,
            of: PhantomData,
        }
    }

    /// The executor of the printer's base.
    pub fn exec(&self) -> ExecId
        ensures exec { result ≡ self.now }
        ensures is_printer { result ≡ printer_exec N.asked.bases }
    {
        self.exec
    }
}

/// That the query at a place was cancelled, or was never due: it has no core. It is for the printer's base. It may be dropped.
#[derive(Drop)]
pub struct CancelledReply<N: RunName> {
    place: u32,
    number: u32,
    exec: ExecId,
    of: PhantomData<N>,
}

impl<N: RunName> Model for CancelledReply<N> {
    ghost use Rattle.std.specs.Prelude.{◌≡◌};
    ghost use Rattle.query_model.specs.declared.reply.Reply.TheVariants as reply;
    ghost use Rattle.fan_model.specs.Places.{IsReplyAt};
    ghost use Rattle.fan_model.specs.Tasks.{printer_exec};
    ghost use Rattle.fan_parts.specs.Seen.{CancelledSeen};

    ghost Value = { CancelledSeen };

    ghost view = { λ c. record { place = c.place; number = c.number; exec = c.exec } };

    ghost invariant = { λ c. IsReplyAt N.asked.lines c.place c.number reply.Cancelled × (c.exec ≡ printer_exec N.asked.bases) };
}

impl<N: RunName> CancelledReply<N> {
    /// The query with this number, at this place, for the printer's base.
    pub fn new(place: u32, number: u32, exec: ExecId) -> CancelledReply<N>
        requires reply { IsReplyAt N.asked.lines place number reply.Cancelled }
        requires exec { exec ≡ printer_exec N.asked.bases }
        ensures { result ≡ record { place = place; number = number; exec = exec } }
    {
        CancelledReply {
            place,
            number,
            exec,
            of: PhantomData,
        }
    }

    /// Its place.
    pub fn place(&self) -> u32
        ensures place { result ≡ self.now.place }
        ensures is_reply { IsReplyAt N.asked.lines self.now.place self.now.number reply.Cancelled }
    {
        self.place
    }

    /// The number of its query.
    pub fn number(&self) -> u32
        ensures { result ≡ self.now.number }
    {
        self.number
    }

    /// The executor of the printer's base.
    pub fn exec(&self) -> ExecId
        ensures exec { result ≡ self.now.exec }
        ensures is_printer { result ≡ printer_exec N.asked.bases }
    {
        self.exec
    }
}
