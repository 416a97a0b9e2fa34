ghost use Rattle.std.specs.Prelude.{◌≡◌, ◌<◌, [], OnOk, IfErr, length};
ghost use Rattle.notify_queue.specs.Ends.{with_put};
ghost use Rattle.std.specs.List.{All};

use fan_base::{ExecId, Refused};
use job_trait::Headed;
use notify_queue::{Sender, SenderEnd};
use std::marker::Model;
use std::sync::Wait;

// The most messages of one poster, which its stamps can number.
const MOST_POSTS: u64 = 4_294_967_295;

/// One that posts jobs to a base, all with that base's executor. It must be spent by `end`.
pub struct BasePoster<J: Headed> {
    poster: Sender<J>,
    exec: ExecId,
}

impl<J: Headed> Model for BasePoster<J> {
    ghost use Rattle.std.specs.Prelude.{◌≡◌};
    ghost use Rattle.std.specs.List.{All};
    ghost use Rattle.fan_parts.specs.Seen.{PosterSeen};

    ghost Value = { PosterSeen J };

    ghost view = { λ p. record { sender = p.poster; exec = p.exec } };

    ghost invariant = { λ p. All (λ job. (J.head job).exec ≡ p.exec) p.poster.sent };
}

impl<J: Headed> BasePoster<J> {
    /// A poster that has put nothing, to the base with this executor.
    pub fn new(poster: Sender<J>, exec: ExecId) -> BasePoster<J>
        requires { poster.sent ≡ [] }
        ensures { result ≡ record { sender = poster; exec = exec } }
    {
        BasePoster { poster, exec }
    }

    /// The base's executor.
    pub fn exec(&self) -> ExecId
        ensures { result ≡ self.now.exec }
    {
        self.exec
    }

    /// How many jobs it has put.
    pub fn puts(&self) -> u64
        ensures { result ≡ length self.now.sender.sent }
    {
        self.poster.puts()
    }

    /// Posts the job, which has the base's executor. It gives the job back, and changes nothing, where there is no memory; so also
    /// once it has put 4,294,967,295 jobs.
    pub fn post<R: Wait>(&mut self, rt: &R, job: J) -> Result<(), Refused<J>>
        requires { (J.head job).exec ≡ self.old.exec }
        ensures ok { OnOk result (self.new ≡ record { sender = with_put self.old.sender job; exec = self.old.exec }) }
        ensures refused { IfErr result (λ back. (back ≡ Refused.Memory job) × (self.new ≡ self.old)) }
    {
        if self.poster.puts() >= MOST_POSTS {
            return Err(Refused::Memory(job));
        }
        match self.poster.put(rt, job) {
            Ok(_stamp) => Ok(()),
            Err(back) => Err(back),
        }
    }

    /// Ends it. The answer is for the base's close.
    pub fn end<R: Wait>(self, rt: &R) -> SenderEnd<J>
        ensures end { result ≡ self.sender }
        ensures on_base { All (λ job. (J.head job).exec ≡ self.exec) result.sent }
    {
        let BasePoster { poster, exec: _ } = self;
        poster.end(rt)
    }
}
