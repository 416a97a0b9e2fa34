ghost use Rattle.std.specs.Prelude.{◌≡◌, IfOk};
ghost use Rattle.fan_parts.specs.Facts.{IsPartOf};

use crate::run_name::RunName;
use fan_base::Memory;
use query_parts::PartAnswer;
use std::alloc::Global;
use std::marker::{Model, PhantomData};

/// What one shard gives for one query of the run's input: the value of a task's core. It may be dropped.
///
/// It is kept in a box, so that cores, messages and desks have room for a pointer alone, however many tasks there are.
#[derive(Drop)]
pub struct Part<N: RunName> {
    body: Box<Body>,
    of: PhantomData<N>,
}

/// What is in the box.
#[derive(Drop)]
struct Body {
    number: u32,
    shard: u32,
    content: PartAnswer,
}

impl<N: RunName> Model for Part<N> {
    ghost use Rattle.fan_parts.specs.Facts.{IsPartOf};
    ghost use Rattle.fan_parts.specs.Seen.{PartSeen};

    ghost Value = { PartSeen };

    ghost view = { λ p. record { number = p.body.value.number; shard = p.body.value.shard; content = p.body.value.content } };

    ghost invariant = { λ p. IsPartOf N.asked p.body.value.number p.body.value.shard p.body.value.content };
}

impl<N: RunName> Part<N> {
    /// The part of the query with this number and of this shard. Where there is no memory for its box, the content is gone.
    pub fn new(
        alloc: Global,
        number: u32,
        shard: u32,
        content: PartAnswer,
    ) -> Result<Part<N>, Memory>
        requires { IsPartOf N.asked number shard content }
        ensures { IfOk result (λ part. part ≡ record { number = number; shard = shard; content = content }) }
    {
        let body = Body {
            number,
            shard,
            content,
        };
        match Box::new(alloc, body) {
            Ok(body) => Ok(Part {
                body,
                of: PhantomData,
            }),
            Err(_) => Err(Memory),
        }
    }

    /// The number of its query.
    pub fn number(&self) -> u32
        ensures { result ≡ self.now.number }
    {
        self.body.number
    }

    /// The number of its shard.
    pub fn shard(&self) -> u32
        ensures { result ≡ self.now.shard }
    {
        self.body.shard
    }

    /// What the shard gives.
    pub fn into_content(self) -> PartAnswer
        ensures content { result ≡ self.content }
        ensures is_part { IsPartOf N.asked self.number self.shard result }
    {
        let Part { body, of: _ } = self;
        let Body {
            number: _,
            shard: _,
            content,
        } = Box::into_inner(body);
        content
    }
}
