// The passes of a queue.
use crate::rule::{Pass, Queued};
use crate::spares::{AdderBlocks, OwnBlocks};
use std::marker::Model;

/// The right to make the other passes of a queue. Contracts see its queue, how many passes there are to be in all, how many of
/// them are yet to be made, and how many adders and takers were made. It may be dropped once all are made.
#[derive(Drop)]
pub struct Maker<J> {
    pub(crate) pass: Pass<J>,
}

impl<J> Model for Maker<J> {
    ghost use Rattle.task_queue.specs.Seen.{MakerSeen};
    ghost use Rattle.task_queue.specs.Passes.{maker_of, IsMaker};

    ghost Value = { MakerSeen };

    ghost view = { λ p. maker_of p.pass };

    ghost invariant = { λ p. IsMaker p.pass };
}

/// The right to add tasks to a queue. Contracts see its queue, its number, and all that it pushed, in order.
#[derive(Drop)]
pub struct Adder<J> {
    pub(crate) pass: Pass<J>,
    pub(crate) spares: AdderBlocks<Queued<J>>,
}

impl<J> Model for Adder<J> {
    ghost use Rattle.task_queue.specs.Seen.{AdderSeen};
    ghost use Rattle.task_queue.specs.Passes.{adder_of, IsAdder};

    ghost Value = { AdderSeen };

    ghost view = { λ p. adder_of p.pass };

    ghost invariant = { λ p. IsAdder p.pass };
}

/// The right to take tasks from a queue. Contracts see its queue, its number, and all that it popped, in order, in which the
/// tickets of each adder ascend.
#[derive(Drop)]
pub struct Taker<J> {
    pub(crate) pass: Pass<J>,
    pub(crate) spares: OwnBlocks<Queued<J>>,
}

impl<J> Model for Taker<J> {
    ghost use Rattle.task_queue.specs.Seen.{TakerSeen};
    ghost use Rattle.task_queue.specs.Passes.{looked_by, IsTaker};

    ghost Value = { TakerSeen };

    ghost view = { λ p. looked_by p.pass };

    ghost invariant = { λ p. IsTaker p.pass };
}

/// Passes of a queue that were put together. Contracts see its queue, how many passes there are in all and how many were put
/// together here, and of each adder and taker among them its number and all that it pushed or popped.
#[derive(Drop)]
pub struct Gathered<J> {
    pub(crate) pass: Pass<J>,
}

impl<J> Model for Gathered<J> {
    ghost use Rattle.task_queue.specs.Seen.{GatheredSeen};
    ghost use Rattle.task_queue.specs.Passes.{gathered_of, IsGathered};

    ghost Value = { GatheredSeen };

    ghost view = { λ p. gathered_of p.pass };

    ghost invariant = { λ p. IsGathered p.pass };
}
