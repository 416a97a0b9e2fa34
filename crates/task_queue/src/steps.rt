// The kinds of step on the queue, and what each tells.
use crate::rule::Queued;
use crate::view::View;
use crossbeam_queue::protocol::{Join, Lesson, Outcome, Split};
use job_trait::Headed;
use queue_packets::Packet;

/// The maker counts one pass more.
pub struct Count;

impl Split<View> for Count {
    ghost use Rattle.std.specs.Prelude.{◌+◌};
    ghost use Rattle.task_queue.specs.Views.{making, nobody};

    ghost left = { λ v. making (v.parts + 1) (v.whole + 1) v.adders v.takers };

    ghost right = { λ v. nobody };
}

/// The maker makes the next adder.
pub struct MakeAdder;

impl Split<View> for MakeAdder {
    ghost use Rattle.std.specs.Prelude.{◌+◌, ◌-◌, []};
    ghost use Rattle.task_queue.specs.Views.{making, adding};

    ghost left = { λ v. making (v.parts - 1) v.whole (v.adders + 1) v.takers };

    ghost right = { λ v. adding v.whole v.adders [] };
}

/// The maker makes the next taker.
pub struct MakeTaker;

impl Split<View> for MakeTaker {
    ghost use Rattle.std.specs.Prelude.{◌+◌, ◌-◌, []};
    ghost use Rattle.task_queue.specs.Views.{making, taking};

    ghost left = { λ v. making (v.parts - 1) v.whole v.adders (v.takers + 1) };

    ghost right = { λ v. taking v.whole v.takers [] };
}

/// An adder pushes a task.
pub struct Push;

impl<J: Headed> Outcome<Packet<Queued<J>>, View> for Push {
    ghost use Rattle.std.specs.Prelude.{◌≡◌, ◌++◌, ◌∷◌, []};
    ghost use Rattle.task_queue.specs.Views.{adding, entry_of};

    ghost then = { λ v x w. w ≡ adding v.whole v.number (v.pushed ++ entry_of J.head x ∷ []) };
}

/// A taker, or the gathered pass that is whole, pops a task or finds none.
pub struct Pop;

impl<J: Headed> Outcome<Packet<Queued<J>>, View> for Pop {
    ghost use Rattle.task_queue.specs.Steps.{Took};

    ghost then = { Took J.head };
}

impl<J: Headed> Lesson<Packet<Queued<J>>, View> for Pop {
    ghost use Rattle.task_queue.specs.Steps.{Shows};

    ghost fact = { Shows J.head };
}

/// An adder becomes a gathered pass.
pub struct Gather;

impl Split<View> for Gather {
    ghost use Rattle.std.specs.Prelude.{[], ◌∷◌};
    ghost use Rattle.task_queue.specs.Views.{gathered, share, nobody};

    ghost left = { λ v. gathered 1 v.whole (share v.number v.pushed ∷ []) [] [] };

    ghost right = { λ v. nobody };
}

/// An adder is put to a gathered pass.
pub struct PutAdder;

impl Join<View> for PutAdder {
    ghost use Rattle.std.specs.Prelude.{◌+◌, ◌++◌, ◌∷◌, []};
    ghost use Rattle.task_queue.specs.Views.{gathered, share, nobody};

    ghost both = { λ v w. gathered (v.parts + 1) v.whole (v.added ++ share w.number w.pushed ∷ []) v.taken [] };

    ghost spent = { nobody };
}

/// A taker is put to a gathered pass.
pub struct PutTaker;

impl Join<View> for PutTaker {
    ghost use Rattle.std.specs.Prelude.{◌+◌, ◌++◌, ◌∷◌, []};
    ghost use Rattle.task_queue.specs.Views.{gathered, share, nobody};

    ghost both = { λ v w. gathered (v.parts + 1) v.whole v.added (v.taken ++ share w.number w.popped ∷ []) [] };

    ghost spent = { nobody };
}
