// Where a job is handed to be run, at once or later.
ghost use Rattle.std.specs.Prelude.{◌≡◌, OnOk, IfErr};
ghost use Rattle.fan_base.specs.declared.number.ExecId.{ExecId};
ghost use Rattle.fan_base.specs.declared.refusal.Refused.TheVariants.{Memory};

use crate::job::Headed;
use fan_base::{ExecId, Refused};
use std::sync::Wait;

/// Takes jobs that chose it.
pub trait Executor<J: Headed> {
    ghost number: { Self → ExecId };

    // What an accepted job does to the executor: before, the job, after.
    ghost adds: { Self → J → Self → Type 0 };

    /// The executor's number.
    fn exec(&self) -> ExecId
        ensures { result ≡ number self.now };

    /// Takes the job, or gives it back where there is no memory for it.
    fn add<R: Wait>(&mut self, rt: &R, job: J) -> Result<(), Refused<J>>
        requires { (J.head job).exec ≡ number self.old }
        ensures ok { OnOk result (adds self.old job self.new) }
        ensures refused { IfErr result (λ r. (r ≡ Memory job) × (self.new ≡ self.old)) }
        ensures exec { number self.new ≡ number self.old };
}
