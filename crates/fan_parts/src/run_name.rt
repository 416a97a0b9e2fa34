use std::marker::Brand;

/// Which run it is: what it was asked to do. No value of it is made. The call that begins a run picks it, and every fact about that
/// run's input is one about `asked`.
pub trait RunName {
    ghost use Rattle.fan_model.specs.Report.{Asking};

    ghost asked: { Asking };
}

impl RunName for Brand {
    ghost use Rattle.std.specs.Prelude.{[], None};

    ghost asked = { record { lines = []; shards = 1; workers = 1; bases = 1; stop_at = None } };
}
