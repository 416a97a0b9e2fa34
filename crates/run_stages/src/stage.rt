use std::sync::Wait;

/// What one thread of a run does, on what it owns and on what it shares with others. It is run once.
pub trait Stage<X> {
    // What it has to be, beside what is shared, and what a run makes of it.
    ghost ready: { X → Self → Type 0 };

    ghost ran: { X → Self → Self → Type 0 };

    /// Does the work of the stage. It may wait for earlier stages.
    fn run<R: Wait>(&mut self, rt: &R, shared: &X)
        requires { ready shared.now self.old }
        ensures { ran shared.now self.old self.new };
}
