//! What an adder and a holder have done, as contracts see it. No value of these types is made.
use crate::state::Chosen;

/// What an adder has done.
pub enum AddEvent<J> {
    /// It added this job and found Empty: the job is kept.
    Kept(J),
    /// It came with this job after this was chosen: the job came back to it.
    Late(J, Chosen),
}

/// What a holder has done.
pub enum ChooseEvent<J> {
    /// It chose this and found Empty.
    First(Chosen),
    /// It chose this and found HasFunction: it got this job.
    Got(Chosen, J),
}
