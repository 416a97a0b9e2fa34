//! Rows of an event base, run: the order of a round, timers, a loop until closed, the close; want of memory made good; a job that
//! schedules itself; a thread that posts and waits for an answer.
#![tactic(auto)]

#[cfg(test)]
mod again;
#[cfg(test)]
mod answers;
#[cfg(test)]
mod awake;
#[cfg(test)]
mod note;
#[cfg(test)]
mod posting;
#[cfg(test)]
mod refusals;
#[cfg(test)]
mod tests;
