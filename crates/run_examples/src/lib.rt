//! A caller of the whole run, as short as a user would write it: the queries of a text, answered over threads into a sink.
//! `docs/LIBRARY.md` shows it. It is proved, and nothing stands on it.
#![tactic(auto)]

mod answered;
#[cfg(test)]
mod tests;

pub use answered::answer_text;
