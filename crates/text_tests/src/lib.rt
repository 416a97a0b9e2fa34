//! Tests of the text crates: expressions beside a slow program, lines and limits, words of commands, a generated input.
#![tactic(auto)]

#[cfg(test)]
mod compare;
#[cfg(test)]
mod expr;
#[cfg(test)]
mod generation;
#[cfg(test)]
mod slow;
#[cfg(test)]
mod text;
#[cfg(test)]
mod words;
