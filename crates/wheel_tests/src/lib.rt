//! Tests of the wheel: the rows of calls that it is described by, and drawn lists of calls beside an ordered map.
#![tactic(auto)]

pub mod bounds;
#[cfg(test)]
mod drawn;
#[cfg(test)]
mod rows;
