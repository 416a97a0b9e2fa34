//! Tests of the cells: a cell that is given out, refused and given out again.
#![tactic(auto)]

#[cfg(test)]
mod rows;
