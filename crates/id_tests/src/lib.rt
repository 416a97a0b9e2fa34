//! Tests of the table of ids: rows of calls with their answers, and drawn calls beside std's ordered map.
#![tactic(auto)]

#[cfg(test)]
mod drawn;
#[cfg(test)]
mod rows;
#[cfg(test)]
mod spent;
