//! Tests of the index: worked documents whose answers are known, and drawn ones beside a look at every document.
#![tactic(auto)]

#[cfg(test)]
mod documents;
#[cfg(test)]
mod drawn;
#[cfg(test)]
mod parts;
#[cfg(test)]
mod plain;
#[cfg(test)]
mod ranking;
#[cfg(test)]
mod rows;
#[cfg(test)]
mod tables;
