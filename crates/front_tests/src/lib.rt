//! Walks over texts, by a hook that notes what comes.
#![tactic(auto)]

#[cfg(test)]
mod noted;
#[cfg(test)]
mod tests;
