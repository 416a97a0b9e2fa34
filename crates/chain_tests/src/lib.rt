//! Tests of proxies, promises and futures: chains of proxies, and the worked rows of promises and futures.
#![tactic(auto)]

#[cfg(test)]
mod links;
#[cfg(test)]
mod proxies;
#[cfg(test)]
mod rows;
#[cfg(test)]
mod seen;
#[cfg(test)]
mod steps;
