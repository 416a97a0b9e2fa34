//! A timer beside its id.

/// When a timer is due, the number that its scheduling got, and what it carries.
#[derive(Debug, Drop)]
pub struct Timed<T> {
    pub due: u64,
    pub order: u64,
    pub item: T,
}
