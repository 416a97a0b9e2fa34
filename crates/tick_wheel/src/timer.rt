/// A timer: the tick at which it is due, its id, and what it carries.
#[derive(Debug, PartialEq, Eq, Drop)]
pub struct Timer<T> {
    pub due: u64,
    pub id: u64,
    pub item: T,
}

/// Why nothing was scheduled. Each hands back what was to be carried.
#[derive(Debug, PartialEq, Eq, Drop)]
pub enum ScheduleFault<T> {
    /// The delay is 0.
    ZeroDelay(T),
    /// The delay is above 4,294,967,295 ticks.
    DelayTooLong(T),
    /// There is no memory.
    Memory(T),
}
