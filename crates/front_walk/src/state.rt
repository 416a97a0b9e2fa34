use query_timers::QueryTimers;

/// What a walk keeps from line to line.
pub(crate) struct WalkState<'h> {
    // The queries that wait.
    pub(crate) timers: QueryTimers<'h>,
    // How many documents there were so far.
    pub(crate) documents: u32,
    // The place of what comes next.
    pub(crate) place: u64,
}
