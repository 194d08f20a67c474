//! What a report says of one job.

/// What a report says of one job. Times are in the units of the table.
#[derive(Clone, Copy, PartialEq, Eq, Debug)]
pub struct ReportRow {
    /// The ID of its task.
    pub task: u64,
    /// Its ID among the jobs of the task.
    pub job: u64,
    /// The best-case completion time.
    pub bcct: u64,
    /// The worst-case completion time.
    pub wcct: u64,
    /// The best-case response time: the completion time less the earliest release, or 0.
    pub bcrt: u64,
    /// The worst-case response time.
    pub wcrt: u64,
}
