//! Periodic tasks, and what makes their jobs urgent.

ghost use Rattle.std.specs.Prelude.{◌≡◌};
ghost use Rattle.task_unroll.specs.TaskRows.{task_columns};

/// A task that releases a job every period. Times are whole numbers of one unnamed unit, from one common origin.
#[derive(Clone, Copy, PartialEq, Eq, Debug)]
pub struct Task {
    /// Its ID.
    pub task: u64,
    /// The time from one earliest release to the next.
    pub period: u64,
    /// The earliest release of its first job.
    pub offset: u64,
    /// How much later than that a job may be released.
    pub jitter: u64,
    /// The least cost of a job.
    pub cmin: u64,
    /// The greatest cost of a job.
    pub cmax: u64,
    /// The deadline of a job, from its earliest release.
    pub deadline: u64,
}

impl Task {
    /// The task of a row: task, period, offset, jitter, least and greatest cost, relative deadline.
    pub fn from_row(row: [u64; 7]) -> Task
        ensures { task_columns result ≡ row }
    {
        let [task, period, offset, jitter, cmin, cmax, deadline] = row;
        Task {
            task,
            period,
            offset,
            jitter,
            cmin,
            cmax,
            deadline,
        }
    }
}

/// What makes a job urgent: the smaller of these is its priority.
#[derive(Clone, Copy, PartialEq, Eq, Debug)]
pub enum Policy {
    /// The period of its task.
    Rate,
    /// The relative deadline of its task.
    Deadline,
    /// Its own absolute deadline.
    Edf,
}
