//! A job, as the row of a job file has it.

ghost use Rattle.std.specs.Prelude.{◌≡◌};
ghost use Rattle.job_model.specs.JobRow.{job_columns};

/// A job: one release of a task. Times are whole numbers of one unnamed unit, from one common origin.
#[derive(Clone, Copy, PartialEq, Eq, Debug)]
pub struct Job {
    /// The ID of its task.
    pub task: u64,
    /// Its ID among the jobs of the task.
    pub job: u64,
    /// The earliest release.
    pub rmin: u64,
    /// The latest release.
    pub rmax: u64,
    /// The least cost.
    pub cmin: u64,
    /// The greatest cost.
    pub cmax: u64,
    /// The absolute deadline.
    pub deadline: u64,
    /// The priority: the smaller number is the more urgent.
    pub priority: u64,
}

impl Job {
    /// The job of a row: task, job, earliest and latest release, least and greatest cost, deadline, priority.
    pub fn from_row(row: [u64; 8]) -> Job
        ensures { job_columns result ≡ row }
    {
        let [task, job, rmin, rmax, cmin, cmax, deadline, priority] = row;
        Job {
            task,
            job,
            rmin,
            rmax,
            cmin,
            cmax,
            deadline,
            priority,
        }
    }

    /// Its row.
    pub fn row(&self) -> [u64; 8]
        ensures { result ≡ job_columns self.now }
    {
        [
            self.task,
            self.job,
            self.rmin,
            self.rmax,
            self.cmin,
            self.cmax,
            self.deadline,
            self.priority,
        ]
    }
}
