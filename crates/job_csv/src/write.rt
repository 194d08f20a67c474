//! Writing job files.

ghost use Rattle.std.specs.Prelude.{◌≡◌, IfOk};
ghost use Rattle.job_csv.specs.Jobs.{JobRows};
ghost use Rattle.job_csv.specs.JobsText.{jobs_text};

use csv_numbers::write_table;
use job_model::{JobNo, JobTable};
use std::alloc::{AllocError, Global};

// The words of the first line.
const HEADING: [&str; 8] = [
    "Task ID",
    "Job ID",
    "Arrival min",
    "Arrival max",
    "Cost min",
    "Cost max",
    "Deadline",
    "Priority",
];

/// The CSV text of a job table: the heading that names the columns, and a row for each job by its number.
///
/// Precedence edges are no part of it.
pub fn write_jobs(alloc: Global, table: &JobTable) -> Result<Vec<u8>, AllocError>
    ensures text { IfOk result (λ text. text.items ≡ jobs_text table.now) }
    ensures reads { IfOk result (λ text. JobRows text.items table.now.jobs) }
{
    let count = table.len();
    let mut rows = Vec::with_capacity(alloc, usize::from(count))?;
    for no in 0..count {
        rows.push(table.job(JobNo(no)).row())?;
    }
    write_table(alloc, &HEADING, &rows)
}
