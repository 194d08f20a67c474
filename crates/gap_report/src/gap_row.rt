//! What the comparison of bounds and runs says of one job, and its text.

ghost use Rattle.std.specs.Prelude.{◌≡◌, IfOk};
ghost use Rattle.gap_report.specs.GapText.{gap_columns, gap_text};

use csv_numbers::write_table;
use std::alloc::{AllocError, Global};

/// The bounds on the completion time of one job, and its least and greatest finish over the runs of some trials.
/// Times are in the units of the table.
#[derive(Clone, Copy, PartialEq, Eq, Debug)]
pub struct GapRow {
    /// The ID of its task.
    pub task: u64,
    /// Its ID among the jobs of the task.
    pub job: u64,
    /// The best-case completion time.
    pub bcct: u64,
    /// The least finish of the trials.
    pub inner_lo: u64,
    /// The first trial in which the job finishes then.
    pub lo_trial: u32,
    /// The greatest finish of the trials.
    pub inner_hi: u64,
    /// The first trial in which the job finishes then.
    pub hi_trial: u32,
    /// The worst-case completion time.
    pub wcct: u64,
}

// The numbers of a row.
fn columns_of(row: &GapRow) -> [u64; 8]
    ensures { result ≡ gap_columns row.now }
{
    [
        row.task,
        row.job,
        row.bcct,
        row.inner_lo,
        u64::from(row.lo_trial),
        row.inner_hi,
        u64::from(row.hi_trial),
        row.wcct,
    ]
}

/// The text of the rows as CSV: a heading, and a line for each row.
pub fn write_gap(alloc: Global, rows: &[GapRow]) -> Result<Vec<u8>, AllocError>
    ensures { IfOk result (λ text. text.items ≡ gap_text rows.now) }
{
    let mut columns = Vec::with_capacity(alloc, rows.len())?;
    for row in rows {
        columns.push(columns_of(row))?;
    }
    let heading = [
        "Task ID",
        "Job ID",
        "BCCT",
        "Inner BCCT",
        "Best trial",
        "Inner WCCT",
        "Worst trial",
        "WCCT",
    ];
    write_table(alloc, &heading, &columns)
}
