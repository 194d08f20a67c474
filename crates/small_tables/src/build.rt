//! A table of rows and of pairs of jobs.

ghost use Rattle.std.specs.Prelude.{◌≡◌, IfOk, length, map};
ghost use Rattle.job_model.specs.EdgeFaults.{edges_of};
ghost use Rattle.job_model.specs.Neighbours.{JoinJobs};
ghost use Rattle.small_tables.specs.Tables.{job_of};

use job_model::{EdgeFault, Job, JobNo, JobTable, TableFault};
use std::alloc::{AllocError, Global};

/// Why rows or pairs are no table.
#[derive(Clone, Copy, PartialEq, Eq, Debug)]
pub enum NotATable {
    /// The rows break a rule.
    Rows(TableFault),
    /// The pairs break a rule.
    Pairs(EdgeFault),
}

// The job of each row.
fn jobs_of(alloc: Global, rows: &[[u64; 8]]) -> Result<Vec<Job>, AllocError>
    ensures { IfOk result (λ jobs. jobs.items ≡ map job_of rows.now) }
{
    let mut jobs = Vec::with_capacity(alloc, rows.len())?;
    for row in rows {
        jobs.push(Job::from_row(*row))?;
    }
    Ok(jobs)
}

/// The table of these rows, as a job file has them, with an edge for each pair of the numbers of two jobs:
/// (predecessor, successor). It is for tests: no clause says when it refuses.
pub fn build_table(
    alloc: Global,
    rows: &[[u64; 8]],
    pairs: &[(JobNo, JobNo)],
) -> Result<JobTable, NotATable>
    requires { JoinJobs (length rows.now) pairs.now }
    ensures { IfOk result (λ table. table ≡ record { jobs = map job_of rows.now; edges = edges_of pairs.now }) }
{
    let Ok(jobs) = jobs_of(alloc, rows) else {
        return Err(NotATable::Rows(TableFault::Memory));
    };
    match JobTable::from_rows(alloc, jobs) {
        Ok(table) => match table.with_edges(alloc, pairs) {
            Ok(table) => Ok(table),
            Err((_, fault)) => Err(NotATable::Pairs(fault)),
        },
        Err(fault) => Err(NotATable::Rows(fault)),
    }
}
