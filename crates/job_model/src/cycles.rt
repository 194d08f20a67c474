//! Whether precedence edges hold a cycle, and which row closes the first.

ghost use Rattle.std.specs.Prelude.{◌≡◌, ◌<◌, ◌↔◌, IfOk, IsTrue, MatchOption, length};
ghost use Rattle.job_model.specs.Cycles.{HoldsCycle, IsFirstClosing};
ghost use Rattle.job_model.specs.Neighbours.{JoinJobs};

use crate::JobNo;
use crate::edges::Edges;
use crate::walk_back::{Mark, walks_into_cycle};
use std::alloc::{AllocError, Global};

/// Whether the edges, which join jobs below that number, hold a cycle.
pub(crate) fn hold_cycle(alloc: Global, jobs: u16, edges: &Edges) -> Result<bool, AllocError>
    requires { JoinJobs jobs edges.now }
    ensures { IfOk result (λ holds. IsTrue holds ↔ HoldsCycle edges.now) }
{
    let mut marks = vec![in alloc; Mark::Unseen; usize::from(jobs)]?;
    let mut path = Vec::with_capacity(alloc, usize::from(jobs))?;
    for job in 0..jobs {
        if walks_into_cycle(edges, JobNo(job), &mut marks, &mut path)? {
            return Ok(true);
        }
    }
    Ok(false)
}

// The same of rows.
fn rows_hold_cycle(alloc: Global, jobs: u16, rows: &[(JobNo, JobNo)]) -> Result<bool, AllocError>
    requires { JoinJobs jobs rows.now }
    ensures { IfOk result (λ holds. IsTrue holds ↔ HoldsCycle rows.now) }
{
    let edges = Edges::of(alloc, jobs, rows.to_vec(alloc)?)?;
    hold_cycle(alloc, jobs, &edges)
}

/// The place of the first row that closes a cycle with those before it.
pub fn first_closing(
    alloc: Global,
    jobs: u16,
    rows: &[(JobNo, JobNo)],
) -> Result<Option<usize>, AllocError>
    requires { JoinJobs jobs rows.now }
    ensures { IfOk result (λ place. MatchOption place (¬ HoldsCycle rows.now) (IsFirstClosing rows.now)) }
{
    if !rows_hold_cycle(alloc, jobs, rows)? {
        return Ok(None);
    }
    let mut without = 0;
    let mut with = rows.len();
    while with - without > 1 {
        let middle = without + (with - without) / 2;
        if rows_hold_cycle(alloc, jobs, &rows[..middle])? {
            with = middle;
        } else {
            without = middle;
        }
    }
    Ok(Some(without))
}
