//! Precedence rows: judged, and turned into edges.

ghost use Rattle.std.specs.Prelude.{◌≡◌, ◌≢◌, ◌≤◌, IfErr, IfOk, OnOk, length};
ghost use Rattle.job_model.specs.EdgeFaults.{FirstEdgeFault, KeepEdgeRules, edges_of};
ghost use Rattle.job_model.specs.Neighbours.{JoinJobs};
ghost use Rattle.job_model.specs.declared.limits.TheConstants.{MOST_EDGES};

use crate::cycles::{first_closing, hold_cycle};
use crate::edges::Edges;
use crate::{EdgeFault, JobNo, MOST_EDGES};
use std::alloc::{AllocError, Global};
use std::collections::BTreeSet;

// Whether the rows, which are not too many and join jobs below that number, keep the rules.
fn check_rows(alloc: Global, jobs: u16, rows: &[(JobNo, JobNo)]) -> Result<(), EdgeFault>
    requires joined { JoinJobs jobs rows.now }
    requires few { length rows.now ≤ MOST_EDGES }
    ensures kept { OnOk result (KeepEdgeRules rows.now) }
    ensures fault { IfErr result (FirstEdgeFault rows.now) }
{
    let Ok(closing) = first_closing(alloc, jobs, rows) else {
        return Err(EdgeFault::Memory);
    };
    let Some(place) = closing else {
        return Ok(());
    };
    let row = place as u32 + 1;
    let (before, after) = rows[place];
    if before == after {
        return Err(EdgeFault::SelfEdge(row));
    }
    Err(EdgeFault::Cycle(row))
}

// The distinct edges of the rows, rising.
fn distinct(alloc: Global, rows: &[(JobNo, JobNo)]) -> Result<Vec<(JobNo, JobNo)>, AllocError>
    ensures { IfOk result (λ edges. edges.items ≡ edges_of rows.now) }
{
    let mut edges = BTreeSet::new(alloc);
    for row in rows {
        edges.insert(*row)?;
    }
    edges.into_iter().collect(alloc)
}

/// The edges of the rows, which join jobs below that number.
pub fn edges_of_rows(alloc: Global, jobs: u16, rows: &[(JobNo, JobNo)]) -> Result<Edges, EdgeFault>
    requires { JoinJobs jobs rows.now }
    ensures edges { IfOk result (λ edges. edges ≡ edges_of rows.now) }
    ensures kept { OnOk result (KeepEdgeRules rows.now) }
    ensures fault { IfErr result (FirstEdgeFault rows.now) }
{
    if rows.len() > MOST_EDGES as usize {
        return Err(EdgeFault::TooManyEdges);
    }
    let Ok(list) = distinct(alloc, rows) else {
        return Err(EdgeFault::Memory);
    };
    let Ok(edges) = Edges::of(alloc, jobs, list) else {
        return Err(EdgeFault::Memory);
    };
    let Ok(cyclic) = hold_cycle(alloc, jobs, &edges) else {
        return Err(EdgeFault::Memory);
    };
    if cyclic {
        check_rows(alloc, jobs, rows)?;
    }
    Ok(edges)
}
