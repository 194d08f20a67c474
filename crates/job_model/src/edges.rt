//! Precedence edges, with the neighbours of each job.

ghost use Rattle.std.specs.Prelude.{◌≡◌, [], IfOk};
ghost use Rattle.job_model.specs.Neighbours.{JoinJobs, sources, targets};

use crate::JobNo;
use crate::job_lists::JobLists;
use std::alloc::{AllocError, Global};
use std::marker::Model;

/// Edges (predecessor, successor), and for each job the jobs at the other ends of its edges.
#[derive(Drop)]
pub struct Edges {
    list: Vec<(JobNo, JobNo)>,
    preds: JobLists,
    succs: JobLists,
}

impl Model for Edges {
    ghost use Rattle.std.specs.Prelude.{ℕ, List};
    ghost use Rattle.job_model.specs.Neighbours.{AreNeighbours};

    ghost Value = { List (ℕ × ℕ) };

    ghost view = { λ e. e.list.items };

    ghost invariant = { λ e. AreNeighbours e.list.items e.preds e.succs };
}

impl Edges {
    /// No edges.
    pub fn none(alloc: Global) -> Edges
        ensures { result ≡ [] }
    {
        Edges {
            list: Vec::new(alloc),
            preds: JobLists::none(alloc),
            succs: JobLists::none(alloc),
        }
    }

    /// These edges, which join jobs below that number.
    pub fn of(alloc: Global, jobs: u16, list: Vec<(JobNo, JobNo)>) -> Result<Edges, AllocError>
        requires { JoinJobs jobs list.items }
        ensures { IfOk result (λ edges. edges ≡ list.items) }
    {
        let mut preds = JobLists::empty(alloc, jobs)?;
        let mut succs = JobLists::empty(alloc, jobs)?;
        for (before, after) in &list {
            preds.put(*after, *before)?;
            succs.put(*before, *after)?;
        }
        Ok(Edges { list, preds, succs })
    }

    /// The edges.
    pub fn list(&self) -> &[(JobNo, JobNo)]
        ensures { result.now ≡ self.now }
    {
        &self.list
    }

    /// The jobs that must finish before that one starts.
    pub fn preds(&self, no: JobNo) -> &[JobNo]
        ensures { result.now ≡ sources self.now no }
    {
        self.preds.at(no)
    }

    /// The jobs that wait for that one.
    pub fn succs(&self, no: JobNo) -> &[JobNo]
        ensures { result.now ≡ targets self.now no }
    {
        self.succs.at(no)
    }
}
