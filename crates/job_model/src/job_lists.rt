//! A list of jobs for each job.

ghost use Rattle.std.specs.Prelude.{◌≡◌, ◌<◌, [], IfOk, OnOk, length, replicate};
ghost use Rattle.job_model.specs.Neighbours.{list_at, put_at};

use crate::JobNo;
use std::alloc::{AllocError, Global};
use std::marker::Model;

/// A list of jobs for each job; a job past the end has an empty one.
#[derive(Drop)]
pub struct JobLists {
    lists: Vec<Vec<JobNo>>,
}

impl Model for JobLists {
    ghost use Rattle.std.specs.Prelude.{ℕ, List, map};

    ghost Value = { List (List ℕ) };

    ghost view = { λ l. map (λ v. v.items) l.lists.items };
}

impl JobLists {
    /// No lists.
    pub fn none(alloc: Global) -> JobLists
        ensures { result ≡ [] }
    {
        JobLists {
            lists: Vec::new(alloc),
        }
    }

    /// That many empty lists.
    pub fn empty(alloc: Global, count: u16) -> Result<JobLists, AllocError>
        ensures { IfOk result (λ lists. lists ≡ replicate count []) }
    {
        let mut lists = Vec::with_capacity(alloc, usize::from(count))?;
        for _ in 0..count {
            lists.push(Vec::new(alloc))?;
        }
        Ok(JobLists { lists })
    }

    /// Puts a number at the end of the list of that job.
    pub fn put(&mut self, job: JobNo, number: JobNo) -> Result<(), AllocError>
        requires { job < length self.old }
        ensures { OnOk result (self.new ≡ put_at self.old job number) }
    {
        self.lists[usize::from(job.0)].push(number)?;
        Ok(())
    }

    /// The list of that job.
    pub fn at(&self, job: JobNo) -> &[JobNo]
        ensures { result.now ≡ list_at self.now job }
    {
        match self.lists.get(usize::from(job.0)) {
            Some(list) => list,
            None => &[],
        }
    }
}
