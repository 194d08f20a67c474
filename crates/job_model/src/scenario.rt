//! Scenarios.

ghost use Rattle.std.specs.Prelude.{◌≡◌, ◌<◌, ◌↔◌, IfSome, IsSome, IsTrue, length};
ghost use Rattle.job_model.specs.Scenario.{CanRunAs, Fits, cost_of, release_of};

use crate::{Job, JobNo, JobTable};
use std::marker::Model;

/// A release and a cost for each job, by its number.
#[derive(Drop)]
pub struct Scenario {
    rows: Vec<(u64, u64)>,
}

impl Model for Scenario {
    ghost use Rattle.std.specs.Prelude.{List, ℕ};

    ghost Value = { List (ℕ × ℕ) };

    ghost view = { λ s. s.rows.items };
}

// Whether the job may be released at that moment, and cost so much.
fn can_run_as(job: &Job, release: u64, cost: u64) -> bool
    ensures { IsTrue result ↔ CanRunAs job.now release cost }
{
    job.rmin <= release && release <= job.rmax && job.cmin <= cost && cost <= job.cmax
}

impl Scenario {
    /// The scenario of these releases and costs by job number, if each is in its job's intervals; else they
    /// are dropped.
    pub fn new(table: &JobTable, rows: Vec<(u64, u64)>) -> Option<Scenario>
        ensures rows { IfSome result (λ s. s ≡ rows.items) }
        ensures fits { IsSome result ↔ Fits table.now rows.items }
    {
        if rows.len() != usize::from(table.len()) {
            return None;
        }
        for (j, (release, cost)) in rows.iter().enumerate() {
            if !can_run_as(table.job(JobNo(j as u16)), *release, *cost) {
                return None;
            }
        }
        Some(Scenario { rows })
    }

    /// The release of the job of that number.
    pub fn release(&self, no: JobNo) -> u64
        requires { no < length self.now }
        ensures { result ≡ release_of self.now no }
    {
        self.rows[no.0 as usize].0
    }

    /// The cost of the job of that number.
    pub fn cost(&self, no: JobNo) -> u64
        requires { no < length self.now }
        ensures { result ≡ cost_of self.now no }
    {
        self.rows[no.0 as usize].1
    }
}
