//! Trials: scenarios in which jobs may finish early or late.

ghost use Rattle.std.specs.Prelude.{◌≡◌, ◌≤◌, ◌<◌, IfOk};
ghost use Rattle.job_model.specs.Scenario.{Fits};
ghost use Rattle.gap_report.specs.Trials.{last_trial, plain_row, plain_trial};

use job_model::{Job, JobNo, JobTable, Scenario};
use std::alloc::{AllocError, Global};

/// The number of the last trial: there are four for the table, and two for each job.
pub fn last_trial(table: &JobTable) -> u32
    ensures { result ≡ last_trial table.now }
{
    3 + 2 * u32::from(table.len())
}

// The release and the cost of a job in that trial.
#[tactic(auto, unfolding(crate::specs::Trials::plain_row))]
fn plain_row(job: &Job, no: JobNo, trial: u32) -> (u64, u64)
    ensures { result ≡ plain_row job.now no trial }
{
    let best = 4 + 2 * u32::from(no.0);
    if trial == 0 || trial == best {
        (job.rmin, job.cmin)
    } else if trial == 3 || trial == best + 1 {
        (job.rmax, job.cmax)
    } else if trial % 2 == 0 {
        (job.rmax, job.cmin)
    } else {
        (job.rmin, job.cmax)
    }
}

/// A trial that needs no graph, by its number. Trials 0 to 3 release all jobs as early or as late as can be, and each costs
/// as little or as much as it can. Trial 4 + 2 j favours job j: it comes early, all others late, and all cost little. Trial
/// 5 + 2 j harms it: it comes late, all others early, and all cost much.
pub fn plain_trial(alloc: Global, table: &JobTable, trial: u32) -> Result<Scenario, AllocError>
    requires { trial ≤ last_trial table.now }
    ensures trial { IfOk result (λ scenario. scenario ≡ plain_trial table.now trial) }
    ensures fits { IfOk result (Fits table.now) }
{
    let count = table.len();
    let mut rows = Vec::with_capacity(alloc, usize::from(count))?;
    for j in 0..count {
        rows.push(plain_row(table.job(JobNo(j)), JobNo(j), trial))?;
    }
    Ok(Scenario::new(table, rows).unwrap())
}
