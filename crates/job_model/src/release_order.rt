//! The jobs by rising earliest release.

ghost use Rattle.std.specs.Prelude.{◌≡◌, ◌≤◌, IfOk, length, map};
ghost use Rattle.lists.specs.Numbers.{numbers_below};
ghost use Rattle.job_model.specs.Releases.{release_order};
ghost use Rattle.job_model.specs.Table.{job_at, table_of};

use crate::{Job, JobNo, MOST_JOBS};
use std::alloc::{AllocError, Global};

// The earliest release and the number of each job, by number.
fn releases(alloc: Global, jobs: &[Job]) -> Result<Vec<(u64, JobNo)>, AllocError>
    requires { length jobs.now ≤ MOST_JOBS }
    ensures { IfOk result (λ order. order.items
        ≡ map (λ j. ((job_at (table_of jobs.now) j).rmin, j)) (numbers_below (length jobs.now))) }
{
    let mut order = Vec::with_capacity(alloc, jobs.len())?;
    for (i, job) in jobs.iter().enumerate() {
        order.push((job.rmin, JobNo(i as u16)))?;
    }
    Ok(order)
}

/// The earliest release and the number of each job, by rising release, and at one release by rising number.
pub fn release_order(alloc: Global, jobs: &[Job]) -> Result<Vec<(u64, JobNo)>, AllocError>
    requires { length jobs.now ≤ MOST_JOBS }
    ensures { IfOk result (λ order. order.items ≡ release_order (table_of jobs.now)) }
{
    let mut order = releases(alloc, jobs)?;
    order.sort_unstable_by_key(|(release, no)| (*release, no.0));
    Ok(order)
}
