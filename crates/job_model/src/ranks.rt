//! The rank of each job by urgency.

ghost use Rattle.std.specs.Prelude.{IfOk};
ghost use Rattle.job_model.specs.Ranks.{AreRanks};
ghost use Rattle.job_model.specs.Table.{IsTable, table_of};

use crate::{Job, JobNo};
use std::alloc::{AllocError, Global};

/// How many jobs are more urgent, of each job.
pub fn ranks(alloc: Global, jobs: &[Job]) -> Result<Vec<u16>, AllocError>
    requires { IsTable (table_of jobs.now) }
    ensures { IfOk result (λ ranks. AreRanks (table_of jobs.now) ranks.items) }
{
    let mut order = Vec::with_capacity(alloc, jobs.len())?;
    for (i, job) in jobs.iter().enumerate() {
        order.push(((job.priority, job.task, job.job), JobNo(i as u16)))?;
    }
    order.sort_unstable_by_key(|(urgency, _)| *urgency);
    let mut ranks = vec![in alloc; 0; jobs.len()]?;
    for (place, entry) in order.iter().enumerate() {
        let (_, no) = *entry;
        ranks[usize::from(no.0)] = place as u16;
    }
    Ok(ranks)
}
