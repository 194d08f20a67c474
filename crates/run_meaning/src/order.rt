//! The order in which a schedule dispatches its jobs.

ghost use Rattle.std.specs.Prelude.{◌≡◌, ◌<◌, IfOk, length, map};
ghost use Rattle.lists.specs.Numbers.{numbers_below};
ghost use Rattle.job_model.specs.Table.{IsTable};
ghost use Rattle.run_meaning.specs.Dispatches.{dispatch_key, dispatch_of};
ghost use Rattle.run_meaning.specs.Order.{dispatch_order};

use crate::Schedule;
use job_model::{JobTable, ranks_order_jobs};
use job_sets::JobNo;
use std::alloc::{AllocError, Global};

// A job, with what it is sorted by.
#[derive(Clone, Copy)]
pub(crate) struct Dispatch {
    no: JobNo,
    start: u64,
    // how many jobs are more urgent
    rank: u16,
}

impl Dispatch {
    // By start, and at one start by urgency.
    fn key(&self) -> (u64, u16)
        ensures { result ≡ dispatch_key self.now }
    {
        (self.start, self.rank)
    }
}

// The job of that number, with what it is sorted by.
fn dispatch_at(table: &JobTable, schedule: &Schedule, no: JobNo) -> Dispatch
    requires job { no < length table.now.jobs }
    requires places { length schedule.now ≡ length table.now.jobs }
    ensures { result ≡ dispatch_of table.now schedule.now no }
{
    Dispatch {
        no,
        start: schedule.places[usize::from(no.0)].start,
        rank: table.rank(no),
    }
}

// All jobs by their numbers.
fn dispatches(
    alloc: Global,
    table: &JobTable,
    schedule: &Schedule,
) -> Result<Vec<Dispatch>, AllocError>
    requires { length schedule.now ≡ length table.now.jobs }
    ensures jobs { IfOk result (λ jobs. jobs.items ≡
        map (dispatch_of table.now schedule.now) (numbers_below (length table.now.jobs))) }
    ensures table { IsTable table.now }
{
    let count = table.len();
    let mut jobs = Vec::with_capacity(alloc, usize::from(count))?;
    for no in 0..count {
        jobs.push(dispatch_at(table, schedule, JobNo(no)))?;
    }
    Ok(jobs)
}

// All jobs in the order of dispatch.
fn sorted_dispatches(
    alloc: Global,
    table: &JobTable,
    schedule: &Schedule,
) -> Result<Vec<Dispatch>, AllocError>
    requires { length schedule.now ≡ length table.now.jobs }
    ensures { IfOk result (λ jobs. jobs.items ≡
        map (dispatch_of table.now schedule.now) (dispatch_order table.now schedule.now)) }
{
    ranks_order_jobs();
    let mut jobs = dispatches(alloc, table, schedule)?;
    jobs.sort_unstable_by_key(|job| job.key());
    Ok(jobs)
}

// Their numbers.
fn numbers_of(alloc: Global, jobs: &[Dispatch]) -> Result<Vec<JobNo>, AllocError>
    ensures { IfOk result (λ numbers. numbers.items ≡ map (λ job. job.no) jobs.now) }
{
    let mut numbers = Vec::with_capacity(alloc, jobs.len())?;
    for job in jobs {
        numbers.push(job.no)?;
    }
    Ok(numbers)
}

/// The numbers of all jobs by start, and at one start by urgency.
pub fn dispatch_order(
    alloc: Global,
    table: &JobTable,
    schedule: &Schedule,
) -> Result<Vec<JobNo>, AllocError>
    requires { length schedule.now ≡ length table.now.jobs }
    ensures { IfOk result (λ order. order.items ≡ dispatch_order table.now schedule.now) }
{
    let jobs = sorted_dispatches(alloc, table, schedule)?;
    numbers_of(alloc, &jobs)
}
