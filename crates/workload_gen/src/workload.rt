//! The workload of a number.

ghost use Rattle.std.specs.Prelude.{◌≡◌, ◌≤◌, IfOk};
ghost use Rattle.job_model.specs.Table.{table_of};
ghost use Rattle.workload_gen.specs.Workload.{chains, generated, job_with_words, workload_jobs};

use crate::MOST_WORKLOAD_JOBS;
use crate::job_words::{JobWords, next_words};
use job_model::{EdgeFault, Job, JobNo, JobTable, TableFault};
use rand_pcg::Pcg32;
use std::alloc::{AllocError, Global};

// The stream of the generator's words.
const STREAM: u64 = 54;

// The jobs of a group, one of each task.
const GROUP: u16 = 6;

// The place of the last job of a group.
const LAST: u16 = 5;

// The time from the beginning of a group to that of the next.
const GROUP_TIME: u64 = 80;

// The job of that number, by its words.
fn job_by_words(number: u16, words: JobWords) -> Job
    ensures { result ≡ job_with_words number words }
{
    let group = u64::from(number / GROUP);
    let rmin = GROUP_TIME * group + u64::from(words.release % 8);
    let rmax = rmin + u64::from(words.jitter % 4);
    let cmin = 1 + u64::from(words.cost % 6);
    Job {
        task: 1 + u64::from(number % GROUP),
        job: 1 + group,
        rmin,
        rmax,
        cmin,
        cmax: cmin + u64::from(words.more_cost % 4),
        deadline: rmax + 40,
        priority: u64::from(words.priority % 8),
    }
}

// The first jobs of the workload of that number.
fn jobs_of(alloc: Global, number: u64, count: u16) -> Result<Vec<Job>, AllocError>
    ensures { IfOk result (λ jobs. jobs.items ≡ workload_jobs number count) }
{
    let mut generator = Pcg32::new(number, STREAM);
    let mut jobs = Vec::new(alloc);
    for i in 0..count {
        let words = next_words(&mut generator);
        jobs.push(job_by_words(i, words))?;
    }
    Ok(jobs)
}

// The first job and the last one of each whole group.
fn chains_of(alloc: Global, count: u16) -> Result<Vec<(JobNo, JobNo)>, AllocError>
    ensures { IfOk result (λ edges. edges.items ≡ chains count) }
{
    let mut edges = Vec::new(alloc);
    for group in 0..count / GROUP {
        let first = GROUP * group;
        edges.push((JobNo(first), JobNo(first + LAST)))?;
    }
    Ok(edges)
}

// The table of the first jobs, without precedence. They keep the rules of tables, so only memory may be wanting.
fn table_of_jobs(alloc: Global, number: u64, count: u16) -> Result<JobTable, AllocError>
    requires { count ≤ MOST_WORKLOAD_JOBS }
    ensures { IfOk result (λ table. table ≡ table_of (workload_jobs number count)) }
{
    let rows = jobs_of(alloc, number, count)?;
    match JobTable::from_rows(alloc, rows) {
        Ok(table) => Ok(table),
        Err(fault) => match fault {
            TableFault::Memory => Err(AllocError),
            _ => unreachable!(),
        },
    }
}

/// The workload of a number: so many jobs, in groups of six, one of each of six tasks. With `chained` the first job of a
/// group is a predecessor of its last one, where the group is whole; else there is no precedence.
///
/// A group begins 80 after the one before it, its jobs arrive at most 10 later, and cost 54 at most. So each group is over
/// before the next begins, and the graph of a workload stays small.
pub fn generate(
    alloc: Global,
    number: u64,
    jobs: u16,
    chained: bool,
) -> Result<JobTable, AllocError>
    requires some { 1 ≤ jobs }
    requires few { jobs ≤ MOST_WORKLOAD_JOBS }
    ensures { IfOk result (λ table. table ≡ generated number jobs chained) }
{
    let table = table_of_jobs(alloc, number, jobs)?;
    if !chained {
        return Ok(table);
    }
    let edges = chains_of(alloc, jobs)?;
    match table.with_edges(alloc, &edges) {
        Ok(table) => Ok(table),
        Err(refusal) => match refusal.1 {
            EdgeFault::Memory => Err(AllocError),
            _ => unreachable!(),
        },
    }
}
