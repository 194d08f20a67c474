//! Unrolling tasks into a job table.

ghost use Rattle.std.specs.Prelude.{◌≡◌, ◌≢◌, ◌≤◌, ◌++◌, All, IfErr, IfOk, OnOk};
ghost use Rattle.job_model.specs.Table.{IsTable, table_of};
ghost use Rattle.task_unroll.specs.Tasks.{AreTasks, IsTask};
ghost use Rattle.task_unroll.specs.UnrollFaults.{FirstUnrollFault};
ghost use Rattle.task_unroll.specs.Unrolled.{release_at, unrolled};
ghost use Rattle.task_unroll.specs.Unrolled.{released_job as nth_job};
ghost use Rattle.task_unroll.specs.Unrolled.{released_jobs as jobs_of_task};

use crate::count::{count_releases, first_late, too_many};
use crate::{MOST_HORIZON, Policy, Task, TaskFault};
use job_model::{Job, JobTable, TableFault};
use std::alloc::{AllocError, Global};

// Job k + 1 of a task.
fn released_job(policy: Policy, task: &Task, k: u64) -> Job
    requires task { IsTask task.now }
    requires released { release_at task.now k ≤ MOST_HORIZON }
    requires k { k ≤ MOST_HORIZON }
    ensures { result ≡ nth_job policy task.now k }
{
    let release = task.offset + k * task.period;
    let deadline = release + task.deadline;
    Job {
        task: task.task,
        job: k + 1,
        rmin: release,
        rmax: release + task.jitter,
        cmin: task.cmin,
        cmax: task.cmax,
        deadline,
        priority: match policy {
            Policy::Rate => task.period,
            Policy::Deadline => task.deadline,
            Policy::Edf => deadline,
        },
    }
}

// Puts the jobs of a task behind those that are there.
fn append_jobs(
    jobs: &mut Vec<Job>,
    policy: Policy,
    task: &Task,
    horizon: u64,
) -> Result<(), AllocError>
    requires task { IsTask task.now }
    requires horizon { horizon ≤ MOST_HORIZON }
    ensures { OnOk result (jobs.new.items ≡ jobs.old.items ++ jobs_of_task policy horizon task.now) }
{
    for k in 0..count_releases(task, horizon) {
        jobs.push(released_job(policy, task, k))?;
    }
    Ok(())
}

// The jobs of the tasks, in the order of the tasks.
fn list_jobs(
    alloc: Global,
    tasks: &[Task],
    horizon: u64,
    policy: Policy,
) -> Result<Vec<Job>, AllocError>
    requires tasks { All IsTask tasks.now }
    requires horizon { horizon ≤ MOST_HORIZON }
    ensures { IfOk result (λ jobs. jobs.items ≡ unrolled policy tasks.now horizon) }
{
    let mut jobs = Vec::new(alloc);
    for task in tasks {
        append_jobs(&mut jobs, policy, task, horizon)?;
    }
    Ok(jobs)
}

/// The table of the jobs that the tasks release before the horizon, in the order of the tasks and of their releases.
pub fn unroll(
    alloc: Global,
    tasks: &[Task],
    horizon: u64,
    policy: Policy,
) -> Result<JobTable, TaskFault>
    requires tasks { AreTasks tasks.now }
    requires horizon { horizon ≤ MOST_HORIZON }
    ensures jobs { IfOk result (λ table. table ≡ table_of (unrolled policy tasks.now horizon)) }
    ensures table { OnOk result (IsTable (table_of (unrolled policy tasks.now horizon))) }
    ensures fault { IfErr result (FirstUnrollFault policy tasks.now horizon) }
    ensures refused { IfErr result (λ fault. fault ≢ TaskFault.Memory
        → ¬ IsTable (table_of (unrolled policy tasks.now horizon))) }
{
    if let Some(row) = first_late(tasks, horizon) {
        return Err(TaskFault::Late(row));
    }
    if too_many(tasks, horizon) {
        return Err(TaskFault::TooMany);
    }
    let Ok(jobs) = list_jobs(alloc, tasks, horizon, policy) else {
        return Err(TaskFault::Memory);
    };
    match JobTable::from_rows(alloc, jobs) {
        Ok(table) => Ok(table),
        Err(fault) => match fault {
            TableFault::Memory => Err(TaskFault::Memory),
            _ => unreachable!(),
        },
    }
}
