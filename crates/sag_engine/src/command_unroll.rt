//! The command `unroll`.

ghost use Rattle.std.specs.Prelude.{◌≡◌, ◌≤◌, IfOk, OnOk};
ghost use Rattle.task_unroll.specs.declared.limits.TheConstants.{MOST_HORIZON};
ghost use Rattle.task_unroll.specs.Tasks.{AreTasks};
ghost use Rattle.sag_engine.specs.RunEnds.{Follows, Judged, Runs};
ghost use Rattle.sag_engine.specs.Unroll.{TasksJudged, TasksUnrolled, tasks_plan, unroll_plan, unrolled_plan};

use crate::conclusion::Conclusion;
use crate::fetch::{MOST_FILE_BYTES, fetch};
use crate::halt::{Halt, refused};
use crate::outputs::print;
use job_csv::write_jobs;
use job_model::JobTable;
use sag_edge::{FileName, Files, Sink};
use sag_texts::{Fault, FileKind};
use std::alloc::Global;
use task_unroll::{Policy, Task, TaskFault, read_tasks, unroll};

// The tasks of a task file.
fn tasks_of(alloc: Global, bytes: &[u8]) -> Result<Vec<Task>, Halt>
    ensures { Judged (λ tasks. tasks.items) (TasksJudged bytes.now) result }
{
    match read_tasks(alloc, bytes) {
        Ok(tasks) => Ok(tasks),
        Err(TaskFault::Memory) => Err(Halt::Memory),
        Err(fault) => refused(Fault::Tasks(fault)),
    }
}

// The table of the jobs that tasks release before the horizon.
fn table_of(alloc: Global, tasks: &[Task], horizon: u64, policy: Policy) -> Result<JobTable, Halt>
    requires tasks { AreTasks tasks.now }
    requires horizon { horizon ≤ MOST_HORIZON }
    ensures { Judged (λ table. table) (TasksUnrolled policy tasks.now horizon) result }
{
    match unroll(alloc, tasks, horizon, policy) {
        Ok(table) => Ok(table),
        Err(TaskFault::Memory) => Err(Halt::Memory),
        Err(fault) => refused(Fault::Tasks(fault)),
    }
}

// Reads the task file.
fn read_task_file<F: Files>(alloc: Global, files: &mut F, name: FileName) -> Result<Vec<Task>, Halt>
    ensures { Follows (λ tasks. tasks.items) (tasks_plan name) (F.seen files.old) (F.seen files.new) result }
{
    let bytes = fetch(alloc, files, FileKind::Tasks, name, MOST_FILE_BYTES)?;
    tasks_of(alloc, &bytes)
}

// Reads the task file, and unrolls its tasks.
fn read_unrolled<F: Files>(
    alloc: Global,
    files: &mut F,
    name: FileName,
    horizon: u64,
    policy: Policy,
) -> Result<JobTable, Halt>
    requires { horizon ≤ MOST_HORIZON }
    ensures { Follows (λ table. table) (unrolled_plan name horizon policy)
        (F.seen files.old) (F.seen files.new) result }
{
    let tasks = read_task_file(alloc, files, name)?;
    table_of(alloc, &tasks, horizon, policy)
}

/// `unroll TASKS HORIZON POLICY`: prints the jobs that periodic tasks release before the horizon, as a job file.
pub(crate) fn run_unroll<F: Files, O: Sink>(
    alloc: Global,
    files: &mut F,
    out: &mut O,
    tasks: FileName,
    horizon: u64,
    policy: Policy,
) -> Result<Conclusion, Halt>
    requires { horizon ≤ MOST_HORIZON }
    ensures { Runs (unroll_plan tasks horizon policy) (F.seen files.old) (F.seen files.new)
        (O.seen out.old) (O.seen out.new) result }
{
    let table = read_unrolled(alloc, files, tasks, horizon, policy)?;
    match write_jobs(alloc, &table) {
        Ok(text) => print(out, &text, Conclusion::Done),
        Err(_) => Err(Halt::Memory),
    }
}
