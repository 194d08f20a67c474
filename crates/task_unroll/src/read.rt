//! Reading task files.

ghost use Rattle.std.specs.Prelude.{◌≡◌, ◌≢◌, ℕ, All, IfErr, IfOk, IsTrue, List, OnOk, ◌↔◌, length, map};
ghost use Rattle.job_model.specs.TableFaults.{first_above};
ghost use Rattle.task_unroll.specs.TaskFaults.{BreaksTaskRule, FirstTaskFault, task_limits};
ghost use Rattle.task_unroll.specs.TaskRows.{TaskRows, task_columns};
ghost use Rattle.task_unroll.specs.Tasks.{AreTasks, IsTask};
ghost use Rattle.task_unroll.specs.declared.task.Task.{Task};

use crate::laws::tasks_keep_rules;
use crate::{MOST_TASK_TIME, Task, TaskFault};
use csv_numbers::{NumberRows, read_numbers};
use indexmap::IndexSet;
use job_model::{MOST_COST, first_above};
use std::alloc::{AllocError, Global};

// The columns of a task file.
const WIDTH: u8 = 7;

// The task of a row of seven numbers.
fn task_of(row: &[u64]) -> Task
    requires { length row.now ≡ 7 }
    ensures { task_columns result ≡ row.now }
{
    Task::from_row([row[0], row[1], row[2], row[3], row[4], row[5], row[6]])
}

// The task of each row, in their order.
fn tasks_of_rows(alloc: Global, rows: &NumberRows) -> Result<Vec<Task>, AllocError>
    requires { All (λ row. length row ≡ 7) rows.now }
    ensures { IfOk result (λ tasks. map task_columns tasks.items ≡ rows.now) }
{
    let mut tasks = Vec::with_capacity(alloc, rows.len())?;
    for place in 0..rows.len() {
        tasks.push(task_of(rows.row(place)))?;
    }
    Ok(tasks)
}

// Whether the task by itself keeps the rules.
fn is_task(task: &Task) -> bool
    ensures { IsTrue result ↔ IsTask task.now }
{
    1 <= task.period
        && task.period <= MOST_TASK_TIME
        && task.offset <= MOST_TASK_TIME
        && task.jitter <= MOST_TASK_TIME
        && task.deadline <= MOST_TASK_TIME
        && 1 <= task.cmin
        && task.cmin <= task.cmax
        && task.cmax <= MOST_COST
}

// The first rule that the task of this row breaks by itself, if it does not keep them.
fn check_task(row: u64, task: &Task) -> Result<(), TaskFault>
    ensures task { OnOk result (IsTask task.now) }
    ensures fault { IfErr result (λ e.
        (before : List Task) → BreaksTaskRule before task.now row e) }
{
    if is_task(task) {
        return Ok(());
    }
    let columns = [
        (2, task.period, MOST_TASK_TIME),
        (3, task.offset, MOST_TASK_TIME),
        (4, task.jitter, MOST_TASK_TIME),
        (5, task.cmin, MOST_COST),
        (6, task.cmax, MOST_COST),
        (7, task.deadline, MOST_TASK_TIME),
    ];
    if let Some(column) = first_above(&columns) {
        return Err(TaskFault::OverLimit(row, column));
    }
    if task.period == 0 {
        return Err(TaskFault::ZeroPeriod(row));
    }
    if task.cmin > task.cmax {
        return Err(TaskFault::SpanReversed(row));
    }
    Err(TaskFault::ZeroCost(row))
}

// The first rule that the tasks break, if they do not keep them.
fn check_tasks(alloc: Global, tasks: &[Task]) -> Result<(), TaskFault>
    ensures tasks { OnOk result (AreTasks tasks.now) }
    ensures fault { IfErr result (λ e.
        (bytes : List ℕ) → TaskRows bytes tasks.now → FirstTaskFault bytes e) }
{
    let Ok(mut ids) = IndexSet::with_capacity(alloc, tasks.len()) else {
        return Err(TaskFault::Memory);
    };
    for (i, task) in tasks.iter().enumerate() {
        let row = i as u64 + 1;
        check_task(row, task)?;
        let Ok((place, is_new)) = ids.insert_full(task.task) else {
            return Err(TaskFault::Memory);
        };
        if !is_new {
            return Err(TaskFault::Twice(row, place as u64 + 1));
        }
    }
    Ok(())
}

/// The tasks of a CSV text under its heading, a row for each, with the columns Task ID, Period, Offset, Jitter, Cost min,
/// Cost max and Deadline, the last from the earliest release.
pub fn read_tasks(alloc: Global, bytes: &[u8]) -> Result<Vec<Task>, TaskFault>
    ensures rows { IfOk result (λ tasks. TaskRows bytes.now tasks.items) }
    ensures tasks { IfOk result (λ tasks. AreTasks tasks.items) }
    ensures only { IfOk result (λ tasks.
        (list : List Task) → TaskRows bytes.now list → tasks.items ≡ list) }
    ensures fault { IfErr result (FirstTaskFault bytes.now) }
    ensures refused { IfErr result (λ fault. fault ≢ TaskFault.Memory
        → (list : List Task) → TaskRows bytes.now list → ¬ AreTasks list) }
{
    // A law of task files, which the proof takes.
    tasks_keep_rules();
    let rows = read_numbers(alloc, bytes, WIDTH)?;
    let Ok(tasks) = tasks_of_rows(alloc, &rows) else {
        return Err(TaskFault::Memory);
    };
    check_tasks(alloc, &tasks)?;
    Ok(tasks)
}
