//! The report by task.

ghost use Rattle.std.specs.Prelude.{◌≡◌, ℕ, IfOk};
ghost use Rattle.std.specs.List.Sorted.{IsStrictlySortedBy};
ghost use Rattle.std.specs.Map.{keys_of};
ghost use Rattle.std.specs.Ordering.{nat_cmp};
ghost use Rattle.response_report.specs.ReportRows.{task_rows, task_wcrt, wcrt_in};
ghost use Rattle.response_report.specs.ReportText.{tasks_text};

use crate::ReportRow;
use csv_numbers::write_table;
use std::alloc::{AllocError, Global};
use std::collections::BTreeMap;

// The worst-case response time of each task of the rows.
fn wcrt_by_task(alloc: Global, rows: &[ReportRow]) -> Result<BTreeMap<u64, u64>, AllocError>
    ensures { IfOk result (λ tasks. tasks.entries ≡ task_rows rows.now) }
{
    let mut tasks = BTreeMap::new(alloc);
    for row in rows {
        let known = tasks.get(&row.task).copied().unwrap_or(0);
        tasks.insert(row.task, known.max(row.wcrt))?;
    }
    Ok(tasks)
}

/// Each task of the rows with its worst-case response time, which is the greatest of its jobs, by rising task.
pub fn task_rows(alloc: Global, rows: &[ReportRow]) -> Result<Vec<(u64, u64)>, AllocError>
    ensures rows { IfOk result (λ tasks. tasks.items ≡ task_rows rows.now) }
    ensures rising { IfOk result (λ tasks. IsStrictlySortedBy nat_cmp (keys_of tasks.items)) }
    ensures greatest { IfOk result (λ tasks.
        (task : ℕ) → wcrt_in tasks.items task ≡ task_wcrt rows.now task) }
{
    let wcrts = wcrt_by_task(alloc, rows)?;
    let mut tasks = Vec::with_capacity(alloc, wcrts.len())?;
    for (task, wcrt) in &wcrts {
        tasks.push((*task, *wcrt))?;
    }
    Ok(tasks)
}

/// The text of a report by task as CSV: a heading, and a line for each task with its worst-case response time.
pub fn write_tasks(alloc: Global, tasks: &[(u64, u64)]) -> Result<Vec<u8>, AllocError>
    ensures { IfOk result (λ text. text.items ≡ tasks_text tasks.now) }
{
    let mut rows = Vec::with_capacity(alloc, tasks.len())?;
    for (task, wcrt) in tasks {
        rows.push([*task, *wcrt])?;
    }
    write_table(alloc, &["Task ID", "WCRT"], &rows)
}
