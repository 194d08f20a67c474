//! The report by job.

ghost use Rattle.std.specs.Prelude.{◌≡◌, ◌<◌, IfOk, length};
ghost use Rattle.job_model.specs.declared.job_row.Job.{Job};
ghost use Rattle.response_report.specs.ReportRows.{report_row, report_rows};
ghost use Rattle.response_report.specs.ReportText.{report_columns, report_text};

use crate::ReportRow;
use csv_numbers::write_table;
use job_model::{Job, JobNo, JobTable};
use sag_time::Span;
use std::alloc::{AllocError, Global};

// The row of a job that completes in the span.
fn row_of(job: &Job, span: Span) -> ReportRow
    ensures { result ≡ report_row job.now span }
{
    ReportRow {
        task: job.task,
        job: job.job,
        bcct: span.lo(),
        wcct: span.hi(),
        bcrt: span.lo().saturating_sub(job.rmin),
        wcrt: span.hi().saturating_sub(job.rmin),
    }
}

/// The row of each job, by its number. There is a span of completion times for each job.
pub fn rows(alloc: Global, table: &JobTable, spans: &[Span]) -> Result<Vec<ReportRow>, AllocError>
    requires { length spans.now ≡ length table.now.jobs }
    ensures { IfOk result (λ rows. rows.items ≡ report_rows table.now spans.now) }
{
    let count = table.len();
    let mut rows = Vec::with_capacity(alloc, usize::from(count))?;
    for no in 0..count {
        rows.push(row_of(table.job(JobNo(no)), spans[usize::from(no)]))?;
    }
    Ok(rows)
}

// The numbers of a row.
fn columns_of(row: &ReportRow) -> [u64; 6]
    ensures { result ≡ report_columns row.now }
{
    [row.task, row.job, row.bcct, row.wcct, row.bcrt, row.wcrt]
}

/// The text of a report by job as CSV: a heading, and a line for each row.
pub fn write_report(alloc: Global, rows: &[ReportRow]) -> Result<Vec<u8>, AllocError>
    ensures { IfOk result (λ text. text.items ≡ report_text rows.now) }
{
    let mut columns = Vec::with_capacity(alloc, rows.len())?;
    for row in rows {
        columns.push(columns_of(row))?;
    }
    write_table(
        alloc,
        &["Task ID", "Job ID", "BCCT", "WCCT", "BCRT", "WCRT"],
        &columns,
    )
}
