//! The command `report`.

ghost use Rattle.std.specs.Prelude.{◌≡◌, ◌≤◌, IfOk, length};
ghost use Rattle.job_model.specs.declared.limits.TheConstants.{MOST_CORES};
ghost use Rattle.cert_check.specs.Checks.{end_told};
ghost use Rattle.graph_check.specs.Told.{entries_of};
ghost use Rattle.sag_engine.specs.Report.{entry_spans, report_bytes, report_plan, report_reply};
ghost use Rattle.sag_engine.specs.RunEnds.{Prints, Runs};

use crate::certificate::check_certificate;
use crate::conclusion::Conclusion;
use crate::halt::Halt;
use crate::inputs::read_table;
use crate::outputs::print;
use cert_check::{CertEnd, no_text};
use graph_check::Yes;
use job_model::JobTable;
use response_report::{rows, task_rows, write_report, write_tasks};
use sag_edge::{FileName, Files, Sink};
use sag_time::Span;
use std::alloc::{AllocError, Global};

// The intervals of the jobs of a valid certificate.
fn spans_of(yes: &Yes) -> &[Span]
    ensures { result.now ≡ entry_spans (entries_of yes.now.spans.items yes.now.marks.items) }
{
    let count = yes.spans.len().min(yes.marks.len());
    &yes.spans.as_slice()[..count]
}

// The report of the jobs of a valid certificate, or of their tasks.
fn report_of(alloc: Global, table: &JobTable, yes: &Yes, tasks: bool) -> Result<Vec<u8>, AllocError>
    requires { length (entries_of yes.now.spans.items yes.now.marks.items) ≡ length table.now.jobs }
    ensures { IfOk result (λ text. text.items
        ≡ report_bytes tasks table.now (entries_of yes.now.spans.items yes.now.marks.items)) }
{
    let rows = rows(alloc, table, spans_of(yes))?;
    if tasks {
        let tasks = task_rows(alloc, &rows)?;
        write_tasks(alloc, &tasks)
    } else {
        write_report(alloc, &rows)
    }
}

// Prints the report of a certificate, or the clause that it breaks.
fn print_report<O: Sink>(
    alloc: Global,
    out: &mut O,
    table: &JobTable,
    end: &CertEnd,
    tasks: bool,
) -> Result<Conclusion, Halt>
    requires { IfOk (end_told end.now) (λ jobs. length jobs ≡ length table.now.jobs) }
    ensures { Prints (report_reply tasks table.now (end_told end.now)) (O.seen out.old) (O.seen out.new) result }
{
    match end {
        CertEnd::Yes(yes) => match report_of(alloc, table, yes, tasks) {
            Ok(text) => print(out, &text, Conclusion::Done),
            Err(_) => Err(Halt::Memory),
        },
        CertEnd::No { clause, line } => match no_text(alloc, *clause, *line) {
            Ok(text) => print(out, &text, Conclusion::No),
            Err(_) => Err(Halt::Memory),
        },
    }
}

/// `report JOBS CERT [--prec FILE] [--cores N] [--tasks]`: prints bounds on the completion and response times of the jobs of a
/// valid certificate, or the worst-case response times of their tasks.
pub(crate) fn run_report<F: Files, O: Sink>(
    alloc: Global,
    files: &mut F,
    out: &mut O,
    jobs: FileName,
    cert: FileName,
    prec: Option<FileName>,
    cores: u16,
    tasks: bool,
) -> Result<Conclusion, Halt>
    requires some_core { 1 ≤ cores }
    requires few_cores { cores ≤ MOST_CORES }
    ensures { Runs (report_plan jobs cert prec cores tasks) (F.seen files.old) (F.seen files.new)
        (O.seen out.old) (O.seen out.new) result }
{
    let table = read_table(alloc, files, jobs, prec)?;
    let end = check_certificate(alloc, files, &table, cores, cert)?;
    print_report(alloc, out, &table, &end, tasks)
}
