//! The command `check`.

ghost use Rattle.std.specs.Prelude.{◌≡◌, ◌≤◌, IfOk, length};
ghost use Rattle.job_model.specs.declared.limits.TheConstants.{MOST_CORES};
ghost use Rattle.cert_check.specs.Checks.{end_told};
ghost use Rattle.sag_engine.specs.Check.{check_plan, check_reply};
ghost use Rattle.sag_engine.specs.RunEnds.{Prints, Runs};

use crate::certificate::check_certificate;
use crate::conclusion::Conclusion;
use crate::halt::Halt;
use crate::inputs::read_table;
use crate::outputs::print;
use cert_check::{CertEnd, no_text, yes_text};
use job_model::JobTable;
use sag_edge::{FileName, Files, Sink};
use std::alloc::Global;

// Prints what the certificate came to.
fn print_end<O: Sink>(
    alloc: Global,
    out: &mut O,
    table: &JobTable,
    end: &CertEnd,
) -> Result<Conclusion, Halt>
    requires { IfOk (end_told end.now) (λ jobs. length jobs ≤ length table.now.jobs) }
    ensures { Prints (check_reply table.now (end_told end.now)) (O.seen out.old) (O.seen out.new) result }
{
    match end {
        CertEnd::Yes(yes) => match yes_text(alloc, table, yes) {
            Ok(text) => print(out, &text, Conclusion::Done),
            Err(_) => Err(Halt::Memory),
        },
        CertEnd::No { clause, line } => match no_text(alloc, *clause, *line) {
            Ok(text) => print(out, &text, Conclusion::No),
            Err(_) => Err(Halt::Memory),
        },
    }
}

/// `check JOBS CERT [--prec FILE] [--cores N]`: prints whether the certificate is valid, with its jobs.
pub(crate) fn run_check<F: Files, O: Sink>(
    alloc: Global,
    files: &mut F,
    out: &mut O,
    jobs: FileName,
    cert: FileName,
    prec: Option<FileName>,
    cores: u16,
) -> Result<Conclusion, Halt>
    requires some_core { 1 ≤ cores }
    requires few_cores { cores ≤ MOST_CORES }
    ensures { Runs (check_plan jobs cert prec cores) (F.seen files.old) (F.seen files.new)
        (O.seen out.old) (O.seen out.new) result }
{
    let table = read_table(alloc, files, jobs, prec)?;
    let end = check_certificate(alloc, files, &table, cores, cert)?;
    print_end(alloc, out, &table, &end)
}
