//! The command `audit`.

ghost use Rattle.std.specs.Prelude.{◌≤◌, ◌<◌, IfSome, length};
ghost use Rattle.job_model.specs.declared.limits.TheConstants.{MOST_CORES};
ghost use Rattle.job_model.specs.Scenario.{Fits};
ghost use Rattle.sag_engine.specs.Audit.{RunJudged, audit_plan, audit_reply, run_plan};
ghost use Rattle.sag_engine.specs.RunEnds.{Follows, Judged, Prints, Runs};

use crate::conclusion::Conclusion;
use crate::fetch::{MOST_FILE_BYTES, fetch};
use crate::halt::Halt;
use crate::inputs::{read_scenario_file, read_table, told};
use crate::outputs::print;
use job_model::{JobTable, Scenario};
use run_audit::{Break, audit, broken_text};
use run_meaning::Schedule;
use sag_edge::{FileName, Files, Sink};
use sag_texts::FileKind;
use side_csv::{SideFault, read_run};
use std::alloc::Global;

// The run of a file.
fn run_of(
    alloc: Global,
    bytes: &[u8],
    table: &JobTable,
    scenario: &Scenario,
) -> Result<Schedule, Halt>
    requires { Fits table.now scenario.now }
    ensures { Judged (λ schedule. schedule) (RunJudged table.now scenario.now bytes.now) result }
{
    match read_run(alloc, bytes, table, scenario) {
        Ok(schedule) => Ok(schedule),
        Err(SideFault::Memory) => Err(Halt::Memory),
        Err(fault) => Err(Halt::Refused(told(FileKind::Run, table, fault))),
    }
}

// Reads the file of a run of this scenario.
fn read_run_file<F: Files>(
    alloc: Global,
    files: &mut F,
    table: &JobTable,
    scenario: &Scenario,
    name: FileName,
) -> Result<Schedule, Halt>
    requires { Fits table.now scenario.now }
    ensures { Follows (λ schedule. schedule) (run_plan table.now scenario.now name)
        (F.seen files.old) (F.seen files.new) result }
{
    let bytes = fetch(alloc, files, FileKind::Run, name, MOST_FILE_BYTES)?;
    run_of(alloc, &bytes, table, scenario)
}

// Prints that the run is legal, or the first rule that it breaks.
fn print_audit<O: Sink>(
    alloc: Global,
    out: &mut O,
    table: &JobTable,
    answer: Option<Break>,
) -> Result<Conclusion, Halt>
    requires { IfSome answer (λ b. b.job < length table.now.jobs) }
    ensures { Prints (audit_reply table.now answer) (O.seen out.old) (O.seen out.new) result }
{
    let Some(broken) = answer else {
        return print(out, b"legal\n", Conclusion::Done);
    };
    match broken_text(alloc, table, broken) {
        Ok(text) => print(out, &text, Conclusion::No),
        Err(_) => Err(Halt::Memory),
    }
}

/// `audit JOBS SCENARIO RUN [--prec FILE] [--cores N]`: prints that a recorded run is legal, or the first
/// rule that it breaks.
pub(crate) fn run_audit<F: Files, O: Sink>(
    alloc: Global,
    files: &mut F,
    out: &mut O,
    jobs: FileName,
    scenario: FileName,
    run: FileName,
    prec: Option<FileName>,
    cores: u16,
) -> Result<Conclusion, Halt>
    requires some_core { 1 ≤ cores }
    requires few_cores { cores ≤ MOST_CORES }
    ensures { Runs (audit_plan jobs scenario run prec cores) (F.seen files.old) (F.seen files.new)
        (O.seen out.old) (O.seen out.new) result }
{
    let table = read_table(alloc, files, jobs, prec)?;
    let scenario = read_scenario_file(alloc, files, &table, scenario)?;
    let schedule = read_run_file(alloc, files, &table, &scenario, run)?;
    match audit(alloc, &table, cores, &scenario, &schedule) {
        Ok(answer) => print_audit(alloc, out, &table, answer),
        Err(_) => Err(Halt::Memory),
    }
}
