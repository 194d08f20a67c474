//! The command `replay`.

ghost use Rattle.std.specs.Prelude.{◌≡◌, ◌≤◌, IfOk};
ghost use Rattle.job_model.specs.declared.limits.TheConstants.{MOST_CORES};
ghost use Rattle.job_model.specs.Scenario.{Fits};
ghost use Rattle.sag_engine.specs.declared.conclusion.Conclusion.TheVariants.{Done};
ghost use Rattle.sag_engine.specs.RunEnds.{Runs};
ghost use Rattle.sag_engine.specs.Replay.{IsRunReply, replay_plan};

use crate::conclusion::Conclusion;
use crate::halt::Halt;
use crate::inputs::{read_scenario_file, read_table};
use crate::outputs::print;
use job_model::{JobTable, Scenario};
use replay::{replay, write_schedule};
use sag_edge::{FileName, Files, Sink};
use std::alloc::{AllocError, Global};

// The schedule of a scenario, as it is printed.
fn schedule_of(
    alloc: Global,
    table: &JobTable,
    cores: u16,
    scenario: &Scenario,
) -> Result<Vec<u8>, AllocError>
    requires some_core { 1 ≤ cores }
    requires few_cores { cores ≤ MOST_CORES }
    requires fits { Fits table.now scenario.now }
    ensures { IfOk result (λ text. IsRunReply table.now cores scenario.now
        (record { conclusion = Done; bytes = text.items })) }
{
    let schedule = replay(alloc, table, cores, scenario)?;
    write_schedule(alloc, table, scenario, &schedule)
}

/// `replay JOBS SCENARIO [--prec FILE] [--cores N]`: prints the schedule of the scenario.
pub(crate) fn run_replay<F: Files, O: Sink>(
    alloc: Global,
    files: &mut F,
    out: &mut O,
    jobs: FileName,
    scenario: FileName,
    prec: Option<FileName>,
    cores: u16,
) -> Result<Conclusion, Halt>
    requires some_core { 1 ≤ cores }
    requires few_cores { cores ≤ MOST_CORES }
    ensures { Runs (replay_plan jobs scenario prec cores) (F.seen files.old) (F.seen files.new)
        (O.seen out.old) (O.seen out.new) result }
{
    let table = read_table(alloc, files, jobs, prec)?;
    let scenario = read_scenario_file(alloc, files, &table, scenario)?;
    match schedule_of(alloc, &table, cores, &scenario) {
        Ok(text) => print(out, &text, Conclusion::Done),
        Err(_) => Err(Halt::Memory),
    }
}
