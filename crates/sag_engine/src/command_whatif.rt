//! The command `whatif`.

ghost use Rattle.std.specs.Prelude.{◌≡◌, ◌≤◌, ◌<◌, All, IfErr, IfOk, None, OnOk, length};
ghost use Rattle.job_model.specs.declared.limits.TheConstants.{MOST_CORES};
ghost use Rattle.job_model.specs.Times.{MayCost};
ghost use Rattle.sag_graph.specs.declared.TheConstants.{MOST_BUDGET};
ghost use Rattle.what_if.specs.Edits.{with_edits};
ghost use Rattle.what_if.specs.Faults.{IsUntaken};
ghost use Rattle.sag_engine.specs.WhatIf.{EditsJudged, edits_plan, first_of_edits, whatif_plan, whatif_reply};
ghost use Rattle.sag_engine.specs.RunEnds.{Follows, Judged, Prints, Runs};

use crate::command_analyse::print_graph;
use crate::conclusion::Conclusion;
use crate::fetch::{MOST_FILE_BYTES, fetch};
use crate::halt::{Halt, refused};
use crate::inputs::read_table;
use crate::outputs::close_spent;
use job_model::JobTable;
use sag_edge::{FileName, Files, Sink};
use sag_texts::{Fault, FileKind};
use side_csv::{JobEdit, SideFault, read_edits};
use std::alloc::Global;
use what_if::{WhatIf, WhatIfFault};

// The edits of a file.
fn edits_of(alloc: Global, bytes: &[u8], table: &JobTable) -> Result<Vec<JobEdit>, Halt>
    ensures { Judged (λ edits. edits.items) (EditsJudged table.now bytes.now) result }
{
    match read_edits(alloc, bytes, table) {
        Ok(edits) => Ok(edits),
        Err(SideFault::Memory) => Err(Halt::Memory),
        Err(fault) => refused(Fault::Side(FileKind::Edits, fault)),
    }
}

// Reads the file of edits of this table.
fn read_edits_file<F: Files>(
    alloc: Global,
    files: &mut F,
    table: &JobTable,
    name: FileName,
) -> Result<Vec<JobEdit>, Halt>
    ensures { Follows (λ edits. edits.items) (edits_plan table.now name)
        (F.seen files.old) (F.seen files.new) result }
{
    let bytes = fetch(alloc, files, FileKind::Edits, name, MOST_FILE_BYTES)?;
    edits_of(alloc, &bytes, table)
}

// The table with the edits made, where the graphs before and after each of them stay within the budget.
fn edited(
    alloc: Global,
    table: JobTable,
    edits: &[JobEdit],
    cores: u16,
    budget: u32,
) -> Result<WhatIf, WhatIfFault>
    requires some_core { 1 ≤ cores }
    requires few_cores { cores ≤ MOST_CORES }
    requires some_budget { 1 ≤ budget }
    requires small_budget { budget ≤ MOST_BUDGET }
    requires in_range { All (λ e. e.job < length table.jobs) edits.now }
    requires costs { All (λ e. MayCost e.cmin e.cmax) edits.now }
    ensures edited { IfOk result (λ w. w ≡ record { table = with_edits table edits.now; cores = cores; budget = budget }) }
    ensures within { OnOk result (first_of_edits table edits.now cores budget ≡ None) }
    ensures untaken { IfErr result (IsUntaken (first_of_edits table edits.now cores budget)) }
{
    WhatIf::new(alloc, table, cores, budget)?.with_edits(edits)
}

// Prints the certificate of the graph of the edited table, unless a graph exceeds the budget.
fn print_edited<O: Sink>(
    alloc: Global,
    out: &mut O,
    table: JobTable,
    edits: &[JobEdit],
    cores: u16,
    budget: u32,
) -> Result<Conclusion, Halt>
    requires some_core { 1 ≤ cores }
    requires few_cores { cores ≤ MOST_CORES }
    requires some_budget { 1 ≤ budget }
    requires small_budget { budget ≤ MOST_BUDGET }
    requires in_range { All (λ e. e.job < length table.jobs) edits.now }
    requires costs { All (λ e. MayCost e.cmin e.cmax) edits.now }
    ensures { Prints (whatif_reply table edits.now cores (first_of_edits table edits.now cores budget))
        (O.seen out.old) (O.seen out.new) result }
{
    match edited(alloc, table, edits, cores, budget) {
        Ok(what_if) => print_graph(alloc, out, what_if.table(), cores, budget),
        Err(
            WhatIfFault::Spent {
                level,
                states,
                edges,
            },
        ) => close_spent(out, level, states, edges),
        Err(WhatIfFault::Memory) => Err(Halt::Memory),
    }
}

/// `whatif JOBS EDITS [--prec FILE] [--cores N] [--budget N]`: prints the certificate of the graph once the edits are made.
pub(crate) fn run_whatif<F: Files, O: Sink>(
    alloc: Global,
    files: &mut F,
    out: &mut O,
    jobs: FileName,
    edits: FileName,
    prec: Option<FileName>,
    cores: u16,
    budget: u32,
) -> Result<Conclusion, Halt>
    requires some_core { 1 ≤ cores }
    requires few_cores { cores ≤ MOST_CORES }
    requires some_budget { 1 ≤ budget }
    requires small_budget { budget ≤ MOST_BUDGET }
    ensures { Runs (whatif_plan jobs edits prec cores budget) (F.seen files.old) (F.seen files.new)
        (O.seen out.old) (O.seen out.new) result }
{
    let table = read_table(alloc, files, jobs, prec)?;
    let edits = read_edits_file(alloc, files, &table, edits)?;
    print_edited(alloc, out, table, &edits, cores, budget)
}
