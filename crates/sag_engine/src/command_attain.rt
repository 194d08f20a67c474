//! The command `attain`.

ghost use Rattle.std.specs.Prelude.{◌≡◌, ◌≤◌, ◌<◌, [], IfOk, length};
ghost use Rattle.one_core.specs.Extreme.{extreme as scenario_for};
ghost use Rattle.sag_graph.specs.declared.TheConstants.{MOST_BUDGET};
ghost use Rattle.sag_graph.specs.Budget.{spent};
ghost use Rattle.sag_graph.specs.Graph.{graph_of};
ghost use Rattle.side_csv.specs.ScenarioRows.{scenario_text};
ghost use Rattle.sag_engine.specs.Attain.{JobNamed, attain_plan, attain_reply, job_plan};
ghost use Rattle.sag_engine.specs.RunEnds.{Follows, Judged, Prints, Runs};

use crate::conclusion::Conclusion;
use crate::halt::{Halt, refused};
use crate::inputs::read_table;
use crate::outputs::{close_spent, print};
use graph_memory::{BuildAnswer, Graph, build};
use job_model::{End, JobNo, JobTable};
use one_core::extreme;
use sag_edge::{FileName, Files, Sink};
use sag_texts::Fault;
use side_csv::write_scenario;
use std::alloc::{AllocError, Global};

// The number of the job with these IDs.
fn job_named(table: &JobTable, task: u64, job: u64) -> Result<JobNo, Halt>
    ensures { Judged (λ no. no) (JobNamed table.now task job) result }
{
    match table.find(task, job) {
        Some(no) => Ok(no),
        None => refused(Fault::NoJob(task, job)),
    }
}

// The scenario in which the job finishes at that end of its interval, as it is printed.
fn scenario_of(
    alloc: Global,
    table: &JobTable,
    graph: &Graph,
    job: JobNo,
    end: End,
) -> Result<Vec<u8>, AllocError>
    requires no_edges { table.now.edges ≡ [] }
    requires graph { graph.now ≡ graph_of table.now 1 }
    requires job { job < length table.now.jobs }
    ensures { IfOk result (λ text. text.items
        ≡ scenario_text table.now (scenario_for table.now (graph_of table.now 1) job end)) }
{
    let scenario = extreme(alloc, table, graph, job, end)?;
    write_scenario(alloc, table, &scenario)
}

// Prints that scenario, unless the graph exceeds the budget.
fn print_end<O: Sink>(
    alloc: Global,
    out: &mut O,
    table: &JobTable,
    job: JobNo,
    end: End,
    budget: u32,
) -> Result<Conclusion, Halt>
    requires no_edges { table.now.edges ≡ [] }
    requires job { job < length table.now.jobs }
    requires some_budget { 1 ≤ budget }
    requires small_budget { budget ≤ MOST_BUDGET }
    ensures { Prints (attain_reply table.now job end (spent table.now 1 budget))
        (O.seen out.old) (O.seen out.new) result }
{
    match build(alloc, table, 1, budget) {
        Ok(graph) => match scenario_of(alloc, table, &graph, job, end) {
            Ok(text) => print(out, &text, Conclusion::Done),
            Err(_) => Err(Halt::Memory),
        },
        Err(
            BuildAnswer::Spent {
                level,
                states,
                edges,
                ..
            },
        ) => close_spent(out, level, states, edges),
        Err(BuildAnswer::Memory) => Err(Halt::Memory),
    }
}

/// `attain JOBS TASK JOB best|worst [--budget N]`: prints a scenario in which the job finishes at that end of its interval on
/// one core.
pub(crate) fn run_attain<F: Files, O: Sink>(
    alloc: Global,
    files: &mut F,
    out: &mut O,
    jobs: FileName,
    task: u64,
    job: u64,
    end: End,
    budget: u32,
) -> Result<Conclusion, Halt>
    requires some_budget { 1 ≤ budget }
    requires small_budget { budget ≤ MOST_BUDGET }
    ensures { Runs (attain_plan jobs task job end budget) (F.seen files.old) (F.seen files.new)
        (O.seen out.old) (O.seen out.new) result }
{
    let table = read_table(alloc, files, jobs, None)?;
    let job = job_named(&table, task, job)?;
    print_end(alloc, out, &table, job, end, budget)
}
