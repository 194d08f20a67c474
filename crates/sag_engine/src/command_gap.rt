//! The command `gap`.

ghost use Rattle.std.specs.Prelude.{◌≡◌, ◌≤◌, IfErr, IfOk, IfSome, None, OnOk};
ghost use Rattle.gap_report.specs.GapText.{gap_text};
ghost use Rattle.gap_report.specs.Trials.{last_trial};
ghost use Rattle.gap_trials.specs.GapMeaning.{AreGapRows};
ghost use Rattle.gap_trials.specs.Trials.{trial_of};
ghost use Rattle.job_model.specs.declared.limits.TheConstants.{MOST_CORES};
ghost use Rattle.sag_graph.specs.declared.TheConstants.{MOST_BUDGET};
ghost use Rattle.sag_graph.specs.Budget.{spent};
ghost use Rattle.sag_graph.specs.Graph.{graph_of};
ghost use Rattle.side_csv.specs.ScenarioRows.{scenario_text};
ghost use Rattle.what_if.specs.Faults.{IsOverBudget};
ghost use Rattle.sag_engine.specs.Gap.{IsGapOutput, TrialJudged, gap_plan};
ghost use Rattle.sag_engine.specs.RunEnds.{Judged, Runs};

use crate::conclusion::Conclusion;
use crate::halt::{Halt, refused};
use crate::inputs::read_table;
use crate::outputs::{close_spent, print};
use gap_report::{last_trial, write_gap};
use gap_trials::{gap, trial};
use graph_builder::LevelFault;
use graph_memory::{BuildAnswer, Graph, build};
use job_model::JobTable;
use sag_edge::{FileName, Files, Sink};
use sag_texts::Fault;
use side_csv::write_scenario;
use std::alloc::{AllocError, Global};

// The trial that is asked for, if the table has one of that number.
fn known_trial(table: &JobTable, asked: Option<u32>) -> Result<Option<u32>, Halt>
    ensures { Judged (λ known. known) (TrialJudged table.now asked) result }
{
    let Some(k) = asked else {
        return Ok(None);
    };
    let most = last_trial(table);
    if most < k {
        return refused(Fault::NoTrial { trial: k, most });
    }
    Ok(Some(k))
}

// The comparison of the graph with the runs of all trials, as it is printed.
fn comparison_of(
    alloc: Global,
    table: &JobTable,
    cores: u16,
    graph: &Graph,
) -> Result<Vec<u8>, AllocError>
    requires some_core { 1 ≤ cores }
    requires few_cores { cores ≤ MOST_CORES }
    requires graph { graph.now ≡ graph_of table.now cores }
    ensures { IfOk result (λ text. IsGapOutput table.now cores None text.items) }
{
    let rows = gap(alloc, table, cores, graph)?;
    write_gap(alloc, &rows)
}

// The scenario of the trial, as it is printed.
fn scenario_of(
    alloc: Global,
    table: &JobTable,
    cores: u16,
    graph: &Graph,
    k: u32,
) -> Result<Vec<u8>, AllocError>
    requires some_core { 1 ≤ cores }
    requires few_cores { cores ≤ MOST_CORES }
    requires graph { graph.now ≡ graph_of table.now cores }
    requires trial { k ≤ last_trial table.now }
    ensures { IfOk result (λ text. text.items ≡ scenario_text table.now (trial_of table.now cores k)) }
{
    let scenario = trial(alloc, table, cores, graph, k)?;
    write_scenario(alloc, table, &scenario)
}

// What is printed, unless the graph exceeds the budget.
fn output_of(
    alloc: Global,
    table: &JobTable,
    cores: u16,
    budget: u32,
    known: Option<u32>,
) -> Result<Vec<u8>, LevelFault>
    requires some_core { 1 ≤ cores }
    requires few_cores { cores ≤ MOST_CORES }
    requires some_budget { 1 ≤ budget }
    requires small_budget { budget ≤ MOST_BUDGET }
    requires trial { IfSome known (λ k. k ≤ last_trial table.now) }
    ensures output { IfOk result (λ text. IsGapOutput table.now cores known text.items) }
    ensures within { OnOk result (spent table.now cores budget ≡ None) }
    ensures over { IfErr result (IsOverBudget table.now cores budget) }
{
    match build(alloc, table, cores, budget) {
        Ok(graph) => match known {
            None => Ok(comparison_of(alloc, table, cores, &graph)?),
            Some(k) => Ok(scenario_of(alloc, table, cores, &graph, k)?),
        },
        Err(
            BuildAnswer::Spent {
                level,
                states,
                edges,
                ..
            },
        ) => Err(LevelFault::Spent {
            level,
            states,
            edges,
        }),
        Err(BuildAnswer::Memory) => Err(LevelFault::Memory),
    }
}

/// `gap JOBS [--prec FILE] [--cores N] [--budget N] [--trial K]`: prints each job's interval beside the finishes that trials
/// attain, or the scenario of a trial.
pub(crate) fn run_gap<F: Files, O: Sink>(
    alloc: Global,
    files: &mut F,
    out: &mut O,
    jobs: FileName,
    prec: Option<FileName>,
    cores: u16,
    budget: u32,
    trial: Option<u32>,
) -> Result<Conclusion, Halt>
    requires some_core { 1 ≤ cores }
    requires few_cores { cores ≤ MOST_CORES }
    requires some_budget { 1 ≤ budget }
    requires small_budget { budget ≤ MOST_BUDGET }
    ensures { Runs (gap_plan jobs prec cores budget trial) (F.seen files.old) (F.seen files.new)
        (O.seen out.old) (O.seen out.new) result }
{
    let table = read_table(alloc, files, jobs, prec)?;
    let known = known_trial(&table, trial)?;
    match output_of(alloc, &table, cores, budget, known) {
        Ok(text) => print(out, &text, Conclusion::Done),
        Err(
            LevelFault::Spent {
                level,
                states,
                edges,
            },
        ) => close_spent(out, level, states, edges),
        Err(LevelFault::Memory) => Err(Halt::Memory),
    }
}
