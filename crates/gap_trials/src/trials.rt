//! The trials of a table.

ghost use Rattle.std.specs.Prelude.{◌≡◌, ◌≤◌, ◌<◌, [], IfOk, length};
ghost use Rattle.job_model.specs.declared.limits.TheConstants.{MOST_CORES};
ghost use Rattle.job_model.specs.Scenario.{Fits};
ghost use Rattle.job_model.specs.Table.{IsTable};
ghost use Rattle.sag_graph.specs.Graph.{graph_of};
ghost use Rattle.gap_report.specs.Trials.{last_trial};
ghost use Rattle.one_core.specs.Extreme.{extreme as scenario_for};
ghost use Rattle.gap_trials.specs.Trials.{end_of_trial, is_extreme_trial, job_of_trial, trial_of};

use gap_report::plain_trial;
use graph_memory::Graph;
use job_model::{End, JobNo, JobTable, Scenario};
use one_core::extreme;
use std::alloc::{AllocError, Global};

// Whether there is one core and no precedence, and the trial is made for a job.
fn is_extreme_trial(table: &JobTable, cores: u16, k: u32) -> bool
    ensures { result ≡ is_extreme_trial table.now cores k }
{
    4 <= k && (cores == 1 && table.edges().is_empty())
}

// The end that the trial is made for.
fn end_of_trial(k: u32) -> End
    ensures { result ≡ end_of_trial k }
{
    if k % 2 == 0 { End::Best } else { End::Worst }
}

// The job that the trial is made for.
fn job_of_trial(table: &JobTable, k: u32) -> JobNo
    requires first { 4 ≤ k }
    requires last { k ≤ last_trial table.now }
    ensures job { result ≡ job_of_trial k }
    ensures in_range { result < length table.now.jobs }
    ensures table { IsTable table.now }
{
    let _count = table.len();
    JobNo(((k - 4) / 2) as u16)
}

// The scenario for the end that the trial is made for.
fn extreme_trial(
    alloc: Global,
    table: &JobTable,
    graph: &Graph,
    k: u32,
) -> Result<Scenario, AllocError>
    requires no_edges { table.now.edges ≡ [] }
    requires graph { graph.now ≡ graph_of table.now 1 }
    requires first { 4 ≤ k }
    requires last { k ≤ last_trial table.now }
    ensures extreme { IfOk result (λ s. s ≡ scenario_for table.now (graph_of table.now 1) (job_of_trial k) (end_of_trial k)) }
    ensures fits { IfOk result (Fits table.now) }
{
    extreme(alloc, table, graph, job_of_trial(table, k), end_of_trial(k))
}

/// The trial of that number, by the graph of the table on so many cores. On one core without precedence trials 4 + 2 j and
/// 5 + 2 j are the scenarios in which job j finishes at the beginning and at the end of its span; all others need no graph.
pub fn trial(
    alloc: Global,
    table: &JobTable,
    cores: u16,
    graph: &Graph,
    k: u32,
) -> Result<Scenario, AllocError>
    requires some_core { 1 ≤ cores }
    requires few_cores { cores ≤ MOST_CORES }
    requires graph { graph.now ≡ graph_of table.now cores }
    requires trial { k ≤ last_trial table.now }
    ensures trial { IfOk result (λ scenario. scenario ≡ trial_of table.now cores k) }
    ensures fits { IfOk result (Fits table.now) }
{
    if is_extreme_trial(table, cores, k) {
        extreme_trial(alloc, table, graph, k)
    } else {
        plain_trial(alloc, table, k)
    }
}
