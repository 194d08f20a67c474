//! The spans of a graph beside the finishes of all trials.

ghost use Rattle.std.specs.Prelude.{◌≡◌, ◌≤◌, IfOk};
ghost use Rattle.job_model.specs.declared.limits.TheConstants.{MOST_CORES};
ghost use Rattle.sag_graph.specs.Graph.{graph_of};
ghost use Rattle.gap_trials.specs.GapMeaning.{AreGapRows};
ghost use Rattle.gap_trials.specs.Steps.{AreSpans};

use crate::trials::trial;
use gap_report::{Gap, GapRow, last_trial, takes_keep_ends};
use graph_memory::Graph;
use graph_valid::each_job_has_edge;
use job_model::{JobNo, JobTable};
use sag_time::Span;
use std::alloc::{AllocError, Global};

// The span of each job.
fn spans_of(
    alloc: Global,
    table: &JobTable,
    cores: u16,
    graph: &Graph,
) -> Result<Vec<Span>, AllocError>
    requires some_core { 1 ≤ cores }
    requires graph { graph.now ≡ graph_of table.now cores }
    ensures { IfOk result (λ spans. AreSpans table.now cores spans.items) }
{
    each_job_has_edge();
    let count = table.len();
    let mut spans = Vec::with_capacity(alloc, usize::from(count))?;
    for j in 0..count {
        spans.push(graph.span(JobNo(j)).unwrap())?;
    }
    Ok(spans)
}

/// A row for each job, by its number: its span in the graph of the table on so many cores, and its least and greatest finish
/// over the legal schedules of all trials, each with the first trial that attains it.
pub fn gap(
    alloc: Global,
    table: &JobTable,
    cores: u16,
    graph: &Graph,
) -> Result<Vec<GapRow>, AllocError>
    requires some_core { 1 ≤ cores }
    requires few_cores { cores ≤ MOST_CORES }
    requires graph { graph.now ≡ graph_of table.now cores }
    ensures { IfOk result (λ rows. AreGapRows table.now cores rows.items) }
{
    takes_keep_ends();
    let _count = table.len();
    let spans = spans_of(alloc, table, cores, graph)?;
    let mut gap = Gap::new(alloc, table, cores);
    for k in 0..last_trial(table) + 1 {
        let scenario = trial(alloc, table, cores, graph, k)?;
        gap.take(&scenario)?;
    }
    gap.rows(&spans)
}
