//! The walk back from an edge, and the scenario that it gives.

ghost use Rattle.std.specs.Prelude.{◌≡◌, [], ◌∷◌, ◌+◌, ◌<◌, IfOk, List, None, length, nat_eq, slice_set};
ghost use Rattle.std.specs.Map.{lookup};
ghost use Rattle.std.specs.Option.{option_map_or};
ghost use Rattle.job_model.specs.Scenario.{Fits};
ghost use Rattle.job_model.specs.Table.{IsTable};
ghost use Rattle.run_meaning.specs.declared.places.Place.{Place};
ghost use Rattle.run_meaning.specs.Legal.{Legal};
ghost use Rattle.run_meaning.specs.Ready.{finish_of};
ghost use Rattle.sag_graph.specs.Graph.{graph_of};
ghost use Rattle.one_core.specs.Extreme as specs;
ghost use Rattle.one_core.specs.Extreme.{end_of_span, own_end, settled_job};
ghost use Rattle.one_core.specs.Walk.{IsOnWalk, latest_rows, overlaid};

use crate::edges::{edge_into, first_with_end, free_by, start_for};
use crate::laws::ends_are_attained;
use graph_memory::Graph;
use graph_valid::each_job_has_edge;
use job_model::{End, JobTable, Scenario};
use job_sets::JobNo;
use sag_graph::Edge;
use sag_time::Span;
use std::alloc::{AllocError, Global};

// For each job its latest release and its greatest cost.
fn latest_rows(alloc: Global, table: &JobTable) -> Result<Vec<(u64, u64)>, AllocError>
    ensures rows { IfOk result (λ rows. rows.items ≡ latest_rows table.now) }
    ensures table { IsTable table.now }
{
    let mut rows = Vec::with_capacity(alloc, usize::from(table.len()))?;
    for i in 0..table.len() {
        let job = table.job(JobNo(i));
        rows.push((job.rmax, job.cmax))?;
    }
    Ok(rows)
}

// Gives the job of the edge the release and the cost by which it finishes at t.
fn settle(table: &JobTable, rows: &mut Vec<(u64, u64)>, edge: &Edge, t: u64)
    requires job { edge.now.job < length table.now.jobs }
    requires rows { length rows.old.items ≡ length table.now.jobs }
    ensures { rows.new.items ≡ slice_set rows.old.items edge.now.job (settled_job table.now edge.now t).1 }
{
    let start = start_for(table, edge, t);
    let release = start.min(table.job(edge.job).rmax);
    rows[usize::from(edge.job.0)] = (release, t - start);
}

// The edge before this one, which starts from level `k + 1`, on the walk, and when its job finishes.
fn edge_before(table: &JobTable, graph: &Graph, k: u16, edge: &Edge, t: u64) -> (Edge, u64)
    requires no_edges { table.now.edges ≡ [] }
    requires graph { graph.now ≡ graph_of table.now 1 }
    requires walk { IsOnWalk table.now graph.now (k + 1) edge.now t }
    ensures walk { IsOnWalk table.now graph.now k result.0 result.1 }
    ensures rest { specs.walk_back table.now graph.now (k + 1) edge.now t
        ≡ settled_job table.now edge.now t ∷ specs.walk_back table.now graph.now k result.0 result.1 }
    ensures alone { lookup (nat_eq edge.now.job) (specs.walk_back table.now graph.now k result.0 result.1) ≡ None }
{
    each_job_has_edge();
    let _count = table.len();
    let level = k + 1;
    let free = free_by(graph.states(level), edge.from);
    let time = start_for(table, edge, t).min(free);
    let before = edge_into(table, graph.edges(level), edge.from, time).unwrap();
    (before, time)
}

// Gives the jobs on the walk back from the edge the releases and costs that the walk settles.
fn walk_back(
    table: &JobTable,
    graph: &Graph,
    from: u16,
    edge: Edge,
    t: u64,
    rows: &mut Vec<(u64, u64)>,
)
    requires no_edges { table.now.edges ≡ [] }
    requires graph { graph.now ≡ graph_of table.now 1 }
    requires walk { IsOnWalk table.now graph.now from edge t }
    requires rows { length rows.old.items ≡ length table.now.jobs }
    ensures { rows.new.items ≡ overlaid table.now rows.old.items (specs.walk_back table.now graph.now from edge t) }
{
    each_job_has_edge();
    let _count = table.len();
    let mut current = edge;
    let mut time = t;
    for k in (0..from).rev() {
        settle(table, rows, &current, time);
        let (before, earlier) = edge_before(table, graph, k, &current, time);
        current = before;
        time = earlier;
    }
    settle(table, rows, &current, time);
}

// That end of the span, or 0 where there is none.
fn end_of(span: Option<Span>, end: End) -> u64
    ensures { result ≡ option_map_or (own_end end) span 0 }
{
    match (span, end) {
        (Some(span), End::Best) => span.lo(),
        (Some(span), End::Worst) => span.hi(),
        (None, _) => 0,
    }
}

/// The scenario for that end of the job's span, from the graph of a table without precedence edges on one
/// core. In each of its legal schedules the job finishes at exactly that end.
pub fn extreme(
    alloc: Global,
    table: &JobTable,
    graph: &Graph,
    job: JobNo,
    end: End,
) -> Result<Scenario, AllocError>
    requires no_edges { table.now.edges ≡ [] }
    requires graph { graph.now ≡ graph_of table.now 1 }
    requires job { job < length table.now.jobs }
    ensures extreme { IfOk result (λ s. s ≡ specs.extreme table.now graph.now job end) }
    ensures fits { IfOk result (Fits table.now) }
    ensures attains { IfOk result (λ s. (schedule : List Place) → Legal table.now 1 s schedule
        → finish_of s schedule job ≡ end_of_span graph.now job end) }
{
    each_job_has_edge();
    ends_are_attained();
    let mut rows = latest_rows(alloc, table)?;
    let t = end_of(graph.span(job), end);
    if let Some((from, edge)) = first_with_end(table, graph, job, end, t) {
        walk_back(table, graph, from, edge, t, &mut rows);
    }
    Ok(Scenario::new(table, rows).unwrap())
}
