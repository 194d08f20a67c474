//! Edges by when their jobs may finish. Nothing is added, so no sum is too great.

ghost use Rattle.std.specs.Prelude.{◌≡◌, ◌<◌, ◌&&◌, ◌==◌, All, find, length, slice_get};
ghost use Rattle.std.specs.Option.{option_map_or};
ghost use Rattle.sag_time.specs.Interval.{holds};
ghost use Rattle.sag_step.specs.State.{first_core, states_of};
ghost use Rattle.sag_graph.specs.Spans.{edge_finish};
ghost use Rattle.one_core.specs.Extreme.{numbered_edges, own_end, start_for};
ghost use Rattle.one_core.specs.Walk.{HaveJobs};

use graph_memory::Graph;
use job_model::{End, JobTable};
use job_sets::JobNo;
use sag_graph::Edge;
use sag_step::{State, StateNo};

/// When the job of the edge starts that finishes at `t`: as late as it can.
pub(crate) fn start_for(table: &JobTable, edge: &Edge, t: u64) -> u64
    requires { edge.now.job < length table.now.jobs }
    ensures { result ≡ start_for table.now edge.now t }
{
    edge.window
        .lst
        .min(t.saturating_sub(table.job(edge.job).cmin))
}

// Whether the job of the edge may finish at t.
fn may_finish_at(table: &JobTable, edge: &Edge, t: u64) -> bool
    requires { edge.now.job < length table.now.jobs }
    ensures { result ≡ holds (edge_finish table.now edge.now) t }
{
    let job = table.job(edge.job);
    job.cmin <= t
        && edge.window.est <= t - job.cmin
        && t.saturating_sub(job.cmax) <= edge.window.lst
}

// Whether that end of the edge is at t.
fn ends_at(table: &JobTable, edge: &Edge, end: End, t: u64) -> bool
    requires { edge.now.job < length table.now.jobs }
    ensures { result ≡ (own_end end (edge_finish table.now edge.now) == t) }
{
    let job = table.job(edge.job);
    match end {
        End::Best => job.cmin <= t && edge.window.est == t - job.cmin,
        End::Worst => job.cmax <= t && edge.window.lst == t - job.cmax,
    }
}

/// The first of the edges that leads to this state and whose job may finish at `t`.
pub(crate) fn edge_into(table: &JobTable, edges: &[Edge], to: StateNo, t: u64) -> Option<Edge>
    requires { HaveJobs table.now edges.now }
    ensures { result ≡ find (λ e. (e.to == to) && holds (edge_finish table.now e) t) edges.now }
{
    for edge in edges {
        if edge.to == to && may_finish_at(table, edge, t) {
            return Some(*edge);
        }
    }
    None
}

// The first of the edges that is of this job and has that end at t.
fn edge_with_end(table: &JobTable, edges: &[Edge], job: JobNo, end: End, t: u64) -> Option<Edge>
    requires { HaveJobs table.now edges.now }
    ensures { result ≡ find (λ e. (e.job == job) && (own_end end (edge_finish table.now e) == t)) edges.now }
{
    for edge in edges {
        if edge.job == job && ends_at(table, edge, end, t) {
            return Some(*edge);
        }
    }
    None
}

/// The first edge of the graph that is of this job and has that end at `t`, with the number of the level
/// that it starts from.
pub(crate) fn first_with_end(
    table: &JobTable,
    graph: &Graph,
    job: JobNo,
    end: End,
    t: u64,
) -> Option<(u16, Edge)>
    requires { All (λ l. HaveJobs table.now l.edges) graph.now.levels }
    ensures { result ≡ find (λ e. (e.1.job == job) && (own_end end (edge_finish table.now e.1) == t))
        (numbered_edges graph.now) }
{
    for k in 0..graph.levels() {
        if let Some(edge) = edge_with_end(table, graph.edges(k), job, end, t) {
            return Some((k.saturating_sub(1), edge));
        }
    }
    None
}

/// From when on the core is certainly free in that one of the states.
pub(crate) fn free_by(states: &[State], from: StateNo) -> u64
    requires { All (λ s. 0 < length s.state.high) states.now }
    ensures { result ≡ option_map_or (λ s. (first_core s).hi) (slice_get (states_of states.now) from) 0 }
{
    match states.get(from.0 as usize) {
        Some(state) => state.high().at(0),
        None => 0,
    }
}
