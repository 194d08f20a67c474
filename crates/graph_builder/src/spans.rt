//! When jobs finish, by the edges so far.

ghost use Rattle.std.specs.Prelude.{◌≡◌, ◌<◌, ◌++◌, [], IfOk, List, None, Some, length, slice_index_or, slice_set};
ghost use Rattle.std.specs.List.{AllByRecursion};
ghost use Rattle.cert_text.specs.Grammar.{most_number};
ghost use Rattle.sag_graph.specs.Spans as hulls;
ghost use Rattle.sag_graph.specs.Spans.{edge_finish, spans_by};
ghost use Rattle.sag_graph.specs.declared.edge.Edge.{Edge};
ghost use Rattle.graph_builder.specs.Fit.{AreEdges, IsEdge};
ghost use Rattle.graph_builder.specs.Writing.{IsSpanUpTo};

use job_model::JobTable;
use job_sets::JobNo;
use sag_graph::Edge;
use sag_time::Span;
use std::alloc::{AllocError, Global};

/// For each job no span.
pub(crate) fn no_spans(alloc: Global, table: &JobTable) -> Result<Vec<Option<Span>>, AllocError>
    ensures { IfOk result (λ spans. spans.items ≡ spans_by table.now []) }
{
    let mut spans = Vec::new(alloc);
    for _ in 0..table.len() {
        spans.push(None)?;
    }
    Ok(spans)
}

// When the job of the edge finishes.
fn finish(table: &JobTable, edge: &Edge) -> Span
    requires { IsEdge table.now most_number edge.now }
    ensures { result ≡ edge_finish table.now edge.now }
{
    let _count = table.len();
    let job = table.job(edge.job);
    Span::new(edge.window.est + job.cmin, edge.window.lst + job.cmax).unwrap()
}

// The least interval that covers both, or the second where there is no first.
fn hull_with(span: Option<Span>, other: Span) -> Span
    ensures { hulls.hull_with span other ≡ Some result }
{
    match span {
        Some(span) => span.hull(other),
        None => other,
    }
}

// Widens the span of the job by another.
fn widen_span(spans: &mut Vec<Option<Span>>, job: JobNo, finish: Span)
    requires { job < length spans.old.items }
    ensures { spans.new.items ≡ slice_set spans.old.items job (hulls.hull_with (slice_index_or spans.old.items job None) finish) }
{
    let place = usize::from(job.0);
    let span = hull_with(spans[place], finish);
    spans[place] = Some(span);
}

/// Widens the spans by these edges.
pub(crate) fn widen(table: &JobTable, spans: &mut Vec<Option<Span>>, edges: &[Edge])
    requires edges { AreEdges table.now most_number edges.now }
    requires count { length spans.old.items ≡ length table.now.jobs }
    requires fit { AllByRecursion (IsSpanUpTo most_number) spans.old.items }
    ensures widened { (before : List Edge) → spans.old.items ≡ spans_by table.now before → spans.new.items ≡ spans_by table.now (before ++ edges.now) }
    ensures fit { AllByRecursion (IsSpanUpTo most_number) spans.new.items }
{
    for i in 0..edges.len() {
        let edge = &edges[i];
        let finish = finish(table, edge);
        widen_span(spans, edge.job, finish);
    }
}
