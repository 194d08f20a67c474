//! The text of a graph's certificate, level by level.

ghost use Rattle.std.specs.Prelude.{◌≡◌, ◌++◌, ◌∷◌, ◌^◌, ◌<◌, ◌≤◌, [], IfOk, OnErr, OnOk, length, map, slice_set, take, unwrap_or};
ghost use Rattle.std.specs.List.{AllByRecursion, list_all};
ghost use Rattle.lists.specs.Numbers.{numbers_below};
ghost use Rattle.cert_text.specs.Grammar.{most_number, second_version};
ghost use Rattle.cert_text.specs.Spelling.{FitsLine};
ghost use Rattle.sag_step.specs.State.{states_of};
ghost use Rattle.sag_graph.specs.Lines as lines;
ghost use Rattle.sag_graph.specs.Lines.{head_lines, level_lines, line_of_edge, line_of_job, no_span, numbered_spans, tail_lines};
ghost use Rattle.graph_builder.specs.Writing.{IsSpanUpTo, IsTimed, IsWritable, edge_lines, job_lines, line_by, origin_at, state_lines, text_of};

use crate::state_line::{Origin, line_of, pairs_of};
use cert_text::{CertLine, Mark, write_line};
use job_model::JobTable;
use job_sets::JobNo;
use sag_graph::Edge;
use sag_step::State;
use sag_time::Span;
use std::alloc::{AllocError, Global};

// Appends the line.
fn append_line(line: &CertLine, into: &mut Vec<u8>) -> Result<(), AllocError>
    requires { FitsLine second_version line.now }
    ensures ok { OnOk result (into.new.items ≡ into.old.items ++ text_of (line.now ∷ [])) }
    ensures err { OnErr result (into.new.items ≡ into.old.items) }
{
    write_line(line, into)
}

/// Appends what stands before the levels.
pub(crate) fn write_head(table: &JobTable, cores: u16, into: &mut Vec<u8>) -> Result<(), AllocError>
    ensures ok { OnOk result (into.new.items ≡ into.old.items ++ text_of (head_lines table.now cores)) }
    ensures err { OnErr result (into.new.items ≡ into.old.items) }
{
    let line = CertLine::Head {
        jobs: u64::from(table.len()),
        cores: u64::from(cores),
    };
    append_line(&line, into)
}

// Notes where the edge comes from for the state that it leads to.
fn note_origin(origins: &mut Vec<Origin>, edge: &Edge)
    ensures { origins.new.items ≡ slice_set origins.old.items edge.now.to
        (record { parent = edge.now.from; job = edge.now.job }) }
{
    let place = edge.to.0 as usize;
    if place < origins.len() {
        origins[place] = Origin {
            parent: edge.from.0,
            job: edge.job.0,
        };
    }
}

// For each of so many states the origin. The first edge to a state is noted last.
fn origins_by(alloc: Global, edges: &[Edge], count: usize) -> Result<Vec<Origin>, AllocError>
    ensures { IfOk result (λ origins. origins.items ≡ map (origin_at edges.now) (numbers_below count)) }
{
    let mut origins = vec![in alloc; Origin { parent: 0, job: 0 }; count]?;
    for i in (0..edges.len()).rev() {
        note_origin(&mut origins, &edges[i]);
    }
    Ok(origins)
}

// Appends the line of a state of that origin.
fn write_state(
    alloc: Global,
    state: &State,
    origin: Origin,
    into: &mut Vec<u8>,
) -> Result<(), AllocError>
    requires { IsWritable state.now.state }
    ensures ok { OnOk result (into.new.items ≡ into.old.items ++ text_of (line_by origin state.now.state ∷ [])) }
    ensures err { OnErr result (into.new.items ≡ into.old.items) }
{
    let line = line_of(alloc, state, origin)?;
    append_line(&line, into)
}

// Appends the lines of the states.
fn write_states(
    alloc: Global,
    states: &[State],
    edges: &[Edge],
    into: &mut Vec<u8>,
) -> Result<(), AllocError>
    requires { AllByRecursion IsWritable (states_of states.now) }
    ensures ok { OnOk result (into.new.items
        ≡ into.old.items ++ text_of (state_lines edges.now 0 (states_of states.now))) }
    ensures begins { take (length into.old.items) into.new.items ≡ into.old.items }
{
    let origins = origins_by(alloc, edges, states.len())?;
    for i in 0..states.len() {
        write_state(alloc, &states[i], origins[i], into)?;
    }
    Ok(())
}

// Appends the line of an edge.
fn write_edge(edge: &Edge, into: &mut Vec<u8>) -> Result<(), AllocError>
    requires { IsTimed edge.now }
    ensures ok { OnOk result (into.new.items ≡ into.old.items ++ text_of (line_of_edge edge.now ∷ [])) }
    ensures err { OnErr result (into.new.items ≡ into.old.items) }
{
    let line = CertLine::Edge {
        from: u64::from(edge.from.0),
        job: u64::from(edge.job.0),
        est: edge.window.est,
        lst: edge.window.lst,
        to: u64::from(edge.to.0),
    };
    append_line(&line, into)
}

// Appends the lines of the edges.
fn write_edges(edges: &[Edge], into: &mut Vec<u8>) -> Result<(), AllocError>
    requires { AllByRecursion IsTimed edges.now }
    ensures ok { OnOk result (into.new.items ≡ into.old.items ++ text_of (edge_lines edges.now)) }
    ensures begins { take (length into.old.items) into.new.items ≡ into.old.items }
{
    for i in 0..edges.len() {
        write_edge(&edges[i], into)?;
    }
    Ok(())
}

// Appends level 0, or a part of it.
fn put_root(alloc: Global, states: &[State], into: &mut Vec<u8>) -> Result<(), AllocError>
    requires one { length states.now ≡ 1 }
    requires states { AllByRecursion IsWritable (states_of states.now) }
    ensures ok { OnOk result (into.new.items ≡ into.old.items
        ++ text_of (level_lines (0, record { states = states_of states.now; edges = [] }))) }
    ensures begins { take (length into.old.items) into.new.items ≡ into.old.items }
{
    let head = CertLine::Level {
        number: 0,
        count: 1,
    };
    append_line(&head, into)?;
    let line = CertLine::Root {
        pairs: pairs_of(alloc, &states[0])?,
    };
    append_line(&line, into)
}

// Appends a level above level 0, or a part of it.
fn put_block(
    alloc: Global,
    level: u16,
    states: &[State],
    edges: &[Edge],
    into: &mut Vec<u8>,
) -> Result<(), AllocError>
    requires level { 0 < level }
    requires states { AllByRecursion IsWritable (states_of states.now) }
    requires few { length states.now < 2 ^ 32 }
    requires edges { AllByRecursion IsTimed edges.now }
    ensures ok { OnOk result (into.new.items ≡ into.old.items
        ++ text_of (level_lines (level, record { states = states_of states.now; edges = edges.now }))) }
    ensures begins { take (length into.old.items) into.new.items ≡ into.old.items }
{
    let head = CertLine::Level {
        number: u64::from(level),
        count: states.len() as u64,
    };
    append_line(&head, into)?;
    write_states(alloc, states, edges, into)?;
    write_edges(edges, into)
}

// Appends a level, or a part of it.
fn put_level(
    alloc: Global,
    level: u16,
    states: &[State],
    edges: &[Edge],
    into: &mut Vec<u8>,
) -> Result<(), AllocError>
    requires one { level ≡ 0 → length states.now ≡ 1 }
    requires states { AllByRecursion IsWritable (states_of states.now) }
    requires few { length states.now < 2 ^ 32 }
    requires edges { AllByRecursion IsTimed edges.now }
    ensures ok { OnOk result (into.new.items ≡ into.old.items
        ++ text_of (level_lines (level, record { states = states_of states.now; edges = edges.now }))) }
    ensures begins { take (length into.old.items) into.new.items ≡ into.old.items }
{
    if level == 0 {
        return put_root(alloc, states, into);
    }
    put_block(alloc, level, states, edges, into)
}

/// Appends a level, or nothing.
pub(crate) fn write_level(
    alloc: Global,
    level: u16,
    states: &[State],
    edges: &[Edge],
    into: &mut Vec<u8>,
) -> Result<(), AllocError>
    requires one { level ≡ 0 → length states.now ≡ 1 }
    requires states { AllByRecursion IsWritable (states_of states.now) }
    requires few { length states.now < 2 ^ 32 }
    requires edges { AllByRecursion IsTimed edges.now }
    ensures ok { OnOk result (into.new.items ≡ into.old.items
        ++ text_of (level_lines (level, record { states = states_of states.now; edges = edges.now }))) }
    ensures err { OnErr result (into.new.items ≡ into.old.items) }
{
    let before = into.len();
    if put_level(alloc, level, states, edges, into).is_err() {
        into.truncate(before);
        return Err(AllocError);
    }
    Ok(())
}

// By its deadline, or not.
fn mark_of(in_time: bool) -> Mark
    ensures { result ≡ lines.mark_of in_time }
{
    if in_time { Mark::Ok } else { Mark::Miss }
}

// When the job finishes, and 0 where it has no edge.
fn known(span: Option<Span>) -> Span
    ensures { result ≡ unwrap_or span no_span }
{
    match span {
        Some(span) => span,
        None => Span::new(0, 0).unwrap(),
    }
}

// Whether the job finishes by its deadline.
fn is_in_time(table: &JobTable, job: JobNo, span: Span) -> bool
    requires { job < length table.now.jobs }
    ensures { result ≡ lines.is_in_time table.now (job, span) }
{
    span.hi() <= table.job(job).deadline
}

// Appends the line of a job.
fn write_job(table: &JobTable, job: JobNo, span: Span, into: &mut Vec<u8>) -> Result<(), AllocError>
    requires job { job < length table.now.jobs }
    requires fits { span.hi ≤ most_number }
    ensures ok { OnOk result (into.new.items ≡ into.old.items
        ++ text_of (line_of_job table.now (job, span) ∷ [])) }
    ensures err { OnErr result (into.new.items ≡ into.old.items) }
{
    let line = CertLine::Job {
        number: u64::from(job.0),
        lo: span.lo(),
        hi: span.hi(),
        mark: mark_of(is_in_time(table, job, span)),
    };
    append_line(&line, into)
}

// Appends the lines of the jobs.
fn write_jobs(
    table: &JobTable,
    spans: &[Option<Span>],
    into: &mut Vec<u8>,
) -> Result<(), AllocError>
    requires count { length spans.now ≡ length table.now.jobs }
    requires fit { AllByRecursion (IsSpanUpTo most_number) spans.now }
    ensures ok { OnOk result (into.new.items ≡ into.old.items
        ++ text_of (job_lines table.now 0 spans.now)) }
    ensures begins { take (length into.old.items) into.new.items ≡ into.old.items }
{
    for j in 0..table.len() {
        let span = known(spans[usize::from(j)]);
        write_job(table, JobNo(j), span, into)?;
    }
    Ok(())
}

// Whether each job finishes by its deadline.
fn are_in_time(table: &JobTable, spans: &[Option<Span>]) -> bool
    requires { length spans.now ≡ length table.now.jobs }
    ensures { result ≡ list_all (lines.is_in_time table.now) (numbered_spans spans.now) }
{
    for j in 0..table.len() {
        if !is_in_time(table, JobNo(j), known(spans[usize::from(j)])) {
            return false;
        }
    }
    true
}

// Appends what stands after the levels, or a part of it.
fn put_tail(table: &JobTable, spans: &[Option<Span>], into: &mut Vec<u8>) -> Result<(), AllocError>
    requires count { length spans.now ≡ length table.now.jobs }
    requires fit { AllByRecursion (IsSpanUpTo most_number) spans.now }
    ensures ok { OnOk result (into.new.items ≡ into.old.items ++ text_of (tail_lines table.now spans.now)) }
    ensures begins { take (length into.old.items) into.new.items ≡ into.old.items }
{
    write_jobs(table, spans, into)?;
    let verdict = CertLine::Verdict {
        mark: mark_of(are_in_time(table, spans)),
    };
    append_line(&verdict, into)?;
    append_line(&CertLine::End, into)
}

/// Appends what stands after the levels, or nothing.
pub(crate) fn write_tail(
    table: &JobTable,
    spans: &[Option<Span>],
    into: &mut Vec<u8>,
) -> Result<(), AllocError>
    requires count { length spans.now ≡ length table.now.jobs }
    requires fit { AllByRecursion (IsSpanUpTo most_number) spans.now }
    ensures ok { OnOk result (into.new.items ≡ into.old.items ++ text_of (tail_lines table.now spans.now)) }
    ensures err { OnErr result (into.new.items ≡ into.old.items) }
{
    let before = into.len();
    if put_tail(table, spans, into).is_err() {
        into.truncate(before);
        return Err(AllocError);
    }
    Ok(())
}
