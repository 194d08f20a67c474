//! When a job may start next.

ghost use Rattle.std.specs.Prelude.{◌≡◌, ◌<◌, length, min, not};
ghost use Rattle.std.specs.List.{list_all};
ghost use Rattle.std.specs.Option.{option_map_or};
ghost use Rattle.job_sets.specs.Subset.{is_member};
ghost use Rattle.job_model.specs.Table.{predecessors};
ghost use Rattle.start_windows.specs.Ends as lists;
ghost use Rattle.start_windows.specs.Window as windows;

use crate::{Ends, StartWindow};
use job_model::JobTable;
use job_sets::{JobNo, JobSet};
use sag_time::Span;

/// Whether the job is not dispatched, and all its predecessors are.
pub fn candidate(table: &JobTable, set: &JobSet, job: JobNo) -> bool
    requires size { set.now.size ≡ length table.now.jobs }
    requires job { job < length table.now.jobs }
    ensures { result ≡ windows.is_candidate table.now set.now.members job }
{
    !set.has(job) && set.contains_all(table.preds(job))
}

// The first moment at which the job may finish, or 0 where it is not listed.
fn low_end(ends: &Ends, job: JobNo) -> u64
    ensures { result ≡ lists.low_end ends.now.items job }
{
    ends.get(job).map_or(0, |span| span.lo())
}

// The last moment at which the job may finish, or 0 where it is not listed.
fn high_end(ends: &Ends, job: JobNo) -> u64
    ensures { result ≡ lists.high_end ends.now.items job }
{
    ends.get(job).map_or(0, |span| span.hi())
}

// When the job is ready at the earliest.
fn earliest_ready(table: &JobTable, ends: &Ends, job: JobNo) -> u64
    requires { job < length table.now.jobs }
    ensures { result ≡ windows.earliest_ready table.now ends.now.items job }
{
    let mut ready = table.job(job).rmin;
    for no in table.preds(job) {
        ready = ready.max(low_end(ends, *no));
    }
    ready
}

// When the job is ready at the latest.
fn latest_ready(table: &JobTable, ends: &Ends, job: JobNo) -> u64
    requires { job < length table.now.jobs }
    ensures { result ≡ windows.latest_ready table.now ends.now.items job }
{
    let mut ready = table.job(job).rmax;
    for no in table.preds(job) {
        ready = ready.max(high_end(ends, *no));
    }
    ready
}

// Whether the first job is a predecessor of the second.
fn precedes(table: &JobTable, first: JobNo, second: JobNo) -> bool
    ensures { result ≡ is_member first (predecessors table.now second) }
{
    table.preds(second).contains(&first)
}

// Whether no predecessor of the second job is one of the first.
pub(crate) fn wait_apart(table: &JobTable, first: JobNo, second: JobNo) -> bool
    ensures { result ≡ list_all (λ i. not (is_member i (predecessors table.now first)))
        (predecessors table.now second) }
{
    table
        .preds(second)
        .iter()
        .all(|no| !precedes(table, *no, first))
}

// When `other` is certainly ready once the job is.
pub(crate) fn ready_beside(table: &JobTable, ends: &Ends, job: JobNo, other: JobNo) -> u64
    requires { other < length table.now.jobs }
    ensures { result ≡ windows.ready_beside table.now ends.now.items job other }
{
    let mut ready = table.job(other).rmax;
    for no in table.preds(other) {
        if !precedes(table, *no, job) {
            ready = ready.max(high_end(ends, *no));
        }
    }
    ready
}

// The lesser of a moment and the least so far, if there is one.
pub(crate) fn lesser(least: Option<u64>, moment: u64) -> u64
    ensures { result ≡ option_map_or (λ t. min t moment) least moment }
{
    least.map_or(moment, |t: u64| t.min(moment))
}

// The moment by which some candidate certainly starts.
fn certain_start(table: &JobTable, set: &JobSet, ends: &Ends, first: Span) -> u64
    requires { set.now.size ≡ length table.now.jobs }
    ensures { result ≡ windows.certain_start table.now set.now.members ends.now.items first }
{
    let mut least = None;
    for no in 0..table.len() {
        let job = JobNo(no);
        if candidate(table, set, job) {
            least = Some(lesser(least, latest_ready(table, ends, job)));
        }
    }
    first.hi().max(least.unwrap_or(0))
}

// The moment from which a more urgent candidate is certainly there, if any may be.
fn overtaken_from(table: &JobTable, set: &JobSet, ends: &Ends, job: JobNo) -> Option<u64>
    requires size { set.now.size ≡ length table.now.jobs }
    requires job { job < length table.now.jobs }
    ensures { result ≡ windows.overtaken_from table.now set.now.members ends.now.items job }
{
    let mut least = None;
    for no in 0..table.len() {
        let other = JobNo(no);
        if candidate(table, set, other) && table.urgent(other, job) {
            least = Some(lesser(least, ready_beside(table, ends, job, other)));
        }
    }
    least
}

/// When the job may start as the next one, if it may. `first` has the moments from which a core is
/// possibly and from which one is certainly free.
pub fn window(
    table: &JobTable,
    set: &JobSet,
    ends: &Ends,
    first: Span,
    job: JobNo,
) -> Option<StartWindow>
    requires size { set.now.size ≡ length table.now.jobs }
    requires job { job < length table.now.jobs }
    ensures { result ≡ windows.start_window table.now set.now.members ends.now.items first job }
{
    if !candidate(table, set, job) {
        return None;
    }
    let est = earliest_ready(table, ends, job).max(first.lo());
    let certain = certain_start(table, set, ends, first);
    if certain < est {
        return None;
    }
    match overtaken_from(table, set, ends, job) {
        None => Some(StartWindow { est, lst: certain }),
        Some(limit) if est < limit => Some(StartWindow {
            est,
            lst: certain.min(limit - 1),
        }),
        Some(_) => None,
    }
}
