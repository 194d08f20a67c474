//! Parts that have the shape of a state, and parts that do not.

ghost use Rattle.std.specs.Prelude.{IfOk, IfSome, IsTrue, nat_le, ◌≡◌};
ghost use Rattle.std.specs.List.{list_all};
ghost use Rattle.sag_step.specs.Shape.{Shaped};
ghost use Rattle.sag_step.specs.declared.TheConstants.{MOST_TIME};

use super::table;
use job_model::JobTable;
use job_sets::{JobNo, JobSet};
use sag_step::{MOST_TIME, State};
use sag_time::{Avail, Span};
use start_windows::Ends;
use std::alloc::{AllocError, Global};

// Whether these times may stand in a state.
fn in_limit(times: &[u64]) -> bool
    ensures { result ≡ list_all (λ t. nat_le t MOST_TIME) times.now }
{
    times.iter().all(|time| *time <= MOST_TIME)
}

// The set of so many first jobs.
fn set_of(alloc: Global, size: u16, started: u16) -> Result<JobSet, AllocError>
    ensures { IfOk result (λ s. s.size ≡ size) }
{
    let mut set = JobSet::empty(alloc, size)?;
    for no in 0..started.min(size) {
        set.add(JobNo(no));
    }
    Ok(set)
}

// The list of that end, if there is one.
fn ends_of(alloc: Global, end: Option<(JobNo, Span)>) -> Option<Ends>
    ensures { IfSome result (λ ends.
        IsTrue (list_all (λ e. nat_le e.1.hi MOST_TIME) ends.items)) }
{
    let mut ends = Ends::with_room(alloc, 1).ok()?;
    let Some((job, span)) = end else {
        return Some(ends);
    };
    if span.hi() > MOST_TIME {
        return None;
    }
    ends.put(job, span);
    Some(ends)
}

// The list of these times, if they may stand in a state.
fn avail(alloc: Global, times: &[u64]) -> Option<Avail>
    ensures { IfSome result (λ a. IsTrue (list_all (λ t. nat_le t MOST_TIME) a)) }
{
    if times.len() > 64 || !in_limit(times) {
        return None;
    }
    Avail::from_list(times.to_vec(alloc).ok()?)
}

// The sets of so many first jobs.
fn sets_of(alloc: Global, size: u16, counts: (u16, u16)) -> Option<(JobSet, JobSet)>
    ensures { IfSome result (λ sets. (sets.0.size ≡ size) × (sets.1.size ≡ size)) }
{
    let (started, last) = counts;
    let set = set_of(alloc, size, started).ok()?;
    let last = set_of(alloc, size, last).ok()?;
    Some((set, last))
}

// The two lists of these times, if they may stand in a state.
fn avails(alloc: Global, low: &[u64], high: &[u64]) -> Option<(Avail, Avail)>
    ensures { IfSome result (λ both. IsTrue (list_all (λ t. nat_le t MOST_TIME) both.0)
        × IsTrue (list_all (λ t. nat_le t MOST_TIME) both.1)) }
{
    let low = avail(alloc, low)?;
    let high = avail(alloc, high)?;
    Some((low, high))
}

// The state of these parts, in which the first of the jobs have started and the first of these are the last on their
// cores, if it is one on so many cores.
pub(super) fn parts(
    alloc: Global,
    table: &JobTable,
    cores: u16,
    counts: (u16, u16),
    low: &[u64],
    high: &[u64],
    end: Option<(JobNo, Span)>,
) -> Option<State>
    ensures { IfSome result (λ s. Shaped table.now cores s.state) }
{
    let (set, last) = sets_of(alloc, table.len(), counts)?;
    let (low, high) = avails(alloc, low, high)?;
    let ends = ends_of(alloc, end)?;
    State::from_parts(table, cores, set, low, high, ends, last)
}

// Whether these parts are a state, where the first of these jobs finishes from 2 to 4.
fn are_state(
    alloc: Global,
    table: &JobTable,
    cores: u16,
    counts: (u16, u16),
    low: &[u64],
    high: &[u64],
    listed: &[u16],
) -> bool {
    let Some(span) = Span::new(2, 4) else {
        return false;
    };
    let end = match listed.first() {
        Some(no) => Some((JobNo(*no), span)),
        None => None,
    };
    parts(alloc, table, cores, counts, low, high, end).is_some()
}

#[test]
fn parts_have_the_shape_of_a_state(rt: HostRuntime) {
    let alloc = rt.alloc();
    let Some(table) = table(alloc) else {
        panic!(rt; "the rows keep the rules");
    };
    let cases: [(u16, (u16, u16), &[u64], &[u64], &[u16], bool); 9] = [
        (2, (1, 1), &[0, 2], &[0, 4], &[0], true),
        (2, (1, 0), &[0, 2], &[0, 4], &[0], true),
        (0, (1, 1), &[], &[], &[0], false),
        (1, (1, 1), &[0, 2], &[0, 4], &[0], false),
        (2, (1, 1), &[0, 2], &[4], &[0], false),
        (2, (1, 1), &[0, 5], &[0, 4], &[0], false),
        (2, (1, 2), &[0, 2], &[0, 4], &[0], false),
        (2, (1, 0), &[0, 2], &[0, 4], &[], false),
        (2, (1, 1), &[0, 2], &[0, 4], &[1], false),
    ];
    for (cores, jobs, low, high, listed, expected) in cases {
        assert_eq!(rt;
            are_state(alloc, &table, cores, jobs, low, high, listed),
            expected
        );
    }
}
