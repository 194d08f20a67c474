//! States that are compared, and merged.

ghost use Rattle.std.specs.Prelude.{IfSome, ◌≤◌, length};
ghost use Rattle.sag_step.specs.Shape.{Shaped};

use super::shape::parts;
use super::{end_of, job, leads_to, shows, table, waiting};
use job_model::JobTable;
use job_sets::JobNo;
use sag_step::{State, hull_is_shaped, shaped_are_comparable};
use sag_time::Span;
use std::alloc::Global;

// Whether they touch, and whether the first covers the second. Where they touch, the first absorbs the second.
fn beside(table: &JobTable, cores: u16, one: &mut State, other: &State) -> (bool, bool)
    requires one { Shaped table.now cores one.old.state }
    requires other { Shaped table.now cores other.now.state }
    ensures { Shaped table.now cores one.new.state }
{
    shaped_are_comparable();
    hull_is_shaped();
    if !one.touches(other) {
        return (false, one.covers(other));
    }
    let covers = one.covers(other);
    one.absorb(other);
    (true, covers)
}

// The state of table's first jobs on one core, with that interval of availability and that end of the first job.
fn on_one_core(
    alloc: Global,
    table: &JobTable,
    started: u16,
    interval: (u64, u64),
    latest: u64,
) -> Option<State>
    ensures { IfSome result (λ s. Shaped table.now 1 s.state) }
{
    let end = Span::new(2, latest)?;
    let (low, high) = interval;
    parts(
        alloc,
        table,
        1,
        (started, 1),
        &[low],
        &[high],
        Some((JobNo(0), end)),
    )
}

// How many jobs have started, the interval of the core, and when the first job has finished at the latest.
type Parts = (u16, (u64, u64), u64);

// As `beside`, of a state and that of these parts.
fn beside_parts(
    alloc: Global,
    table: &JobTable,
    one: &mut State,
    other: Parts,
) -> Option<(bool, bool)>
    requires { Shaped table.now 1 one.old.state }
    ensures { Shaped table.now 1 one.new.state }
{
    let (started, interval, latest) = other;
    let other = on_one_core(alloc, table, started, interval, latest)?;
    Some(beside(table, 1, one, &other))
}

// Whether the state is so beside each of these, one after another, of which it absorbs those that it touches; and the end
// of the first job after that.
fn end_beside_all(
    alloc: Global,
    table: &JobTable,
    cases: &[(Parts, (bool, bool))],
) -> Option<Span> {
    let mut one = on_one_core(alloc, table, 1, (6, 6), 4)?;
    for (other, expected) in cases {
        if beside_parts(alloc, table, &mut one, *other) != Some(*expected) {
            return None;
        }
    }
    one.ends().get(JobNo(0))
}

#[test]
fn states_are_compared_and_merged(rt: HostRuntime) {
    let alloc = rt.alloc();
    let Some(table) = table(alloc) else {
        panic!(rt; "the rows keep the rules");
    };
    let cases = [
        ((2, (6, 6), 4), (false, false)),
        ((1, (8, 9), 4), (false, false)),
        ((1, (7, 7), 5), (true, false)),
        ((1, (7, 7), 5), (true, true)),
        ((1, (8, 9), 4), (true, false)),
        ((1, (8, 9), 6), (true, false)),
    ];
    assert_eq!(rt; end_beside_all(alloc, &table, &cases), Span::new(2, 6));
}

// Three jobs of which the second waits for the first, which may be released after the third has started.
fn late_table(alloc: Global) -> Option<JobTable> {
    let mut late = job(1, 2, 4);
    late.rmax = 1;
    waiting(alloc, &[late, job(2, 1, 1), job(3, 1, 1)], JobNo(1))
}

// The state of one path after it has absorbed that of another which it touches and does not cover.
fn merged(alloc: Global, table: &JobTable, one: &[JobNo], other: &[JobNo]) -> Option<State>
    requires one { length one.now ≤ 3 }
    requires other { length other.now ≤ 3 }
{
    let mut state = end_of(alloc, table, one)?;
    let more = end_of(alloc, table, other)?;
    if beside(table, 2, &mut state, &more) != (true, false) {
        return None;
    }
    Some(state)
}

// Whether that state has these availabilities of two cores and this end of the first job.
fn merges_to(
    alloc: Global,
    table: &JobTable,
    one: &[JobNo],
    other: &[JobNo],
    high: [u64; 2],
    end: Option<Span>,
) -> bool
    requires one { length one.now ≤ 3 }
    requires other { length other.now ≤ 3 }
{
    let Some(state) = merged(alloc, table, one, other) else {
        return false;
    };
    shows(&state, [1, 2], high, end, 1)
}

#[test]
fn ends_are_kept_and_widened_until_nobody_waits(rt: HostRuntime) {
    let alloc = rt.alloc();
    let Some(table) = late_table(alloc) else {
        panic!(rt; "the rows keep the rules");
    };
    let sooner = [JobNo(0), JobNo(2)];
    let later = [JobNo(2), JobNo(0)];
    let all = [JobNo(0), JobNo(2), JobNo(1)];
    assert!(rt; leads_to(alloc, &table, &sooner, [1, 2], [1, 4], Span::new(2, 4), 1));
    assert!(rt; leads_to(alloc, &table, &later, [1, 2], [1, 5], Span::new(2, 5), 1));
    assert!(rt; leads_to(alloc, &table, &all, [2, 3], [4, 5], None, 0));
    assert!(rt; !merges_to(alloc, &table, &later, &sooner, [1, 5], Span::new(2, 5)));
    assert!(rt; merges_to(alloc, &table, &sooner, &later, [1, 5], Span::new(2, 5)));
}
