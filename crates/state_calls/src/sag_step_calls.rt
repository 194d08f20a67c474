//! Worked states, and steps between them.

ghost use Rattle.std.specs.Prelude.{◌≡◌, ◌<◌, ◌≤◌, IfOk, IfSome, length};
ghost use Rattle.sag_step.specs.Shape.{Shaped};

mod merging;
mod shape;

use job_model::{Job, JobTable};
use job_sets::JobNo;
use sag_step::{
    State, StateNo, Steps, finish_is_up_to, hull_is_shaped, hull_is_state, hull_is_up_to,
    next_is_shaped, next_is_state, next_is_up_to, root_is_shaped, scratch_has_room,
    shape_is_tested, shaped_are_comparable, some_step_is_left, state_hull_is_least,
    widening_is_reflexive, widening_is_transitive,
};
use sag_time::Span;
use start_windows::window;
use std::alloc::{AllocError, Global};
use std::marker::Brand;
use std::sync::ledger::{Blank, Ledger};

fn job(task: u64, cmin: u64, cmax: u64) -> Job {
    Job {
        task,
        job: 1,
        rmin: 0,
        rmax: 0,
        cmin,
        cmax,
        deadline: 10,
        priority: task,
    }
}

// The table of these rows, in which that job waits for the first.
fn waiting(alloc: Global, rows: &[Job], after: JobNo) -> Option<JobTable> {
    let table = JobTable::from_rows(alloc, rows.to_vec(alloc).ok()?).ok()?;
    if after.0 >= table.len() {
        return None;
    }
    let edges = [(JobNo(0), after)];
    table.with_edges(alloc, &edges).ok()
}

// Three jobs, of which the last waits for the first.
fn table(alloc: Global) -> Option<JobTable> {
    waiting(alloc, &[job(1, 2, 4), job(2, 1, 1), job(3, 1, 2)], JobNo(2))
}

// The state after these jobs have started one after another, if each may be the next to start.
fn walk<L: Ledger>(
    alloc: Global,
    table: &JobTable,
    cores: u16,
    path: &[JobNo],
    blank: Blank,
) -> Result<Option<State>, AllocError>
    requires name { blank.name ≡ L.name }
    requires parts { blank.parts ≡ L.parts }
    requires some { 0 < L.parts }
    requires cores { 0 < cores }
    requires short { length path.now ≤ 3 }
    ensures { IfOk result (λ end. IfSome end (λ s. Shaped table.now cores s.state)) }
{
    root_is_shaped();
    next_is_state();
    next_is_up_to();
    scratch_has_room();
    let mut state = State::root(alloc, table, cores)?;
    let mut steps = Steps::<L>::new(blank);
    for place in 0..path.len() {
        let no = path[place];
        if no.0 >= table.len() {
            return Ok(None);
        }
        let first = state.first_core();
        let Some(found) = window(table, state.set(), state.ends(), first, no) else {
            return Ok(None);
        };
        let mut next = State::scratch(alloc, table, cores)?;
        if state.set().has(no) {
            return Ok(None);
        }
        state.step_into(table, no, found, &mut next, &mut steps);
        if !next.is_child(&state, table, cores, no) {
            return Ok(None);
        }
        state = next;
    }
    Ok(Some(state))
}

// The state that this path leads to on two cores.
fn end_of(alloc: Global, table: &JobTable, path: &[JobNo]) -> Option<State>
    requires { length path.now ≤ 3 }
    ensures { IfSome result (λ s. Shaped table.now 2 s.state) }
{
    walk::<Brand>(alloc, table, 2, path, Blank::new(1)).ok()?
}

// Whether the state has these availabilities of two cores, this end of the first job, and so many jobs
// that are last on their cores.
fn shows(state: &State, low: [u64; 2], high: [u64; 2], end: Option<Span>, last: u16) -> bool {
    state.low().as_slice() == low.as_slice()
        && state.high().as_slice() == high.as_slice()
        && state.ends().get(JobNo(0)) == end
        && state.last().count() == last
}

// Whether the path leads to such a state.
fn leads_to(
    alloc: Global,
    table: &JobTable,
    path: &[JobNo],
    low: [u64; 2],
    high: [u64; 2],
    end: Option<Span>,
    last: u16,
) -> bool
    requires { length path.now ≤ 3 }
{
    let Some(state) = end_of(alloc, table, path) else {
        return false;
    };
    shows(&state, low, high, end, last)
}

// How many jobs of how many have started, how many ends there are, and for how many there is room,
// once the first job has started; and the last two of a copy.
fn counts(alloc: Global, table: &JobTable) -> Option<([u16; 4], [u16; 2])> {
    let state = end_of(alloc, table, &[JobNo(0)])?;
    let copy = state.copy(alloc).ok()?;
    Some((
        [
            state.set().count(),
            state.set().size(),
            state.ends().len(),
            state.room(),
        ],
        [copy.ends().len(), copy.room()],
    ))
}

#[test]
fn a_step_takes_the_first_core(rt: HostRuntime) {
    let alloc = rt.alloc();
    let Some(table) = table(alloc) else {
        panic!(rt; "the rows keep the rules");
    };
    assert!(rt; end_of(alloc, &table, &[JobNo(2)]).is_none());
    assert!(rt;
        leads_to(
            alloc,
            &table,
            &[JobNo(0)],
            [0, 2],
            [0, 4],
            Span::new(2, 4),
            1
        )
    );
    assert_eq!(rt; counts(alloc, &table), Some(([1, 3, 1, 3], [1, 1])));
    assert!(rt; StateNo(1) < StateNo(2));
}

#[test]
fn laws_can_be_called() {
    root_is_shaped();
    some_step_is_left();
    next_is_shaped();
    next_is_state();
    next_is_up_to();
    finish_is_up_to();
    scratch_has_room();
    shape_is_tested();
    shaped_are_comparable();
    hull_is_shaped();
    hull_is_state();
    hull_is_up_to();
    state_hull_is_least();
    widening_is_reflexive();
    widening_is_transitive();
}

// Three jobs of which the first is released from 0 to 5.
fn jitter(alloc: Global) -> Option<JobTable> {
    let mut rows = [job(1, 10, 10), job(2, 3, 3), job(3, 4, 4)];
    rows[0].rmax = 5;
    JobTable::from_rows(alloc, rows.to_vec(alloc).ok()?).ok()
}

#[test]
fn a_step_of_a_job_with_jitter_starts_at_once(rt: HostRuntime) {
    let alloc = rt.alloc();
    let Some(table) = jitter(alloc) else {
        panic!(rt; "the rows keep the rules");
    };
    assert!(rt; leads_to(alloc, &table, &[JobNo(0)], [0, 10], [0, 10], None, 0));
}

#[test]
fn one_core_is_free_for_each_last_predecessor(rt: HostRuntime) {
    let alloc = rt.alloc();
    let rows = [job(1, 3, 3), job(2, 3, 7), job(3, 1, 1)];
    let Some(table) = waiting(alloc, &rows, JobNo(2)) else {
        panic!(rt; "the rows keep the rules");
    };
    let all = [JobNo(0), JobNo(1), JobNo(2)];
    assert!(rt; leads_to(alloc, &table, &all, [3, 4], [4, 7], None, 0));
}
