//! Worked states, and lists of ends.

ghost use Rattle.std.specs.Prelude.{◌≡◌, IfSome, length};
ghost use Rattle.job_model.specs.Neighbours.{JoinJobs};

use job_model::{JobNo, JobTable};
use job_sets::JobSet;
use sag_time::Span;
use small_tables::{NotATable, blocking, build_table, one_predecessor, wide_release};
use start_windows::{
    Ends, StartWindow, candidate, eligible, front_from, fronts_are_handed_down, window,
};
use std::alloc::Global;
use std::test::Fail;

// A job and the first and the last moment of an interval.
type Item = (u16, u64, u64);

// The dispatched jobs, the end of one of them, and when a core is possibly and when one is certainly
// free; the front, and the windows of the jobs that may be the next.
type Worked<'a> = (&'a [u16], Option<Item>, (u64, u64), u16, &'a [Item]);

// The set of these jobs of the table.
fn set_of(alloc: Global, table: &JobTable, members: &[u16]) -> Option<JobSet>
    ensures { IfSome result (λ set. set.size ≡ length table.now.jobs) }
{
    let mut set = JobSet::empty(alloc, table.len()).ok()?;
    for no in members {
        if *no < table.len() {
            set.add(JobNo(*no));
        }
    }
    Some(set)
}

// The list of that end, if there is one.
fn ends_of(alloc: Global, end: Option<Item>) -> Option<Ends> {
    let mut ends = Ends::with_room(alloc, 1).ok()?;
    if let Some((no, lo, hi)) = end {
        ends.put(JobNo(no), Span::new(lo, hi)?);
    }
    Some(ends)
}

// Whether these are the windows that `eligible` lists, from the front on, and whether the front is at that place.
fn lists(
    alloc: Global,
    table: &JobTable,
    set: &JobSet,
    ends: &Ends,
    first: Span,
    place: u16,
    windows: &[Item],
) -> bool
    requires { set.now.size ≡ length table.now.jobs }
{
    fronts_are_handed_down();
    let front = front_from(table, set, 0);
    let mut found = Vec::new(alloc);
    let mut into = Vec::new(alloc);
    if eligible(table, set, ends, first, front, &mut found, &mut into).is_err() {
        return false;
    }
    front == place && are_windows(&into, windows)
}

// Whether these jobs have these windows.
fn are_windows(listed: &[(JobNo, StartWindow)], windows: &[Item]) -> bool {
    listed.len() == windows.len()
        && listed.iter().zip(windows).all(|(item, other)| (item.0.0, item.1.est, item.1.lst)
            == *other)
}

// The window that stands in the list for the job.
fn window_in(windows: &[Item], no: u16) -> Option<StartWindow> {
    let (_, est, lst) = windows.iter().find(|item| item.0 == no)?;
    Some(StartWindow {
        est: *est,
        lst: *lst,
    })
}

// Whether these are the windows job by job.
fn each_has(table: &JobTable, set: &JobSet, ends: &Ends, first: Span, windows: &[Item]) -> bool
    requires { set.now.size ≡ length table.now.jobs }
{
    for no in 0..table.len() {
        let job = JobNo(no);
        let found = window(table, set, ends, first, job);
        if found != window_in(windows, no) || found.is_some() && !candidate(table, set, job) {
            return false;
        }
    }
    true
}

// Whether the state of the table, if there is one, has that front and these windows.
fn finds(alloc: Global, table: Result<JobTable, NotATable>, worked: Worked) -> bool {
    let (members, end, (lo, hi), front, windows) = worked;
    let Ok(table) = table else {
        return false;
    };
    let Some(set) = set_of(alloc, &table, members) else {
        return false;
    };
    let Some(ends) = ends_of(alloc, end) else {
        return false;
    };
    let Some(first) = Span::new(lo, hi) else {
        return false;
    };
    lists(alloc, &table, &set, &ends, first, front, windows)
        && each_has(&table, &set, &ends, first, windows)
}

#[test]
fn finds_the_windows_of_worked_states(rt: HostRuntime) {
    let alloc = rt.alloc();
    let root: Worked = (&[], None, (0, 0), 0, &[(0, 0, 0), (1, 0, 0)]);
    assert!(rt; finds(alloc, blocking(alloc), root));
    let blocked: Worked = (&[1], None, (2, 3), 0, &[(0, 2, 3)]);
    assert!(rt; finds(alloc, blocking(alloc), blocked));
    let late: Worked = (&[], None, (0, 0), 0, &[(0, 0, 4), (1, 5, 5)]);
    assert!(rt; finds(alloc, wide_release(alloc), late));
}

// Three jobs, of which those wait for the first.
fn waiting(alloc: Global, pairs: &[(JobNo, JobNo)]) -> Result<JobTable, NotATable>
    requires { JoinJobs 3 pairs.now }
{
    let rows = [
        [1, 1, 0, 0, 2, 4, 99, 1],
        [2, 1, 0, 0, 1, 1, 99, 2],
        [3, 1, 0, 0, 1, 2, 99, 3],
    ];
    build_table(alloc, &rows, pairs)
}

#[test]
fn finds_the_windows_of_jobs_with_predecessors(rt: HostRuntime) {
    let alloc = rt.alloc();
    let root: Worked = (&[], None, (0, 0), 0, &[(0, 0, 0)]);
    assert!(rt; finds(alloc, one_predecessor(alloc), root));
    let last: Worked = (&[0, 1], Some((0, 2, 4)), (1, 1), 2, &[(2, 2, 4)]);
    assert!(rt; finds(alloc, one_predecessor(alloc), last));
    // job 1, which waits, is not there before job 0 has finished
    let second: Worked = (&[0], Some((0, 2, 4)), (0, 0), 1, &[(2, 0, 0)]);
    assert!(rt; finds(alloc, waiting(alloc, &[(JobNo(0), JobNo(1))]), second));
    // once job 2 is there, so is job 1
    let shared: Worked = (&[0], Some((0, 2, 4)), (2, 4), 1, &[(1, 2, 4)]);
    let both = [(JobNo(0), JobNo(1)), (JobNo(0), JobNo(2))];
    assert!(rt; finds(alloc, waiting(alloc, &both), shared));
}

// Whether the list takes the item.
fn takes(ends: &mut Ends, no: u16, span: Span) -> Result<bool, Fail> {
    if ends.len() > 9 {
        return Err("the list is short")?;
    }
    Ok(ends.push(JobNo(no), span)?)
}

#[test]
fn keeps_ends_by_rising_number(rt: HostRuntime) -> Result<(), Fail> {
    let early = Span::new(2, 4).ok_or("in order")?;
    let late = Span::new(6, 9).ok_or("in order")?;
    let mut ends = Ends::new(rt.alloc());
    assert!(rt; takes(&mut ends, 3, early)?);
    assert!(rt; !takes(&mut ends, 3, late)?);
    assert!(rt; !takes(&mut ends, 2, late)?);
    assert!(rt; takes(&mut ends, 7, late)?);
    assert!(rt; ends.get(JobNo(3)) == Some(early));
    assert!(rt; ends.get(JobNo(5)).is_none());
    assert_eq!(rt;
        (ends.place_of(JobNo(7)), ends.place_of(JobNo(5))),
        (Some(1), None)
    );
    assert_eq!(rt; ends.room(), 2);
    assert_eq!(rt; ends.len(), 2);
    assert!(rt; ends.at(1) == (JobNo(7), late));
    Ok(())
}

#[test]
fn puts_ends_into_their_room(rt: HostRuntime) -> Result<(), Fail> {
    let early = Span::new(2, 4).ok_or("in order")?;
    let late = Span::new(6, 9).ok_or("in order")?;
    let mut ends = Ends::with_room(rt.alloc(), 1)?;
    ends.put(JobNo(3), early);
    ends.set_span(0, late);
    assert!(rt; ends.get(JobNo(3)) == Some(late));
    ends.clear();
    assert_eq!(rt; ends.len(), 0);
    assert_eq!(rt; ends.room(), 1);
    Ok(())
}
