//! The first time at which a job waits although it need not.

ghost use Rattle.std.specs.Prelude.{◌≡◌, ◌<◌, ◌≤◌, ◌↔◌, IfOk, IfSome, IsTrue, MatchOption, ℕ, length};
ghost use Rattle.run_audit.specs.Entries.{core_at, ready_at, start_at};
ghost use Rattle.run_audit.specs.Orders.{IsOrder};
ghost use Rattle.run_audit.specs.Waits.{FindsUnheld, IsLeastEnd, IsPassed, IsTimeBefore, next_of};

use crate::entries::Entry;
use crate::orders::Moment;
use crate::waits::Waiters;
use job_sets::JobNo;
use std::alloc::{AllocError, Global};

// When the first core is free.
fn first_free(ends: &[u64]) -> Option<u64>
    ensures { MatchOption result (length ends.now ≡ 0) (IsLeastEnd ends.now) }
{
    ends.iter().copied().min()
}

// Now, where a job waits already, or else the next time.
fn now_or_next(first: Option<JobNo>, now: u64, next: Option<u64>) -> Option<u64>
    ensures { result ≡ next_of first now next }
{
    match first {
        Some(_) => Some(now),
        None => next,
    }
}

// The time from which a core is free and a job ready, if that is before the start.
fn time_before(free: u64, next: Option<u64>, start: u64) -> Option<u64>
    ensures { IsTimeBefore free next start result }
{
    let time = free.max(next?);
    if time < start { Some(time) } else { None }
}

// Whether one that waits is more urgent than the job.
fn is_passed(entries: &[Entry], first: &Option<JobNo>, no: JobNo) -> bool
    requires first { IfSome first.now (λ other. other < length entries.now) }
    requires job { no < length entries.now }
    ensures { IsTrue result ↔ IsPassed entries.now first.now no }
{
    match first {
        Some(other) => { entries[usize::from(other.0)].rank <= entries[usize::from(no.0)].rank }
        None => false,
    }
}

/// From start to start: between two, the first moment at which a core is free and a job is ready that
/// starts later; and at a start, whether a job waits that is more urgent than the one that starts.
///
/// It takes O(n log n + n m) steps for n jobs and m cores, whatever the times are.
pub fn first_unheld(
    alloc: Global,
    entries: &[Entry],
    by_start: &[Moment],
    by_ready: &[Moment],
    cores: u16,
) -> Result<Option<u64>, AllocError>
    requires some_core { 1 ≤ cores }
    requires starts { IsOrder (start_at entries.now) (length entries.now) by_start.now }
    requires readies { IsOrder (ready_at entries.now) (length entries.now) by_ready.now }
    requires on_cores { (j : ℕ) → j < length entries.now → core_at entries.now j < cores }
    requires after_ready { (j : ℕ) → j < length entries.now → ready_at entries.now j ≤ start_at entries.now j }
    ensures { IfOk result (FindsUnheld entries.now cores) }
{
    let mut ends: Vec<u64> = vec![in alloc; 0; usize::from(cores)]?;
    let mut waiters = Waiters::new(alloc);
    let mut now = 0;
    let mut first = waiters.advance(entries, by_ready, now)?;
    for (start, no) in by_start {
        let free = first_free(&ends).unwrap();
        let next = now_or_next(first, now, waiters.next(by_ready));
        if let Some(time) = time_before(free, next, *start) {
            return Ok(Some(time));
        }
        now = *start;
        first = waiters.advance(entries, by_ready, now)?;
        if is_passed(entries, &first, *no) {
            return Ok(Some(now));
        }
        let entry = entries[usize::from(no.0)];
        let core = usize::from(entry.core);
        ends[core] = ends[core].max(entry.finish);
    }
    Ok(None)
}
