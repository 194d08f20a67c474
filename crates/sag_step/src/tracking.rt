//! Which dispatched jobs others still wait for, and whether a list has the ends of exactly these.

ghost use Rattle.std.specs.Prelude.{◌≡◌, ◌<◌, ◌≤◌, ◌↔◌, ◌&&◌, ℕ, ◌∷◌, All, IfNone, IfSome, IsTrue, List, Some, drop, false, filter, length, nat_eq, slice_get};
ghost use Rattle.std.specs.Cmp.Lexicographic.{pointwise};
ghost use Rattle.std.specs.Map.{keys_of};
ghost use Rattle.job_sets.specs.Subset.{IsSubset, is_member, is_within, with_number};
ghost use Rattle.start_windows.specs.Ends.{IsEnds};
ghost use Rattle.sag_step.specs.State.{is_tracked, tracked_jobs};
ghost use Rattle.sag_step.specs.Tracks.{PassesJob, begins_below, lists_tracked};

use job_model::JobTable;
use job_sets::{JobNo, JobSet};
use start_windows::Ends;

// Whether some successor of the job is outside the set.
pub(crate) fn is_tracked(table: &JobTable, set: &JobSet, job: JobNo) -> bool
    requires { set.now.size ≡ length table.now.jobs }
    ensures { result ≡ is_tracked table.now set.now.members job }
{
    !set.contains_all(table.succs(job))
}

// Whether the job is in the set, and some successor of it is not.
fn is_tracked_member(table: &JobTable, set: &JobSet, job: JobNo) -> bool
    requires size { set.now.size ≡ length table.now.jobs }
    requires job { job < set.now.size }
    ensures { result ≡ (is_member job set.now.members
        && is_tracked table.now set.now.members job) }
{
    set.has(job) && is_tracked(table, set, job)
}

// Whether the item at the place is of that job.
fn lists_at(ends: &Ends, place: u16, job: JobNo) -> bool
    ensures { IsTrue result ↔ (slice_get (keys_of ends.now.items) place ≡ Some job) }
{
    place < ends.len() && ends.at(place).0 == job
}

// Whether the list has the ends of exactly the tracked jobs of the set.
pub(crate) fn tracks(ends: &Ends, table: &JobTable, set: &JobSet) -> bool
    requires { set.now.size ≡ length table.now.jobs }
    ensures tracked { result ≡ pointwise nat_eq (keys_of ends.now.items)
        (tracked_jobs table.now set.now.members) }
    ensures set { IsSubset set.now }
    ensures ends { IsEnds ends.now }
{
    let count = ends.len();
    let mut place = 0;
    for job in 0..set.size() {
        if is_tracked_member(table, set, JobNo(job)) {
            if !lists_at(ends, place, JobNo(job)) {
                return false;
            }
            place += 1;
        }
    }
    place == count
}

// Goes over a job in a list of the ends of tracked jobs: it is the next one there, or it is not
// tracked.
fn pass_job(ends: &Ends, place: u16, table: &JobTable, set: &JobSet, job: JobNo) -> Option<u16>
    requires size { set.now.size ≡ length table.now.jobs }
    requires within { place ≤ length ends.now.items }
    ensures some { IfSome result (PassesJob table.now
        set.now.members ends.now.items place job) }
    ensures none { IfNone result ((later : List ℕ) → lists_tracked table.now set.now.members
        ends.now.items place (job ∷ later) ≡ false) }
{
    let _count = ends.len();
    if !is_tracked(table, set, job) {
        return Some(place);
    }
    if !lists_at(ends, place, job) {
        return None;
    }
    Some(place + 1)
}

// Whether there is an item at the place, of a job below that one.
fn is_below_at(ends: &Ends, place: u16, job: JobNo) -> bool
    ensures { result ≡ begins_below job (drop place ends.now.items) }
{
    place < ends.len() && ends.at(place).0 < job
}

// Whether the list has the ends of exactly the tracked jobs of the set among those of `from` and
// the job.
pub(crate) fn tracks_next(
    ends: &Ends,
    from: &Ends,
    table: &JobTable,
    set: &JobSet,
    job: JobNo,
) -> bool
    requires size { set.now.size ≡ length table.now.jobs }
    requires new { is_member job (keys_of from.now.items) ≡ false }
    ensures { result ≡ pointwise nat_eq (keys_of ends.now.items)
        (filter (is_tracked table.now set.now.members) (with_number job (keys_of from.now.items))) }
{
    let mut place = 0;
    let mut at = 0;
    while is_below_at(from, at, job) {
        let Some(next) = pass_job(ends, place, table, set, from.at(at).0) else {
            return false;
        };
        place = next;
        at += 1;
    }
    let Some(mut behind) = pass_job(ends, place, table, set, job) else {
        return false;
    };
    for later in at..from.len() {
        let Some(next) = pass_job(ends, behind, table, set, from.at(later).0) else {
            return false;
        };
        behind = next;
    }
    behind == ends.len()
}

// Whether the list has the ends of exactly the tracked jobs of the set, which is that of `before`
// and the job, where `from` has those of `before`.
pub(crate) fn tracks_child(
    ends: &Ends,
    from: &Ends,
    table: &JobTable,
    set: &JobSet,
    before: &JobSet,
    job: JobNo,
) -> bool
    requires size { set.now.size ≡ length table.now.jobs }
    requires tracked { keys_of from.now.items ≡ tracked_jobs table.now before.now.members }
    requires set { set.now.members ≡ with_number job before.now.members }
    requires new { is_member job before.now.members ≡ false }
    ensures tracked { result ≡ pointwise nat_eq (keys_of ends.now.items)
        (tracked_jobs table.now set.now.members) }
    ensures set { IsSubset set.now }
    ensures ends { IsEnds ends.now }
{
    let _before = before.size();
    let _size = set.size();
    let _count = ends.len();
    tracks_next(ends, from, table, set, job)
}

// Whether each member of the set is listed.
pub(crate) fn lists_all(ends: &Ends, set: &JobSet) -> bool
    requires { All (λ e. e.0 < set.now.size) ends.now.items }
    ensures within { result ≡ is_within set.now.members (keys_of ends.now.items) }
    ensures set { IsSubset set.now }
{
    let mut count = 0;
    for place in 0..ends.len() {
        if set.has(ends.at(place).0) {
            count += 1;
        }
    }
    count == set.count()
}
