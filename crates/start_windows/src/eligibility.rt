//! Which jobs may be the next to start.

ghost use Rattle.std.specs.Prelude.{◌≡◌, ◌<◌, ◌↔◌, ◌++◌, [], suc, IfOk, IsSomeAnd, IsTrue, OnOk, length, map, max};
ghost use Rattle.std.specs.Bool.{OnTrue};
ghost use Rattle.std.specs.List.{cons_option, filter_map};
ghost use Rattle.std.specs.Option.{option_map};
ghost use Rattle.job_model.specs.Releases.{IsReleaseOrder, release_order};
ghost use Rattle.job_model.specs.Table.{IsTable};
ghost use Rattle.start_windows.specs.Window as windows;
ghost use Rattle.start_windows.specs.Eligible.{IsFront, eligible_windows};
ghost use Rattle.start_windows.specs.Prospects as prospects;
ghost use Rattle.start_windows.specs.Prospects.{AreProspects, HoldNear, IsBehindOne, IsByUrgency, Walked, cap_behind, capped, freed_by, jobs_of, kept_with, offer_over, prospect_of, sure_with, window_of};

use crate::windows::{candidate, lesser, ready_beside, wait_apart};
use crate::{Ends, StartWindow};
use job_model::JobTable;
use job_sets::{JobNo, JobSet};
use sag_time::Span;
use std::alloc::AllocError;

/// What `eligible` looks up of a candidate.
#[derive(Clone, Copy, PartialEq, Eq, Debug)]
pub struct Prospect {
    job: JobNo,
    // how many jobs are more urgent
    rank: u16,
    // when it is ready at the earliest and at the latest
    earliest: u64,
    latest: u64,
    // its latest release
    released: u64,
    // when its predecessors have finished at the earliest and at the latest
    freed: Freed,
}

// When the last predecessor of a job finishes, at the earliest and at the latest; 0 where none is listed.
#[derive(Clone, Copy, PartialEq, Eq, Debug)]
struct Freed {
    low: u64,
    high: u64,
}

// When the predecessors of the job have finished, by a look at each of them.
fn freed_after(table: &JobTable, ends: &Ends, job: JobNo) -> Freed
    ensures { result ≡ freed_by table.now ends.now.items job }
{
    let mut low = 0;
    let mut high = 0;
    for no in table.preds(job) {
        if let Some(span) = ends.get(*no) {
            low = span.lo().max(low);
            high = span.hi().max(high);
        }
    }
    Freed { low, high }
}

// When the predecessors of the job have finished. Jobs that wait for the same ones often stand side by side, so the last
// one found may know it.
fn freed_beside(table: &JobTable, ends: &Ends, found: &[Prospect], job: JobNo) -> Freed
    requires { AreProspects table.now ends.now.items found.now }
    ensures { result ≡ freed_by table.now ends.now.items job }
{
    if table.preds(job).is_empty() {
        return Freed { low: 0, high: 0 };
    }
    if let Some(other) = found.last() {
        if table.preds(other.job) == table.preds(job) {
            return other.freed;
        }
    }
    freed_after(table, ends, job)
}

// What is looked up of the job, behind others.
fn look_up(table: &JobTable, ends: &Ends, found: &[Prospect], job: JobNo) -> Prospect
    requires job { job < length table.now.jobs }
    requires prospects { AreProspects table.now ends.now.items found.now }
    ensures { result ≡ prospect_of table.now ends.now.items job }
{
    let freed = freed_beside(table, ends, found, job);
    let row = table.job(job);
    Prospect {
        job,
        rank: table.rank(job),
        earliest: row.rmin.max(freed.low),
        latest: row.rmax.max(freed.high),
        released: row.rmax,
        freed,
    }
}

// Whether predecessors may hold the job up after its latest release. Then it may be there sooner for a
// job that shares some of them.
fn is_tied(item: &Prospect) -> bool
    ensures { result ≡ prospects.is_tied item.now }
{
    item.latest != item.released
}

// Whether the release comes after `first` and after the moment of `ready`, if there is one.
fn comes_after(ready: Option<u64>, first: u64, release: u64) -> bool
    ensures { IsTrue result ↔ IsSomeAnd ready (λ t. max first t < release) }
{
    match ready {
        Some(moment) => first.max(moment) < release,
        None => false,
    }
}

// Whether a job of that rank is no less urgent than one of the rank `sure`, if there is one.
fn may_lead(sure: Option<u16>, rank: u16) -> bool
    ensures { result ≡ prospects.may_lead sure rank }
{
    match sure {
        Some(most) => rank <= most,
        None => true,
    }
}

// Appends the item, unless a more urgent one is certainly ready by `moment`: `sure` is the rank of one that is, if one is
// known, and the result that of the most urgent one with the item.
fn keep(
    found: &mut Vec<Prospect>,
    item: &Prospect,
    moment: u64,
    sure: Option<u16>,
) -> Result<Option<u16>, AllocError>
    ensures kept { OnOk result (found.new.items ≡ kept_with sure item.now found.old.items) }
    ensures sure { IfOk result (λ next. next ≡ sure_with moment sure item.now) }
{
    if !may_lead(sure, item.rank) {
        return Ok(sure);
    }
    found.push(*item)?;
    if item.latest <= moment {
        Ok(Some(item.rank))
    } else {
        Ok(sure)
    }
}

// Looks up the candidates by rising release, from the front to the first
// that is released too late to matter, and gives the first moment at which one of them is certainly
// ready. Keeps those before which none so far is certainly ready once a core is possibly free.
fn walk(
    table: &JobTable,
    set: &JobSet,
    ends: &Ends,
    first: Span,
    order: &[(u64, JobNo)],
    front: u16,
    found: &mut Vec<Prospect>,
) -> Result<Option<u64>, AllocError>
    requires size { set.now.size ≡ length table.now.jobs }
    requires order { IsReleaseOrder table.now order.now }
    requires own { order.now ≡ release_order table.now }
    requires front { IsFront table.now set.now.members front }
    ensures table { IsTable table.now }
    ensures prospects { OnOk result (AreProspects table.now ends.now.items found.new.items) }
    ensures collected { IfOk result (λ ready. Walked table.now set.now.members ends.now.items first
        (map (λ e. e.1) order.now) (jobs_of found.new.items) ready) }
{
    found.clear();
    let _count = table.len();
    let mut ready = None;
    let mut sure = None;
    for place in usize::from(front)..order.len() {
        let entry = order[place];
        if comes_after(ready, first.hi(), entry.0) {
            return Ok(ready);
        }
        if candidate(table, set, entry.1) {
            let item = look_up(table, ends, found, entry.1);
            ready = Some(lesser(ready, item.latest));
            sure = keep(found, &item, first.lo(), sure)?;
        }
    }
    Ok(ready)
}

// As `walk`, by falling urgency, and gives the moment by which one of them certainly starts.
fn collect(
    table: &JobTable,
    set: &JobSet,
    ends: &Ends,
    first: Span,
    order: &[(u64, JobNo)],
    front: u16,
    found: &mut Vec<Prospect>,
) -> Result<u64, AllocError>
    requires size { set.now.size ≡ length table.now.jobs }
    requires order { IsReleaseOrder table.now order.now }
    requires own { order.now ≡ release_order table.now }
    requires front { IsFront table.now set.now.members front }
    ensures table { IsTable table.now }
    ensures prospects { OnOk result (AreProspects table.now ends.now.items found.new.items) }
    ensures urgency { OnOk result (IsByUrgency found.new.items) }
    ensures certain { IfOk result (λ w. w ≡ windows.certain_start table.now set.now.members ends.now.items first) }
    ensures near { IfOk result (λ w. HoldNear table.now set.now.members ends.now.items first w (jobs_of found.new.items)) }
{
    let ready = walk(table, set, ends, first, order, front, found)?;
    found.sort_unstable_by_key(|item| item.rank);
    Ok(first.hi().max(ready.unwrap_or(0)))
}

// The window from `est` to `last`, if that is no earlier.
fn window_up_to(est: u64, last: u64) -> Option<StartWindow>
    ensures { result ≡ window_of est (suc last) }
{
    if est <= last {
        Some(StartWindow { est, lst: last })
    } else {
        None
    }
}

// The moment at which the other is certainly ready once the job is. Where they wait for no job together, it is looked up.
fn ready_once(table: &JobTable, ends: &Ends, job: JobNo, other: &Prospect) -> u64
    requires prospect { other.now ≡ prospect_of table.now ends.now.items other.now.job }
    requires job { other.now.job < length table.now.jobs }
    ensures { result ≡ windows.ready_beside table.now ends.now.items job other.now.job }
{
    if wait_apart(table, job, other.job) {
        return other.latest;
    }
    ready_beside(table, ends, job, other.job)
}

// The window from `est` to `last` of a job, but for the moments at which one of these, which are
// more urgent, is certainly there.
fn window_beside(
    table: &JobTable,
    ends: &Ends,
    urgent: &[Prospect],
    job: JobNo,
    est: u64,
    last: u64,
) -> Option<StartWindow>
    requires prospects { AreProspects table.now ends.now.items urgent.now }
    ensures { result ≡ window_of est
        (capped (suc last) (map (windows.ready_beside table.now ends.now.items job) (jobs_of urgent.now))) }
{
    if last < est {
        return None;
    }
    let mut lst = last;
    for other in urgent {
        if other.released <= lst {
            let limit = ready_once(table, ends, job, other);
            if limit <= est {
                return None;
            }
            lst = lst.min(limit - 1);
        }
    }
    Some(StartWindow { est, lst })
}

// The window of a job behind more urgent ones: `last` is the last start before one of them is
// certainly ready, and `tied` are those that predecessors hold up.
fn window_behind(
    table: &JobTable,
    ends: &Ends,
    first: Span,
    last: u64,
    tied: &[Prospect],
    item: &Prospect,
) -> Option<StartWindow>
    requires { AreProspects table.now ends.now.items tied.now }
    ensures { result ≡ window_of (max item.now.earliest first.lo)
        (cap_behind table.now ends.now.items last (jobs_of tied.now) item.now.job) }
{
    let est = item.earliest.max(first.lo());
    if table.preds(item.job).is_empty() {
        window_up_to(est, last)
    } else {
        window_beside(table, ends, tied, item.job, est, last)
    }
}

// Appends the job with its window, if it has one.
fn push_window(
    into: &mut Vec<(JobNo, StartWindow)>,
    job: JobNo,
    window: Option<StartWindow>,
) -> Result<(), AllocError>
    ensures { OnOk result (into.new.items ≡ into.old.items ++ cons_option (option_map (λ w. (job, w)) window) []) }
{
    if let Some(window) = window {
        into.push((job, window))?;
    }
    Ok(())
}

// Whether one of these waits for the same jobs and is released no later: it is there no later, whichever of those jobs
// have finished.
fn is_behind_one(table: &JobTable, held: &[Prospect], item: &Prospect) -> bool
    ensures { OnTrue result (IsBehindOne table.now held.now item.now) }
{
    for other in held {
        if other.released <= item.released && table.preds(other.job) == table.preds(item.job) {
            return true;
        }
    }
    false
}

// Lists the prospects that have a window, with it. They stand by falling urgency, and are in
// disorder after that.
fn windows_by_urgency(
    table: &JobTable,
    ends: &Ends,
    first: Span,
    certain: u64,
    ranked: &mut [Prospect],
    into: &mut Vec<(JobNo, StartWindow)>,
) -> Result<(), AllocError>
    requires table { IsTable table.now }
    requires prospects { AreProspects table.now ends.now.items ranked.old }
    requires urgency { IsByUrgency ranked.old }
    ensures { OnOk result (into.new.items ≡ filter_map
        (offer_over table.now ends.now.items first certain (jobs_of ranked.old)) (jobs_of ranked.old)) }
{
    into.clear();
    // the last start before one of the jobs so far is certainly ready
    let mut last = certain;
    // the tied ones are kept at the start of the list, but for those that another is there before
    let mut tied = 0;
    for place in 0..ranked.len() {
        let item = ranked[place];
        let window = window_behind(table, ends, first, last, &ranked[..tied], &item);
        push_window(into, item.job, window)?;
        if item.latest <= first.lo() {
            return Ok(());
        }
        last = last.min(item.latest - 1);
        if is_tied(&item) && !is_behind_one(table, &ranked[..tied], &item) {
            ranked[tied] = item;
            tied += 1;
        }
    }
    Ok(())
}

/// Lists each job that may be the next to start, with its window, by rising number. `first` has the
/// moments from which a core is possibly and from which one is certainly free. `front` is a place in the
/// order of release before which all jobs are dispatched: 0 always serves, and the walk begins there.
/// `found` is room to work in. After want of memory both lists may hold anything.
pub fn eligible(
    table: &JobTable,
    set: &JobSet,
    ends: &Ends,
    first: Span,
    front: u16,
    found: &mut Vec<Prospect>,
    into: &mut Vec<(JobNo, StartWindow)>,
) -> Result<(), AllocError>
    requires size { set.now.size ≡ length table.now.jobs }
    requires front { IsFront table.now set.now.members front }
    ensures windows { OnOk result (into.new.items ≡ eligible_windows table.now set.now.members ends.now.items first) }
{
    let order = table.by_release();
    let certain = collect(table, set, ends, first, order, front, found)?;
    windows_by_urgency(table, ends, first, certain, found, into)?;
    into.sort_unstable_by_key(|(job, _)| job.0);
    Ok(())
}
