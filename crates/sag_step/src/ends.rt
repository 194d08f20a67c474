//! Lists of finish times: what a step keeps of them, and such lists beside each other.

ghost use Rattle.std.specs.Prelude.{◌≡◌, ◌++◌, ◌<◌, ◌≤◌, ◌&&◌, [], ◌∷◌, All, IfOk, IsTrue, OnOk, Some, false, filter, if◌then◌else◌, length, map, min, nat_lt, not};
ghost use Rattle.std.specs.BTreeMap.{insert_entry};
ghost use Rattle.std.specs.Cmp.Lexicographic.{pointwise};
ghost use Rattle.std.specs.Map.{keys_of};
ghost use Rattle.std.specs.Ordering.{nat_cmp};
ghost use Rattle.job_sets.specs.Subset.{is_member, is_within};
ghost use Rattle.job_model.specs.Table.{predecessors};
ghost use Rattle.lists.specs.Zipped.{zip_with};
ghost use Rattle.start_windows.specs.Ends.{is_above};
ghost use Rattle.sag_step.specs.Next.{cut_ends, ended_by, runs_past, still_last, still_tracked, last_predecessors};
ghost use Rattle.sag_step.specs.State.{is_tracked};
ghost use Rattle.sag_step.specs.Widen.{end_covers, end_hull};

use crate::tracking::is_tracked;
use job_model::JobTable;
use job_sets::{JobNo, JobSet};
use sag_time::Span;
use start_windows::Ends;
use std::alloc::{AllocError, Global};

// Appends the end of the job, if it is tracked.
fn keep(into: &mut Ends, table: &JobTable, set: &JobSet, job: JobNo, finish: Span)
    requires size { set.now.size ≡ length table.now.jobs }
    requires above { IsTrue (is_tracked table.now set.now.members job)
        → IsTrue (is_above job into.old.items) }
    requires room { IsTrue (is_tracked table.now set.now.members job)
        → length into.old.items < into.old.room }
    ensures { into.new ≡ record {
      items = into.old.items ++ still_tracked table.now set.now.members ((job, finish) ∷ []);
      room = into.old.room;
    } }
{
    if is_tracked(table, set, job) {
        into.put(job, finish);
    }
}

// Appends the end of the job that waits, if the other does not come before it, and tells whether
// it still waits.
fn keep_first(
    into: &mut Ends,
    table: &JobTable,
    set: &JobSet,
    job: JobNo,
    finish: Span,
    waits: bool,
    other: JobNo,
) -> bool
    requires size { set.now.size ≡ length table.now.jobs }
    requires above { IsTrue (waits && not (nat_lt other job))
        → IsTrue (is_tracked table.now set.now.members job)
        → IsTrue (is_above job into.old.items) }
    requires room { IsTrue (waits && not (nat_lt other job))
        → IsTrue (is_tracked table.now set.now.members job)
        → length into.old.items < into.old.room }
    ensures waits { result ≡ (waits && nat_lt other job) }
    ensures kept { into.new ≡ record {
      items = into.old.items ++ (if waits && not (nat_lt other job)
          then still_tracked table.now set.now.members ((job, finish) ∷ []) else []);
      room = into.old.room;
    } }
{
    if !waits {
        return false;
    }
    if other < job {
        return true;
    }
    keep(into, table, set, job, finish);
    false
}

// The ends of `from` and that of `job`, as far as they are tracked.
pub(crate) fn keep_tracked(
    into: &mut Ends,
    from: &Ends,
    table: &JobTable,
    set: &JobSet,
    job: JobNo,
    finish: Span,
)
    requires size { set.now.size ≡ length table.now.jobs }
    requires new { is_member job (keys_of from.now.items) ≡ false }
    requires room { length from.now.items < into.old.room }
    ensures { into.new ≡ record {
      items = still_tracked table.now set.now.members
          (insert_entry nat_cmp from.now.items job finish);
      room = into.old.room;
    } }
{
    into.clear();
    let mut waits = true;
    for place in 0..from.len() {
        let (other, span) = from.at(place);
        waits = keep_first(into, table, set, job, finish, waits, other);
        keep(into, table, set, other, span);
    }
    if waits {
        keep(into, table, set, job, finish);
    }
}

// The interval of the job, if it is listed, ends by that moment.
fn end_by(ends: &mut Ends, job: JobNo, moment: u64)
    requires begun { All (λ e. e.0 ≡ job → e.1.lo ≤ moment) ends.old.items }
    ensures { ends.new ≡ record {
      items = map (ended_by (job ∷ []) moment) ends.old.items;
      room = ends.old.room;
    } }
{
    let Some(place) = ends.place_of(job) else {
        return;
    };
    let (_, span) = ends.at(place);
    ends.set_span(place, Span::new(span.lo(), span.hi().min(moment)).unwrap());
}

// The predecessors of the job have finished by its latest start.
pub(crate) fn end_predecessors(ends: &mut Ends, table: &JobTable, job: JobNo, latest: u64)
    requires begun { All (λ e. IsTrue (is_member e.0 (predecessors table.now job)) → e.1.lo ≤ latest)
        ends.old.items }
    ensures { ends.new ≡ record {
      items = cut_ends table.now job latest ends.old.items;
      room = ends.old.room;
    } }
{
    for before in table.preds(job) {
        end_by(ends, *before, latest);
    }
}

// Whether the job stays last on its core: it runs on after that moment, and others wait for it.
fn stays_last(table: &JobTable, set: &JobSet, latest: u64, job: JobNo, finish: Span) -> bool
    requires { set.now.size ≡ length table.now.jobs }
    ensures { result ≡ (nat_lt latest finish.lo && is_tracked table.now set.now.members job) }
{
    latest < finish.lo() && is_tracked(table, set, job)
}

// Removes the jobs that do not stay last on their cores. All are listed.
fn keep_staying(into: &mut JobSet, ends: &Ends, table: &JobTable, set: &JobSet, latest: u64)
    requires size { set.now.size ≡ length table.now.jobs }
    requires sizes { into.old.size ≡ set.now.size }
    requires jobs { All (λ e. e.0 < set.now.size) ends.now.items }
    requires listed { IsTrue (is_within into.old.members (keys_of ends.now.items)) }
    ensures size { into.new.size ≡ into.old.size }
    ensures members { into.new.members ≡ filter (λ i. runs_past ends.now.items latest i
        && is_tracked table.now set.now.members i) into.old.members }
{
    for place in 0..ends.len() {
        let (other, finish) = ends.at(place);
        if into.has(other) && !stays_last(table, set, latest, other, finish) {
            into.remove(other);
        }
    }
}

// The jobs that are last on their cores once the job has started.
pub(crate) fn keep_last(
    into: &mut JobSet,
    last: &JobSet,
    ends: &Ends,
    table: &JobTable,
    set: &JobSet,
    job: JobNo,
    latest: u64,
)
    requires size { set.now.size ≡ length table.now.jobs }
    requires sizes { into.old.size ≡ set.now.size }
    requires last { last.now.size ≡ set.now.size }
    requires jobs { All (λ e. e.0 < set.now.size) ends.now.items }
    requires listed { IsTrue (is_within last.now.members (keys_of ends.now.items)) }
    requires job { job < set.now.size }
    ensures { into.new ≡ record {
      size = last.now.size;
      members = still_last table.now set.now.members ends.now.items last.now.members job latest;
    } }
{
    into.copy_from(last);
    let _size = into.size();
    keep_staying(into, ends, table, set, latest);
    if is_tracked(table, set, job) {
        into.add(job);
    }
}

// How many predecessors of the job are last on their cores, up to a number.
pub(crate) fn count_last(table: &JobTable, last: &JobSet, job: JobNo, most: u16) -> u16
    requires { last.now.size ≡ length table.now.jobs }
    ensures { result ≡ min (last_predecessors table.now last.now.members job) most }
{
    let mut count: usize = 0;
    for no in table.preds(job) {
        if last.has(*no) {
            count += 1;
        }
    }
    count.min(usize::from(most)) as u16
}

// An equal list, with room for its own items.
pub(crate) fn copy_ends(alloc: Global, ends: &Ends) -> Result<Ends, AllocError>
    ensures { IfOk result (λ copy. copy
        ≡ record { items = ends.now.items; room = length ends.now.items }) }
{
    let mut copy = Ends::with_room(alloc, ends.len())?;
    for place in 0..ends.len() {
        let (job, span) = ends.at(place);
        copy.put(job, span);
    }
    Ok(copy)
}

// Takes over the items of `from`, into the room that is there where it is enough.
pub(crate) fn assign_ends(alloc: Global, into: &mut Ends, from: &Ends) -> Result<(), AllocError>
    ensures { OnOk result (into.new.items ≡ from.now.items) }
{
    if into.room() < from.len() {
        *into = copy_ends(alloc, from)?;
        return Ok(());
    }
    into.clear();
    for place in 0..from.len() {
        let (job, span) = from.at(place);
        into.put(job, span);
    }
    Ok(())
}

// Whether each interval of `narrow` is in that of `wide`.
pub(crate) fn cover_ends(wide: &Ends, narrow: &Ends) -> bool
    requires { keys_of wide.now.items ≡ keys_of narrow.now.items }
    ensures { result ≡ pointwise end_covers wide.now.items narrow.now.items }
{
    for place in 0..wide.len() {
        let (_, outer) = wide.at(place);
        let (_, inner) = narrow.at(place);
        if !outer.covers(inner) {
            return false;
        }
    }
    true
}

// Each interval becomes its hull with that of `other`.
pub(crate) fn widen_ends(ends: &mut Ends, other: &Ends)
    requires { keys_of ends.old.items ≡ keys_of other.now.items }
    ensures { ends.new ≡ record {
      items = zip_with end_hull ends.old.items other.now.items;
      room = ends.old.room;
    } }
{
    for place in 0..ends.len() {
        let (_, own) = ends.at(place);
        let (_, more) = other.at(place);
        ends.set_span(place, own.hull(more));
    }
}
