//! The states that lines give.

ghost use Rattle.std.specs.Prelude.{◌≡◌, ◌≤◌, length, map, IfNone, IfOk, IfSome, IsTrue};
ghost use Rattle.std.specs.List.{AllByRecursion};
ghost use Rattle.job_sets.specs.Subset.{IsSubset, with_number};
ghost use Rattle.sag_time.specs.Sorted.{is_sorted};
ghost use Rattle.start_windows.specs.Window.{is_candidate};
ghost use Rattle.sag_step.specs.Shape.{IsState};
ghost use Rattle.cert_text.specs.Grammar.{second_version};
ghost use Rattle.cert_text.specs.Spelling.{FitsEnd, FitsPairs};
ghost use Rattle.graph_check.specs.Entries.{state_from};
ghost use Rattle.graph_check.specs.Comings.{AreEnds, FindsState, ends_of_line};

use cert_text::{EndOf, Pair};
use job_model::JobTable;
use job_sets::{JobNo, JobSet};
use sag_step::State;
use sag_time::{Avail, Span};
use start_windows::Ends;
use std::alloc::{AllocError, Global};

// The ends that the line gives, if they can be those of a state.
fn ends_of_line(alloc: Global, size: u16, list: &[EndOf]) -> Result<Option<Ends>, AllocError>
    requires { length list.now ≤ second_version.most_items }
    ensures ends { IfOk result (λ found. IfSome found (λ ends. ends.items ≡ ends_of_line list.now)) }
    ensures none { IfOk result (λ found. IfNone found (¬ AreEnds size (ends_of_line list.now))) }
{
    let mut ends = Ends::new(alloc);
    for item in list {
        if item.job >= u64::from(size) {
            return Ok(None);
        }
        let Some(span) = Span::new(item.lo, item.hi) else {
            return Ok(None);
        };
        let is_last = ends.push(JobNo(item.job as u16), span)?;
        if !is_last {
            return Ok(None);
        }
    }
    Ok(Some(ends))
}

// The jobs that the line gives as the last on their cores, if their numbers rise and are of the table.
fn last_of_line(alloc: Global, size: u16, list: &[u64]) -> Result<Option<JobSet>, AllocError>
    ensures last { IfOk result (λ found. IfSome found (λ last. last
        ≡ record { size = size; members = list.now })) }
    ensures none { IfOk result (λ found. IfNone found
        (¬ IsSubset (record { size = size; members = list.now }))) }
{
    let mut last = JobSet::empty(alloc, size)?;
    let mut least = 0;
    for number in list {
        if *number < least {
            return Ok(None);
        }
        if *number >= u64::from(size) {
            return Ok(None);
        }
        last.add(JobNo(*number as u16));
        least = *number + 1;
    }
    Ok(Some(last))
}

// From when on the cores are possibly free, if the numbers are sorted.
fn low_times(alloc: Global, pairs: &[Pair]) -> Result<Option<Avail>, AllocError>
    requires { length pairs.now ≤ second_version.most_pairs }
    ensures times { IfOk result (λ found. IfSome found (λ low. low ≡ map (λ p. p.lo) pairs.now)) }
    ensures none { IfOk result (λ found. IfNone found
        (¬ IsTrue (is_sorted (map (λ p. p.lo) pairs.now)))) }
{
    let times = pairs.iter().map(|pair| pair.lo).collect(alloc)?;
    Ok(Avail::from_list(times))
}

// From when on the cores are certainly free, if the numbers are sorted.
fn high_times(alloc: Global, pairs: &[Pair]) -> Result<Option<Avail>, AllocError>
    requires { length pairs.now ≤ second_version.most_pairs }
    ensures times { IfOk result (λ found. IfSome found (λ high. high ≡ map (λ p. p.hi) pairs.now)) }
    ensures none { IfOk result (λ found. IfNone found
        (¬ IsTrue (is_sorted (map (λ p. p.hi) pairs.now)))) }
{
    let times = pairs.iter().map(|pair| pair.hi).collect(alloc)?;
    Ok(Avail::from_list(times))
}

/// The state of those jobs that a line gives, if it has the shape of one.
pub(crate) fn state_of_line(
    alloc: Global,
    table: &JobTable,
    cores: u16,
    set: JobSet,
    pairs: &[Pair],
    ends: &[EndOf],
    last: &[u64],
) -> Result<Option<State>, AllocError>
    requires cores { 1 ≤ cores }
    requires size { set.size ≡ length table.now.jobs }
    requires pairs { FitsPairs second_version pairs.now }
    requires few_ends { length ends.now ≤ second_version.most_items }
    requires ends { AllByRecursion FitsEnd ends.now }
    ensures { IfOk result (FindsState table.now cores
        (state_from table.now set.members pairs.now ends.now last.now)) }
{
    let _members = set.count();
    let Some(low) = low_times(alloc, pairs)? else {
        return Ok(None);
    };
    let Some(high) = high_times(alloc, pairs)? else {
        return Ok(None);
    };
    let Some(ends) = ends_of_line(alloc, table.len(), ends)? else {
        return Ok(None);
    };
    let Some(last) = last_of_line(alloc, table.len(), last)? else {
        return Ok(None);
    };
    Ok(State::from_parts(table, cores, set, low, high, ends, last))
}

/// The state that a line gives, if it has the shape of one. Its set is that of the parent with the job.
pub(crate) fn child_of_line(
    alloc: Global,
    table: &JobTable,
    cores: u16,
    parent: &State,
    job: JobNo,
    pairs: &[Pair],
    ends: &[EndOf],
    last: &[u64],
) -> Result<Option<State>, AllocError>
    requires parent { IsState table.now cores parent.now.state }
    requires job { IsTrue (is_candidate table.now parent.now.state.set.members job) }
    requires pairs { FitsPairs second_version pairs.now }
    requires few_ends { length ends.now ≤ second_version.most_items }
    requires ends { AllByRecursion FitsEnd ends.now }
    ensures { IfOk result (FindsState table.now cores (state_from table.now
        (with_number job parent.now.state.set.members) pairs.now ends.now last.now)) }
{
    let mut set = parent.set().copy(alloc)?;
    set.add(job);
    let _members = set.count();
    let Some(low) = low_times(alloc, pairs)? else {
        return Ok(None);
    };
    let Some(high) = high_times(alloc, pairs)? else {
        return Ok(None);
    };
    let Some(ends) = ends_of_line(alloc, table.len(), ends)? else {
        return Ok(None);
    };
    let Some(last) = last_of_line(alloc, table.len(), last)? else {
        return Ok(None);
    };
    Ok(parent.child_from_parts(table, cores, job, set, low, high, ends, last))
}
