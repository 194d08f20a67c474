//! When cores have finished the jobs of a set, and how many have by a moment.

ghost use Rattle.std.specs.Prelude.{◌≡◌, ℕ, ◌<◌, ◌≤◌, ◌↔◌, ◌&&◌, ◌==◌, IsTrue, length, map, max, nat_le, nat_lt, slice_index};
ghost use Rattle.job_sets.specs.Subset.{IsSubset, is_member};
ghost use Rattle.lists.specs.Numbers.{greatest};
ghost use Rattle.job_model.specs.Scenario.{Fits};
ghost use Rattle.run_meaning.specs.Legal.{Legal};
ghost use Rattle.run_meaning.specs.Ready.{core_of, finish_of, start_of};
ghost use Rattle.run_cover.specs.Covers.{core_end, cores_where};

use crate::dispatched::{finish, place_of};
use job_model::{JobTable, Scenario};
use job_sets::{JobNo, JobSet};
use run_meaning::Schedule;
use sag_time::Avail;

// When the last of the jobs of the set starts, or 0 where there is none.
pub(crate) fn latest_start(schedule: &Schedule, set: &JobSet) -> u64
    requires { length schedule.now ≡ set.now.size }
    ensures start { result ≡ greatest (map (start_of schedule.now) set.now.members) }
    ensures subset { IsSubset set.now }
{
    let mut start = 0;
    for no in 0..set.size() {
        if set.has(JobNo(no)) {
            start = place_of(schedule, JobNo(no)).start.max(start);
        }
    }
    start
}

// Whether the job is in the set, and on the core.
fn is_on(schedule: &Schedule, set: &JobSet, core: u16, job: JobNo) -> bool
    requires size { length schedule.now ≡ set.now.size }
    requires job { job < set.now.size }
    ensures { result ≡ (core_of schedule.now job == core && is_member job set.now.members) }
{
    place_of(schedule, job).core == core && set.has(job)
}

// When the core has finished the jobs of the set, or 0 where it has none of them.
pub(crate) fn core_end(
    table: &JobTable,
    scenario: &Scenario,
    schedule: &Schedule,
    set: &JobSet,
    core: u16,
) -> u64
    requires size { set.now.size ≡ length table.now.jobs }
    requires fits { Fits table.now scenario.now }
    requires legal { (cores : ℕ) × Legal table.now cores scenario.now schedule.now }
    ensures { result ≡ core_end scenario.now schedule.now set.now.members core }
{
    let mut end = 0;
    for no in 0..set.size() {
        if is_on(schedule, set, core, JobNo(no)) {
            end = finish(table, scenario, schedule, JobNo(no)).max(end);
        }
    }
    end
}

// How many cores have finished the jobs of the set by the moment.
fn free_by(
    table: &JobTable,
    scenario: &Scenario,
    schedule: &Schedule,
    set: &JobSet,
    cores: u16,
    moment: u64,
) -> u16
    requires size { set.now.size ≡ length table.now.jobs }
    requires fits { Fits table.now scenario.now }
    requires legal { (cores : ℕ) × Legal table.now cores scenario.now schedule.now }
    ensures { result ≡ cores_where cores (λ core.
        nat_le (core_end scenario.now schedule.now set.now.members core) moment) }
{
    let mut count = 0;
    for core in 0..cores {
        if core_end(table, scenario, schedule, set, core) <= moment {
            count += 1;
        }
    }
    count
}

// How many cores have finished the jobs of the set before the moment, where that is after `start`.
fn free_before(
    table: &JobTable,
    scenario: &Scenario,
    schedule: &Schedule,
    set: &JobSet,
    cores: u16,
    start: u64,
    moment: u64,
) -> u16
    requires size { set.now.size ≡ length table.now.jobs }
    requires fits { Fits table.now scenario.now }
    requires legal { (cores : ℕ) × Legal table.now cores scenario.now schedule.now }
    ensures { result ≡ cores_where cores (λ core. nat_lt
        (max (core_end scenario.now schedule.now set.now.members core) start) moment) }
{
    let mut count = 0;
    for core in 0..cores {
        if core_end(table, scenario, schedule, set, core).max(start) < moment {
            count += 1;
        }
    }
    count
}

// Whether enough cores have finished the jobs of the set by each moment of the list.
pub(crate) fn are_certain(
    table: &JobTable,
    scenario: &Scenario,
    schedule: &Schedule,
    set: &JobSet,
    high: &Avail,
) -> bool
    requires size { set.now.size ≡ length table.now.jobs }
    requires fits { Fits table.now scenario.now }
    requires legal { (cores : ℕ) × Legal table.now cores scenario.now schedule.now }
    ensures { IsTrue result ↔ ((x : ℕ) → x < length high.now →
        x < cores_where (length high.now) (λ core. nat_le
        (core_end scenario.now schedule.now set.now.members core) (slice_index high.now x))) }
{
    let cores = high.len();
    for x in 0..cores {
        if free_by(table, scenario, schedule, set, cores, high.at(x)) <= x {
            return false;
        }
    }
    true
}

// Whether no more cores are free for the next job before each moment of the list. It starts no sooner
// than the last of the jobs of the set.
pub(crate) fn are_possible(
    table: &JobTable,
    scenario: &Scenario,
    schedule: &Schedule,
    set: &JobSet,
    low: &Avail,
) -> bool
    requires size { set.now.size ≡ length table.now.jobs }
    requires fits { Fits table.now scenario.now }
    requires legal { (cores : ℕ) × Legal table.now cores scenario.now schedule.now }
    ensures { IsTrue result ↔ ((x : ℕ) → x < length low.now →
        cores_where (length low.now) (λ core. nat_lt
        (max (core_end scenario.now schedule.now set.now.members core)
        (greatest (map (start_of schedule.now) set.now.members)))
        (slice_index low.now x)) ≤ x) }
{
    let cores = low.len();
    let start = latest_start(schedule, set);
    for x in 0..cores {
        if free_before(table, scenario, schedule, set, cores, start, low.at(x)) > x {
            return false;
        }
    }
    true
}
