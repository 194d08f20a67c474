//! Whether a state covers the first jobs of a run.

ghost use Rattle.std.specs.Prelude.{◌≡◌, ℕ, ◌<◌, ◌≤◌, ◌↔◌, All, IsTrue, length};
ghost use Rattle.job_sets.specs.Subset.{is_member};
ghost use Rattle.job_model.specs.Scenario.{Fits};
ghost use Rattle.sag_time.specs.Interval.{holds};
ghost use Rattle.run_meaning.specs.Legal.{Legal};
ghost use Rattle.run_meaning.specs.Ready.{core_of, finish_of};
ghost use Rattle.sag_step.specs.Shape.{IsState};
ghost use Rattle.run_cover.specs.Covers.{Covers, core_end};

use crate::core_times::{are_certain, are_possible, core_end};
use crate::dispatched::{finish, has_first_jobs, place_of};
use job_model::{JobTable, Scenario};
use job_sets::{JobNo, JobSet};
use run_meaning::Schedule;
use sag_step::State;
use start_windows::Ends;

// Whether each of the jobs finishes in its interval.
fn finish_within(table: &JobTable, scenario: &Scenario, schedule: &Schedule, ends: &Ends) -> bool
    requires jobs { All (λ e. e.0 < length table.now.jobs) ends.now.items }
    requires fits { Fits table.now scenario.now }
    requires legal { (cores : ℕ) × Legal table.now cores scenario.now schedule.now }
    ensures { IsTrue result
        ↔ All (λ e. IsTrue (holds e.1 (finish_of scenario.now schedule.now e.0))) ends.now.items }
{
    for place in 0..ends.len() {
        let (job, span) = ends.at(place);
        if !span.holds(finish(table, scenario, schedule, job)) {
            return false;
        }
    }
    true
}

// Whether the job finishes when its core has finished the jobs of the set.
fn ends_its_core(
    table: &JobTable,
    scenario: &Scenario,
    schedule: &Schedule,
    set: &JobSet,
    job: JobNo,
) -> bool
    requires job { job < length table.now.jobs }
    requires size { set.now.size ≡ length table.now.jobs }
    requires fits { Fits table.now scenario.now }
    requires legal { (cores : ℕ) × Legal table.now cores scenario.now schedule.now }
    ensures { IsTrue result ↔ (finish_of scenario.now schedule.now job
        ≡ core_end scenario.now schedule.now set.now.members (core_of schedule.now job)) }
{
    let core = place_of(schedule, job).core;
    finish(table, scenario, schedule, job) == core_end(table, scenario, schedule, set, core)
}

// Whether each of the jobs of `last` does.
fn end_their_cores(
    table: &JobTable,
    scenario: &Scenario,
    schedule: &Schedule,
    set: &JobSet,
    last: &JobSet,
) -> bool
    requires sizes { last.now.size ≡ length table.now.jobs }
    requires size { set.now.size ≡ length table.now.jobs }
    requires fits { Fits table.now scenario.now }
    requires legal { (cores : ℕ) × Legal table.now cores scenario.now schedule.now }
    ensures { IsTrue result ↔ ((i : ℕ) → IsTrue (is_member i last.now.members)
        → finish_of scenario.now schedule.now i
        ≡ core_end scenario.now schedule.now set.now.members (core_of schedule.now i)) }
{
    for no in 0..last.size() {
        let job = JobNo(no);
        if last.has(job) && !ends_its_core(table, scenario, schedule, set, job) {
            return false;
        }
    }
    true
}

/// Whether the state covers the first jobs of the run, so many, by start and at one start by urgency.
pub fn replayed(
    table: &JobTable,
    cores: u16,
    scenario: &Scenario,
    schedule: &Schedule,
    state: &State,
    count: u16,
) -> bool
    requires fits { Fits table.now scenario.now }
    requires legal { Legal table.now cores scenario.now schedule.now }
    requires state { IsState table.now cores state.now.state }
    requires count { count ≤ length table.now.jobs }
    ensures { IsTrue result
        ↔ Covers table.now cores scenario.now schedule.now count state.now.state }
{
    prove!(count <= table.len());
    let set = state.set();
    if !has_first_jobs(table, schedule, set, count) {
        return false;
    }
    if !are_certain(table, scenario, schedule, set, state.high()) {
        return false;
    }
    if !are_possible(table, scenario, schedule, set, state.low()) {
        return false;
    }
    if !finish_within(table, scenario, schedule, state.ends()) {
        return false;
    }
    end_their_cores(table, scenario, schedule, set, state.last())
}
