//! Which jobs are the first of a run, and when jobs start and finish.

ghost use Rattle.std.specs.Prelude.{◌≡◌, ℕ, ◌<◌, ◌≤◌, ◌↔◌, IsTrue, length};
ghost use Rattle.std.specs.List.{count_by};
ghost use Rattle.job_sets.specs.Subset.{is_member};
ghost use Rattle.lists.specs.Numbers.{numbers_below};
ghost use Rattle.job_model.specs.Scenario.{Fits};
ghost use Rattle.job_model.specs.Table.{IsTable};
ghost use Rattle.run_meaning.specs.Legal.{Legal};
ghost use Rattle.run_meaning.specs.Order.{starts_earlier};
ghost use Rattle.run_meaning.specs.Ready.{core_of, finish_of, start_of};
ghost use Rattle.run_cover.specs.Covers.{prefix};

use job_model::{JobTable, Scenario};
use job_sets::{JobNo, JobSet};
use run_meaning::{Place, Schedule};

// Where and when the job starts.
pub(crate) fn place_of(schedule: &Schedule, job: JobNo) -> Place
    requires { job < length schedule.now }
    ensures start { result.start ≡ start_of schedule.now job }
    ensures core { result.core ≡ core_of schedule.now job }
{
    schedule.places[usize::from(job.0)]
}

// When the job finishes.
pub(crate) fn finish(table: &JobTable, scenario: &Scenario, schedule: &Schedule, job: JobNo) -> u64
    requires job { job < length table.now.jobs }
    requires fits { Fits table.now scenario.now }
    requires legal { (cores : ℕ) × Legal table.now cores scenario.now schedule.now }
    ensures { result ≡ finish_of scenario.now schedule.now job }
{
    prove!(job.0 < table.len());
    place_of(schedule, job).start + scenario.cost(job)
}

// Whether the first job is dispatched before the second: by start, and at one start by urgency.
fn comes_before(table: &JobTable, schedule: &Schedule, first: JobNo, second: JobNo) -> bool
    requires first { first < length table.now.jobs }
    requires second { second < length table.now.jobs }
    requires places { length schedule.now ≡ length table.now.jobs }
    ensures { result ≡ starts_earlier table.now schedule.now first second }
{
    let start = place_of(schedule, first).start;
    let other = place_of(schedule, second).start;
    if start == other {
        return table.urgent(first, second);
    }
    start < other
}

// How many jobs are dispatched before that one.
fn jobs_before(table: &JobTable, schedule: &Schedule, job: JobNo) -> u16
    requires job { job < length table.now.jobs }
    requires places { length schedule.now ≡ length table.now.jobs }
    ensures count { result ≡ count_by (λ i. starts_earlier table.now schedule.now i job)
        (numbers_below (length table.now.jobs)) }
    ensures table { IsTable table.now }
{
    let mut count = 0;
    for other in 0..table.len() {
        if comes_before(table, schedule, JobNo(other), job) {
            count += 1;
        }
    }
    count
}

// Whether the job is one of the first, so many.
fn is_first(table: &JobTable, schedule: &Schedule, count: u16, job: JobNo) -> bool
    requires job { job < length table.now.jobs }
    requires places { length schedule.now ≡ length table.now.jobs }
    requires count { count ≤ length table.now.jobs }
    ensures { result ≡ is_member job (prefix table.now schedule.now count) }
{
    jobs_before(table, schedule, job) < count
}

// Whether the set has the first jobs of the run, so many, and no others.
pub(crate) fn has_first_jobs(
    table: &JobTable,
    schedule: &Schedule,
    set: &JobSet,
    count: u16,
) -> bool
    requires size { set.now.size ≡ length table.now.jobs }
    requires places { length schedule.now ≡ length table.now.jobs }
    requires count { count ≤ length table.now.jobs }
    ensures { IsTrue result ↔ ((j : ℕ) → is_member j set.now.members
        ≡ is_member j (prefix table.now schedule.now count)) }
{
    for no in 0..set.size() {
        let job = JobNo(no);
        if set.has(job) != is_first(table, schedule, count, job) {
            return false;
        }
    }
    true
}
