//! What an audit looks at of each job.

ghost use Rattle.std.specs.Prelude.{◌≡◌, ◌+◌, ◌^◌, ◌<◌, ◌≤◌, IfOk, ℕ, length};
ghost use Rattle.job_model.specs.Scenario.{Fits};
ghost use Rattle.job_model.specs.Table.{IsTable};
ghost use Rattle.run_meaning.specs.Ready.{finish_of, ready_time, start_of};
ghost use Rattle.run_audit.specs.Entries.{entries_of_run, entry_of_job};

use job_model::{JobNo, JobTable, Scenario};
use run_meaning::Schedule;
use std::alloc::{AllocError, Global};

/// When a job is ready, starts and finishes, its core, and its rank by urgency.
#[derive(Clone, Copy)]
pub struct Entry {
    pub ready: u64,
    pub start: u64,
    pub finish: u64,
    pub core: u16,
    pub rank: u16,
}

// When the job finishes.
fn finish(scenario: &Scenario, schedule: &Schedule, no: JobNo) -> u64
    requires scenario { no < length scenario.now }
    requires schedule { no < length schedule.now }
    requires fits { finish_of scenario.now schedule.now no < 2 ^ 64 }
    ensures { result ≡ finish_of scenario.now schedule.now no }
{
    schedule.places[usize::from(no.0)].start + scenario.cost(no)
}

// When the job is ready: it is released, and all its predecessors have finished.
fn ready(table: &JobTable, scenario: &Scenario, schedule: &Schedule, no: JobNo) -> u64
    requires job { no < length table.now.jobs }
    requires places { length schedule.now ≡ length table.now.jobs }
    requires fits { Fits table.now scenario.now }
    requires starts { (j : ℕ) → j < length table.now.jobs → start_of schedule.now j < 2 ^ 63 }
    ensures { result ≡ ready_time table.now scenario.now schedule.now no }
{
    let mut latest = scenario.release(no);
    for earlier in table.preds(no) {
        latest = latest.max(finish(scenario, schedule, *earlier));
    }
    latest
}

// The entry of the job.
fn job_entry(table: &JobTable, scenario: &Scenario, schedule: &Schedule, no: JobNo) -> Entry
    requires job { no < length table.now.jobs }
    requires places { length schedule.now ≡ length table.now.jobs }
    requires fits { Fits table.now scenario.now }
    requires starts { (j : ℕ) → j < length table.now.jobs → start_of schedule.now j < 2 ^ 63 }
    ensures { result ≡ entry_of_job table.now scenario.now schedule.now no }
{
    let rank = table.rank(no);
    let place = schedule.places[usize::from(no.0)];
    Entry {
        ready: ready(table, scenario, schedule, no),
        start: place.start,
        finish: finish(scenario, schedule, no),
        core: place.core,
        rank,
    }
}

/// The entry of each job, by its number.
pub fn entries(
    alloc: Global,
    table: &JobTable,
    scenario: &Scenario,
    schedule: &Schedule,
) -> Result<Vec<Entry>, AllocError>
    requires places { length schedule.now ≡ length table.now.jobs }
    requires fits { Fits table.now scenario.now }
    requires starts { (j : ℕ) → j < length table.now.jobs → start_of schedule.now j < 2 ^ 63 }
    ensures entries { IfOk result (λ entries. entries.items ≡ entries_of_run table.now scenario.now schedule.now) }
    ensures table { IsTable table.now }
{
    let count = table.len();
    let mut entries = Vec::with_capacity(alloc, usize::from(count))?;
    for no in 0..count {
        entries.push(job_entry(table, scenario, schedule, JobNo(no)))?;
    }
    Ok(entries)
}
