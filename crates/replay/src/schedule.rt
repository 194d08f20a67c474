//! The text of a schedule.
ghost use Rattle.std.specs.Prelude.{◌≡◌, ℕ, ◌^◌, ◌<◌, All, IfOk, length, map};
ghost use Rattle.job_model.specs.Scenario.{Fits};
ghost use Rattle.run_meaning.specs.Legal.{Legal};
ghost use Rattle.run_meaning.specs.Ready.{finish_of};
ghost use Rattle.replay.specs.ScheduleText.{schedule_row, schedule_text};

use csv_numbers::write_table;
use job_model::{JobNo, JobTable, Scenario};
use run_meaning::{Schedule, dispatch_order};
use std::alloc::{AllocError, Global};

// The row of one job.
fn row_of(table: &JobTable, scenario: &Scenario, schedule: &Schedule, no: JobNo) -> [u64; 5]
    requires job { no < length table.now.jobs }
    requires releases { length scenario.now ≡ length table.now.jobs }
    requires places { length schedule.now ≡ length table.now.jobs }
    requires fits { finish_of scenario.now schedule.now no < 2 ^ 64 }
    ensures { result ≡ schedule_row table.now scenario.now schedule.now no }
{
    let job = table.job(no);
    let place = schedule.places[usize::from(no.0)];
    let finish = place.start + scenario.cost(no);
    [
        job.task,
        job.job,
        place.start,
        finish,
        u64::from(place.core),
    ]
}

// The rows of the jobs.
fn rows_of(
    alloc: Global,
    table: &JobTable,
    scenario: &Scenario,
    schedule: &Schedule,
    jobs: &[JobNo],
) -> Result<Vec<[u64; 5]>, AllocError>
    requires jobs { All (λ j. j < length table.now.jobs) jobs.now }
    requires fits { Fits table.now scenario.now }
    requires legal { (cores : ℕ) × Legal table.now cores scenario.now schedule.now }
    ensures { IfOk result (λ rows. rows.items
        ≡ map (schedule_row table.now scenario.now schedule.now) jobs.now) }
{
    let mut rows = Vec::with_capacity(alloc, usize::from(table.len()))?;
    for no in jobs {
        rows.push(row_of(table, scenario, schedule, *no))?;
    }
    Ok(rows)
}

/// The text of a schedule as CSV: a heading, and a row for each job with its IDs, its start, its finish and its core.
///
/// Rows stand by start, and at one start the more urgent job first. Times are in the units of the table.
pub fn write_schedule(
    alloc: Global,
    table: &JobTable,
    scenario: &Scenario,
    schedule: &Schedule,
) -> Result<Vec<u8>, AllocError>
    requires fits { Fits table.now scenario.now }
    requires legal { (cores : ℕ) × Legal table.now cores scenario.now schedule.now }
    ensures { IfOk result (λ text. text.items ≡ schedule_text table.now scenario.now schedule.now) }
{
    let order = dispatch_order(alloc, table, schedule)?;
    let rows = rows_of(alloc, table, scenario, schedule, &order)?;
    write_table(
        alloc,
        &["Task ID", "Job ID", "Start", "Finish", "Core"],
        &rows,
    )
}
