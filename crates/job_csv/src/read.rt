//! Reading job files.

ghost use Rattle.std.specs.Prelude.{◌≡◌, ◌≢◌, All, List, IfErr, IfOk, length, map};
ghost use Rattle.csv_numbers.specs.Rows.{FirstFault};
ghost use Rattle.job_csv.specs.Jobs.{JobRows};
ghost use Rattle.job_model.specs.JobRow.{job_columns};
ghost use Rattle.job_model.specs.declared.job_row.Job.{Job};

use csv_numbers::{CsvFault, NumberRows, read_numbers};
use job_model::Job;
use std::alloc::Global;

// The columns of a job file.
const WIDTH: u8 = 8;

// The job of a row of eight numbers.
fn job_of(row: &[u64]) -> Job
    requires { length row.now ≡ 8 }
    ensures { job_columns result ≡ row.now }
{
    Job::from_row([
        row[0], row[1], row[2], row[3], row[4], row[5], row[6], row[7],
    ])
}

// The job of each row, in their order.
fn jobs_of_rows(alloc: Global, rows: &NumberRows) -> Result<Vec<Job>, CsvFault>
    requires { All (λ row. length row ≡ 8) rows.now }
    ensures jobs { IfOk result (λ jobs. map job_columns jobs.items ≡ rows.now) }
    ensures memory { IfErr result (λ fault. fault ≡ CsvFault.Memory) }
{
    let Ok(mut jobs) = Vec::with_capacity(alloc, rows.len()) else {
        return Err(CsvFault::Memory);
    };
    for place in 0..rows.len() {
        if jobs.push(job_of(rows.row(place))).is_err() {
            return Err(CsvFault::Memory);
        }
    }
    Ok(jobs)
}

/// The jobs of a CSV text under its heading, a row for each, with the columns Task ID, Job ID, Arrival min, Arrival max,
/// Cost min, Cost max, Deadline and Priority.
pub fn read_jobs(alloc: Global, bytes: &[u8]) -> Result<Vec<Job>, CsvFault>
    ensures rows { IfOk result (λ jobs. JobRows bytes.now jobs.items) }
    ensures only { IfOk result (λ jobs. (list : List Job) → JobRows bytes.now list → jobs.items ≡ list) }
    ensures fault { IfErr result (FirstFault bytes.now 8) }
    ensures refused { IfErr result (λ fault. fault ≢ CsvFault.Memory
        → (list : List Job) → ¬ JobRows bytes.now list) }
{
    let rows = read_numbers(alloc, bytes, WIDTH)?;
    jobs_of_rows(alloc, &rows)
}
