//! Laws of job files.

ghost use Rattle.job_csv.specs.Laws.{OneJobList};

use csv_numbers::rows_agree;

/// The bytes of a job file fix its jobs.
pub fn one_job_list()
    ensures { OneJobList }
{
    rows_agree();
}
