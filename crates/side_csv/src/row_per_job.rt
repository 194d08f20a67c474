//! Rows that name jobs, in files with a row for each job.

ghost use Rattle.std.specs.Prelude.{◌≡◌, ◌<◌, ◌≤◌, ℕ, All, IfErr, IfOk, List, None, Option, length, slice_index_or};
ghost use Rattle.std.specs.Option.{ForSome};
ghost use Rattle.side_csv.specs.Places.{Places};
ghost use Rattle.side_csv.specs.RowPerJob.{NamesJob};
ghost use Rattle.side_csv.specs.RowPerJobFaults.{FirstRowFault, ReachedRow};

use crate::SideFault;
use job_model::{JobNo, JobTable};

/// The job of the row at this place, which no earlier row names. For each job `places` has the index of its row, if it
/// has one.
pub(crate) fn job_of_row(
    row: &[u64],
    place: u64,
    table: &JobTable,
    places: &[Option<usize>],
) -> Result<JobNo, SideFault>
    requires ids { 2 ≤ length row.now }
    requires one_each { length places.now ≡ length table.now.jobs }
    requires earlier { All (λ o. ForSome o (λ k. k < place)) places.now }
    ensures names { IfOk result (NamesJob table.now row.now) }
    ensures free { IfOk result (λ j. slice_index_or places.now j None ≡ None) }
    ensures fault { IfErr result (λ e. (width : ℕ) (outside : ℕ → List ℕ → Option ℕ) (bytes : List ℕ)
        (r : ReachedRow width outside table.now bytes place) → r.here ≡ row.now
        → Places table.now r.before places.now → FirstRowFault width outside table.now bytes e) }
{
    let Some(no) = table.find(row[0], row[1]) else {
        return Err(SideFault::Unknown(place, 1));
    };
    if let Some(earlier) = places[usize::from(no.0)] {
        return Err(SideFault::Twice(place, earlier as u64 + 1));
    }
    Ok(no)
}
