//! Reading files of edits.

ghost use Rattle.std.specs.Prelude.{◌≡◌, ◌≢◌, ◌<◌, ℕ, All, IfErr, IfOk, List, MatchOption, length};
ghost use Rattle.std.specs.List.{AllZip};
ghost use Rattle.csv_numbers.specs.Rows.{Rows};
ghost use Rattle.job_model.specs.Table.{IsTable};
ghost use Rattle.job_model.specs.Times.{MayCost};
ghost use Rattle.side_csv.specs.EditFaults.{FirstEditFault, FirstOutsideCost, ReachedEditRow};
ghost use Rattle.side_csv.specs.EditsText.{EditsText, GivesEdit, cmax_in, cmin_in};
ghost use Rattle.side_csv.specs.declared.edits.JobEdit.{JobEdit};

use crate::SideFault;
use crate::laws::edits_keep_rules;
use csv_numbers::{NumberRows, read_numbers};
use job_model::{JobNo, JobTable, MOST_COST};
use std::alloc::Global;

/// A job's costs and its deadline anew, all in units of time.
#[derive(Clone, Copy, PartialEq, Eq, Debug)]
pub struct JobEdit {
    pub job: JobNo,
    /// The least cost.
    pub cmin: u64,
    /// The greatest cost.
    pub cmax: u64,
    /// The deadline, from time 0 on.
    pub deadline: u64,
}

// The leftmost cost of the row that no job may have.
fn outside_cost(row: &[u64]) -> Option<u8>
    requires { length row.now ≡ 5 }
    ensures { MatchOption result (MayCost (cmin_in row.now) (cmax_in row.now)) (FirstOutsideCost row.now) }
{
    if row[2] == 0 || row[3] < row[2] {
        return Some(3);
    }
    if MOST_COST < row[3] { Some(4) } else { None }
}

// The edit that the row at this place gives.
fn edit_of_row(row: &[u64], place: u64, table: &JobTable) -> Result<JobEdit, SideFault>
    requires { length row.now ≡ 5 }
    ensures gives { IfOk result (GivesEdit table.now row.now) }
    ensures table { IsTable table.now }
    ensures fault { IfErr result (λ e. (bytes : List ℕ) (r : ReachedEditRow table.now bytes place)
        → r.here ≡ row.now → FirstEditFault table.now bytes e) }
{
    let Some(job) = table.find(row[0], row[1]) else {
        return Err(SideFault::Unknown(place, 1));
    };
    if let Some(column) = outside_cost(row) {
        return Err(SideFault::Outside(place, column));
    }
    Ok(JobEdit {
        job,
        cmin: row[2],
        cmax: row[3],
        deadline: row[4],
    })
}

// The edit of each row, in their order.
fn edits_of_rows(
    alloc: Global,
    rows: &NumberRows,
    table: &JobTable,
) -> Result<Vec<JobEdit>, SideFault>
    requires { All (λ row. length row ≡ 5) rows.now }
    ensures edits { IfOk result (λ edits. AllZip (GivesEdit table.now) rows.now edits.items) }
    ensures only { IfOk result (λ edits. (t : List JobEdit)
        → AllZip (GivesEdit table.now) rows.now t → edits.items ≡ t) }
    ensures fault { IfErr result (λ e.
        (bytes : List ℕ) → Rows bytes 5 rows.now → FirstEditFault table.now bytes e) }
{
    let Ok(mut edits) = Vec::with_capacity(alloc, rows.len()) else {
        return Err(SideFault::Memory);
    };
    for i in 0..rows.len() {
        let edit = edit_of_row(rows.row(i), i as u64 + 1, table)?;
        if edits.push(edit).is_err() {
            return Err(SideFault::Memory);
        }
    }
    Ok(edits)
}

/// The edits of a CSV text, one for each row and in the rows' order.
///
/// A row has the task ID and the job ID, the least and the greatest cost, and the deadline. A job may be edited again.
pub fn read_edits(alloc: Global, bytes: &[u8], table: &JobTable) -> Result<Vec<JobEdit>, SideFault>
    ensures edits { IfOk result (λ edits. EditsText table.now bytes.now edits.items) }
    ensures only { IfOk result (λ edits. (t : List JobEdit)
        → EditsText table.now bytes.now t → edits.items ≡ t) }
    ensures in_range { IfOk result (λ edits. All (λ e. e.job < length table.now.jobs) edits.items) }
    ensures may_cost { IfOk result (λ edits. All (λ e. MayCost e.cmin e.cmax) edits.items) }
    ensures fault { IfErr result (FirstEditFault table.now bytes.now) }
    ensures refused { IfErr result (λ fault. fault ≢ SideFault.Memory
        → (t : List JobEdit) → ¬ EditsText table.now bytes.now t) }
{
    // A law of files of edits, which the proof takes.
    edits_keep_rules();
    let rows = read_numbers(alloc, bytes, 5)?;
    edits_of_rows(alloc, &rows, table)
}
