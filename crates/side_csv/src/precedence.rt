//! Reading precedence files.

ghost use Rattle.std.specs.Prelude.{◌≡◌, ◌≢◌, ◌<◌, ℕ, All, IfErr, IfOk, List, length};
ghost use Rattle.std.specs.List.{AllZip};
ghost use Rattle.csv_numbers.specs.Rows.{Rows};
ghost use Rattle.job_model.specs.Table.{IsTable};
ghost use Rattle.side_csv.specs.PrecedenceFaults.{FirstPrecedenceFault, ReachedEdgeRow};
ghost use Rattle.side_csv.specs.PrecedenceText.{NamesEdge, PrecedenceText};

use crate::SideFault;
use crate::laws::precedence_keeps_rules;
use csv_numbers::{NumberRows, read_numbers};
use job_model::{JobNo, JobTable};
use std::alloc::Global;

// The edge that the row at this place names.
fn edge_of_row(row: &[u64], place: u64, table: &JobTable) -> Result<(JobNo, JobNo), SideFault>
    requires { length row.now ≡ 4 }
    ensures names { IfOk result (NamesEdge table.now row.now) }
    ensures table { IsTable table.now }
    ensures fault { IfErr result (λ e. (bytes : List ℕ) (r : ReachedEdgeRow table.now bytes place)
        → r.here ≡ row.now → FirstPrecedenceFault table.now bytes e) }
{
    let Some(predecessor) = table.find(row[0], row[1]) else {
        return Err(SideFault::Unknown(place, 1));
    };
    let Some(successor) = table.find(row[2], row[3]) else {
        return Err(SideFault::Unknown(place, 3));
    };
    Ok((predecessor, successor))
}

// The edge of each row, in their order.
fn edges_of_rows(
    alloc: Global,
    rows: &NumberRows,
    table: &JobTable,
) -> Result<Vec<(JobNo, JobNo)>, SideFault>
    requires { All (λ row. length row ≡ 4) rows.now }
    ensures edges { IfOk result (λ edges. AllZip (NamesEdge table.now) rows.now edges.items) }
    ensures only { IfOk result (λ edges. (t : List (ℕ × ℕ))
        → AllZip (NamesEdge table.now) rows.now t → edges.items ≡ t) }
    ensures fault { IfErr result (λ e.
        (bytes : List ℕ) → Rows bytes 4 rows.now → FirstPrecedenceFault table.now bytes e) }
{
    let Ok(mut edges) = Vec::with_capacity(alloc, rows.len()) else {
        return Err(SideFault::Memory);
    };
    for i in 0..rows.len() {
        let edge = edge_of_row(rows.row(i), i as u64 + 1, table)?;
        if edges.push(edge).is_err() {
            return Err(SideFault::Memory);
        }
    }
    Ok(edges)
}

/// The precedence edges of a CSV text, (predecessor, successor), one for each row and in the rows' order.
///
/// A row has the task ID and the job ID of the predecessor, and then those of the successor. Edges may repeat, name one
/// job twice or close a cycle.
pub fn read_edges(
    alloc: Global,
    bytes: &[u8],
    table: &JobTable,
) -> Result<Vec<(JobNo, JobNo)>, SideFault>
    ensures edges { IfOk result (λ edges. PrecedenceText table.now bytes.now edges.items) }
    ensures only { IfOk result (λ edges. (t : List (ℕ × ℕ))
        → PrecedenceText table.now bytes.now t → edges.items ≡ t) }
    ensures in_range { IfOk result (λ edges.
        All (λ e. (e.0 < length table.now.jobs) × (e.1 < length table.now.jobs)) edges.items) }
    ensures fault { IfErr result (FirstPrecedenceFault table.now bytes.now) }
    ensures refused { IfErr result (λ fault. fault ≢ SideFault.Memory
        → (t : List (ℕ × ℕ)) → ¬ PrecedenceText table.now bytes.now t) }
{
    // A law of precedence files, which the proof takes.
    precedence_keeps_rules();
    let rows = read_numbers(alloc, bytes, 4)?;
    edges_of_rows(alloc, &rows, table)
}
