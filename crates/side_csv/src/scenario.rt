//! Reading scenario files.

ghost use Rattle.std.specs.Prelude.{◌≡◌, ◌≢◌, ◌<◌, ℕ, All, Any, IfErr, IfOk, List, None, OnOk, length, slice_index_or};
ghost use Rattle.std.specs.Option.{ForSome};
ghost use Rattle.csv_numbers.specs.Rows.{Rows};
ghost use Rattle.job_model.specs.Scenario.{Fits};
ghost use Rattle.job_model.specs.Table.{IsTable};
ghost use Rattle.side_csv.specs.Places.{Places};
ghost use Rattle.side_csv.specs.RowPerJob.{GivesItem, KeepRules, NamesJob};
ghost use Rattle.side_csv.specs.RowPerJobFaults.{ReachedRow};
ghost use Rattle.side_csv.specs.ScenarioFaults.{FirstScenarioFault};
ghost use Rattle.side_csv.specs.ScenarioText.{ScenarioText, outside_in_scenario, values_in};
ghost use Rattle.side_csv.specs.ScenarioText.{first_outside as outside};

use crate::SideFault;
use crate::laws::{one_scenario, scenarios_keep_rules};
use crate::row_per_job::job_of_row;
use csv_numbers::{NumberRows, read_numbers};
use job_model::{JobNo, JobTable, Scenario};
use std::alloc::Global;

// A column with its number and the ends of its interval.
type Column = (u8, u64, u64, u64);

// The leftmost column that is outside its interval.
fn first_outside(columns: &[Column]) -> Option<u8>
    ensures { result ≡ outside columns.now }
{
    let (column, _, _, _) = columns
        .iter()
        .find(|(_, number, least, most)| number < least || most < number)?;
    Some(*column)
}

// The job of the row at this place, which no earlier row names and whose release and cost are in its intervals.
fn good_job_of_row(
    row: &[u64],
    place: u64,
    table: &JobTable,
    places: &[Option<usize>],
) -> Result<JobNo, SideFault>
    requires four { length row.now ≡ 4 }
    requires one_each { length places.now ≡ length table.now.jobs }
    requires earlier { All (λ o. ForSome o (λ k. k < place)) places.now }
    ensures names { IfOk result (NamesJob table.now row.now) }
    ensures free { IfOk result (λ j. slice_index_or places.now j None ≡ None) }
    ensures inside { IfOk result (λ j. outside_in_scenario table.now j row.now ≡ None) }
    ensures fault { IfErr result (λ e. (bytes : List ℕ)
        (r : ReachedRow 4 (outside_in_scenario table.now) table.now bytes place)
        → r.here ≡ row.now → Places table.now r.before places.now
        → FirstScenarioFault table.now bytes e) }
{
    let no = job_of_row(row, place, table, places)?;
    let job = table.job(no);
    let columns = [
        (3, row[2], job.rmin, job.rmax),
        (4, row[3], job.cmin, job.cmax),
    ];
    match first_outside(&columns) {
        Some(column) => Err(SideFault::Outside(place, column)),
        None => Ok(no),
    }
}

// For each job the index of its row, if it has one.
fn find_rows(
    alloc: Global,
    rows: &NumberRows,
    table: &JobTable,
) -> Result<Vec<Option<usize>>, SideFault>
    requires { All (λ row. length row ≡ 4) rows.now }
    ensures places { IfOk result (λ places. Places table.now rows.now places.items) }
    ensures kept { OnOk result (KeepRules (outside_in_scenario table.now) table.now rows.now) }
    ensures table { IsTable table.now }
    ensures fault { IfErr result (λ e.
        (bytes : List ℕ) → Rows bytes 4 rows.now → FirstScenarioFault table.now bytes e) }
{
    let Ok(mut places) = vec![in alloc; None; usize::from(table.len())] else {
        return Err(SideFault::Memory);
    };
    for i in 0..rows.len() {
        let no = good_job_of_row(rows.row(i), i as u64 + 1, table, &places)?;
        places[usize::from(no.0)] = Some(i);
    }
    Ok(places)
}

// The release and the cost of each job, where each has a row.
fn values_of_jobs(
    alloc: Global,
    rows: &NumberRows,
    table: &JobTable,
    places: &[Option<usize>],
) -> Result<Vec<(u64, u64)>, SideFault>
    requires four { All (λ row. length row ≡ 4) rows.now }
    requires places { Places table.now rows.now places.now }
    ensures one_each { IfOk result (λ values. length values.items ≡ length table.now.jobs) }
    ensures given { IfOk result (λ values. (j : ℕ) → j < length table.now.jobs →
        Any (GivesItem values_in (0, 0) table.now values.items j) rows.now) }
    ensures fault { IfErr result (λ e. (bytes : List ℕ) → Rows bytes 4 rows.now
        → KeepRules (outside_in_scenario table.now) table.now rows.now
        → FirstScenarioFault table.now bytes e) }
{
    let Ok(mut values) = Vec::with_capacity(alloc, places.len()) else {
        return Err(SideFault::Memory);
    };
    for j in 0..table.len() {
        let Some(place) = places[usize::from(j)] else {
            return Err(SideFault::Missing(JobNo(j)));
        };
        let row = rows.row(place);
        if values.push((row[2], row[3])).is_err() {
            return Err(SideFault::Memory);
        }
    }
    Ok(values)
}

/// The scenario of a CSV text: its rows have task ID, job ID, release and cost, in any order, one for each job.
pub fn read_scenario(alloc: Global, bytes: &[u8], table: &JobTable) -> Result<Scenario, SideFault>
    ensures text { IfOk result (ScenarioText table.now bytes.now) }
    ensures fits { IfOk result (Fits table.now) }
    ensures only { IfOk result (λ s.
        (t : List (ℕ × ℕ)) → ScenarioText table.now bytes.now t → s ≡ t) }
    ensures fault { IfErr result (FirstScenarioFault table.now bytes.now) }
    ensures refused { IfErr result (λ fault. fault ≢ SideFault.Memory
        → (s : List (ℕ × ℕ)) → ¬ ScenarioText table.now bytes.now s) }
{
    // Laws of scenario files, which the proof takes.
    one_scenario();
    scenarios_keep_rules();
    let rows = read_numbers(alloc, bytes, 4)?;
    let places = find_rows(alloc, &rows, table)?;
    let values = values_of_jobs(alloc, &rows, table, &places)?;
    match Scenario::new(table, values) {
        Some(scenario) => Ok(scenario),
        None => unreachable!(),
    }
}
