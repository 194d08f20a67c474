//! Reading recorded runs.

ghost use Rattle.std.specs.Prelude.{◌≡◌, ◌≢◌, ◌<◌, ◌≤◌, ℕ, All, Any, IfErr, IfOk, List, None, OnOk, length, slice_index_or};
ghost use Rattle.std.specs.Option.{ForSome};
ghost use Rattle.csv_numbers.specs.Rows.{Rows};
ghost use Rattle.job_model.specs.declared.limits.TheConstants.{MOST_COST, MOST_START};
ghost use Rattle.job_model.specs.Scenario.{Fits, cost_of};
ghost use Rattle.job_model.specs.Table.{IsTable};
ghost use Rattle.run_meaning.specs.declared.places.Place.{Place};
ghost use Rattle.run_meaning.specs.Ready.{no_place, start_of};
ghost use Rattle.side_csv.specs.Places.{Places};
ghost use Rattle.side_csv.specs.RowPerJob.{GivesItem, KeepRules, NamesJob};
ghost use Rattle.side_csv.specs.RowPerJobFaults.{ReachedRow};
ghost use Rattle.side_csv.specs.RunFaults.{FirstRunFault};
ghost use Rattle.side_csv.specs.RunText.{RunText, core_in, outside_in_run, place_in};

use crate::SideFault;
use crate::laws::{one_recorded_run, runs_keep_rules};
use crate::row_per_job::job_of_row;
use csv_numbers::{NumberRows, read_numbers};
use job_model::{JobNo, JobTable, MOST_START, Scenario};
use run_meaning::{Place, Schedule};
use std::alloc::Global;

/// The greatest number of a core that is read.
pub const MOST_CORE: u64 = 65_535;

// The leftmost column that is not right for the job of that number.
fn outside_at(row: &[u64], scenario: &Scenario, no: JobNo) -> Option<u8>
    requires five { length row.now ≡ 5 }
    requires job { no < length scenario.now }
    requires cost { cost_of scenario.now no ≤ MOST_COST }
    ensures { result ≡ outside_in_run scenario.now no row.now }
{
    if MOST_START < row[2] {
        return Some(3);
    }
    if row[3] != row[2] + scenario.cost(no) {
        return Some(4);
    }
    if MOST_CORE < row[4] { Some(5) } else { None }
}

// The job of the row at this place, which no earlier row names and whose columns are right.
fn good_job_of_row(
    row: &[u64],
    place: u64,
    table: &JobTable,
    scenario: &Scenario,
    places: &[Option<usize>],
) -> Result<JobNo, SideFault>
    requires five { length row.now ≡ 5 }
    requires fits { Fits table.now scenario.now }
    requires one_each { length places.now ≡ length table.now.jobs }
    requires earlier { All (λ o. ForSome o (λ k. k < place)) places.now }
    ensures names { IfOk result (NamesJob table.now row.now) }
    ensures free { IfOk result (λ j. slice_index_or places.now j None ≡ None) }
    ensures inside { IfOk result (λ j. outside_in_run scenario.now j row.now ≡ None) }
    ensures fault { IfErr result (λ e. (bytes : List ℕ)
        (r : ReachedRow 5 (outside_in_run scenario.now) table.now bytes place)
        → r.here ≡ row.now → Places table.now r.before places.now
        → FirstRunFault table.now scenario.now bytes e) }
{
    // It tells that the costs of the table's jobs are within their limit.
    let _ = table.len();
    let no = job_of_row(row, place, table, places)?;
    match outside_at(row, scenario, no) {
        Some(column) => Err(SideFault::Outside(place, column)),
        None => Ok(no),
    }
}

// For each job the index of its row, if it has one.
fn find_rows(
    alloc: Global,
    rows: &NumberRows,
    table: &JobTable,
    scenario: &Scenario,
) -> Result<Vec<Option<usize>>, SideFault>
    requires five { All (λ row. length row ≡ 5) rows.now }
    requires fits { Fits table.now scenario.now }
    ensures places { IfOk result (λ places. Places table.now rows.now places.items) }
    ensures kept { OnOk result (KeepRules (outside_in_run scenario.now) table.now rows.now) }
    ensures table { IsTable table.now }
    ensures fault { IfErr result (λ e.
        (bytes : List ℕ) → Rows bytes 5 rows.now → FirstRunFault table.now scenario.now bytes e) }
{
    let Ok(mut places) = vec![in alloc; None; usize::from(table.len())] else {
        return Err(SideFault::Memory);
    };
    for i in 0..rows.len() {
        let no = good_job_of_row(rows.row(i), i as u64 + 1, table, scenario, &places)?;
        places[usize::from(no.0)] = Some(i);
    }
    Ok(places)
}

// When and where the job of the row starts, as far as a number of 16 bits can tell.
fn place_of(row: &[u64]) -> Place
    requires five { length row.now ≡ 5 }
    requires core { core_in row.now ≤ MOST_CORE }
    ensures { result ≡ place_in row.now }
{
    Place {
        start: row[2],
        core: row[4] as u16,
    }
}

// The place of each job, where each has a row.
fn places_of_jobs(
    alloc: Global,
    rows: &NumberRows,
    table: &JobTable,
    scenario: &Scenario,
    places: &[Option<usize>],
) -> Result<Vec<Place>, SideFault>
    requires five { All (λ row. length row ≡ 5) rows.now }
    requires places { Places table.now rows.now places.now }
    requires kept { KeepRules (outside_in_run scenario.now) table.now rows.now }
    ensures one_each { IfOk result (λ starts. length starts.items ≡ length table.now.jobs) }
    ensures given { IfOk result (λ starts. (j : ℕ) → j < length table.now.jobs →
        Any (GivesItem place_in no_place table.now starts.items j) rows.now) }
    ensures fault { IfErr result (λ e. (bytes : List ℕ) → Rows bytes 5 rows.now
        → FirstRunFault table.now scenario.now bytes e) }
{
    let Ok(mut starts) = Vec::with_capacity(alloc, places.len()) else {
        return Err(SideFault::Memory);
    };
    for j in 0..table.len() {
        let Some(place) = places[usize::from(j)] else {
            return Err(SideFault::Missing(JobNo(j)));
        };
        if starts.push(place_of(rows.row(place))).is_err() {
            return Err(SideFault::Memory);
        }
    }
    Ok(starts)
}

/// The recorded run of a CSV text, in the columns of a schedule: its rows have task ID, job ID, start, finish and core,
/// in any order, one for each job.
///
/// Whether the run is legal is not asked, and cores may be ones that are not there.
pub fn read_run(
    alloc: Global,
    bytes: &[u8],
    table: &JobTable,
    scenario: &Scenario,
) -> Result<Schedule, SideFault>
    requires { Fits table.now scenario.now }
    ensures text { IfOk result (RunText table.now scenario.now bytes.now) }
    ensures one_each { IfOk result (λ run. length run ≡ length table.now.jobs) }
    ensures starts { IfOk result (λ run. (j : ℕ) → j < length table.now.jobs → start_of run j ≤ MOST_START) }
    ensures only { IfOk result (λ run.
        (t : List Place) → RunText table.now scenario.now bytes.now t → run ≡ t) }
    ensures fault { IfErr result (FirstRunFault table.now scenario.now bytes.now) }
    ensures refused { IfErr result (λ fault. fault ≢ SideFault.Memory
        → (run : List Place) → ¬ RunText table.now scenario.now bytes.now run) }
{
    // Laws of files of runs, which the proof takes.
    one_recorded_run();
    runs_keep_rules();
    let rows = read_numbers(alloc, bytes, 5)?;
    let found = find_rows(alloc, &rows, table, scenario)?;
    let places = places_of_jobs(alloc, &rows, table, scenario, &found)?;
    Ok(Schedule { places })
}
