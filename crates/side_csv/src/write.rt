//! Writing scenario files.

ghost use Rattle.std.specs.Prelude.{◌≡◌, ◌<◌, IfOk, length};
ghost use Rattle.job_model.specs.Scenario.{Fits};
ghost use Rattle.job_model.specs.Table.{IsTable};
ghost use Rattle.side_csv.specs.ScenarioRows.{scenario_row, scenario_rows, scenario_text};
ghost use Rattle.side_csv.specs.ScenarioText.{ScenarioText};

use csv_numbers::write_table;
use job_model::{JobNo, JobTable, Scenario};
use std::alloc::{AllocError, Global};

// The row of one job.
fn row_of(table: &JobTable, scenario: &Scenario, no: JobNo) -> [u64; 4]
    requires job { no < length table.now.jobs }
    requires one_each { length scenario.now ≡ length table.now.jobs }
    ensures { result ≡ scenario_row table.now scenario.now no }
{
    let job = table.job(no);
    [job.task, job.job, scenario.release(no), scenario.cost(no)]
}

/// The CSV text of a scenario: the heading that names the columns, and a row for each job by its number.
pub fn write_scenario(
    alloc: Global,
    table: &JobTable,
    scenario: &Scenario,
) -> Result<Vec<u8>, AllocError>
    requires { Fits table.now scenario.now }
    ensures text { IfOk result (λ text. text.items ≡ scenario_text table.now scenario.now) }
    ensures reads { IfOk result (λ text. ScenarioText table.now text.items scenario.now) }
{
    let count = table.len();
    let mut rows = Vec::with_capacity(alloc, usize::from(count))?;
    for no in 0..count {
        rows.push(row_of(table, scenario, JobNo(no)))?;
    }
    write_table(alloc, &["Task ID", "Job ID", "Release", "Cost"], &rows)
}
