//! The files of the subject, read and judged.

ghost use Rattle.std.specs.Prelude.{◌≡◌, ℕ, IfOk, List, [], length};
ghost use Rattle.job_model.specs.Neighbours.{JoinJobs};
ghost use Rattle.sag_engine.specs.Inputs.{IsOfTable, JobsJudged, PrecedenceJudged, ScenarioJudged, jobs_plan, precedence_plan, scenario_plan, table_plan, told_fault};
ghost use Rattle.sag_engine.specs.PrecedenceSteps.{EdgesJoined, EdgesNamed};
ghost use Rattle.sag_engine.specs.RunEnds.{Follows, Judged};

use crate::fetch::{MOST_FILE_BYTES, fetch};
use crate::halt::{Halt, Refusal, refused};
use job_csv::{CsvFault, read_jobs};
use job_model::{EdgeFault, JobNo, JobTable, Scenario, TableFault};
use sag_edge::{FileName, Files};
use sag_texts::{Fault, FileKind};
use side_csv::{SideFault, read_edges, read_scenario};
use std::alloc::Global;

// The table of a job file.
fn table_of(alloc: Global, bytes: &[u8]) -> Result<JobTable, Halt>
    ensures { Judged (λ table. table) (JobsJudged bytes.now) result }
{
    let rows = match read_jobs(alloc, bytes) {
        Ok(rows) => rows,
        Err(CsvFault::Memory) => return Err(Halt::Memory),
        Err(fault) => return refused(Fault::Csv(FileKind::Jobs, fault)),
    };
    match JobTable::from_rows(alloc, rows) {
        Ok(table) => Ok(table),
        Err(TableFault::Memory) => Err(Halt::Memory),
        Err(fault) => refused(Fault::Table(fault)),
    }
}

// The edges that the rows of a precedence file name.
fn named_edges(alloc: Global, bytes: &[u8], table: &JobTable) -> Result<Vec<(JobNo, JobNo)>, Halt>
    ensures edges { Judged (λ edges. edges.items) (EdgesNamed table.now bytes.now) result }
    ensures in_range { IfOk result (λ edges. JoinJobs (length table.now.jobs) edges.items) }
{
    match read_edges(alloc, bytes, table) {
        Ok(edges) => Ok(edges),
        Err(SideFault::Memory) => Err(Halt::Memory),
        Err(fault) => refused(Fault::Side(FileKind::Precedence, fault)),
    }
}

// The table with those edges.
fn joined(alloc: Global, table: JobTable, edges: &[(JobNo, JobNo)]) -> Result<JobTable, Halt>
    requires no_edges { table.edges ≡ [] }
    requires in_range { JoinJobs (length table.jobs) edges.now }
    ensures { Judged (λ table. table) (EdgesJoined table edges.now) result }
{
    match table.with_edges(alloc, edges) {
        Ok(table) => Ok(table),
        Err((_, EdgeFault::Memory)) => Err(Halt::Memory),
        Err((_, fault)) => refused(Fault::Edge(fault)),
    }
}

// The table with the edges of a precedence file.
fn with_precedence(alloc: Global, table: JobTable, bytes: &[u8]) -> Result<JobTable, Halt>
    requires { table.edges ≡ [] }
    ensures { Judged (λ table. table) (PrecedenceJudged table bytes.now) result }
{
    let edges = named_edges(alloc, bytes, &table)?;
    joined(alloc, table, &edges)
}

/// What is told of a fault of a file with a row for each job: a job without a row is named by its IDs.
pub(crate) fn told(file: FileKind, table: &JobTable, fault: SideFault) -> Refusal
    requires { IsOfTable table.now fault }
    ensures { result ≡ told_fault file table.now fault }
{
    match fault {
        SideFault::Missing(no) => {
            let job = table.job(no);
            Refusal::new(Fault::NoRow(file, job.task, job.job))
        }
        fault => Refusal::new(Fault::Side(file, fault)),
    }
}

// The scenario of a scenario file.
fn scenario_of(alloc: Global, bytes: &[u8], table: &JobTable) -> Result<Scenario, Halt>
    ensures { Judged (λ scenario. scenario) (ScenarioJudged table.now bytes.now) result }
{
    match read_scenario(alloc, bytes, table) {
        Ok(scenario) => Ok(scenario),
        Err(SideFault::Memory) => Err(Halt::Memory),
        Err(fault) => Err(Halt::Refused(told(FileKind::Scenario, table, fault))),
    }
}

// Reads the job file.
fn read_jobs_file<F: Files>(alloc: Global, files: &mut F, name: FileName) -> Result<JobTable, Halt>
    ensures { Follows (λ table. table) (jobs_plan name) (F.seen files.old) (F.seen files.new) result }
{
    let bytes = fetch(alloc, files, FileKind::Jobs, name, MOST_FILE_BYTES)?;
    table_of(alloc, &bytes)
}

// Reads the precedence file of a table, where one is named.
fn read_precedence_file<F: Files>(
    alloc: Global,
    files: &mut F,
    table: JobTable,
    name: Option<FileName>,
) -> Result<JobTable, Halt>
    requires { table.edges ≡ [] }
    ensures { Follows (λ table. table) (precedence_plan table name)
        (F.seen files.old) (F.seen files.new) result }
{
    let Some(name) = name else {
        return Ok(table);
    };
    let bytes = fetch(alloc, files, FileKind::Precedence, name, MOST_FILE_BYTES)?;
    with_precedence(alloc, table, &bytes)
}

/// Reads the job file, and then the precedence file where one is named.
pub(crate) fn read_table<F: Files>(
    alloc: Global,
    files: &mut F,
    jobs: FileName,
    prec: Option<FileName>,
) -> Result<JobTable, Halt>
    ensures { Follows (λ table. table) (table_plan jobs prec) (F.seen files.old) (F.seen files.new) result }
{
    let table = read_jobs_file(alloc, files, jobs)?;
    read_precedence_file(alloc, files, table, prec)
}

/// Reads the scenario file of a table.
pub(crate) fn read_scenario_file<F: Files>(
    alloc: Global,
    files: &mut F,
    table: &JobTable,
    name: FileName,
) -> Result<Scenario, Halt>
    ensures { Follows (λ scenario. scenario) (scenario_plan table.now name)
        (F.seen files.old) (F.seen files.new) result }
{
    let bytes = fetch(alloc, files, FileKind::Scenario, name, MOST_FILE_BYTES)?;
    scenario_of(alloc, &bytes, table)
}
