//! What a call of `sag` can be refused for.

use csv_numbers::CsvFault;
use job_model::{EdgeFault, TableFault};
use side_csv::SideFault;
use task_unroll::TaskFault;

/// A file of the command line, by what it holds.
#[derive(Clone, Copy, PartialEq, Eq, Debug)]
pub enum FileKind {
    Jobs,
    Scenario,
    Precedence,
    Certificate,
    Run,
    Tasks,
    Edits,
}

/// Why there is no answer. Rows are counted from 1, after the heading, and columns from 1.
#[derive(Debug, Drop)]
pub enum Fault {
    /// The words ask for no command.
    Usage,
    /// The file has more bytes than are read.
    TooLong(FileKind),
    /// The file is no table of numbers.
    Csv(FileKind, CsvFault),
    /// The rows of the job file are no job table.
    Table(TableFault),
    /// The rows of the precedence file are no edges of a job table.
    Edge(EdgeFault),
    /// A file beside the job file does not fit the job table.
    Side(FileKind, SideFault),
    /// The file has no row for this job: (file, task ID, job ID).
    NoRow(FileKind, u64, u64),
    /// The certificate is not in the grammar: this is the first byte with which its bytes begin none, by its line and its
    /// number in that line, both from 1.
    Text { line: u64, byte: u64 },
    /// No job of the table has these IDs: (task ID, job ID).
    NoJob(u64, u64),
    /// The tasks of the tasks file are refused, or the jobs that they make.
    Tasks(TaskFault),
    /// There is no trial of this number: the greatest that there is.
    NoTrial { trial: u32, most: u32 },
    /// Reading the file failed.
    CannotRead(FileKind),
    /// Writing the answer failed.
    CannotWrite,
    /// Memory ran out.
    NoMemory,
}
