//! Why a file beside the job table is refused.

ghost use Rattle.std.specs.Prelude.{◌≡◌};
ghost use Rattle.side_csv.specs.RowPerJobFaults.{side_fault_of};

use csv_numbers::CsvFault;
use job_model::JobNo;

/// The first rule that a file beside the job table breaks. Rows are counted from 1, after the heading, and columns
/// from 1.
#[derive(Debug, PartialEq, Eq, Drop)]
pub enum SideFault {
    /// The text is no table of as many numbers a row as the file has columns. The fault inside is never want of memory.
    Csv(CsvFault),
    /// No job has these IDs: (row, column of the task ID).
    Unknown(u64, u8),
    /// The job has no row.
    Missing(JobNo),
    /// The row names the job of an earlier one: (row, earlier row).
    Twice(u64, u64),
    /// The number is outside its interval: (row, column).
    Outside(u64, u8),
    /// Memory ran out.
    Memory,
}

impl From<CsvFault> for SideFault {
    ghost from_gives = { λ e fault. fault ≡ side_fault_of e };

    fn from(e: CsvFault) -> SideFault {
        match e {
            CsvFault::Memory => SideFault::Memory,
            e => SideFault::Csv(e),
        }
    }
}
