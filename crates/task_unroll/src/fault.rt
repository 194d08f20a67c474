//! Why tasks are refused.

ghost use Rattle.std.specs.Prelude.{◌≡◌};
ghost use Rattle.task_unroll.specs.TaskFaults.{task_fault_of};

use csv_numbers::CsvFault;
use thiserror::Error;

/// Why a task file is refused, or its tasks are not unrolled. Rows are counted from 1, after the heading, and columns
/// from 1.
#[derive(Clone, Copy, Debug, PartialEq, Eq, Error)]
pub enum TaskFault {
    /// The text is no table of seven numbers a row. The fault inside is never want of memory.
    #[error("{0}")]
    Csv(CsvFault),
    /// A time or a cost is above its limit: row, column.
    #[error("row {0} column {1} is above the limit")]
    OverLimit(u64, u8),
    /// The period is 0: row.
    #[error("row {0} column 2 is 0")]
    ZeroPeriod(u64),
    /// The least cost is above the greatest: row.
    #[error("row {0} column 5 is above the next")]
    SpanReversed(u64),
    /// A job may cost nothing: row.
    #[error("row {0} column 5 is 0")]
    ZeroCost(u64),
    /// The row has the ID of an earlier one: row, earlier row.
    #[error("row {0} repeats row {1}")]
    Twice(u64, u64),
    /// A job may be released after the latest arrival: row of its task.
    #[error("row {0} releases too late")]
    Late(u64),
    /// There are more jobs than a table may have.
    #[error("too many jobs")]
    TooMany,
    /// Memory ran out.
    #[error("no memory")]
    Memory,
}

impl From<CsvFault> for TaskFault {
    ghost from_gives = { λ e fault. fault ≡ task_fault_of e };

    fn from(e: CsvFault) -> TaskFault {
        match e {
            CsvFault::Memory => TaskFault::Memory,
            e => TaskFault::Csv(e),
        }
    }
}
