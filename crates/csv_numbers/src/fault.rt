//! Why a table is refused.

use thiserror::Error;

/// The first rule that a table breaks. Rows are counted from 1, after the heading, and columns from 1.
#[derive(Clone, Copy, Debug, PartialEq, Eq, Error)]
pub enum CsvFault {
    /// There is no record.
    #[error("there is no heading")]
    NoHeading,
    /// The row has this number of fields, which is not the width: (row, fields).
    #[error("row {0} has {1} fields")]
    Width(u64, u64),
    /// The field is not one or more digits: (row, column).
    #[error("row {0} column {1} is no number")]
    NotNumber(u64, u8),
    /// The number does not fit 64 bits: (row, column).
    #[error("row {0} column {1} is above 18446744073709551615")]
    TooBig(u64, u8),
    /// Memory ran out.
    #[error("memory ran out")]
    Memory,
}
