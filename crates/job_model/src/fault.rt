//! Why a job table or its precedence edges are refused.

use thiserror::Error;

/// The first rule that the rows of a job table break. Rows and columns are counted from 1.
#[derive(Clone, Copy, Debug, PartialEq, Eq, Error)]
pub enum TableFault {
    /// There are more rows than a table may have.
    #[error("too many rows")]
    TooMany,
    /// A release or a cost is above its limit: row, column.
    #[error("row {0} column {1} is above the limit")]
    OverLimit(u32, u8),
    /// An interval ends before it begins: row, column of its low end.
    #[error("row {0} column {1} is above the next")]
    SpanReversed(u32, u8),
    /// The job may cost nothing: row.
    #[error("row {0} column 5 is 0")]
    ZeroCost(u32),
    /// The row has the IDs of an earlier one: row, earlier row.
    #[error("row {0} repeats row {1}")]
    Twice(u32, u32),
    /// Memory ran out.
    #[error("no memory")]
    Memory,
}

/// The first rule that precedence rows break. Rows are counted from 1.
#[derive(Clone, Copy, Debug, PartialEq, Eq, Error)]
pub enum EdgeFault {
    /// There are more rows than a table may have.
    #[error("too many rows")]
    TooManyEdges,
    /// The row names one job twice: row.
    #[error("row {0} names one job twice")]
    SelfEdge(u32),
    /// The row closes a cycle with those before it: row.
    #[error("row {0} closes a cycle")]
    Cycle(u32),
    /// Memory ran out.
    #[error("no memory")]
    Memory,
}
