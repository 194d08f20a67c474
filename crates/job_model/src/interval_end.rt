//! The two ends of an interval of finish times.

/// An end of an interval of finish times.
#[derive(Clone, Copy, PartialEq, Eq, Debug)]
pub enum End {
    /// The earliest finish.
    Best,
    /// The latest finish.
    Worst,
}
