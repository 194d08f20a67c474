//! The limits of tasks and of horizons. With them no time of a job that is unrolled is above 2^49.

/// The greatest period, offset, jitter and relative deadline, in units of time: 2^48 - 1.
pub const MOST_TASK_TIME: u64 = 281_474_976_710_655;

/// The latest horizon, in units of time: 2^48 - 1.
pub const MOST_HORIZON: u64 = 281_474_976_710_655;
