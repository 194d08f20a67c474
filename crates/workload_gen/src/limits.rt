//! The limit of workloads.

/// The most jobs of a workload.
pub const MOST_WORKLOAD_JOBS: u16 = 4_096;
