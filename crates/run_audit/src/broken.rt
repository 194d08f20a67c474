//! Rules that a schedule can break.

use job_sets::JobNo;

/// A rule of legal schedules. The rules are judged in this order.
#[derive(Clone, Copy, PartialEq, Eq, Debug)]
pub enum Rule {
    /// Every job is on a core that is there.
    L0,
    /// No job starts before it is ready.
    L1,
    /// No two jobs on one core overlap.
    L2,
    /// While a job is ready and waits, every core is busy, and only more urgent jobs start.
    L3,
}

/// A rule that is broken: by which job, and when.
#[derive(Clone, Copy, PartialEq, Eq, Debug)]
pub struct Break {
    /// The rule.
    pub rule: Rule,
    /// The job that breaks it.
    pub job: JobNo,
    /// Its start, or for `L3` a moment at which it waits although it need not.
    pub time: u64,
}
