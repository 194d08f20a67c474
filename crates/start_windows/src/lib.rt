//! When a job may be the next to start.
#![tactic(auto)]

mod eligibility;
mod ends;
mod front;
mod laws;
mod windows;

pub use eligibility::{Prospect, eligible};
pub use ends::Ends;
pub use front::front_from;
pub use laws::{fronts_are_handed_down, some_job_is_eligible};
pub use windows::{candidate, window};

/// The first and the last moment at which a job may be the next to start.
#[derive(Clone, Copy, PartialEq, Eq, Debug)]
pub struct StartWindow {
    /// The earliest start.
    pub est: u64,
    /// The latest start.
    pub lst: u64,
}
