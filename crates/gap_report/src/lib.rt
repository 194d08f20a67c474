//! The gap between bounds on the finish times of jobs and the finishes of runs.
#![tactic(auto)]

mod gap;
mod gap_row;
mod inner_ends;
mod laws;
mod trials;

pub use gap::Gap;
pub use gap_row::{GapRow, write_gap};
pub use inner_ends::InnerEnds;
pub use laws::{plain_trials_fit, takes_keep_ends};
pub use trials::{last_trial, plain_trial};
