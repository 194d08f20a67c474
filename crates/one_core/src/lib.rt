//! Scenarios in which a job finishes at an end of its span, on one core without precedence.
#![tactic(auto)]

use start_windows as _;

mod edges;
mod laws;
mod walk;

pub use job_model::End;
pub use laws::{ends_are_attained, intervals_are_reached, misses_are_real, spans_are_narrowest};
pub use walk::extreme;
