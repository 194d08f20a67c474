//! Job tables that are made from a number.
#![tactic(auto)]

mod job_words;
mod limits;
mod workload;

pub use limits::MOST_WORKLOAD_JOBS;
pub use workload::generate;
