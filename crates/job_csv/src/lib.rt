//! Jobs as CSV.
#![tactic(auto)]

mod laws;
mod read;
mod write;

pub use csv_numbers::CsvFault;
pub use laws::one_job_list;
pub use read::read_jobs;
pub use write::write_jobs;
