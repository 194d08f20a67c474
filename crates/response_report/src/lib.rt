//! Reports of bounds on the completion and response times of jobs and tasks.
#![tactic(auto)]

mod job_report;
mod laws;
mod report_row;
mod task_report;

pub use job_report::{rows, write_report};
pub use laws::responses_within_wcrt;
pub use report_row::ReportRow;
pub use task_report::{task_rows, write_tasks};
