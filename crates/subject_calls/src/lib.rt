//! Tests of the crates of jobs, runs, tasks, files and reports.
#![tactic(auto)]

#[cfg(test)]
mod csv_numbers_calls;
#[cfg(test)]
mod gap_report_calls;
#[cfg(test)]
mod job_csv_calls;
#[cfg(test)]
mod job_model_calls;
#[cfg(test)]
mod job_model_edges_calls;
#[cfg(test)]
mod job_sets_calls;
#[cfg(test)]
mod replay_calls;
#[cfg(test)]
mod replay_schedule_calls;
#[cfg(test)]
mod response_report_calls;
#[cfg(test)]
mod run_audit_calls;
#[cfg(test)]
mod run_meaning_calls;
#[cfg(test)]
mod sag_time_calls;
#[cfg(test)]
mod side_csv_calls;
#[cfg(test)]
mod task_unroll_calls;
#[cfg(test)]
mod workload_gen_calls;
