//! Periodic tasks, and the jobs that they release before a horizon.
#![tactic(auto)]

mod count;
mod fault;
mod jobs;
mod laws;
mod limits;
mod read;
mod task;

pub use csv_numbers::CsvFault;
pub use fault::TaskFault;
pub use jobs::unroll;
pub use laws::{
    one_task_fault, one_task_list, one_unroll_fault, tasks_keep_rules, unrolled_keeps_rules,
};
pub use limits::{MOST_HORIZON, MOST_TASK_TIME};
pub use read::read_tasks;
pub use task::{Policy, Task};
