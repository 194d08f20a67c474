//! How many jobs tasks release before a horizon, and whether one of them may come too late. No job is listed for that.

ghost use Rattle.std.specs.Prelude.{◌≡◌, ◌<◌, ◌≤◌, ◌↔◌, All, IfNone, IfSome, IsTrue, length};
ghost use Rattle.lists.specs.Numbers.{numbers_below};
ghost use Rattle.task_unroll.specs.Tasks.{IsTask};
ghost use Rattle.task_unroll.specs.UnrollFaults.{IsFirstLate, IsLate};
ghost use Rattle.task_unroll.specs.Unrolled.{releases_of, released_count};

use crate::{MOST_HORIZON, Task};
use job_model::{MOST_ARRIVAL, MOST_JOBS};

/// How many jobs the task releases before the horizon.
pub(crate) fn count_releases(task: &Task, horizon: u64) -> u64
    requires task { IsTask task.now }
    requires horizon { horizon ≤ MOST_HORIZON }
    ensures count { releases_of task.now horizon ≡ numbers_below result }
    ensures few { result ≤ horizon }
{
    if horizon <= task.offset {
        return 0;
    }
    (horizon - task.offset - 1) / task.period + 1
}

// Whether one of its jobs may be released too late. The last one tells.
fn is_late(task: &Task, horizon: u64) -> bool
    requires task { IsTask task.now }
    requires horizon { horizon ≤ MOST_HORIZON }
    ensures { IsTrue result ↔ IsLate horizon task.now }
{
    if horizon <= task.offset {
        return false;
    }
    let last = (horizon - task.offset - 1) / task.period;
    MOST_ARRIVAL < task.offset + last * task.period + task.jitter
}

/// The row of the first task with a job that may be released too late. Rows are counted from 1.
pub(crate) fn first_late(tasks: &[Task], horizon: u64) -> Option<u64>
    requires tasks { All IsTask tasks.now }
    requires horizon { horizon ≤ MOST_HORIZON }
    ensures late { IfSome result (IsFirstLate tasks.now horizon) }
    ensures none { IfNone result (All (λ task. ¬ IsLate horizon task) tasks.now) }
{
    for (i, task) in tasks.iter().enumerate() {
        if is_late(task, horizon) {
            return Some(i as u64 + 1);
        }
    }
    None
}

/// Whether there are more jobs than a table may have. It stops as soon as there are, so no sum grows.
pub(crate) fn too_many(tasks: &[Task], horizon: u64) -> bool
    requires tasks { All IsTask tasks.now }
    requires horizon { horizon ≤ MOST_HORIZON }
    ensures { IsTrue result ↔ (MOST_JOBS < released_count tasks.now horizon) }
{
    let mut jobs = 0;
    for task in tasks {
        jobs += count_releases(task, horizon);
        if u64::from(MOST_JOBS) < jobs {
            return true;
        }
    }
    false
}
