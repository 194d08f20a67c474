//! Laws of task files, and of unrolling.

ghost use Rattle.task_unroll.specs.Laws.{OneTaskFault, OneTaskList, OneUnrollFault, TasksKeepRules, UnrolledKeepsRules};

use csv_numbers::{one_first_fault, rows_agree, rows_keep_rules};

/// The bytes of a task file fix its tasks.
pub fn one_task_list()
    ensures { OneTaskList }
{
    rows_agree();
}

/// A task file has at most one first broken rule, beside want of memory.
pub fn one_task_fault()
    ensures { OneTaskFault }
{
    rows_agree();
    rows_keep_rules();
    one_first_fault();
}

/// A task file whose tasks keep the rules breaks none.
pub fn tasks_keep_rules()
    ensures { TasksKeepRules }
{
    rows_agree();
    rows_keep_rules();
}

/// There is at most one first reason why tasks are not unrolled, beside want of memory.
pub fn one_unroll_fault()
    ensures { OneUnrollFault }
{}

/// Where the jobs of tasks are a job table, there is no reason not to unroll them.
pub fn unrolled_keeps_rules()
    ensures { UnrolledKeepsRules }
{}
