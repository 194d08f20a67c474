//! A walk through the graph of a table, which keeps nothing of it.

ghost use Rattle.std.specs.Prelude.{◌≡◌, ◌≤◌, IfErr, None, OnOk};
ghost use Rattle.job_model.specs.declared.limits.TheConstants.{MOST_CORES};
ghost use Rattle.sag_graph.specs.declared.TheConstants.{MOST_BUDGET};
ghost use Rattle.sag_graph.specs.Budget.{spent};
ghost use Rattle.what_if.specs.Faults.{IsOverBudget};

use graph_builder::{LevelBuilder, LevelFault, whole_graph_is_within};
use job_model::JobTable;
use std::alloc::Global;

/// Walks through the graph of the table, level by level, and sees whether it stays within the budget.
pub(crate) fn walk(
    alloc: Global,
    table: &JobTable,
    cores: u16,
    budget: u32,
) -> Result<(), LevelFault>
    requires some_core { 1 ≤ cores }
    requires few_cores { cores ≤ MOST_CORES }
    requires some_budget { 1 ≤ budget }
    requires small_budget { budget ≤ MOST_BUDGET }
    ensures within { OnOk result (spent table.now cores budget ≡ None) }
    ensures over { IfErr result (IsOverBudget table.now cores budget) }
{
    whole_graph_is_within();
    let mut builder = LevelBuilder::new(alloc, table, cores, budget)?;
    for _ in 0..table.len() {
        builder.next_level()?;
    }
    let _level = builder.level();
    Ok(())
}
