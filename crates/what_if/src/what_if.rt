//! A table that is edited within a budget.

ghost use Rattle.std.specs.Prelude.{◌≡◌, ◌≤◌, ◌<◌, All, IfErr, IfOk, None, OnErr, OnOk, length};
ghost use Rattle.job_model.specs.declared.limits.TheConstants.{MOST_CORES};
ghost use Rattle.job_model.specs.Table.{job_at};
ghost use Rattle.job_model.specs.Times.{MayCost, with_times};
ghost use Rattle.sag_graph.specs.declared.TheConstants.{MOST_BUDGET};
ghost use Rattle.sag_graph.specs.Budget.{spent};
ghost use Rattle.what_if.specs.Bounded.{IsWithinBudget, bounded_anew};
ghost use Rattle.what_if.specs.Edits.{first_spent, tables_of, with_edit, with_edits};
ghost use Rattle.what_if.specs.Faults.{IsRefusedEdit, IsUntaken};

use crate::laws::times_are_undone;
use crate::walk::walk;
use crate::{EditFault, WhatIfFault};
use graph_builder::LevelFault;
use job_model::{Job, JobNo, JobTable};
use side_csv::JobEdit;
use std::alloc::Global;
use std::marker::Model;

/// A table, whose costs and deadlines may be edited, on so many cores and with a budget of states that its graph stays
/// within.
#[derive(Drop)]
pub struct WhatIf {
    alloc: Global,
    table: JobTable,
    cores: u16,
    budget: u32,
}

impl Model for WhatIf {
    ghost use Rattle.what_if.specs.Bounded.{BoundedTable, IsWithinBudget};

    ghost Value = { BoundedTable };

    ghost view = { λ w. record { table = w.table; cores = w.cores; budget = w.budget } };

    ghost invariant = { λ w. IsWithinBudget (record { table = w.table; cores = w.cores; budget = w.budget }) };
}

// Gives the job the costs and the deadline that it had.
fn restore(table: &mut JobTable, no: JobNo, job: &Job)
    requires in_range { no < length table.old.jobs }
    requires costs { MayCost job.now.cmin job.now.cmax }
    ensures { table.new ≡ with_times table.old no job.now.cmin job.now.cmax job.now.deadline }
{
    let _ = table.retime(no, job.cmin, job.cmax, job.deadline);
}

impl WhatIf {
    /// The table, if its graph stays within the budget. A refusal drops the table.
    pub fn new(
        alloc: Global,
        table: JobTable,
        cores: u16,
        budget: u32,
    ) -> Result<WhatIf, WhatIfFault>
        requires some_core { 1 ≤ cores }
        requires few_cores { cores ≤ MOST_CORES }
        requires some_budget { 1 ≤ budget }
        requires small_budget { budget ≤ MOST_BUDGET }
        ensures taken { IfOk result (λ w. w ≡ record { table = table; cores = cores; budget = budget }) }
        ensures within { OnOk result (spent table cores budget ≡ None) }
        ensures untaken { IfErr result (IsUntaken (spent table cores budget)) }
    {
        match walk(alloc, &table, cores, budget) {
            Ok(()) => Ok(WhatIf {
                alloc,
                table,
                cores,
                budget,
            }),
            Err(
                LevelFault::Spent {
                    level,
                    states,
                    edges,
                },
            ) => Err(WhatIfFault::Spent {
                level,
                states,
                edges,
            }),
            Err(LevelFault::Memory) => Err(WhatIfFault::Memory),
        }
    }

    /// The table, with the edits made so far.
    pub fn table(&self) -> &JobTable
        ensures table { result.now ≡ self.now.table }
        ensures within { IsWithinBudget self.now }
    {
        &self.table
    }

    /// The number of cores.
    pub fn cores(&self) -> u16
        ensures cores { result ≡ self.now.cores }
        ensures within { IsWithinBudget self.now }
    {
        self.cores
    }

    /// The budget of states.
    pub fn budget(&self) -> u32
        ensures budget { result ≡ self.now.budget }
        ensures within { IsWithinBudget self.now }
    {
        self.budget
    }

    /// Gives a job other costs and another deadline. A refusal leaves the table as it was.
    pub fn edit(&mut self, edit: JobEdit) -> Result<(), EditFault>
        requires { edit.job < length self.old.table.jobs }
        ensures edited { OnOk result (self.new ≡ bounded_anew self.old (with_edit self.old.table edit)) }
        ensures costs { OnOk result (MayCost edit.cmin edit.cmax) }
        ensures unchanged { OnErr result (self.new ≡ self.old) }
        ensures refused { IfErr result (IsRefusedEdit self.old edit) }
        ensures within { IsWithinBudget self.new }
    {
        times_are_undone();
        let before = *self.table.job(edit.job);
        if !self
            .table
            .retime(edit.job, edit.cmin, edit.cmax, edit.deadline)
        {
            return Err(EditFault::Cost);
        }
        match walk(self.alloc, &self.table, self.cores, self.budget) {
            Ok(()) => Ok(()),
            Err(fault) => {
                restore(&mut self.table, edit.job, &before);
                Err(EditFault::from(fault))
            }
        }
    }

    /// With all of these edits made, one after another. A refusal drops the table.
    pub fn with_edits(mut self, edits: &[JobEdit]) -> Result<WhatIf, WhatIfFault>
        requires in_range { All (λ e. e.job < length self.table.jobs) edits.now }
        requires costs { All (λ e. MayCost e.cmin e.cmax) edits.now }
        ensures edited { IfOk result (λ w. w ≡ bounded_anew self (with_edits self.table edits.now)) }
        ensures within { OnOk result (first_spent (tables_of self.table edits.now) self.cores self.budget ≡ None) }
        ensures untaken { IfErr result (IsUntaken (first_spent (tables_of self.table edits.now) self.cores self.budget)) }
    {
        // what the type keeps of the table is known from here on
        let _budget = self.budget();
        for edit in edits {
            match self.edit(*edit) {
                Ok(()) => {}
                Err(
                    EditFault::Spent {
                        level,
                        states,
                        edges,
                    },
                ) => {
                    return Err(WhatIfFault::Spent {
                        level,
                        states,
                        edges,
                    });
                }
                Err(EditFault::Memory) => return Err(WhatIfFault::Memory),
                Err(EditFault::Cost) => unreachable!(),
            }
        }
        Ok(self)
    }
}
