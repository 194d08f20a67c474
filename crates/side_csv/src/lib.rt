//! Files beside the job file, as CSV: scenarios, with a release and a cost for each job; precedence edges; recorded runs,
//! with a start and a core for each job; and edits, which give jobs costs and deadlines anew.
#![tactic(auto)]

mod edits;
mod fault;
mod laws;
mod precedence;
mod row_per_job;
mod run;
mod scenario;
mod write;

pub use edits::{JobEdit, read_edits};
pub use fault::SideFault;
pub use laws::{
    edits_keep_rules, one_edit_fault, one_list_of_edits, one_precedence, one_precedence_fault,
    one_recorded_run, one_run_fault, one_scenario, one_scenario_fault, precedence_keeps_rules,
    runs_keep_rules, scenarios_keep_rules,
};
pub use precedence::read_edges;
pub use run::{MOST_CORE, read_run};
pub use scenario::read_scenario;
pub use write::write_scenario;
