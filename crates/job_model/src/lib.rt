//! Jobs, job tables and scenarios.
#![tactic(auto)]

mod cycles;
mod edge_rows;
mod edges;
mod fault;
mod fault_laws;
mod interval_end;
mod job_lists;
mod job_row;
mod laws;
mod limits;
mod ranks;
mod release_order;
mod scenario;
mod table;
mod walk_back;

pub use fault::{EdgeFault, TableFault};
pub use fault_laws::{edges_keep_rules, one_edge_fault, one_table_fault, tables_keep_rules};
pub use interval_end::End;
pub use job_row::Job;
pub use job_sets::JobNo;
pub use laws::ranks_order_jobs;
pub use limits::{
    Column, MOST_ARRIVAL, MOST_CORES, MOST_COST, MOST_EDGES, MOST_JOBS, MOST_START, first_above,
};
pub use scenario::Scenario;
pub use table::JobTable;
