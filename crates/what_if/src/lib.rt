//! A table whose costs and deadlines are edited, while its graph stays within a budget.
#![tactic(auto)]

mod fault;
mod laws;
#[cfg(test)]
mod tests;
mod walk;
mod what_if;

pub use fault::{EditFault, WhatIfFault};
pub use laws::{edits_keep_tables, times_are_undone};
pub use what_if::WhatIf;
