//! Builds the schedule-abstraction graph of a table level by level, within a budget.
#![tactic(auto)]

mod draft;
mod fault;
mod filling;
mod laws;
mod level_builder;
mod spans;
mod state_line;
mod writing;

pub use fault::LevelFault;
pub use laws::{levels_are_fit, whole_graph_is_within};
pub use level_builder::LevelBuilder;
