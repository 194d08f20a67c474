//! The schedule-abstraction graph of a table in memory, built within a budget.
#![tactic(auto)]

use cert_text as _;
use graph_valid as _;
use start_windows as _;

mod building;
mod graph;
mod held_level;
mod laws;

pub use building::{BuildAnswer, build};
pub use graph::Graph;
pub use laws::{edges_are_steps, graphs_are_held, job_lines_tell_spans};
