//! The trials of a table, and how far they come to the spans of its graph.
#![tactic(auto)]

use sag_graph as _;

mod comparison;
mod laws;
#[cfg(test)]
mod tests;
mod trials;

pub use comparison::gap;
pub use laws::{graph_spans_hold, inner_ends_in_spans, no_gap_on_one_core, one_gap, trials_fit};
pub use trials::trial;
