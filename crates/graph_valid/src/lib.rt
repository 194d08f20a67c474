//! The certificate of a graph is valid and readable.
#![tactic(auto)]

mod laws;

pub use laws::{
    each_job_has_edge, each_state_has_edge, edges_name_states, graph_is_readable, graph_is_short,
    graph_is_valid,
};
