//! What an edit of one job's costs and deadline makes anew of a graph, and what it leaves.
#![tactic(auto)]

mod laws;
mod link;
mod occupant;

pub use laws::{
    edges_stay, edges_tell_totals, level_is_remade, links_are_edges, next_stays,
    order_gives_states, rework_is_counted, start_stays, states_stay, steps_are_counted,
    times_are_edit, windows_stay,
};
pub use link::Link;
pub use occupant::Occupant;
