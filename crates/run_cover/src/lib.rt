//! Every legal run is covered by the schedule-abstraction graph, state by state.
#![tactic(auto)]

mod core_times;
mod dispatched;
mod first_jobs;
mod laws;

pub use first_jobs::replayed;
pub use laws::{root_covers, steps_cover, wider_states_cover};
