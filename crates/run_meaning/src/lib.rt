//! What a schedule is, and what it means that one is legal.
#![tactic(auto)]

mod laws;
mod order;
mod places;

pub use laws::{one_run, predecessors_come_earlier, runs_end, starts_agree};
pub use order::dispatch_order;
pub use places::{Place, Schedule};
