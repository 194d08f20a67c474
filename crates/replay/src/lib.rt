//! The schedule of a scenario.
#![tactic(auto)]

mod cores;
mod dispatch;
mod queues;
mod schedule;

pub use dispatch::replay;
pub use run_turns::runs_exist;
pub use schedule::write_schedule;
