//! States of the schedule-abstraction graph, and the steps between them.
#![tactic(auto)]

mod ends;
mod laws;
mod state;
mod steps;
mod tracking;

pub use laws::{
    finish_is_up_to, hull_is_shaped, hull_is_state, hull_is_up_to, next_is_shaped, next_is_state,
    next_is_up_to, root_is_shaped, scratch_has_room, shape_is_tested, shaped_are_comparable,
    some_step_is_left, state_hull_is_least, widening_is_reflexive, widening_is_transitive,
};
pub use state::State;
use std::marker::Model;
pub use steps::Steps;

/// The greatest number of a state in memory, in units of time.
pub const MOST_TIME: u64 = 9_223_372_036_854_775_807;

/// The greatest number of a state from which a step is made, in units of time.
pub const MOST_STEP_TIME: u64 = 4_611_686_018_427_387_903;

/// The number of a state: its place in its level, counted from 0.
#[derive(Clone, Copy, Default, PartialEq, Eq, PartialOrd, Ord, Hash, Debug)]
pub struct StateNo(pub u32);

impl Model for StateNo {
    ghost use Rattle.std.specs.Prelude.{ℕ};

    ghost Value = { ℕ };

    ghost view = { λ no. no.0 };

    ghost inverse = { λ n. record { 0 = n } };
}
