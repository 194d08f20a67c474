//! A state of a level, and where its jobs begin that are not dispatched.

use sag_step::State;

/// A state of a level, and its front: a place in the order of release before which all its jobs are dispatched.
#[derive(Drop)]
pub(crate) struct LevelState {
    pub state: State,
    pub front: u16,
}
