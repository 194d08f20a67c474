//! A level that is not whole yet.

ghost use Rattle.std.specs.Prelude.{◌≡◌, [], IfOk};

use sag_graph::Edge;
use sag_step::State;
use state_merge::LevelIndex;
use std::alloc::{AllocError, Global};

/// What is made of a level so far.
#[derive(Drop)]
pub(crate) struct Draft {
    pub(crate) index: LevelIndex,
    pub(crate) edges: Vec<Edge>,
    // for each state a place in the order of release before which all jobs are dispatched there
    pub(crate) fronts: Vec<u16>,
}

impl Draft {
    /// No states and no edges. New states are made of these, as long as there are any.
    pub(crate) fn over(alloc: Global, pool: Vec<State>) -> Result<Draft, AllocError>
        ensures index { IfOk result (λ draft. draft.index ≡ []) }
        ensures edges { IfOk result (λ draft. draft.edges.items ≡ []) }
        ensures fronts { IfOk result (λ draft. draft.fronts.items ≡ []) }
    {
        let index = LevelIndex::over(alloc, pool)?;
        Ok(Draft {
            index,
            edges: Vec::new(alloc),
            fronts: Vec::new(alloc),
        })
    }
}
