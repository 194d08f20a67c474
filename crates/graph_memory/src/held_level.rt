//! Levels in memory.

ghost use Rattle.std.specs.Prelude.{◌≡◌, IfOk};
ghost use Rattle.sag_step.specs.State.{states_of};

use sag_graph::Edge;
use sag_step::State;
use std::alloc::{AllocError, Global};
use std::marker::Model;

/// The states of a level, and the edges into it.
#[derive(Drop)]
pub(crate) struct HeldLevel {
    states: Vec<State>,
    edges: Vec<Edge>,
}

impl Model for HeldLevel {
    ghost use Rattle.sag_step.specs.State.{states_of};
    ghost use Rattle.sag_graph.specs.Levels.{Level};

    ghost Value = { Level };

    ghost view = { λ l. record { states = states_of l.states.items; edges = l.edges.items } };
}

// Such states in memory of their own.
fn copied(alloc: Global, states: &[State]) -> Result<Vec<State>, AllocError>
    ensures { IfOk result (λ copies. states_of copies.items ≡ states_of states.now) }
{
    let mut copies = Vec::with_capacity(alloc, states.len())?;
    for state in states {
        copies.push(state.copy(alloc)?)?;
    }
    Ok(copies)
}

impl HeldLevel {
    /// The level of such states, with such edges into it.
    pub(crate) fn copy_of(
        alloc: Global,
        states: &[State],
        edges: &[Edge],
    ) -> Result<HeldLevel, AllocError>
        ensures { IfOk result (λ l. l ≡ record { states = states_of states.now; edges = edges.now }) }
    {
        let states = copied(alloc, states)?;
        let edges = Vec::from_slice(alloc, edges)?;
        Ok(HeldLevel { states, edges })
    }

    /// The states.
    pub(crate) fn states(&self) -> &[State]
        ensures { states_of result.now ≡ self.now.states }
    {
        &self.states
    }

    /// The edges.
    pub(crate) fn edges(&self) -> &[Edge]
        ensures { result.now ≡ self.now.edges }
    {
        &self.edges
    }
}
