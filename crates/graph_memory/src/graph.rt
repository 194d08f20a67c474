//! Graphs in memory.

ghost use Rattle.std.specs.Prelude.{◌≡◌, ◌<◌, None, length, slice_index_or};
ghost use Rattle.sag_step.specs.State.{states_of};
ghost use Rattle.graph_memory.specs.Held.{IsHeldGraph, edges_in, level_in, states_in};

use crate::held_level::HeldLevel;
use job_sets::JobNo;
use sag_graph::Edge;
use sag_step::State;
use sag_time::Span;
use std::marker::Model;

/// A graph: its levels, and for each job its span, if it has an edge.
#[derive(Drop)]
pub struct Graph {
    cores: u16,
    levels: Vec<HeldLevel>,
    spans: Vec<Option<Span>>,
    state_total: u64,
    edge_total: u64,
}

impl Model for Graph {
    ghost use Rattle.std.specs.Prelude.{◌≡◌};
    ghost use Rattle.sag_graph.specs.Graph.{AbstractionGraph};
    ghost use Rattle.graph_memory.specs.Held.{IsHeldGraph, edges_in, states_in};

    ghost Value = { AbstractionGraph };

    ghost view = { λ g. record { cores = g.cores; levels = g.levels.items; spans = g.spans.items } };

    ghost invariant = { λ g. IsHeldGraph (record { cores = g.cores; levels = g.levels.items; spans = g.spans.items })
        × (g.state_total ≡ states_in (record { cores = g.cores; levels = g.levels.items; spans = g.spans.items }))
        × (g.edge_total ≡ edges_in (record { cores = g.cores; levels = g.levels.items; spans = g.spans.items })) };
}

impl Graph {
    /// The graph of these levels and spans, with so many states and edges.
    pub(crate) fn new(
        cores: u16,
        levels: Vec<HeldLevel>,
        spans: Vec<Option<Span>>,
        totals: (u64, u64),
    ) -> Graph
        requires held { IsHeldGraph (record { cores = cores; levels = levels.items; spans = spans.items }) }
        requires states { totals.0 ≡ states_in (record { cores = cores; levels = levels.items; spans = spans.items }) }
        requires edges { totals.1 ≡ edges_in (record { cores = cores; levels = levels.items; spans = spans.items }) }
        ensures { result ≡ record { cores = cores; levels = levels.items; spans = spans.items } }
    {
        let (state_total, edge_total) = totals;
        Graph {
            cores,
            levels,
            spans,
            state_total,
            edge_total,
        }
    }

    /// How many levels it has.
    pub fn levels(&self) -> u16
        ensures count { result ≡ length self.now.levels }
        ensures held { IsHeldGraph self.now }
    {
        self.levels.len() as u16
    }

    /// The states of level `k`.
    pub fn states(&self, k: u16) -> &[State]
        requires { k < length self.now.levels }
        ensures states { states_of result.now ≡ (level_in self.now k).states }
        ensures held { IsHeldGraph self.now }
    {
        self.levels[usize::from(k)].states()
    }

    /// The edges into level `k`, by rising state and job. There are none into level 0.
    pub fn edges(&self, k: u16) -> &[Edge]
        requires { k < length self.now.levels }
        ensures edges { result.now ≡ (level_in self.now k).edges }
        ensures held { IsHeldGraph self.now }
    {
        self.levels[usize::from(k)].edges()
    }

    /// How many states it has.
    pub fn state_total(&self) -> u64
        ensures { result ≡ states_in self.now }
    {
        self.state_total
    }

    /// How many edges it has.
    pub fn edge_total(&self) -> u64
        ensures { result ≡ edges_in self.now }
    {
        self.edge_total
    }

    /// When the job finishes: none exactly where it has no edge.
    pub fn span(&self, job: JobNo) -> Option<Span>
        requires { job < length self.now.spans }
        ensures span { result ≡ slice_index_or self.now.spans job None }
        ensures held { IsHeldGraph self.now }
    {
        self.spans[usize::from(job.0)]
    }
}
