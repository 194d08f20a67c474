//! The levels of a graph, one after another.

ghost use Rattle.std.specs.Prelude.{◌≡◌, ◌∷◌, [], ◌<◌, ◌≤◌, ◌+◌, ◌↔◌, ◌++◌, IfErr, IfOk, IsTrue, OnErr, OnOk, flat_map, if◌then◌else◌, length, slice_index_or, None};
ghost use Rattle.sag_step.specs.State.{states_of};
ghost use Rattle.sag_step.specs.Group.{offers};
ghost use Rattle.sag_step.specs.State.{root};
ghost use Rattle.sag_graph.specs.Levels.{next_level};
ghost use Rattle.sag_graph.specs.Lines.{head_lines, level_lines, tail_lines};
ghost use Rattle.cert_text.specs.Grammar.{second_version};
ghost use Rattle.cert_text.specs.Spelling.{line_text};
ghost use Rattle.job_model.specs.declared.limits.TheConstants.{MOST_CORES};
ghost use Rattle.graph_builder.specs.Filling.{FitsBudget, IsDraft, before_of, first_over, level_of, no_level};
ghost use Rattle.graph_builder.specs.Fit.{most_at};
ghost use Rattle.graph_builder.specs.Standing.{IsSpentAfter, IsStanding, purse_of, builder_at};
ghost use Rattle.sag_graph.specs.declared.TheConstants.{MOST_BUDGET};

use crate::draft::Draft;
use crate::filling::{Purse, Room, fill};
use crate::spans::{no_spans, widen};
use crate::{LevelFault, writing};
use job_model::JobTable;
use job_sets::JobNo;
use sag_graph::Edge;
use sag_step::{State, root_is_shaped};
use sag_time::Span;
use std::alloc::{AllocError, Global};
use std::marker::Model;
use std::mem;

/// The levels of the graph of a table, one after another. Two of them are in memory as the next one is
/// made, and one before and after that.
#[derive(Drop)]
pub struct LevelBuilder<'a> {
    alloc: Global,
    table: &'a JobTable,
    cores: u16,
    budget: u32,
    level: u16,
    states: Vec<State>,
    // for each state a place in the order of release before which all jobs are dispatched there
    fronts: Vec<u16>,
    edges: Vec<Edge>,
    spans: Vec<Option<Span>>,
    state_total: u64,
    edge_total: u64,
    room: Room,
    // the states of the level before, which are of no use but for their memory
    pool: Vec<State>,
}

impl<'a> Model for LevelBuilder<'a> {
    ghost use Rattle.std.specs.Prelude.{◌≤◌};
    ghost use Rattle.sag_step.specs.State.{states_of};
    ghost use Rattle.std.specs.List.{AllByRecursion};
    ghost use Rattle.cert_text.specs.Grammar.{most_number};
    ghost use Rattle.sag_graph.specs.declared.TheConstants.{MOST_BUDGET};
    ghost use Rattle.graph_builder.specs.Fit.{AreReady, IsScratch, most_at};
    ghost use Rattle.graph_builder.specs.Standing.{IsStanding, Standing};
    ghost use Rattle.graph_builder.specs.Writing.{IsSpanUpTo, IsTimed};

    ghost Value = { Standing };

    ghost view = { λ b. record {
      table = b.table.now;
      cores = b.cores;
      budget = b.budget;
      level = b.level;
      states = states_of b.states.items;
      edges = b.edges.items;
      spans = b.spans.items;
      state_total = b.state_total;
      edge_total = b.edge_total;
    } };

    ghost invariant = { λ b. IsStanding (record {
      table = b.table.now;
      cores = b.cores;
      budget = b.budget;
      level = b.level;
      states = states_of b.states.items;
      edges = b.edges.items;
      spans = b.spans.items;
      state_total = b.state_total;
      edge_total = b.edge_total;
    })
        × AreReady b.table.now b.cores (most_at b.level) (states_of b.states.items) b.fronts.items
        × IsScratch b.table.now b.cores b.room.scratch
        × (b.budget ≤ MOST_BUDGET)
        × AllByRecursion IsTimed b.edges.items
        × AllByRecursion (IsSpanUpTo most_number) b.spans.items };
}

// The states of level 0.
fn first_states(alloc: Global, table: &JobTable, cores: u16) -> Result<Vec<State>, AllocError>
    ensures { IfOk result (λ states. states_of states.items ≡ root table.now cores ∷ []) }
{
    let root = State::root(alloc, table, cores)?;
    let mut states = Vec::new(alloc);
    states.push(root)?;
    Ok(states)
}

impl<'a> LevelBuilder<'a> {
    /// At level 0 of the graph of the table.
    pub fn new(
        alloc: Global,
        table: &'a JobTable,
        cores: u16,
        budget: u32,
    ) -> Result<LevelBuilder<'a>, AllocError>
        requires some_core { 1 ≤ cores }
        requires few_cores { cores ≤ MOST_CORES }
        requires some_budget { 1 ≤ budget }
        requires few { budget ≤ MOST_BUDGET }
        ensures { IfOk result (λ b. b ≡ builder_at table.now cores budget 0) }
    {
        let _count = table.len();
        root_is_shaped();
        let states = first_states(alloc, table, cores)?;
        let fronts = Vec::from_slice(alloc, &[0])?;
        let spans = no_spans(alloc, table)?;
        let scratch = State::scratch(alloc, table, cores)?;
        Ok(LevelBuilder {
            alloc,
            table,
            cores,
            budget,
            level: 0,
            states,
            fronts,
            edges: Vec::new(alloc),
            spans,
            state_total: 1,
            edge_total: 0,
            room: Room {
                scratch,
                found: Vec::new(alloc),
                windows: Vec::new(alloc),
            },
            pool: Vec::new(alloc),
        })
    }

    /// The level at which it stands.
    pub fn level(&self) -> u16
        ensures level { result ≡ self.now.level }
        ensures standing { IsStanding self.now }
    {
        self.level
    }

    /// The states of the level.
    pub fn states(&self) -> &[State]
        ensures states { states_of result.now ≡ self.now.states }
        ensures standing { IsStanding self.now }
    {
        &self.states
    }

    /// The edges into the level, by rising state and job.
    pub fn edges(&self) -> &[Edge]
        ensures edges { result.now ≡ self.now.edges }
        ensures standing { IsStanding self.now }
    {
        &self.edges
    }

    /// When the job finishes, by the edges so far: none where it has no edge yet.
    pub fn span(&self, job: JobNo) -> Option<Span>
        requires { job < length self.now.table.jobs }
        ensures { result ≡ slice_index_or self.now.spans job None }
    {
        self.spans[usize::from(job.0)]
    }

    /// How many states and edges there are so far.
    pub fn totals(&self) -> (u64, u64)
        ensures states { result.0 ≡ self.now.state_total }
        ensures edges { result.1 ≡ self.now.edge_total }
        ensures standing { IsStanding self.now }
    {
        (self.state_total, self.edge_total)
    }

    /// Appends the line that stands before the levels, or nothing where there is no memory.
    pub fn write_head(&self, into: &mut Vec<u8>) -> Result<(), AllocError>
        ensures ok { OnOk result (into.new.items ≡ into.old.items
            ++ flat_map (line_text second_version) (head_lines self.now.table self.now.cores)) }
        ensures err { OnErr result (into.new.items ≡ into.old.items) }
        ensures standing { IsStanding self.now }
    {
        writing::write_head(self.table, self.cores, into)
    }

    /// Appends the lines of the level at which it stands, or nothing where there is no memory.
    pub fn write_level(&self, into: &mut Vec<u8>) -> Result<(), AllocError>
        ensures ok { OnOk result (into.new.items ≡ into.old.items
            ++ flat_map (line_text second_version)
            (level_lines (self.now.level, record { states = self.now.states; edges = self.now.edges }))) }
        ensures err { OnErr result (into.new.items ≡ into.old.items) }
        ensures standing { IsStanding self.now }
    {
        writing::write_level(self.alloc, self.level, &self.states, &self.edges, into)
    }

    /// Appends the lines that stand after the last level, or nothing where there is no memory.
    pub fn write_tail(&self, into: &mut Vec<u8>) -> Result<(), AllocError>
        requires { self.now.level ≡ length self.now.table.jobs }
        ensures ok { OnOk result (into.new.items ≡ into.old.items
            ++ flat_map (line_text second_version) (tail_lines self.now.table self.now.spans)) }
        ensures err { OnErr result (into.new.items ≡ into.old.items) }
        ensures standing { IsStanding self.now }
    {
        writing::write_tail(self.table, &self.spans, into)
    }

    // The draft becomes the level at which it stands.
    fn go_up(&mut self, draft: Draft)
        requires level { self.old.level < length self.old.table.jobs }
        requires made { level_of draft ≡ next_level self.old.table self.old.states }
        requires draft { IsDraft self.old.table self.old.cores (most_at (self.old.level + 1)) draft }
        requires fits { FitsBudget (purse_of self.old) (level_of draft) }
        requires within { first_over self.old.budget (before_of (purse_of self.old)) no_level (offers self.old.table self.old.states) ≡ None }
        ensures up { self.new ≡ builder_at self.old.table self.old.cores self.old.budget (self.old.level + 1) }
        ensures standing { IsStanding self.new }
    {
        let Draft {
            index,
            edges,
            fronts,
        } = draft;
        widen(self.table, &mut self.spans, &edges);
        self.state_total += index.len() as u64;
        self.edge_total += edges.len() as u64;
        self.pool = mem::replace(&mut self.states, index.into_states());
        self.edges = edges;
        self.fronts = fronts;
        self.level += 1;
    }

    /// Goes on to the next level. False says that it stands at the last one, and stays there. Where
    /// the budget is spent, or there is no memory, it stays as it was.
    pub fn next_level(&mut self) -> Result<bool, LevelFault>
        ensures up { IfOk result (λ went. self.new
            ≡ (if went then builder_at self.old.table self.old.cores self.old.budget (self.old.level + 1) else self.old)) }
        ensures last { IfOk result (λ went. IsTrue went ↔ (self.old.level < length self.old.table.jobs)) }
        ensures spent { IfErr result (IsSpentAfter self.old) }
        ensures failed { OnErr result (self.new ≡ self.old) }
        ensures standing { IsStanding self.new }
    {
        if self.level >= self.table.len() {
            return Ok(false);
        }
        let purse = Purse {
            budget: self.budget,
            level: self.level,
            states: self.state_total,
            edges: self.edge_total,
        };
        let pool = mem::replace(&mut self.pool, Vec::new(self.alloc));
        let draft = fill(
            self.alloc,
            self.table,
            self.cores,
            purse,
            &self.states,
            &self.fronts,
            pool,
            &mut self.room,
        )?;
        self.go_up(draft);
        Ok(true)
    }
}
