//! The whole graph of a table.

ghost use Rattle.std.specs.Prelude.{◌≡◌, ◌≤◌, ◌++◌, ◌∷◌, [], IfErr, IfOk, None, OnOk};
ghost use Rattle.job_model.specs.declared.limits.TheConstants.{MOST_CORES};
ghost use Rattle.sag_graph.specs.declared.TheConstants.{MOST_BUDGET};
ghost use Rattle.sag_graph.specs.Budget.{spent};
ghost use Rattle.sag_graph.specs.Graph.{graph_of, graph_up_to};
ghost use Rattle.graph_builder.specs.Standing.{IsSpentAfter};
ghost use Rattle.graph_memory.specs.Building.{HasBuilt, IsSpentBuild};
ghost use Rattle.graph_memory.specs.declared.building.BuildAnswer.TheVariants.{Memory};

use crate::graph::Graph;
use crate::held_level::HeldLevel;
use crate::laws::graphs_are_held;
use graph_builder::{LevelBuilder, LevelFault, whole_graph_is_within};
use job_model::JobTable;
use job_sets::JobNo;
use sag_time::Span;
use std::alloc::{AllocError, Global};

/// Why there is no whole graph.
#[derive(Drop)]
pub enum BuildAnswer {
    /// After an offer that leads to this level there are more states or edges than the budget allows. The graph has the
    /// levels below it.
    Spent {
        graph: Graph,
        level: u16,
        states: u64,
        edges: u64,
    },
    /// Memory ran out.
    Memory,
}

impl From<AllocError> for BuildAnswer {
    ghost from_gives = { λ e answer. answer ≡ Memory };

    fn from(e: AllocError) -> BuildAnswer {
        let _ = e;
        BuildAnswer::Memory
    }
}

// Keeps the level at which the builder stands.
fn keep_level(
    alloc: Global,
    builder: &LevelBuilder,
    levels: &mut Vec<HeldLevel>,
) -> Result<(), AllocError>
    ensures { OnOk result (levels.new.items ≡ levels.old.items
        ++ record { states = builder.now.states; edges = builder.now.edges } ∷ []) }
{
    levels.push(HeldLevel::copy_of(alloc, builder.states(), builder.edges())?)?;
    Ok(())
}

// When each job finishes, by the edges so far.
fn spans_of(
    alloc: Global,
    table: &JobTable,
    builder: &LevelBuilder,
) -> Result<Vec<Option<Span>>, AllocError>
    requires { builder.now.table ≡ table.now }
    ensures { IfOk result (λ spans. spans.items ≡ builder.now.spans) }
{
    let _level = builder.level();
    let mut spans = Vec::with_capacity(alloc, usize::from(table.len()))?;
    for j in 0..table.len() {
        spans.push(builder.span(JobNo(j)))?;
    }
    Ok(spans)
}

// The graph of these levels, at the last of which the builder stands.
fn gather(
    alloc: Global,
    table: &JobTable,
    cores: u16,
    builder: &LevelBuilder,
    levels: Vec<HeldLevel>,
) -> Result<Graph, AllocError>
    requires built { HasBuilt table.now cores builder.now levels.items }
    ensures { IfOk result (λ graph. graph ≡ graph_up_to table.now cores builder.now.level) }
{
    graphs_are_held();
    let totals = builder.totals();
    let spans = spans_of(alloc, table, builder)?;
    Ok(Graph::new(cores, levels, spans, totals))
}

// The answer to a fault of the builder, which stands at the last of these levels.
fn answer_to(
    alloc: Global,
    table: &JobTable,
    cores: u16,
    builder: &LevelBuilder,
    levels: Vec<HeldLevel>,
    fault: LevelFault,
) -> BuildAnswer
    requires built { HasBuilt table.now cores builder.now levels.items }
    requires fault { IsSpentAfter builder.now fault }
    ensures { IsSpentBuild table.now cores builder.now.budget result }
{
    let LevelFault::Spent {
        level,
        states,
        edges,
    } = fault
    else {
        return BuildAnswer::Memory;
    };
    match gather(alloc, table, cores, builder, levels) {
        Ok(graph) => BuildAnswer::Spent {
            graph,
            level,
            states,
            edges,
        },
        Err(_) => BuildAnswer::Memory,
    }
}

/// The graph of the table, unless it exceeds the budget.
pub fn build(alloc: Global, table: &JobTable, cores: u16, budget: u32) -> Result<Graph, BuildAnswer>
    requires some_core { 1 ≤ cores }
    requires few_cores { cores ≤ MOST_CORES }
    requires some_budget { 1 ≤ budget }
    requires few { budget ≤ MOST_BUDGET }
    ensures built { IfOk result (λ graph. graph ≡ graph_of table.now cores) }
    ensures within { OnOk result (spent table.now cores budget ≡ None) }
    ensures spent { IfErr result (IsSpentBuild table.now cores budget) }
{
    whole_graph_is_within();
    let mut builder = LevelBuilder::new(alloc, table, cores, budget)?;
    let mut levels = Vec::new(alloc);
    keep_level(alloc, &builder, &mut levels)?;
    for _ in 0..table.len() {
        if let Err(fault) = builder.next_level() {
            return Err(answer_to(alloc, table, cores, &builder, levels, fault));
        }
        keep_level(alloc, &builder, &mut levels)?;
    }
    let _level = builder.level();
    Ok(gather(alloc, table, cores, &builder, levels)?)
}
