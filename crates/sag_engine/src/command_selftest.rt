//! The command `selftest`.

ghost use Rattle.std.specs.Prelude.{◌≡◌, ◌≤◌, ◌<◌, ◌++◌, IfOk, OnOk, decimal, length};
ghost use Rattle.job_model.specs.declared.limits.TheConstants.{MOST_CORES};
ghost use Rattle.sag_edge.specs.Reading.{SeenFiles};
ghost use Rattle.sag_graph.specs.Budget.{spent};
ghost use Rattle.sag_graph.specs.Graph.{graph_of};
ghost use Rattle.sag_engine.specs.RunEnds.{Prints, Runs};
ghost use Rattle.sag_engine.specs.Selftest as specs;
ghost use Rattle.sag_engine.specs.Selftest.{is_timely, late_count, selftest_plan, selftest_reply};

use crate::conclusion::Conclusion;
use crate::halt::Halt;
use crate::outputs::{close_spent, print};
use graph_memory::{BuildAnswer, Graph, build};
use itoa::Buffer;
use job_model::{JobNo, JobTable};
use sag_edge::Sink;
use std::alloc::{AllocError, Global};
use workload_gen::generate;

/// The number of jobs that are generated.
pub const SELFTEST_JOBS: u16 = 240;

/// The greatest number of states of their graph.
pub const SELFTEST_BUDGET: u32 = 100_000;

/// What is told of the graph of a generated table.
#[derive(Clone, Copy, Debug, PartialEq, Eq)]
pub struct Summary {
    /// The number from which the table is generated.
    pub number: u64,
    /// The number of cores.
    pub cores: u16,
    /// How many states the graph has.
    pub states: u64,
    /// How many edges it has.
    pub edges: u64,
    /// How many jobs may miss their deadlines.
    pub misses: u64,
}

// Whether the interval of the job ends by its deadline.
fn is_in_time(table: &JobTable, graph: &Graph, job: JobNo) -> bool
    requires job { job < length table.now.jobs }
    requires spans { length graph.now.spans ≡ length table.now.jobs }
    ensures { result ≡ is_timely table.now graph.now.spans job }
{
    match graph.span(job) {
        Some(span) => span.hi() <= table.job(job).deadline,
        None => true,
    }
}

// How many jobs there are of which it does not.
fn count_misses(table: &JobTable, graph: &Graph) -> u64
    requires { length graph.now.spans ≡ length table.now.jobs }
    ensures { result ≡ late_count table.now graph.now.spans }
{
    let mut misses = 0;
    for j in 0..table.len() {
        misses += u64::from(!is_in_time(table, graph, JobNo(j)));
    }
    misses
}

// A word, and the number that follows it.
fn put(text: &mut Vec<u8>, word: &str, number: u64) -> Result<(), AllocError>
    ensures { OnOk result (text.new.items ≡ text.old.items ++ word.now ++ decimal number) }
{
    let mut buffer = Buffer::new();
    text.extend_from_slice(word.as_bytes())?;
    text.extend_from_slice(buffer.format(number).as_bytes())
}

// The line of a summary.
#[tactic(auto, unfolding(crate::specs::Selftest::summary_text))]
fn summary_text(alloc: Global, summary: Summary) -> Result<Vec<u8>, AllocError>
    ensures { IfOk result (λ text. text.items ≡ specs.summary_text summary) }
{
    let mut text = Vec::new(alloc);
    put(&mut text, "selftest ", summary.number)?;
    put(&mut text, " jobs ", u64::from(SELFTEST_JOBS))?;
    put(&mut text, " cores ", u64::from(summary.cores))?;
    put(&mut text, " states ", summary.states)?;
    put(&mut text, " edges ", summary.edges)?;
    put(&mut text, " miss ", summary.misses)?;
    text.push(b'\n')?;
    Ok(text)
}

// The summary of the graph of a table that was generated from the number.
fn summary_of(number: u64, table: &JobTable, cores: u16, graph: &Graph) -> Summary
    requires { graph.now ≡ graph_of table.now cores }
    ensures { result ≡ specs.summary_of number table.now cores }
{
    Summary {
        number,
        cores,
        states: graph.state_total(),
        edges: graph.edge_total(),
        misses: count_misses(table, graph),
    }
}

// Prints the summary of the graph of a table that was generated from the number.
fn print_summary<O: Sink>(
    alloc: Global,
    out: &mut O,
    number: u64,
    table: &JobTable,
    cores: u16,
) -> Result<Conclusion, Halt>
    requires some_core { 1 ≤ cores }
    requires few_cores { cores ≤ MOST_CORES }
    ensures { Prints (selftest_reply number table.now cores (spent table.now cores SELFTEST_BUDGET))
        (O.seen out.old) (O.seen out.new) result }
{
    match build(alloc, table, cores, SELFTEST_BUDGET) {
        Ok(graph) => match summary_text(alloc, summary_of(number, table, cores, &graph)) {
            Ok(text) => print(out, &text, Conclusion::Done),
            Err(_) => Err(Halt::Memory),
        },
        Err(
            BuildAnswer::Spent {
                level,
                states,
                edges,
                ..
            },
        ) => close_spent(out, level, states, edges),
        Err(BuildAnswer::Memory) => Err(Halt::Memory),
    }
}

/// `selftest NUMBER [--cores N]`: prints a summary of the graph of jobs that are generated from the number. It reads no
/// files.
pub(crate) fn run_selftest<O: Sink>(
    alloc: Global,
    out: &mut O,
    number: u64,
    cores: u16,
) -> Result<Conclusion, Halt>
    requires some_core { 1 ≤ cores }
    requires few_cores { cores ≤ MOST_CORES }
    ensures { (files : SeenFiles) → Runs (selftest_plan number cores) files files
        (O.seen out.old) (O.seen out.new) result }
{
    match generate(alloc, number, SELFTEST_JOBS, cores > 1) {
        Ok(table) => print_summary(alloc, out, number, &table, cores),
        Err(_) => Err(Halt::Memory),
    }
}
