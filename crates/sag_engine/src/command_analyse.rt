//! The command `analyse`.

ghost use Rattle.std.specs.Prelude.{◌≡◌, ◌≤◌, length};
ghost use Rattle.job_model.specs.declared.limits.TheConstants.{MOST_CORES};
ghost use Rattle.sag_graph.specs.declared.TheConstants.{MOST_BUDGET};
ghost use Rattle.sag_graph.specs.Budget.{spent};
ghost use Rattle.sag_graph.specs.Lines.{head_lines, tail_lines};
ghost use Rattle.graph_builder.specs.Standing.{IsStanding};
ghost use Rattle.sag_engine.specs.declared.conclusion.Conclusion.TheVariants.{Done};
ghost use Rattle.sag_engine.specs.Analyse.{analyse_plan, analysis_reply, level_text, lines_text};
ghost use Rattle.sag_engine.specs.RunEnds.{Prints, Runs, Writes};

use crate::conclusion::Conclusion;
use crate::halt::Halt;
use crate::inputs::read_table;
use crate::outputs::{close, deliver, print};
use graph_builder::{LevelBuilder, LevelFault, whole_graph_is_within};
use job_model::JobTable;
use sag_edge::{FileName, Files, Sink};
use std::alloc::Global;

// Prints the head line.
fn print_head<O: Sink>(out: &mut O, builder: &LevelBuilder, text: &mut Vec<u8>) -> Result<(), Halt>
    ensures head { Writes (lines_text (head_lines builder.now.table builder.now.cores))
        (O.seen out.old) (O.seen out.new) result }
    ensures standing { IsStanding builder.now }
{
    text.clear();
    match builder.write_head(text) {
        Ok(()) => deliver(out, text),
        Err(_) => Err(Halt::Memory),
    }
}

// Prints the level at which the builder stands.
fn print_level<O: Sink>(out: &mut O, builder: &LevelBuilder, text: &mut Vec<u8>) -> Result<(), Halt>
    ensures { Writes (level_text builder.now.table builder.now.cores builder.now.level)
        (O.seen out.old) (O.seen out.new) result }
{
    text.clear();
    match builder.write_level(text) {
        Ok(()) => deliver(out, text),
        Err(_) => Err(Halt::Memory),
    }
}

// Prints what stands behind the last level, and ends the output.
fn print_tail<O: Sink>(
    out: &mut O,
    builder: &LevelBuilder,
    text: &mut Vec<u8>,
) -> Result<Conclusion, Halt>
    requires { builder.now.level ≡ length builder.now.table.jobs }
    ensures { Prints (record { conclusion = Done; bytes = lines_text (tail_lines builder.now.table builder.now.spans) })
        (O.seen out.old) (O.seen out.new) result }
{
    text.clear();
    match builder.write_tail(text) {
        Ok(()) => print(out, text, Conclusion::Done),
        Err(_) => Err(Halt::Memory),
    }
}

/// Prints the certificate of the table's graph, each level as soon as it is there and in one text that is used again. Where
/// an offer exceeds the budget, the levels below the one that it leads to stand printed.
pub(crate) fn print_graph<O: Sink>(
    alloc: Global,
    out: &mut O,
    table: &JobTable,
    cores: u16,
    budget: u32,
) -> Result<Conclusion, Halt>
    requires some_core { 1 ≤ cores }
    requires few_cores { cores ≤ MOST_CORES }
    requires some_budget { 1 ≤ budget }
    requires small_budget { budget ≤ MOST_BUDGET }
    ensures { Prints (analysis_reply table.now cores (spent table.now cores budget))
        (O.seen out.old) (O.seen out.new) result }
{
    whole_graph_is_within();
    let Ok(mut builder) = LevelBuilder::new(alloc, table, cores, budget) else {
        return Err(Halt::Memory);
    };
    let mut text = Vec::new(alloc);
    print_head(out, &builder, &mut text)?;
    print_level(out, &builder, &mut text)?;
    loop {
        match builder.next_level() {
            Ok(went) => {
                if !went {
                    return print_tail(out, &builder, &mut text);
                }
                print_level(out, &builder, &mut text)?;
            }
            Err(
                LevelFault::Spent {
                    level,
                    states,
                    edges,
                },
            ) => {
                let level = u64::from(level);
                return close(
                    out,
                    Conclusion::Spent {
                        level,
                        states,
                        edges,
                    },
                );
            }
            Err(LevelFault::Memory) => return Err(Halt::Memory),
        }
    }
}

/// `analyse JOBS [--prec FILE] [--cores N] [--budget N]`: prints the certificate of the graph.
pub(crate) fn run_analyse<F: Files, O: Sink>(
    alloc: Global,
    files: &mut F,
    out: &mut O,
    jobs: FileName,
    prec: Option<FileName>,
    cores: u16,
    budget: u32,
) -> Result<Conclusion, Halt>
    requires some_core { 1 ≤ cores }
    requires few_cores { cores ≤ MOST_CORES }
    requires some_budget { 1 ≤ budget }
    requires small_budget { budget ≤ MOST_BUDGET }
    ensures { Runs (analyse_plan jobs prec cores budget) (F.seen files.old) (F.seen files.new)
        (O.seen out.old) (O.seen out.new) result }
{
    let table = read_table(alloc, files, jobs, prec)?;
    print_graph(alloc, out, &table, cores, budget)
}
