//! The top call.

ghost use Rattle.std.specs.Prelude.{◌≡◌, ◌≤◌, ℕ, List, [], IsTrue};
ghost use Rattle.sag_edge.specs.Writing.{GrowsBy};
ghost use Rattle.sag_engine.specs.Commands.{HasBudget, HasCores, HasHorizon, command_plan};
ghost use Rattle.sag_engine.specs.Analyse.{PrintsCertificates};
ghost use Rattle.sag_engine.specs.Check.{PrintsYeses};
ghost use Rattle.sag_engine.specs.Convert.{PrintsConversions};
ghost use Rattle.sag_engine.specs.Replay.{PrintsRuns};
ghost use Rattle.sag_engine.specs.Report.{PrintsReports};
ghost use Rattle.sag_engine.specs.Attain.{PrintsEnds};
ghost use Rattle.sag_engine.specs.Audit.{PrintsLegals};
ghost use Rattle.sag_engine.specs.Gap.{PrintsGaps, PrintsTrials};
ghost use Rattle.sag_engine.specs.Unroll.{PrintsJobFiles};
ghost use Rattle.sag_engine.specs.WhatIf.{PrintsWhatIfs};
ghost use Rattle.sag_engine.specs.RunEnds.{Runs, Works};
ghost use Rattle.sag_engine.specs.Promises.{Answers, ExplainsFault, HasReadCause, Explains, HasWriteCause, IsDone, KeepsPrefix, KeepsTelling, texts};

use crate::command_analyse::run_analyse;
use crate::command_attain::run_attain;
use crate::command_audit::run_audit;
use crate::command_check::run_check;
use crate::command_convert::run_convert;
use crate::command_gap::run_gap;
use crate::command_replay::run_replay;
use crate::command_report::run_report;
use crate::command_selftest::run_selftest;
use crate::command_unroll::run_unroll;
use crate::command_whatif::run_whatif;
use crate::conclusion::Conclusion;
use crate::explain::explain;
use crate::halt::Halt;
use crate::status::{Status, status_of};
use cert_convert::converted_is_readable;
use gap_trials::{graph_spans_hold, inner_ends_in_spans, no_gap_on_one_core, trials_fit};
use graph_check::old_is_valid;
use graph_memory::job_lines_tell_spans;
use graph_valid::{graph_is_readable, graph_is_short, graph_is_valid};
use one_core::ends_are_attained;
use response_report::responses_within_wcrt;
use run_meaning::{one_run, starts_agree};
use sag_edge::{Files, Sink};
use sag_words::{Command, WordFault, one_command, read_words};
use std::alloc::Global;
use what_if::edits_keep_tables;

// Does what a command asks for.
fn run_command<F: Files, O: Sink>(
    alloc: Global,
    command: Command,
    files: &mut F,
    out: &mut O,
) -> Result<Conclusion, Halt>
    requires cores { HasCores command }
    requires budget { HasBudget command }
    requires horizon { HasHorizon command }
    ensures { Runs (command_plan command) (F.seen files.old) (F.seen files.new)
        (O.seen out.old) (O.seen out.new) result }
{
    match command {
        Command::Analyse {
            jobs,
            prec,
            cores,
            budget,
        } => run_analyse(alloc, files, out, jobs, prec, cores, budget),
        Command::Check {
            jobs,
            cert,
            prec,
            cores,
        } => run_check(alloc, files, out, jobs, cert, prec, cores),
        Command::Replay {
            jobs,
            scenario,
            prec,
            cores,
        } => run_replay(alloc, files, out, jobs, scenario, prec, cores),
        Command::Report {
            jobs,
            cert,
            prec,
            cores,
            tasks,
        } => run_report(alloc, files, out, jobs, cert, prec, cores, tasks),
        Command::Convert { cert } => run_convert(alloc, files, out, cert),
        Command::Unroll {
            tasks,
            horizon,
            policy,
        } => run_unroll(alloc, files, out, tasks, horizon, policy),
        Command::Audit {
            jobs,
            scenario,
            run,
            prec,
            cores,
        } => run_audit(alloc, files, out, jobs, scenario, run, prec, cores),
        Command::Selftest { number, cores } => run_selftest(alloc, out, number, cores),
        Command::Attain {
            jobs,
            task,
            job,
            end,
            budget,
        } => run_attain(alloc, files, out, jobs, task, job, end, budget),
        Command::WhatIf {
            jobs,
            edits,
            prec,
            cores,
            budget,
        } => run_whatif(alloc, files, out, jobs, edits, prec, cores, budget),
        Command::Gap {
            jobs,
            prec,
            cores,
            budget,
            trial,
        } => run_gap(alloc, files, out, jobs, prec, cores, budget, trial),
    }
}

// Does what the words ask for.
fn work<F: Files, O: Sink>(
    alloc: Global,
    words: &[String],
    files: &mut F,
    out: &mut O,
) -> Result<Conclusion, Halt>
    ensures { Works (texts words.now) (F.seen files.old) (F.seen files.new)
        (O.seen out.old) (O.seen out.new) result }
{
    match read_words(alloc, words) {
        Ok(command) => run_command(alloc, command, files, out),
        Err(WordFault::Usage) => Err(Halt::Usage),
        Err(WordFault::Memory) => Err(Halt::Memory),
    }
}

/// Does what the words ask for: reads files, prints to `out`, and tells a refusal or a fault on `err`.
///
/// The first word is the program's name, the second the command. The status is that of the first of these that applies:
/// the words are refused; a file cannot be read, is too long or breaks a rule, in the order in which the command reads its
/// files; `out` cannot be written; a certificate is not valid, a recorded run is not legal, or a graph exceeds its budget. A
/// fault of `err` changes no status. Want of memory can come at any place.
pub fn sag_run<F: Files, O: Sink, E: Sink>(
    alloc: Global,
    words: &[String],
    files: &mut F,
    out: &mut O,
    err: &mut E,
) -> Status
    ensures answer { Answers (texts words.now) (F.seen files.old) (O.seen out.old) (O.seen out.new) result }
    ensures runs { PrintsRuns (texts words.now) (F.seen files.old) (O.seen out.old) (O.seen out.new) result }
    ensures yes { PrintsYeses (texts words.now) (F.seen files.old) (O.seen out.old) (O.seen out.new) result }
    ensures reports { PrintsReports (texts words.now) (F.seen files.old) (O.seen out.old) (O.seen out.new) result }
    ensures converts { PrintsConversions (texts words.now) (F.seen files.old) (O.seen out.old) (O.seen out.new) result }
    ensures job_files { PrintsJobFiles (texts words.now) (F.seen files.old) (O.seen out.old) (O.seen out.new) result }
    ensures legals { PrintsLegals (texts words.now) (F.seen files.old) (O.seen out.old) (O.seen out.new) result }
    ensures ends { PrintsEnds (texts words.now) (F.seen files.old) (O.seen out.old) (O.seen out.new) result }
    ensures what_ifs { PrintsWhatIfs (texts words.now) (F.seen files.old) (O.seen out.old) (O.seen out.new) result }
    ensures gaps { PrintsGaps (texts words.now) (F.seen files.old) (O.seen out.old) (O.seen out.new) result }
    ensures trials { PrintsTrials (texts words.now) (F.seen files.old) (O.seen out.old) (O.seen out.new) result }
    ensures certificates { PrintsCertificates (texts words.now) (F.seen files.old) (O.seen out.old) (O.seen out.new) result }
    ensures finished { IsDone result → IsTrue (O.seen out.new).finished }
    ensures read_fault { HasReadCause (texts words.now) (F.seen files.old) (F.seen files.new) result }
    ensures none_on_read_fault { result ≡ Status.ReadFault → GrowsBy (O.seen out.old).taken (O.seen out.new).taken [] }
    ensures write_fault { HasWriteCause (texts words.now) (F.seen files.old) (O.seen out.old) (O.seen out.new) result }
    ensures prefix { KeepsPrefix (texts words.now) (F.seen files.old) (O.seen out.old) (O.seen out.new) }
    ensures text { Explains (texts words.now) (F.seen files.old) (E.seen err.old) (E.seen err.new) result }
    ensures fault_text { ExplainsFault (texts words.now) (F.seen files.old) (F.seen files.new)
        (E.seen err.old) (E.seen err.new) result }

    // What a caller can go on with: the files stay, no count falls, and a sink with room goes on telling its bytes. That
    // `err` does stands in `text` and `fault_text`.
    ensures contents { (F.seen files.new).contents ≡ (F.seen files.old).contents }
    ensures later { ((F.seen files.old).faults ≤ (F.seen files.new).faults)
        × ((O.seen out.old).faults ≤ (O.seen out.new).faults)
        × ((E.seen err.old).faults ≤ (E.seen err.new).faults) }
    ensures tells { KeepsTelling (texts words.now) (F.seen files.old) (O.seen out.old) (O.seen out.new) }
{
    // the laws on which the clauses rest
    one_command();
    one_run();
    starts_agree();
    responses_within_wcrt();
    converted_is_readable();
    old_is_valid();
    graph_is_valid();
    graph_is_readable();
    graph_is_short();
    ends_are_attained();
    job_lines_tell_spans();
    edits_keep_tables();
    trials_fit();
    graph_spans_hold();
    inner_ends_in_spans();
    no_gap_on_one_core();
    let end = work(alloc, words, files, out);
    explain(err, &end);
    status_of(&end)
}
