//! The text that tells how the program is called.

ghost use Rattle.sag_edge.specs.Writing.{Puts};
ghost use Rattle.sag_texts.specs.FaultTexts.{usage_text};

use sag_edge::{Failed, Sink, write_whole};

/// The usage: a line a command, the first behind `usage: `, each other behind seven spaces. Commands stand in this order:
/// analyse, check, replay, attain, report, selftest, convert, audit, unroll, whatif, gap.
pub const USAGE: &str = "\
usage: sag analyse JOBS [--prec FILE] [--cores N] [--budget N]
       sag check JOBS CERT [--prec FILE] [--cores N]
       sag replay JOBS SCENARIO [--prec FILE] [--cores N]
       sag attain JOBS TASK JOB best|worst [--budget N]
       sag report JOBS CERT [--prec FILE] [--cores N] [--tasks]
       sag selftest NUMBER [--cores N]
       sag convert CERT
       sag audit JOBS SCENARIO RUN [--prec FILE] [--cores N]
       sag unroll TASKS HORIZON POLICY
       sag whatif JOBS EDITS [--prec FILE] [--cores N] [--budget N]
       sag gap JOBS [--prec FILE] [--cores N] [--budget N] [--trial K]
";

/// Writes the usage.
#[tactic(auto, unfolding(crate::specs::FaultTexts::usage_text))]
pub(crate) fn write_usage<S: Sink>(sink: &mut S) -> Result<(), Failed>
    ensures { Puts (S.seen sink.old) (S.seen sink.new) usage_text result }
{
    write_whole(sink, USAGE.as_bytes())
}
