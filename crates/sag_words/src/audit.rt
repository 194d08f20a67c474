//! The words of `audit`.

ghost use Rattle.std.specs.Prelude.{◌≡◌, IfErr, IfOk, codes, map, string_bytes};
ghost use Rattle.sag_words.specs.Words.{Asks};
ghost use Rattle.sag_words.specs.declared.command.Command.{Command};

use crate::names::name_of;
use crate::numbers::cores_of;
use crate::parse::{Argument, matched};
use crate::{Command, WordFault};
use sag_edge::FileName;
use std::alloc::Global;

/// `audit JOBS SCENARIO RUN [--prec FILE] [--cores N]`
pub(crate) fn read_audit(alloc: Global, words: &[String]) -> Result<Command, WordFault>
    ensures read { IfOk result (Asks (codes "audit") (map string_bytes words.now)) }
    ensures usage { IfErr result (λ fault. fault ≡ WordFault.Usage →
        (command : Command) → Asks (codes "audit") (map string_bytes words.now) command → ⊥) }
{
    let matches = matched(
        alloc,
        "audit",
        &[
            Argument::Place("JOBS"),
            Argument::Place("SCENARIO"),
            Argument::Place("RUN"),
            Argument::Named("prec"),
            Argument::Named("cores"),
        ],
        words,
    )?;
    let Some(jobs) = matches.get_str("JOBS") else {
        return Err(WordFault::Usage);
    };
    let Some(scenario) = matches.get_str("SCENARIO") else {
        return Err(WordFault::Usage);
    };
    let Some(run) = matches.get_str("RUN") else {
        return Err(WordFault::Usage);
    };
    let Some(cores) = cores_of(matches.get_str("cores")) else {
        return Err(WordFault::Usage);
    };
    Ok(Command::Audit {
        jobs: FileName::from_text(alloc, jobs)?,
        scenario: FileName::from_text(alloc, scenario)?,
        run: FileName::from_text(alloc, run)?,
        prec: name_of(alloc, matches.get_str("prec"))?,
        cores,
    })
}
