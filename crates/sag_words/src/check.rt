//! The words of `check`.

ghost use Rattle.std.specs.Prelude.{◌≡◌, IfErr, IfOk, codes, map, string_bytes};
ghost use Rattle.sag_words.specs.Words.{Asks};
ghost use Rattle.sag_words.specs.declared.command.Command.{Command};

use crate::names::name_of;
use crate::numbers::cores_of;
use crate::parse::{Argument, matched};
use crate::{Command, WordFault};
use sag_edge::FileName;
use std::alloc::Global;

/// `check JOBS CERT [--prec FILE] [--cores N]`
pub(crate) fn read_check(alloc: Global, words: &[String]) -> Result<Command, WordFault>
    ensures read { IfOk result (Asks (codes "check") (map string_bytes words.now)) }
    ensures usage { IfErr result (λ fault. fault ≡ WordFault.Usage →
        (command : Command) → Asks (codes "check") (map string_bytes words.now) command → ⊥) }
{
    let matches = matched(
        alloc,
        "check",
        &[
            Argument::Place("JOBS"),
            Argument::Place("CERT"),
            Argument::Named("prec"),
            Argument::Named("cores"),
        ],
        words,
    )?;
    let Some(jobs) = matches.get_str("JOBS") else {
        return Err(WordFault::Usage);
    };
    let Some(cert) = matches.get_str("CERT") else {
        return Err(WordFault::Usage);
    };
    let Some(cores) = cores_of(matches.get_str("cores")) else {
        return Err(WordFault::Usage);
    };
    Ok(Command::Check {
        jobs: FileName::from_text(alloc, jobs)?,
        cert: FileName::from_text(alloc, cert)?,
        prec: name_of(alloc, matches.get_str("prec"))?,
        cores,
    })
}
