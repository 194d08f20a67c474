//! The words of `gap`.

ghost use Rattle.std.specs.Prelude.{◌≡◌, IfErr, IfOk, codes, map, string_bytes};
ghost use Rattle.sag_words.specs.Words.{Asks};
ghost use Rattle.sag_words.specs.declared.command.Command.{Command};

use crate::names::name_of;
use crate::numbers::{budget_of, cores_of, trial_of};
use crate::parse::{Argument, matched};
use crate::{Command, WordFault};
use sag_edge::FileName;
use std::alloc::Global;

/// `gap JOBS [--prec FILE] [--cores N] [--budget N] [--trial K]`
pub(crate) fn read_gap(alloc: Global, words: &[String]) -> Result<Command, WordFault>
    ensures read { IfOk result (Asks (codes "gap") (map string_bytes words.now)) }
    ensures usage { IfErr result (λ fault. fault ≡ WordFault.Usage →
        (command : Command) → Asks (codes "gap") (map string_bytes words.now) command → ⊥) }
{
    let matches = matched(
        alloc,
        "gap",
        &[
            Argument::Place("JOBS"),
            Argument::Named("prec"),
            Argument::Named("cores"),
            Argument::Named("budget"),
            Argument::Named("trial"),
        ],
        words,
    )?;
    let Some(jobs) = matches.get_str("JOBS") else {
        return Err(WordFault::Usage);
    };
    let Some(cores) = cores_of(matches.get_str("cores")) else {
        return Err(WordFault::Usage);
    };
    let Some(budget) = budget_of(matches.get_str("budget")) else {
        return Err(WordFault::Usage);
    };
    let Some(trial) = trial_of(matches.get_str("trial")) else {
        return Err(WordFault::Usage);
    };
    Ok(Command::Gap {
        jobs: FileName::from_text(alloc, jobs)?,
        prec: name_of(alloc, matches.get_str("prec"))?,
        cores,
        budget,
        trial,
    })
}
