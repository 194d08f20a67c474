//! The words of `attain`.

ghost use Rattle.std.specs.Prelude.{◌≡◌, IfErr, IfOk, codes, map, string_bytes};
ghost use Rattle.sag_words.specs.Words.{Asks};
ghost use Rattle.sag_words.specs.declared.command.Command.{Command};

use crate::ends::end_of;
use crate::numbers::{budget_of, number_of};
use crate::parse::{Argument, matched};
use crate::{Command, WordFault};
use sag_edge::FileName;
use std::alloc::Global;

/// `attain JOBS TASK JOB best|worst [--budget N]`
pub(crate) fn read_attain(alloc: Global, words: &[String]) -> Result<Command, WordFault>
    ensures read { IfOk result (Asks (codes "attain") (map string_bytes words.now)) }
    ensures usage { IfErr result (λ fault. fault ≡ WordFault.Usage →
        (command : Command) → Asks (codes "attain") (map string_bytes words.now) command → ⊥) }
{
    let matches = matched(
        alloc,
        "attain",
        &[
            Argument::Place("JOBS"),
            Argument::Place("TASK"),
            Argument::Place("JOB"),
            Argument::Place("END"),
            Argument::Named("budget"),
        ],
        words,
    )?;
    let Some(jobs) = matches.get_str("JOBS") else {
        return Err(WordFault::Usage);
    };
    let Some(task) = number_of(matches.get_str("TASK")) else {
        return Err(WordFault::Usage);
    };
    let Some(job) = number_of(matches.get_str("JOB")) else {
        return Err(WordFault::Usage);
    };
    let Some(end) = end_of(matches.get_str("END")) else {
        return Err(WordFault::Usage);
    };
    let Some(budget) = budget_of(matches.get_str("budget")) else {
        return Err(WordFault::Usage);
    };
    Ok(Command::Attain {
        jobs: FileName::from_text(alloc, jobs)?,
        task,
        job,
        end,
        budget,
    })
}
