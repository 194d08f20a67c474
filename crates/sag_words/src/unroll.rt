//! The words of `unroll`.

ghost use Rattle.std.specs.Prelude.{◌≡◌, IfErr, IfOk, codes, map, string_bytes};
ghost use Rattle.sag_words.specs.Words.{Asks};
ghost use Rattle.sag_words.specs.declared.command.Command.{Command};

use crate::numbers::horizon_of;
use crate::parse::{Argument, matched};
use crate::policies::policy_of;
use crate::{Command, WordFault};
use sag_edge::FileName;
use std::alloc::Global;

/// `unroll TASKS HORIZON POLICY`
pub(crate) fn read_unroll(alloc: Global, words: &[String]) -> Result<Command, WordFault>
    ensures read { IfOk result (Asks (codes "unroll") (map string_bytes words.now)) }
    ensures usage { IfErr result (λ fault. fault ≡ WordFault.Usage →
        (command : Command) → Asks (codes "unroll") (map string_bytes words.now) command → ⊥) }
{
    let matches = matched(
        alloc,
        "unroll",
        &[
            Argument::Place("TASKS"),
            Argument::Place("HORIZON"),
            Argument::Place("POLICY"),
        ],
        words,
    )?;
    let Some(tasks) = matches.get_str("TASKS") else {
        return Err(WordFault::Usage);
    };
    let Some(horizon) = horizon_of(matches.get_str("HORIZON")) else {
        return Err(WordFault::Usage);
    };
    let Some(policy) = policy_of(matches.get_str("POLICY")) else {
        return Err(WordFault::Usage);
    };
    Ok(Command::Unroll {
        tasks: FileName::from_text(alloc, tasks)?,
        horizon,
        policy,
    })
}
