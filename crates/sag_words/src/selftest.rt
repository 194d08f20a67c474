//! The words of `selftest`.

ghost use Rattle.std.specs.Prelude.{◌≡◌, IfErr, IfOk, codes, map, string_bytes};
ghost use Rattle.sag_words.specs.Words.{Asks};
ghost use Rattle.sag_words.specs.declared.command.Command.{Command};

use crate::numbers::{cores_of, number_of};
use crate::parse::{Argument, matched};
use crate::{Command, WordFault};
use std::alloc::Global;

/// `selftest NUMBER [--cores N]`
pub(crate) fn read_selftest(alloc: Global, words: &[String]) -> Result<Command, WordFault>
    ensures read { IfOk result (Asks (codes "selftest") (map string_bytes words.now)) }
    ensures usage { IfErr result (λ fault. fault ≡ WordFault.Usage →
        (command : Command) → Asks (codes "selftest") (map string_bytes words.now) command → ⊥) }
{
    let matches = matched(
        alloc,
        "selftest",
        &[Argument::Place("NUMBER"), Argument::Named("cores")],
        words,
    )?;
    let Some(number) = number_of(matches.get_str("NUMBER")) else {
        return Err(WordFault::Usage);
    };
    let Some(cores) = cores_of(matches.get_str("cores")) else {
        return Err(WordFault::Usage);
    };
    Ok(Command::Selftest { number, cores })
}
