//! The words of `convert`.

ghost use Rattle.std.specs.Prelude.{◌≡◌, IfErr, IfOk, codes, map, string_bytes};
ghost use Rattle.sag_words.specs.Words.{Asks};
ghost use Rattle.sag_words.specs.declared.command.Command.{Command};

use crate::parse::{Argument, matched};
use crate::{Command, WordFault};
use sag_edge::FileName;
use std::alloc::Global;

/// `convert CERT`
pub(crate) fn read_convert(alloc: Global, words: &[String]) -> Result<Command, WordFault>
    ensures read { IfOk result (Asks (codes "convert") (map string_bytes words.now)) }
    ensures usage { IfErr result (λ fault. fault ≡ WordFault.Usage →
        (command : Command) → Asks (codes "convert") (map string_bytes words.now) command → ⊥) }
{
    let matches = matched(alloc, "convert", &[Argument::Place("CERT")], words)?;
    let Some(cert) = matches.get_str("CERT") else {
        return Err(WordFault::Usage);
    };
    Ok(Command::Convert {
        cert: FileName::from_text(alloc, cert)?,
    })
}
