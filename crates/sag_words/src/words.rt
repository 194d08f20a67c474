//! The words of a command line: the program's name, a command's name, and the words of that command.

ghost use Rattle.std.specs.Prelude.{◌≡◌, IfErr, IfOk, map, string_bytes};
ghost use Rattle.sag_words.specs.Words.{Asks, WordsOf};
ghost use Rattle.sag_words.specs.declared.command.Command.{Command};

use crate::analyse::read_analyse;
use crate::attain::read_attain;
use crate::audit::read_audit;
use crate::check::read_check;
use crate::convert::read_convert;
use crate::gap::read_gap;
use crate::replay::read_replay;
use crate::report::read_report;
use crate::selftest::read_selftest;
use crate::unroll::read_unroll;
use crate::what_if::read_what_if;
use crate::{Command, WordFault};
use std::alloc::Global;

// What a command's name and the words after it ask for.
fn read_named(alloc: Global, name: &str, rest: &[String]) -> Result<Command, WordFault>
    ensures read { IfOk result (Asks name.now (map string_bytes rest.now)) }
    ensures usage { IfErr result (λ fault. fault ≡ WordFault.Usage →
        (command : Command) → Asks name.now (map string_bytes rest.now) command → ⊥) }
{
    match name {
        "analyse" => read_analyse(alloc, rest),
        "check" => read_check(alloc, rest),
        "replay" => read_replay(alloc, rest),
        "attain" => read_attain(alloc, rest),
        "report" => read_report(alloc, rest),
        "selftest" => read_selftest(alloc, rest),
        "convert" => read_convert(alloc, rest),
        "audit" => read_audit(alloc, rest),
        "unroll" => read_unroll(alloc, rest),
        "whatif" => read_what_if(alloc, rest),
        "gap" => read_gap(alloc, rest),
        _ => Err(WordFault::Usage),
    }
}

/// Reads the program's name, the command's name and the words after it.
///
/// Names, ends and policies are compared exactly, and no word is trimmed. An option stands before, between or after the
/// places, as `--name value` or `--name=value`, and at most once. Any other word that begins with `-` and is longer is
/// refused, also as an option's value after a space; but after the word `--`, which is no value, each word is for a
/// place. There are no words for help or for a version. A number is one or more digits, with any number of zeros in
/// front.
pub fn read_words(alloc: Global, words: &[String]) -> Result<Command, WordFault>
    ensures read { IfOk result (WordsOf (map string_bytes words.now)) }
    ensures usage { IfErr result (λ fault. fault ≡ WordFault.Usage →
        (command : Command) → WordsOf (map string_bytes words.now) command → ⊥) }
{
    match words {
        [_, name, rest @ ..] => read_named(alloc, name.as_str(), rest),
        _ => Err(WordFault::Usage),
    }
}
