//! Reading the words of one command with `clap`.

ghost use Rattle.std.specs.Prelude.{◌≡◌, false, true, IfErr, IfOk, map, string_bytes};
ghost use Rattle.clap.specs.Words.{found_of, is_simple_and_free, matches_of, rows_of, rule_of};
ghost use Rattle.sag_words.specs.Apps.{IsInGrammar, app_with, argument_rule};

use crate::WordFault;
use clap::error::ErrorKind;
use clap::{Arg, ArgAction, ArgMatches, Command};
use std::alloc::Global;

/// An argument of a command.
#[derive(Clone, Copy)]
pub(crate) enum Argument<'a> {
    /// A word that has to be there, by its place.
    Place(&'a str),
    /// A value that may be given, as `--name value` or `--name=value`.
    Named(&'a str),
    /// A flag that may be given, as `--name`.
    Flag(&'a str),
}

// The argument as `clap` has it.
fn arg_of<'a>(alloc: Global, argument: &Argument<'a>) -> Arg<'a>
    ensures rule { rule_of result ≡ argument_rule argument.entry.now }
    ensures own { result.global ≡ false }
{
    match argument {
        Argument::Place(name) => Arg::new(alloc, name).required(true),
        Argument::Named(name) => Arg::new(alloc, name).long(name),
        Argument::Flag(name) => Arg::new(alloc, name).long(name).action(ArgAction::SetTrue),
    }
}

/// What `clap` reads of the words after the command's name, for the command with these arguments.
pub(crate) fn matched<'a>(
    alloc: Global,
    name: &'a str,
    arguments: &[Argument<'a>],
    words: &'a [String],
) -> Result<ArgMatches<'a>, WordFault>
    requires { is_simple_and_free (app_with name.now (map argument_rule arguments.now)) ≡ true }
    ensures takes { IfOk result (λ _. IsInGrammar (app_with name.entry.now (map argument_rule arguments.entry.now))
        (map string_bytes words.entry.now)) }
    ensures reads { IfOk result (λ matches. rows_of (found_of matches)
        ≡ matches_of (app_with name.entry.now (map argument_rule arguments.entry.now))
        (map string_bytes words.entry.now)) }
    ensures usage { IfErr result (λ fault. fault ≡ WordFault.Usage →
        IsInGrammar (app_with name.entry.now (map argument_rule arguments.entry.now))
        (map string_bytes words.entry.now) → ⊥) }
{
    let mut command = Command::new(alloc, name)
        .no_binary_name(true)
        .disable_help_flag(true);
    for argument in arguments {
        command = command.arg(arg_of(alloc, argument))?;
    }
    match command.try_get_matches_from(words) {
        Ok(matches) => Ok(matches),
        Err(error) => match error.kind() {
            ErrorKind::OutOfMemory => Err(WordFault::Memory),
            _ => Err(WordFault::Usage),
        },
    }
}
