//! The words of a command line of pcc_view, parsed by clap.

ghost use Rattle.std.specs.Prelude.{◌≡◌, IfOk, IfSome, map, option_map, string_bytes};
ghost use Rattle.view_cli.specs.Invocations.{is_help_flag, is_command_name, is_help_pair};
ghost use Rattle.view_cli.specs.Invocations.{asks_help, is_alone};
ghost use Rattle.view_cli.specs.Invocations.{parsed_command_of, view_command_of};
ghost use Rattle.view_cli.specs.Arguments.{view_invocation_of, IsInViewRange};

use crate::arguments::Command;
use crate::builders::view_command;
use crate::values::command_found;
use clap::error::ErrorKind;
use std::alloc::{AllocError, Global};

/// Whether the word is all that the arguments are.
fn is_alone(words: &[String], word: &str) -> bool
    ensures { result ≡ is_alone word.now (map string_bytes words.now) }
{
    words.len() == 1 && words[0].as_str() == word
}

/// Whether the word is a flag that asks for help.
fn is_help_flag(word: &str) -> bool
    ensures { result ≡ is_help_flag word.now }
{
    word == "--help" || word == "-h"
}

/// Whether the word is the name of a command.
fn is_command_name(word: &str) -> bool
    ensures { result ≡ is_command_name word.now }
{
    word == "list" || word == "goals" || word == "packet" || word == "formula" || word == "source"
}

/// Whether two words ask for help: a command's name before a flag of help, or after `help`.
fn is_help_pair(first: &str, second: &str) -> bool
    ensures { result ≡ is_help_pair first.now second.now }
{
    if is_command_name(first) && is_help_flag(second) {
        return true;
    }
    first == "help" && is_command_name(second)
}

/// Whether the arguments ask for help.
fn asks_help(words: &[String]) -> bool
    ensures { result ≡ asks_help (map string_bytes words.now) }
{
    match words.len() {
        1 => is_help_flag(words[0].as_str()) || words[0].as_str() == "help",
        2 => is_help_pair(words[0].as_str(), words[1].as_str()),
        _ => false,
    }
}

/// The command that clap finds in the arguments, if it finds one.
fn parsed_arguments<'a>(
    alloc: Global,
    words: &'a [String],
) -> Result<Option<Command<'a>>, AllocError>
    ensures exact { IfOk result (λ found. option_map view_invocation_of found
        ≡ parsed_command_of (map string_bytes words.entry.now)) }
    ensures in_range { IfOk result (λ found. IfSome found IsInViewRange) }
{
    match view_command(alloc)?.try_get_matches_from(words) {
        Ok(matches) => Ok(command_found(&matches)),
        Err(error) => match error.kind() {
            ErrorKind::OutOfMemory => Err(AllocError),
            _ => Ok(None),
        },
    }
}

/// Parses the arguments `words` as a command, and returns it, or None if they aren't one. The
/// program's name isn't among the arguments.
///
/// Errors: the parse ran out of memory.
pub fn read_arguments<'a>(
    alloc: Global,
    words: &'a [String],
) -> Result<Option<Command<'a>>, AllocError>
    ensures exact { IfOk result (λ found. option_map view_invocation_of found
        ≡ view_command_of (map string_bytes words.entry.now)) }
    ensures in_range { IfOk result (λ found. IfSome found IsInViewRange) }
{
    if asks_help(words) {
        return Ok(Some(Command::Help));
    }
    if is_alone(words, "--version") {
        return Ok(Some(Command::Version));
    }
    parsed_arguments(alloc, words)
}
