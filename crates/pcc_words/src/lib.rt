//! Command-line parser of pcc, over `clap`.
//!
//! `read_arguments` returns a command, and its clause `exact` says which: the command that the
//! arguments are by `command_of`, of `specs/Invocations`. There clap's own definitions at the
//! literal command line give the arguments of a command. An `Invocation` is a command with its
//! values, without where they lie in memory; `invocation_of` and `IsInRange` are defined in
//! `specs/Commands`. Arguments that pcc_view shares are made by the builders of this crate and read
//! by its functions.
#![tactic(auto)]

mod builders;
mod commands;
mod limits;
mod values;

ghost use Rattle.std.specs.Prelude.{◌≡◌, IfOk, IfSome, map, option_map, string_bytes};
ghost use Rattle.pcc_words.specs.Invocations.{command_of};
ghost use Rattle.pcc_words.specs.Commands.{invocation_of, IsInRange};

use builders::pcc_command;
pub use builders::{bound, file_command, packets_command, positional, steps, version_flag};
use clap::error::ErrorKind;
pub use commands::{AsmArgs, CheckArgs, Command, CopyArgs, PathArgs, PolicyWord, RunArgs};
pub use limits::{MAX_BOUND, MAX_DEMO, MAX_STEPS};
use std::alloc::{AllocError, Global};
use values::command_found;
pub use values::{
    bound_in_range, number_given, optional_number, policy_told, text_given, version_given,
};

/// Parses the arguments `words` as a command, and returns it, or None if they aren't one. The
/// program's name isn't among the arguments. A call for help isn't a command.
///
/// Errors: the parse ran out of memory.
pub fn read_arguments<'a>(
    alloc: Global,
    words: &'a [String],
) -> Result<Option<Command<'a>>, AllocError>
    ensures exact { IfOk result (λ found. option_map invocation_of found
        ≡ command_of (map string_bytes words.entry.now)) }
    ensures in_range { IfOk result (λ found. IfSome found IsInRange) }
{
    match pcc_command(alloc)?.try_get_matches_from(words) {
        Ok(matches) => Ok(command_found(&matches)),
        Err(error) => match error.kind() {
            ErrorKind::OutOfMemory => Err(AllocError),
            _ => Ok(None),
        },
    }
}
