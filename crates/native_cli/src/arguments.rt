//! The arguments of pcc_native.

ghost use Rattle.std.specs.Prelude.{◌≡◌, ◌≤◌, length, IfOk, IfSome, option_map, map, string_bytes};
ghost use Rattle.std.specs.List.{list_all};
ghost use Rattle.clap.specs.Words.{found_of, rows_of};
ghost use Rattle.native_cli.specs.Arguments.{args_view};
ghost use Rattle.native_cli.specs.Invocations as invocations;

use crate::builders::native_command;
use clap::ArgMatches;
use clap::error::ErrorKind;
use pcc_words::{PolicyWord, policy_told, text_given};
use std::alloc::{AllocError, Global};

/// The maximum length of a function's name in bytes.
pub const MAX_NAME: usize = 255;

/// The arguments: `POLICY FILE OUT [--name NAME]`.
#[derive(Clone, Copy, Debug, PartialEq, Eq)]
pub struct NativeArgs<'a> {
    /// The policy, by its name or by its file's name.
    pub policy: PolicyWord<'a>,
    /// The name of the container file.
    pub file: &'a str,
    /// The name of the object file that is written.
    pub output: &'a str,
    /// The name of the function: a C identifier of at most `MAX_NAME` bytes.
    pub name: &'a str,
}

/// Checks whether the byte may begin a C identifier.
fn is_nondigit(byte: u8) -> bool
    ensures { result ≡ invocations.is_nondigit byte }
{
    byte.is_ascii_alphabetic() || byte == b'_'
}

/// Checks whether the byte may stand in a C identifier.
fn is_identifier_byte(byte: u8) -> bool
    ensures { result ≡ invocations.is_identifier_byte byte }
{
    byte.is_ascii_alphanumeric() || byte == b'_'
}

/// Checks whether the first byte is a letter.
fn begins_with_nondigit(bytes: &[u8]) -> bool
    ensures { result ≡ invocations.begins_with_nondigit bytes.now }
{
    match bytes {
        [first, ..] => is_nondigit(*first),
        [] => false,
    }
}

/// Checks whether all bytes may stand in a C identifier.
fn are_identifier_bytes(bytes: &[u8]) -> bool
    ensures { result ≡ list_all invocations.is_identifier_byte bytes.now }
{
    bytes.iter().all(|byte| is_identifier_byte(*byte))
}

/// Checks whether the text is a C identifier of at most `MAX_NAME` bytes.
fn is_c_identifier(text: &str) -> bool
    ensures { result ≡ invocations.is_c_identifier text.now }
{
    let bytes = text.as_bytes();
    begins_with_nondigit(bytes) && are_identifier_bytes(bytes) && bytes.len() <= MAX_NAME
}

/// Returns the arguments that the parse found, or None if the name is none.
fn args_found<'a>(matches: &ArgMatches<'a>) -> Option<NativeArgs<'a>>
    ensures exact { option_map args_view result
        ≡ invocations.args_at (rows_of (found_of matches.now)) }
    ensures short { IfSome result (λ args. length args.name.now ≤ MAX_NAME) }
{
    let name = text_given(matches, "name");
    if !is_c_identifier(name) {
        return None;
    }
    Some(NativeArgs {
        policy: policy_told(text_given(matches, "POLICY")),
        file: text_given(matches, "FILE"),
        output: text_given(matches, "OUT"),
        name,
    })
}

/// Parses the arguments `words`, and returns them, or None if they aren't those of a translation.
/// The program's name isn't among them.
///
/// Errors: the parse ran out of memory.
pub fn read_args<'a>(
    alloc: Global,
    words: &'a [String],
) -> Result<Option<NativeArgs<'a>>, AllocError>
    ensures exact { IfOk result (λ found. option_map args_view found
        ≡ invocations.parsed_args_of (map string_bytes words.entry.now)) }
    ensures short { IfOk result (λ found. IfSome found
        (λ args. length args.name.now ≤ MAX_NAME)) }
{
    match native_command(alloc)?.try_get_matches_from(words) {
        Ok(matches) => Ok(args_found(&matches)),
        Err(error) => match error.kind() {
            ErrorKind::OutOfMemory => Err(AllocError),
            _ => Ok(None),
        },
    }
}

/// Checks whether the word is all that the arguments are.
pub(crate) fn is_sole(words: &[String], word: &str) -> bool
    ensures { result ≡ invocations.is_sole word.now (map string_bytes words.now) }
{
    words.len() == 1 && words[0].as_str() == word
}

/// Checks whether the arguments ask for help.
pub(crate) fn asks_native_help(words: &[String]) -> bool
    ensures { result ≡ invocations.asks_native_help (map string_bytes words.now) }
{
    is_sole(words, "--help") || is_sole(words, "-h")
}
