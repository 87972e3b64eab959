//! The arguments of pcc_auto: those of `pcc asm`, and two words that stand alone.

ghost use Rattle.std.specs.Prelude.{◌≡◌, Some, map, string_bytes, option_map, IfOk, IfSome};
ghost use Rattle.pcc_words.specs.Commands.{asm_of, invocation_of, word_view, IsInRange, IsVersionOf};
ghost use Rattle.pcc_words.specs.Invocations.{command_of};
ghost use Rattle.auto_cli.specs.Arguments.{version_for, wants_help, is_only};
ghost use Rattle.auto_cli.specs.Arguments.{auto_args_view, found_by_asm};

use pcc_words::{AsmArgs, Command, PolicyWord, policy_told, read_arguments};
use std::alloc::{AllocError, Global};

/// The version of the container that `asm` makes if no flag is given.
pub const UNFLAGGED_VERSION: u32 = 1;

/// The least version of the container that a source is assembled into for a policy from a file.
pub const FILE_POLICY_VERSION: u32 = 2;

/// The arguments: `POLICY IN OUT [--v2] [--bound N]`.
#[derive(Clone, Copy, Debug, PartialEq, Eq)]
pub struct AutoArgs<'a> {
    /// The policy, by its name or by its file's name.
    pub policy: PolicyWord<'a>,
    /// The name of the file that is read: a container or a source.
    pub input: &'a str,
    /// The name of the file that is written, which may be the file that is read.
    pub output: &'a str,
    /// The version of the container that a source is assembled into: 3 if it has a step bound, else
    /// 2 if `--v2` is given or the policy is from a file, else 1.
    pub version: u32,
    /// The step bound of that container, if it has one.
    pub bound: Option<u32>,
    /// Whether a flag is given.
    pub flagged: bool,
}

/// Returns whether the word is all that the arguments are.
pub(crate) fn is_only(words: &[String], word: &str) -> bool
    ensures { result ≡ is_only word.now (map string_bytes words.now) }
{
    words.len() == 1 && words[0].as_str() == word
}

/// Returns whether the arguments ask for help.
pub(crate) fn wants_help(words: &[String]) -> bool
    ensures { result ≡ wants_help (map string_bytes words.now) }
{
    is_only(words, "--help") || is_only(words, "-h") || is_only(words, "help")
}

/// The version of the container that a source is assembled into, if `asm` would make that one.
fn version_for(policy: &PolicyWord<'_>, version: u32) -> u32
    ensures { result ≡ version_for (word_view policy.now) version }
{
    match policy {
        PolicyWord::Named(_) => version,
        PolicyWord::FromFile(_) => version.max(FILE_POLICY_VERSION),
    }
}

/// The arguments by which `asm` would be called.
fn args_of<'a>(asm: AsmArgs<'a>) -> AutoArgs<'a>
    requires { IsVersionOf asm.bound asm.version }
    ensures told { Some (auto_args_view result) ≡ found_by_asm (Some (asm_of asm.entry)) }
    ensures fits { IsVersionOf result.bound result.version }
{
    let policy = policy_told(asm.policy);
    let version = version_for(&policy, asm.version);
    AutoArgs {
        policy,
        input: asm.input,
        output: asm.output,
        version,
        bound: asm.bound,
        flagged: asm.version != UNFLAGGED_VERSION,
    }
}

/// The arguments, if the command is `asm`.
fn asm_args<'a>(command: Command<'a>) -> Option<AutoArgs<'a>>
    requires { IsInRange command }
    ensures told { option_map auto_args_view result
        ≡ found_by_asm (Some (invocation_of command.entry)) }
    ensures fits { IfSome result (λ args. IsVersionOf args.bound args.version) }
{
    match command {
        Command::Asm(asm) => Some(args_of(asm)),
        Command::Prove(_) => None,
        Command::Check(_) => None,
        Command::Run(_) => None,
        Command::Ref(_) => None,
        Command::Demo(_) => None,
        Command::Upgrade(_) => None,
        Command::Host(_) => None,
        Command::Bpf(_) => None,
    }
}

/// Parses the arguments, which stand in `words` behind the word `asm`, as pcc would those of its
/// `asm`, and returns them, or None if they aren't the arguments of pcc_auto.
///
/// Errors: the parse ran out of memory.
pub fn read_args<'a>(alloc: Global, words: &'a [String]) -> Result<Option<AutoArgs<'a>>, AllocError>
    ensures exact { IfOk result (λ found. option_map auto_args_view found
        ≡ found_by_asm (command_of (map string_bytes words.entry.now))) }
    ensures fits { IfOk result
        (λ found. IfSome found (λ args. IsVersionOf args.bound args.version)) }
{
    match read_arguments(alloc, words)? {
        Some(command) => Ok(asm_args(command)),
        None => Ok(None),
    }
}
