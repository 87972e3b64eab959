//! The arguments of a command, from the matches of a parse.
ghost use Rattle.std.specs.Prelude.{◌≡◌, true, IfSome, Some, None, codes, if◌then◌else◌, option_and_then, option_map};
ghost use Rattle.clap.specs.Lexer.{strip_byte};
ghost use Rattle.clap.specs.Words.{found_of, rows_of, subcommand_rows_of};
ghost use Rattle.pcc_words.specs.Invocations.{is_step_count, is_demo_size, is_bound, value_of};
ghost use Rattle.pcc_words.specs.Invocations.{optional_number, number_at};
ghost use Rattle.pcc_words.specs.Invocations.{is_given, version_at, asm_invocation, policy_word};
ghost use Rattle.pcc_words.specs.Invocations.{invocation_at, invocation_of_subcommand};
ghost use Rattle.pcc_words.specs.Commands.{word_view, asm_of, invocation_of};
ghost use Rattle.pcc_words.specs.Commands.{IsVersionOf, IsInRange};

use crate::commands::{AsmArgs, CheckArgs, Command, CopyArgs, PathArgs, PolicyWord, RunArgs};
use crate::limits::{
    BOUNDED_VERSION, MAX_BOUND, MAX_DEMO, MAX_STEPS, PLAIN_VERSION, PROFILE_TWO_VERSION,
};
use clap::ArgMatches;

/// Returns the number of an optional argument, or None if it isn't given.
pub fn optional_number(matches: &ArgMatches<'_>, id: &str) -> Option<u64>
    ensures { result ≡ optional_number id.now (rows_of (found_of matches.now)) }
{
    // by cases, since what clap says of an answer is by cases too
    match matches.get_one::<u64>(id) {
        Some(number) => Some(number),
        None => None,
    }
}

/// Returns the number of an optional argument, or 0 if it isn't given.
pub fn number_given(matches: &ArgMatches<'_>, id: &str) -> u64
    ensures { result ≡ number_at id.now (rows_of (found_of matches.now)) }
{
    match optional_number(matches, id) {
        Some(number) => number,
        None => 0,
    }
}

/// Returns the text of a required argument.
pub fn text_given<'a>(matches: &ArgMatches<'a>, id: &str) -> &'a str
    ensures { result.now ≡ value_of id.now (rows_of (found_of matches.now)) }
{
    match matches.get_str(id) {
        Some(text) => text,
        None => "",
    }
}

/// Whether an argument without a value is there.
fn is_given(matches: &ArgMatches<'_>, id: &str) -> bool
    ensures { result ≡ is_given id.now (rows_of (found_of matches.now)) }
{
    text_given(matches, id) == "true"
}

/// Returns the step bound if it is in its range or not given, else None.
pub fn bound_in_range(bound: Option<u64>) -> Option<Option<u32>>
    ensures exact { result ≡ (if is_bound bound then Some bound else None) }
    ensures in_range { IfSome result (λ b. is_bound b ≡ true) }
{
    match bound {
        Some(n) => {
            if 1 <= n && n <= MAX_BOUND {
                Some(Some(n as u32))
            } else {
                None
            }
        }
        None => Some(None),
    }
}

/// Returns the version of the container that `asm` makes.
pub fn version_given(matches: &ArgMatches<'_>, bound: Option<u32>) -> u32
    ensures { result ≡ version_at bound (rows_of (found_of matches.now)) }
{
    match bound {
        Some(_) => BOUNDED_VERSION,
        None => {
            if is_given(matches, "v2") {
                PROFILE_TWO_VERSION
            } else {
                PLAIN_VERSION
            }
        }
    }
}

/// Returns the arguments of `asm` if the step bound is in its range; clap accepts no other, as with
/// the number of steps (see `with_steps_in_range`).
fn asm_args_given<'a>(matches: &ArgMatches<'a>) -> Option<AsmArgs<'a>>
    ensures exact { option_map asm_of result ≡ asm_invocation (rows_of (found_of matches.now)) }
    ensures in_range { IfSome result (λ args. IsVersionOf args.bound args.version) }
{
    let bound = bound_in_range(optional_number(matches, "bound"))?;
    Some(AsmArgs {
        policy: text_given(matches, "POLICY"),
        input: text_given(matches, "IN"),
        output: text_given(matches, "OUT"),
        version: version_given(matches, bound),
        bound,
    })
}

/// The arguments of a command that makes a file of another.
fn copy_args_given<'a>(matches: &ArgMatches<'a>) -> CopyArgs<'a>
    ensures policy { result.policy.now ≡ value_of (codes "POLICY") (rows_of
        (found_of matches.now)) }
    ensures input { result.input.now ≡ value_of (codes "IN") (rows_of (found_of matches.now)) }
    ensures output { result.output.now ≡ value_of (codes "OUT") (rows_of (found_of matches.now)) }
{
    CopyArgs {
        policy: text_given(matches, "POLICY"),
        input: text_given(matches, "IN"),
        output: text_given(matches, "OUT"),
    }
}

/// The arguments of a command that makes a file of another under no named policy.
fn path_args_given<'a>(matches: &ArgMatches<'a>) -> PathArgs<'a>
    ensures input { result.input.now ≡ value_of (codes "IN") (rows_of (found_of matches.now)) }
    ensures output { result.output.now ≡ value_of (codes "OUT") (rows_of (found_of matches.now)) }
{
    let input = text_given(matches, "IN");
    let output = text_given(matches, "OUT");
    PathArgs { input, output }
}

/// Returns the text after the `@` that a word begins with, if it does.
fn behind_at(word: &str) -> Option<&str>
    ensures { option_map (λ s. s.now) result ≡ strip_byte 64 word.now }
{
    word.strip_prefix('@')
}

/// Returns the policy that the word names.
pub fn policy_told(word: &str) -> PolicyWord<'_>
    ensures { word_view result ≡ policy_word word.now }
{
    match behind_at(word) {
        Some(name) => PolicyWord::FromFile(name),
        None => PolicyWord::Named(word),
    }
}

/// The arguments of `check`.
fn check_args_given<'a>(matches: &ArgMatches<'a>) -> CheckArgs<'a>
    ensures policy { word_view result.policy ≡ policy_word (value_of (codes "POLICY") (rows_of
        (found_of matches.now))) }
    ensures file { result.file.now ≡ value_of (codes "FILE") (rows_of (found_of matches.now)) }
{
    let policy = policy_told(text_given(matches, "POLICY"));
    let file = text_given(matches, "FILE");
    CheckArgs { policy, file }
}

/// The arguments of a command that runs packets.
fn run_args_given<'a>(matches: &ArgMatches<'a>) -> RunArgs<'a>
    ensures policy { result.policy.now ≡ value_of (codes "POLICY") (rows_of
        (found_of matches.now)) }
    ensures file { result.file.now ≡ value_of (codes "FILE") (rows_of (found_of matches.now)) }
    ensures packets { result.packets.now ≡ value_of (codes "PACKETS") (rows_of
        (found_of matches.now)) }
    ensures steps { result.steps ≡ number_at (codes "steps") (rows_of (found_of matches.now)) }
{
    RunArgs {
        policy: text_given(matches, "POLICY"),
        file: text_given(matches, "FILE"),
        packets: text_given(matches, "PACKETS"),
        steps: number_given(matches, "steps"),
    }
}

/// Returns the arguments if the number of steps is in its range. clap accepts no other, but its
/// contract doesn't say so for the argument of a subcommand. So the range is tested here again:
/// this refuses nothing that clap accepts.
fn with_steps_in_range<'a>(args: RunArgs<'a>) -> Option<RunArgs<'a>>
    ensures { result ≡ (if is_step_count args.entry.steps then Some args.entry else None) }
{
    if 1 <= args.steps && args.steps <= MAX_STEPS {
        Some(args)
    } else {
        None
    }
}

/// Returns the number of `demo` if it is in its range; clap accepts no other, as with the steps.
fn demo_size_given(matches: &ArgMatches<'_>) -> Option<u64>
    ensures { let n = number_at (codes "N") (rows_of (found_of matches.now)) in
        result ≡ (if is_demo_size n then Some n else None) }
{
    let n = number_given(matches, "N");
    if 1 <= n && n <= MAX_DEMO {
        Some(n)
    } else {
        None
    }
}

/// The command of a subcommand's name, if it is one.
fn command_given<'a>(name: &str, matches: &ArgMatches<'a>) -> Option<Command<'a>>
    ensures exact { option_map invocation_of result
        ≡ invocation_at name.now (rows_of (found_of matches.now)) }
    ensures in_range { IfSome result IsInRange }
{
    match name {
        "asm" => Some(Command::Asm(asm_args_given(matches)?)),
        "prove" => Some(Command::Prove(copy_args_given(matches))),
        "check" => Some(Command::Check(check_args_given(matches))),
        "run" => Some(Command::Run(with_steps_in_range(run_args_given(matches))?)),
        "ref" => Some(Command::Ref(with_steps_in_range(run_args_given(matches))?)),
        "demo" => Some(Command::Demo(demo_size_given(matches)?)),
        "upgrade" => Some(Command::Upgrade(path_args_given(matches))),
        "host" => Some(Command::Host(text_given(matches, "SCRIPT"))),
        "bpf" => Some(Command::Bpf(path_args_given(matches))),
        _ => None,
    }
}

/// Returns the command of the subcommand that the parse found, or None if it isn't one.
pub fn command_found<'a>(matches: &ArgMatches<'a>) -> Option<Command<'a>>
    ensures exact { option_map invocation_of result
        ≡ option_and_then invocation_of_subcommand (subcommand_rows_of matches.now) }
    ensures in_range { IfSome result IsInRange }
{
    let (name, inner) = matches.subcommand()?;
    command_given(name, inner)
}
