//! The arguments of a command, from the matches of a parse.
ghost use Rattle.std.specs.Prelude.{◌≡◌, IfSome, Some, None, codes, if◌then◌else◌, option_and_then, option_map};
ghost use Rattle.clap.specs.Words.{first_of, found_of, rows_of, subcommand_rows_of};
ghost use Rattle.pcc_words.specs.Invocations.{policy_word, value_of, is_given, number_at};
ghost use Rattle.pcc_words.specs.Commands.{word_view, IsVersionOf};
ghost use Rattle.view_cli.specs.Invocations.{are_trace_numbers};
ghost use Rattle.view_cli.specs.Invocations.{formula_invocation, formula_at};
ghost use Rattle.view_cli.specs.Invocations.{source_invocation, view_invocation_at};
ghost use Rattle.view_cli.specs.Invocations.{view_invocation_of_subcommand};
ghost use Rattle.view_cli.specs.Arguments.{source_from_args, view_invocation_of};
ghost use Rattle.view_cli.specs.Arguments.{IsInViewRange};

use crate::arguments::{Command, FormulaArgs, GoalsArgs, ListArgs, PacketArgs, SourceArgs};
use crate::limits::MAX_PACKET_NUMBER;
use clap::ArgMatches;
use pcc_words::{
    MAX_STEPS, bound_in_range, number_given, optional_number, policy_told, text_given,
    version_given,
};
use word_ops::Profile;

/// The arguments of `list`.
fn list_args_given<'a>(matches: &ArgMatches<'a>) -> ListArgs<'a>
    ensures file { result.file.now ≡ value_of (codes "FILE") (rows_of (found_of matches.now)) }
    ensures source { option_map (λ s. s.now) result.source
        ≡ first_of (codes "SOURCE") (rows_of (found_of matches.now)) }
{
    let file = text_given(matches, "FILE");
    let source = matches.get_str("SOURCE");
    ListArgs { file, source }
}

/// The arguments of `goals`.
fn goals_args_given<'a>(matches: &ArgMatches<'a>) -> GoalsArgs<'a>
    ensures policy { word_view result.policy ≡ policy_word (value_of (codes "POLICY") (rows_of
        (found_of matches.now))) }
    ensures file { result.file.now ≡ value_of (codes "FILE") (rows_of (found_of matches.now)) }
    ensures source { option_map (λ s. s.now) result.source
        ≡ first_of (codes "SOURCE") (rows_of (found_of matches.now)) }
    ensures only_missing { result.only_missing
        ≡ is_given (codes "only-missing") (rows_of (found_of matches.now)) }
    ensures all { result.all ≡ is_given (codes "all") (rows_of (found_of matches.now)) }
{
    let policy = policy_told(text_given(matches, "POLICY"));
    let file = text_given(matches, "FILE");
    let source = matches.get_str("SOURCE");
    GoalsArgs {
        policy,
        file,
        source,
        only_missing: flag_given(matches, "only-missing"),
        all: flag_given(matches, "all"),
    }
}

/// The arguments of `packet`.
fn packet_args_given<'a>(matches: &ArgMatches<'a>) -> PacketArgs<'a>
    ensures policy { word_view result.policy ≡ policy_word (value_of (codes "POLICY") (rows_of
        (found_of matches.now))) }
    ensures file { result.file.now ≡ value_of (codes "FILE") (rows_of (found_of matches.now)) }
    ensures packets { result.packets.now ≡ value_of (codes "PACKETS") (rows_of
        (found_of matches.now)) }
    ensures number { result.number ≡ number_at (codes "K") (rows_of (found_of matches.now)) }
    ensures steps { result.steps ≡ number_at (codes "steps") (rows_of (found_of matches.now)) }
{
    let policy = policy_told(text_given(matches, "POLICY"));
    PacketArgs {
        policy,
        file: text_given(matches, "FILE"),
        packets: text_given(matches, "PACKETS"),
        number: number_given(matches, "K"),
        steps: number_given(matches, "steps"),
    }
}

/// Returns the arguments if the numbers are in their ranges. clap accepts no others, but its
/// contract doesn't say so for the arguments of a subcommand. So the ranges are tested here again:
/// this refuses nothing that clap accepts.
fn with_numbers_in_range<'a>(args: PacketArgs<'a>) -> Option<PacketArgs<'a>>
    ensures { result ≡ (if are_trace_numbers args.entry.number args.entry.steps
        then Some args.entry else None) }
{
    if args.number <= MAX_PACKET_NUMBER && 1 <= args.steps && args.steps <= MAX_STEPS {
        Some(args)
    } else {
        None
    }
}

/// Whether an argument without a value is there.
fn flag_given(matches: &ArgMatches<'_>, id: &str) -> bool
    ensures { result ≡ is_given id.now (rows_of (found_of matches.now)) }
{
    text_given(matches, id) == "true"
}

/// Returns `formula` of a file, by which of its flags are given, or None if they don't go together.
fn formula_told<'a>(file: &'a str, wide: bool, left: bool, policy: bool) -> Option<Command<'a>>
    ensures exact { option_map view_invocation_of result
        ≡ formula_invocation file.entry.now wide left policy }
    ensures in_range { IfSome result IsInViewRange }
{
    if policy {
        if wide || left {
            return None;
        }
        return Some(Command::PolicyText(file));
    }
    let profile = if wide || left {
        Profile::Two
    } else {
        Profile::One
    };
    Some(Command::Formula(FormulaArgs {
        file,
        profile,
        left,
    }))
}

/// Returns `formula` with its arguments, or None if its flags don't go together.
fn formula_given<'a>(matches: &ArgMatches<'a>) -> Option<Command<'a>>
    ensures exact { option_map view_invocation_of result
        ≡ formula_at (rows_of (found_of matches.now)) }
    ensures in_range { IfSome result IsInViewRange }
{
    formula_told(
        text_given(matches, "FILE"),
        flag_given(matches, "v2"),
        flag_given(matches, "bound"),
        flag_given(matches, "policy"),
    )
}

/// Returns the arguments of `source` if the step bound is in its range; clap accepts no other, as
/// with the numbers of `packet`.
fn source_args_given<'a>(matches: &ArgMatches<'a>) -> Option<SourceArgs<'a>>
    ensures exact { option_map source_from_args result
        ≡ source_invocation (rows_of (found_of matches.now)) }
    ensures in_range { IfSome result (λ args. IsVersionOf args.bound args.version) }
{
    let bound = bound_in_range(optional_number(matches, "bound"))?;
    Some(SourceArgs {
        file: text_given(matches, "FILE"),
        version: version_given(matches, bound),
        bound,
    })
}

/// The command of a subcommand's name, if it is one.
fn command_given<'a>(name: &str, matches: &ArgMatches<'a>) -> Option<Command<'a>>
    ensures exact { option_map view_invocation_of result
        ≡ view_invocation_at name.now (rows_of (found_of matches.now)) }
    ensures in_range { IfSome result IsInViewRange }
{
    match name {
        "list" => Some(Command::List(list_args_given(matches))),
        "goals" => Some(Command::Goals(goals_args_given(matches))),
        "packet" => Some(Command::Packet(with_numbers_in_range(packet_args_given(matches))?)),
        "formula" => formula_given(matches),
        "source" => Some(Command::Source(source_args_given(matches)?)),
        _ => None,
    }
}

/// Returns the command of the subcommand that the parse found, or None if it isn't one.
pub fn command_found<'a>(matches: &ArgMatches<'a>) -> Option<Command<'a>>
    ensures exact { option_map view_invocation_of result
        ≡ option_and_then view_invocation_of_subcommand (subcommand_rows_of matches.now) }
    ensures in_range { IfSome result IsInViewRange }
{
    let (name, inner) = matches.subcommand()?;
    command_given(name, inner)
}
