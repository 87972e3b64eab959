//! `goals POLICY FILE [SOURCE] [--only-missing] [--all]`: shows the verification condition of a
//! container, goal by goal.

ghost use Rattle.std.specs.Prelude.{◌≡◌, option_map};
ghost use Rattle.pcc_words.specs.Commands.{word_view};
ghost use Rattle.pcc_stages.specs.Answers.{Gives, GivesPure};
ghost use Rattle.proof_container.specs.Decoding.{decoded_container};
ghost use Rattle.view_goal_text.specs.Listing.{goals_of_bytes};
ghost use Rattle.view_goal_text.specs.Styles.{style_view};
ghost use Rattle.view_cli.specs.Commands.Goals.{goals_found, beside_read, goals_styled};
ghost use Rattle.view_cli.specs.Commands.Goals.{goals_command};
ghost use Rattle.view_cli.specs.Inside.Founds.{beside_source};
ghost use Rattle.view_cli.specs.Reports.{exit_of_report};

use crate::GoalsArgs;
use crate::commands::list::{Found, found_in, source_of};
use crate::report::Report;
use file_port::Files;
use pcc_stages::{RefusedLine, Stop, container_bytes_of, policy_told};
use policy_set::Policy;
use std::alloc::Global;
use view_goal_text::{GoalsFault, Style, list_goals};
use view_source_faults::SourceCode;

/// The goals of the container's condition under the policy, in a style.
fn goals_in<'a>(
    alloc: Global,
    policy: &Policy,
    bytes: &[u8],
    style: &Style,
) -> Result<Report, Stop<'a>>
    ensures { let s = style_view style.now in
        GivesPure exit_of_report (goals_found (goals_of_bytes s policy.now bytes.now)) result }
{
    match list_goals(alloc, policy, bytes, style) {
        Ok(text) => Ok(Report::Text(text)),
        Err(GoalsFault::Refused(refusal)) => Err(Stop::Refused(RefusedLine::Container(refusal))),
        Err(GoalsFault::Memory | GoalsFault::Results) => Err(Stop::Memory),
    }
}

/// The source in the file with this name, for the container that the bytes are; none if no name is
/// given, or if the bytes are no container.
fn beside_read<'a, F: Files>(
    alloc: Global,
    bytes: &[u8],
    source: Option<&'a str>,
    files: &mut F,
) -> Result<Option<SourceCode>, Stop<'a>>
    ensures { Gives beside_source
        (beside_read (option_map (λ n. n.now) source.entry) (decoded_container bytes.now))
        (F.log files.old) (F.log files.new) (F.state files.old) (F.state files.new) result }
{
    match found_in(alloc, bytes) {
        Ok(Found::Container(version, bound)) => source_of(alloc, version, bound, source, files),
        Ok(Found::Not(_, _)) => Ok(None),
        Err(_) => Err(Stop::Memory),
    }
}

/// The lines of the source, or none if there is no source.
fn lines_of(alloc: Global, source: Option<SourceCode>) -> Vec<u32>
    ensures { result.items ≡ (beside_source source).lines }
{
    match source {
        None => Vec::new(alloc),
        Some(source) => {
            let SourceCode { lines, code } = source;
            drop(code);
            lines
        }
    }
}

/// The goals that the arguments ask for, as the lines of the source and the flags say.
fn goals_styled<'a>(
    alloc: Global,
    policy: &Policy,
    bytes: &[u8],
    args: GoalsArgs<'a>,
    source: Option<SourceCode>,
) -> Result<Report, Stop<'a>>
    ensures { let a = args.entry in
        GivesPure exit_of_report
        (goals_styled a.only_missing a.all policy.now bytes.now (beside_source source)) result }
{
    let lines = lines_of(alloc, source);
    let style = Style {
        lines,
        only_missing: args.only_missing,
        all: args.all,
    };
    goals_in(alloc, policy, bytes, &style)
}

/// Finds the policy, which may be in a file, reads the container, and the source if it is given, and
/// lists the goals.
pub fn goals_command<'a, F: Files>(
    alloc: Global,
    args: GoalsArgs<'a>,
    files: &mut F,
) -> Result<Report, Stop<'a>>
    ensures { let a = args.entry in
        Gives exit_of_report
        (goals_command (word_view a.policy) a.file.now (option_map (λ n. n.now) a.source)
        a.only_missing a.all)
        (F.log files.old) (F.log files.new) (F.state files.old) (F.state files.new) result }
{
    let policy = policy_told(alloc, args.policy, files)?;
    let bytes = container_bytes_of(alloc, args.file, files)?;
    let source = beside_read(alloc, &bytes, args.source, files)?;
    goals_styled(alloc, &policy, &bytes, args, source)
}
