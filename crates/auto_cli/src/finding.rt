//! From the arguments to what is written: reads, the search, and the write.

ghost use Rattle.std.specs.Prelude.{map, string_bytes};
ghost use Rattle.pcc_words.specs.Commands.{IsVersionOf};
ghost use Rattle.pcc_words.specs.Invocations.{command_of};
ghost use Rattle.pcc_stages.specs.Answers.{GivesPure};
ghost use Rattle.pcc_stages.specs.Stage.{gives};
ghost use Rattle.pcc_stages.specs.Decisions.{Decides};
ghost use Rattle.auto_search.specs.Outcomes.{outcome_view};
ghost use Rattle.auto_cli.specs.Arguments.{auto_args_view, found_by_asm};
ghost use Rattle.auto_cli.specs.Drafts.{draft_with};
ghost use Rattle.auto_cli.specs.Reports.{auto_exit};
ghost use Rattle.auto_cli.specs.Tasks.{settled};
ghost use Rattle.auto_cli.specs.Inside.Finds.{FindsDraft, FindsBy, FindsIfTold};
ghost use Rattle.auto_cli.specs.Inside.Finds.{WroteFound, LeavesGoals};

use crate::arguments::{AutoArgs, read_args};
use crate::drafts::{draft_in, has_vain_flags};
use crate::report::Report;
use auto_search::{Outcome, search};
use file_port::{Files, Put};
use pcc_stages::{RefusedLine, Stop, container_bytes_of, policy_told};
use policy_set::Policy;
use std::alloc::Global;
use view_goal_text::{GoalsFault, Style, list_goals};

/// The goals of the container under the policy that aren't easy, with all that is missing.
fn left_goals<'a>(alloc: Global, policy: &Policy, kept: &[u8]) -> Result<Report, Stop<'a>>
    ensures { LeavesGoals policy.now kept.now result }
{
    let style = Style {
        lines: Vec::new(alloc),
        only_missing: true,
        all: true,
    };
    match list_goals(alloc, policy, kept, &style) {
        Ok(text) => Ok(Report::Left(text)),
        Err(GoalsFault::Refused(refusal)) => Err(Stop::Refused(RefusedLine::Container(refusal))),
        Err(GoalsFault::Memory | GoalsFault::Results) => Err(Stop::Memory),
    }
}

/// Writes the bytes, and reports how many they are.
fn written<'a, F: Files>(
    output: &'a str,
    bytes: &[u8],
    invariants: u64,
    files: &mut F,
) -> Result<Report, Stop<'a>>
    ensures { WroteFound output.entry.now bytes.now invariants
        (F.log files.old) (F.log files.new) (F.state files.old) (F.state files.new) result }
{
    match files.write(output, bytes) {
        Put::Done => Ok(Report::Found(bytes.len() as u64, invariants)),
        Put::Failed => Err(Stop::WriteFault(output)),
    }
}

/// Writes what was found, or returns the goals that are left.
fn settled<'a, F: Files>(
    alloc: Global,
    policy: &Policy,
    output: &'a str,
    outcome: Outcome,
    files: &mut F,
) -> Result<Report, Stop<'a>>
    ensures { Decides auto_exit (settled output.entry.now policy.now (outcome_view outcome))
        (F.log files.old) (F.log files.new) (F.state files.old) (F.state files.new) result }
{
    match outcome {
        Outcome::Found(bytes, invariants) => written(output, &bytes, invariants, files),
        Outcome::Unfound(kept) => left_goals(alloc, policy, &kept),
    }
}

/// Searches, and writes what is found.
fn searched<'a, F: Files>(
    alloc: Global,
    policy: &Policy,
    output: &'a str,
    container: &[u8],
    files: &mut F,
) -> Result<Report, Stop<'a>>
    ensures { FindsDraft (gives (draft_with policy.now container.now)) output.entry.now
        (F.log files.old) (F.log files.new) (F.state files.old) (F.state files.new) result }
{
    match search(alloc, policy, container) {
        Ok(outcome) => settled(alloc, policy, output, outcome, files),
        Err(_) => Err(Stop::Memory),
    }
}

/// Reads the policy, which may be in a file, and IN, searches, and writes what is found.
fn find<'a, F: Files>(alloc: Global, args: &AutoArgs<'a>, files: &mut F) -> Result<Report, Stop<'a>>
    requires { IsVersionOf args.now.bound args.now.version }
    ensures { FindsBy (auto_args_view args.now)
        (F.log files.old) (F.log files.new) (F.state files.old) (F.state files.new) result }
{
    let policy = policy_told(alloc, args.policy, files)?;
    let bytes = container_bytes_of(alloc, args.input, files)?;
    if has_vain_flags(args, &bytes) {
        return Ok(Report::Flags);
    }
    let container = draft_in(alloc, args, &policy, bytes)?;
    searched(alloc, &policy, args.output, &container, files)
}

/// Makes the reads and the write that the arguments ask for, which stand in `words` behind the word
/// `asm`. Prints nothing.
pub(crate) fn decide<'a, F: Files>(
    alloc: Global,
    words: &'a [String],
    files: &mut F,
) -> Result<Report, Stop<'a>>
    ensures { FindsIfTold (found_by_asm (command_of (map string_bytes words.entry.now)))
        (F.log files.old) (F.log files.new) (F.state files.old) (F.state files.new) result }
{
    match read_args(alloc, words) {
        Ok(Some(args)) => find(alloc, &args, files),
        Ok(None) => Ok(Report::Usage),
        Err(_) => Err(Stop::Memory),
    }
}
