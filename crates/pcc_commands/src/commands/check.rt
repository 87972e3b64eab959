//! `check POLICY FILE`: checks a container, under a built-in policy or a policy from a file.

ghost use Rattle.pcc_words.specs.Commands.{word_view};
ghost use Rattle.pcc_words.specs.Invocations.{check};
ghost use Rattle.pcc_stages.specs.Decisions.{Decides};
ghost use Rattle.pcc_stages.specs.Answers.{Gives};
ghost use Rattle.pcc_commands.specs.Tasks.{stage_of};
ghost use Rattle.pcc_commands.specs.Inside.Behind.{check_under};
ghost use Rattle.pcc_commands.specs.Reports.{report_exit, effect_of};

use crate::report::Report;
use crate::stages::accepted_of;
use file_port::Files;
use pcc_stages::{Stop, policy_told};
use pcc_words::CheckArgs;
use policy_set::Policy;
use std::alloc::Global;

/// Reads the container and judges it under the policy.
fn check_under<'a, F: Files>(
    alloc: Global,
    policy: &Policy,
    name: &'a str,
    files: &mut F,
) -> Result<Report, Stop<'a>>
    ensures { Gives effect_of (check_under name.entry.now policy.now)
        (F.log files.old) (F.log files.new) (F.state files.old) (F.state files.new) result }
{
    match accepted_of(alloc, policy, name, files) {
        Ok(accepted) => {
            drop(accepted);
            Ok(Report::Accepted)
        }
        Err(stop) => Err(stop),
    }
}

/// Finds the policy, which may be in a file, and then reads the container and checks it.
pub fn check_command<'a, F: Files>(
    alloc: Global,
    args: CheckArgs<'a>,
    files: &mut F,
) -> Result<Report, Stop<'a>>
    ensures { let a = args.entry in
        Decides report_exit (stage_of (check (word_view a.policy) a.file.now))
        (F.log files.old) (F.log files.new) (F.state files.old) (F.state files.new) result }
{
    let policy = policy_told(alloc, args.policy, files)?;
    check_under(alloc, &policy, args.file, files)
}
