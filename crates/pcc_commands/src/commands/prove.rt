//! `prove POLICY IN OUT`: adds a proof to a container.

ghost use Rattle.pcc_words.specs.Invocations.{prove};
ghost use Rattle.pcc_stages.specs.Decisions.{Decides};
ghost use Rattle.pcc_commands.specs.Tasks.{stage_of};
ghost use Rattle.pcc_commands.specs.Reports.{report_exit};

use crate::report::Report;
use crate::stages::{proved_of, write_to};
use file_port::Files;
use pcc_stages::{Stop, policy_named};
use pcc_words::CopyArgs;
use std::alloc::Global;

/// Reads the container, searches for a proof of its verification condition, and writes the
/// container with the proof. Writes nothing before there is a proof.
pub fn prove_command<'a, F: Files>(
    alloc: Global,
    args: CopyArgs<'a>,
    files: &mut F,
) -> Result<Report, Stop<'a>>
    ensures { let a = args.entry in
        Decides report_exit (stage_of (prove a.policy.now a.input.now a.output.now))
        (F.log files.old) (F.log files.new) (F.state files.old) (F.state files.new) result }
{
    let policy = policy_named(alloc, args.policy)?;
    let container = proved_of(alloc, &policy, args.input, files)?;
    drop(policy);
    write_to(args.output, &container, files)
}
