//! `asm POLICY IN OUT [--v2] [--bound N]`: assembles a source into a container without a proof.

ghost use Rattle.pcc_words.specs.Commands.{asm_of, IsVersionOf};
ghost use Rattle.pcc_stages.specs.Decisions.{Decides};
ghost use Rattle.pcc_commands.specs.Tasks.{stage_of};
ghost use Rattle.pcc_commands.specs.Reports.{report_exit};

use crate::report::Report;
use crate::stages::{assembled_of, write_to};
use file_port::Files;
use pcc_stages::{Stop, policy_named};
use pcc_words::AsmArgs;
use std::alloc::Global;

/// Reads the source, assembles it, and writes the container. The whole source is checked before
/// anything is written.
pub fn asm_command<'a, F: Files>(
    alloc: Global,
    args: AsmArgs<'a>,
    files: &mut F,
) -> Result<Report, Stop<'a>>
    requires { IsVersionOf args.bound args.version }
    ensures { Decides report_exit (stage_of (asm_of args.entry))
        (F.log files.old) (F.log files.new) (F.state files.old) (F.state files.new) result }
{
    let policy = policy_named(alloc, args.policy)?;
    let container = assembled_of(alloc, args.version, args.bound, &policy, args.input, files)?;
    drop(policy);
    write_to(args.output, &container, files)
}
