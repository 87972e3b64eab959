//! `upgrade IN OUT`: makes a container of version 2 from one of version 1.

ghost use Rattle.pcc_words.specs.Invocations.{upgrade};
ghost use Rattle.pcc_stages.specs.Decisions.{Decides};
ghost use Rattle.pcc_commands.specs.Tasks.{stage_of};
ghost use Rattle.pcc_commands.specs.Reports.{report_exit};

use crate::report::Report;
use crate::stages::{upgraded_of, write_to};
use file_port::Files;
use pcc_stages::Stop;
use pcc_words::PathArgs;
use std::alloc::Global;

/// Reads the container, upgrades it, and writes the upgraded container. The whole container is read
/// before anything is written.
pub fn upgrade_command<'a, F: Files>(
    alloc: Global,
    args: PathArgs<'a>,
    files: &mut F,
) -> Result<Report, Stop<'a>>
    ensures { let a = args.entry in
        Decides report_exit (stage_of (upgrade a.input.now a.output.now))
        (F.log files.old) (F.log files.new) (F.state files.old) (F.state files.new) result }
{
    let container = upgraded_of(alloc, args.input, files)?;
    write_to(args.output, &container, files)
}
