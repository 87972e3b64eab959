//! `bpf IN OUT`: compiles a program of classic BPF to a container that is accepted under `filter`.

ghost use Rattle.pcc_words.specs.Invocations.{bpf};
ghost use Rattle.pcc_stages.specs.Decisions.{Decides};
ghost use Rattle.pcc_commands.specs.Tasks.{stage_of};
ghost use Rattle.pcc_commands.specs.Reports.{report_exit};

use crate::report::Report;
use crate::stages::{compiled_of, write_to};
use file_port::Files;
use pcc_stages::Stop;
use pcc_words::PathArgs;
use std::alloc::Global;

/// Reads the program, compiles it, and writes the container. The whole program is checked before
/// anything is written.
pub fn bpf_command<'a, F: Files>(
    alloc: Global,
    args: PathArgs<'a>,
    files: &mut F,
) -> Result<Report, Stop<'a>>
    ensures { let a = args.entry in
        Decides report_exit (stage_of (bpf a.input.now a.output.now))
        (F.log files.old) (F.log files.new) (F.state files.old) (F.state files.new) result }
{
    let container = compiled_of(alloc, args.input, files)?;
    write_to(args.output, &container, files)
}
