//! The whole program, over any files and any output.

ghost use Rattle.std.specs.Prelude.{map, string_bytes};
ghost use Rattle.pcc_stages.specs.Runs.{Prints};
ghost use Rattle.pcc_stages.specs.Decisions.{exit_of};
ghost use Rattle.native_cli.specs.Headline.{RunsNative, WritesIfDone};
ghost use Rattle.native_cli.specs.Invocations.{native_command_of};
ghost use Rattle.native_cli.specs.Reports.{native_exit};

use crate::arguments::{asks_native_help, is_sole};
use crate::report::Report;
use crate::translating::decide;
use file_port::{Files, Sink};
use pcc_stages::{Stop, status_after};
use std::alloc::Global;

/// Prints the report or stop of the run, and returns the exit status.
fn print<S: Sink>(decision: Result<Report, Stop<'_>>, out: &mut S) -> u8
    ensures { Prints (exit_of native_exit decision.entry)
        (S.state out.old) (S.state out.new) result }
{
    match decision {
        Ok(report) => {
            let status = report.status();
            status_after(status, report.print(out))
        }
        Err(stop) => status_after(stop.status(), stop.print(out)),
    }
}

/// Runs pcc_native with the arguments `words` over the files and the output, and returns the exit
/// status. The program's name isn't among the arguments. The status is 0 written, 1 refused, 2 the
/// arguments aren't a command, 3 a file is missing or its read failed, 4 a write to a file or to the
/// output failed, 5 out of memory.
///
/// By `runs`, whatever the files hold, the log of the files grows by the reads that the arguments
/// ask for, in their order, and then by one write at most, and what is printed and the status go by
/// what these gave. What isn't accepted is refused with the line of `pcc check`.
///
/// By `writes`, if a translation ended with status 0, the policy and FILE were read, FILE is accepted
/// under the policy, and OUT has an object file with a translation of the accepted code. What calls
/// of it do is what `native_gate::call_laws` says.
pub fn pcc_native<F: Files, S: Sink>(
    alloc: Global,
    words: Vec<String>,
    files: &mut F,
    out: &mut S,
) -> u8
    ensures runs { RunsNative (map string_bytes words.items)
        (F.log files.old) (F.log files.new) (F.state files.old) (F.state files.new)
        (S.state out.old) (S.state out.new) result }
    ensures writes { WritesIfDone (native_command_of (map string_bytes words.items))
        (F.log files.old) (F.log files.new) result }
{
    pcc_gate::laws();
    policy_set::laws();
    if asks_native_help(words.as_slice()) {
        return print(Ok(Report::Help), out);
    }
    if is_sole(words.as_slice(), "--version") {
        return print(Ok(Report::Version), out);
    }
    let decision = decide(alloc, words.as_slice(), files);
    print(decision, out)
}
