//! The whole program, over any files and any output.

ghost use Rattle.std.specs.Prelude.{ℕ, List, map, string_bytes};
ghost use Rattle.file_port.specs.Events.{Event};
ghost use Rattle.file_port.specs.Files.{FilesState};
ghost use Rattle.file_port.specs.Sink.{SinkState};
ghost use Rattle.pcc_stages.specs.Runs.{Runs, Prints};
ghost use Rattle.pcc_stages.specs.Ends.{Ends};
ghost use Rattle.pcc_stages.specs.Accounts.{Accounts};
ghost use Rattle.pcc_stages.specs.Answers.{Gives};
ghost use Rattle.pcc_stages.specs.Decisions.{exit_of};
ghost use Rattle.view_cli.specs.Arguments.{view_invocation_of, IsInViewRange};
ghost use Rattle.view_cli.specs.Invocations.{view_command_of};
ghost use Rattle.view_cli.specs.Texts.{view_texts};
ghost use Rattle.view_cli.specs.Tasks.{exit_of_command, exit_if_command};
ghost use Rattle.view_cli.specs.Tasks.{view_task_of, view_request_of};
ghost use Rattle.view_cli.specs.Headline.{ShowsIfCommand};
ghost use Rattle.view_cli.specs.Reports.{exit_of_report};

use crate::commands::{
    formula_command, goals_command, list_command, packet_command, policy_command, source_command,
};
use crate::report::Report;
use crate::{Command, read_arguments};
use file_port::{Files, Sink};
use pcc_stages::{Stop, status_after};
use std::alloc::Global;

/// Makes the reads of the command and returns its report, or the stop that refuses it. Prints
/// nothing.
fn shown<'a, F: Files>(
    alloc: Global,
    command: Command<'a>,
    files: &mut F,
) -> Result<Report, Stop<'a>>
    requires { IsInViewRange command }
    ensures { Gives exit_of_report (exit_of_command (view_invocation_of command.entry))
        (F.log files.old) (F.log files.new) (F.state files.old) (F.state files.new) result }
{
    match command {
        Command::List(args) => list_command(alloc, args, files),
        Command::Goals(args) => goals_command(alloc, args, files),
        Command::Packet(args) => packet_command(alloc, args, files),
        Command::Formula(args) => formula_command(alloc, args, files),
        Command::PolicyText(file) => policy_command(alloc, file, files),
        Command::Source(args) => source_command(alloc, args, files),
        Command::Help => Ok(Report::Help),
        Command::Version => Ok(Report::Version),
    }
}

/// Makes the reads of the command that the arguments are, and returns its report, or the usage
/// report if they aren't a command.
fn decide<'a, F: Files>(
    alloc: Global,
    words: &'a [String],
    files: &mut F,
) -> Result<Report, Stop<'a>>
    ensures { Gives exit_of_report
        (exit_if_command (view_command_of (map string_bytes words.entry.now)))
        (F.log files.old) (F.log files.new) (F.state files.old) (F.state files.new) result }
{
    match read_arguments(alloc, words) {
        Ok(Some(command)) => shown(alloc, command, files),
        Ok(None) => Ok(Report::Usage),
        Err(_) => Err(Stop::Memory),
    }
}

/// Prints the report or stop of the run, and returns the exit status.
fn print<S: Sink>(decision: Result<Report, Stop<'_>>, out: &mut S) -> u8
    ensures { Prints (exit_of exit_of_report decision.entry)
        (S.state out.old) (S.state out.new) result }
{
    match decision {
        Ok(report) => {
            let status = report.status();
            status_after(status, report.print(out))
        }
        Err(stop) => status_after(stop.status(), stop.print(out)),
    }
}

/// Runs the command that the arguments `words` ask for, over the files and the output, and returns
/// the exit status. The program's name isn't among the arguments. The status is 0 shown, 1 refused,
/// or the text is wrong, 2 the arguments aren't a command, 3 a file is missing or its read failed,
/// 4 a write to the output failed, 5 out of memory.
///
/// Reads first, and prints then. By `runs`, whatever the files hold, the log of the files grows by
/// the reads that the command asks for, in their order, and by no other event; none of them is a
/// write. The text on the output, and the status, are a function of what these reads gave: for each
/// command its definition is that of `view_task_of`.
///
/// By `shows`, this means for each command what its users want to know. If `list` prints a source,
/// it parses as exactly one source, which assembles into the container's code, and into what FILE
/// holds without lemmas and proof. The last line of `goals` names the part that `pcc prove` names.
/// The last line of `packet` is the packet's line among those of `pcc ref`. `formula` and `source`
/// print with status 0 what the text is, exactly if it is a formula or source, and else the first
/// fault; if the fault lies in one token of a source, a mark is under it.
pub fn pcc_view<F: Files, S: Sink>(
    alloc: Global,
    words: Vec<String>,
    files: &mut F,
    out: &mut S,
) -> u8
    ensures runs { Runs view_texts (view_task_of (map string_bytes words.items)).stage
        (F.log files.old) (F.log files.new) (F.state files.old) (F.state files.new)
        (S.state out.old) (S.state out.new) result }
    ensures shows { ShowsIfCommand (view_command_of (map string_bytes words.items))
        (F.log files.old) (F.log files.new) (S.state out.old) (S.state out.new) result }
{
    proof_container::laws();
    view_container::laws();
    policy_set::laws();
    formula_text::laws();
    asm_text::laws();
    view_source_faults::laws();
    view_goal_text::laws();
    let decision = decide(alloc, words.as_slice(), files);
    print(decision, out)
}

/// States how a run ends, from what `pcc_view` says of it. If the contents of the files are known,
/// the run ends with the answer over them, or as a failed call or running out of memory requires;
/// if they aren't known, less is known (`Ends`). Its exit status and the counts of faults say what
/// `Accounts` lists.
pub fn laws()
    ensures ends { (args : List (List ℕ)) (e e' : List Event) (f g : FilesState) (s t : SinkState)
        (status : ℕ) → Runs view_texts (view_task_of args).stage e e' f g s t status
        → Ends (view_request_of args) f g s t status }
    ensures accounts { (args : List (List ℕ)) (e e' : List Event) (f g : FilesState)
        (s t : SinkState) (status : ℕ)
        → Runs view_texts (view_task_of args).stage e e' f g s t status
        → Accounts (view_request_of args) f g s t status }
{
    pcc_stages::laws();
}
