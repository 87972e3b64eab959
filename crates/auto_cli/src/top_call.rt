//! The whole program, over any files and any output.

ghost use Rattle.std.specs.Prelude.{◌≡◌, ℕ, List, ◌∷◌, codes, map, string_bytes, IfOk};
ghost use Rattle.file_port.specs.Events.{Event};
ghost use Rattle.file_port.specs.Files.{FilesState};
ghost use Rattle.file_port.specs.Sink.{SinkState};
ghost use Rattle.pcc_stages.specs.Runs.{Runs, Prints};
ghost use Rattle.pcc_stages.specs.Ends.{Ends};
ghost use Rattle.pcc_stages.specs.Accounts.{Accounts};
ghost use Rattle.pcc_stages.specs.Decisions.{exit_of};
ghost use Rattle.auto_search.specs.Outcomes.{OutcomeView};
ghost use Rattle.auto_cli.specs.Arguments.{auto_command_of};
ghost use Rattle.auto_cli.specs.Headline.{RunsAuto, WritesIfFound, FindsIfProved, RefusesIfAsked};
ghost use Rattle.auto_cli.specs.Reports.{auto_exit};
ghost use Rattle.auto_cli.specs.Tasks.{auto_task, auto_request};
ghost use Rattle.auto_cli.specs.Texts.{auto_texts};

use crate::arguments::{is_only, wants_help};
use crate::finding::decide;
use crate::report::Report;
use file_port::{Files, Sink};
use pcc_stages::{Stop, status_after};
use std::alloc::{AllocError, Global};

/// Prints the report or stop of the run, and returns the exit status.
fn print<S: Sink>(decision: Result<Report, Stop<'_>>, out: &mut S) -> u8
    ensures { Prints (exit_of auto_exit decision.entry)
        (S.state out.old) (S.state out.new) result }
{
    match decision {
        Ok(report) => {
            let status = report.status();
            status_after(status, report.print(out))
        }
        Err(stop) => status_after(stop.status(), stop.print(out)),
    }
}

/// Puts the word `asm` before the arguments, as pcc would take them.
fn behind_asm(alloc: Global, words: Vec<String>) -> Result<Vec<String>, AllocError>
    ensures { IfOk result (λ all. map string_bytes all.items
        ≡ codes "asm" ∷ map string_bytes words.items) }
{
    let mut all = words;
    let asm = String::from_str(alloc, "asm")?;
    all.insert(0, asm)?;
    Ok(all)
}

/// Runs pcc_auto: decides what the arguments ask for, and prints it.
fn run<F: Files, S: Sink>(alloc: Global, words: Vec<String>, files: &mut F, out: &mut S) -> u8
    ensures runs { RunsAuto (map string_bytes words.items)
        (F.log files.old) (F.log files.new) (F.state files.old) (F.state files.new)
        (S.state out.old) (S.state out.new) result }
{
    if wants_help(words.as_slice()) {
        return print(Ok(Report::Help), out);
    }
    if is_only(words.as_slice(), "--version") {
        return print(Ok(Report::Version), out);
    }
    let all = match behind_asm(alloc, words) {
        Ok(all) => all,
        Err(_) => return print(Err(Stop::Memory), out),
    };
    let decision = decide(alloc, all.as_slice(), files);
    print(decision, out)
}

/// Runs pcc_auto with the arguments `words` over the files and the output, and returns the exit
/// status. The program's name isn't among the arguments. The status is 0 done, 1 refused, or none
/// is found, 2 the arguments aren't a command, 3 a file is missing or its read failed, 4 a write to
/// a file or to the output failed, 5 out of memory.
///
/// By `runs`, whatever the files hold, the log of the files grows by the reads that the arguments
/// ask for, in their order, and then by one write at most, and what is printed and the status go by
/// what these gave and by the outcome of the search, which is one of the draft that the reads lead
/// to: the container in IN, or the one that its source is assembled into.
///
/// By `writes`, if the status is 0, OUT has a container that is accepted, with the version, policy,
/// step bound, code and lemmas of the draft. By `finds`, one is written if `prove` has a proof of the
/// draft as it stands. By `refuses`, the line of `asm`, or of the first check up to the invariants
/// that fails, is printed, and nothing is written then, nor if none is found.
pub fn pcc_auto<F: Files, S: Sink>(
    alloc: Global,
    words: Vec<String>,
    files: &mut F,
    out: &mut S,
) -> u8
    ensures runs { RunsAuto (map string_bytes words.items)
        (F.log files.old) (F.log files.new) (F.state files.old) (F.state files.new)
        (S.state out.old) (S.state out.new) result }
    ensures writes { WritesIfFound (auto_command_of (map string_bytes words.items))
        (F.log files.old) (F.log files.new) result }
    ensures finds { FindsIfProved (auto_command_of (map string_bytes words.items))
        (F.log files.old) (F.log files.new) result }
    ensures refuses { RefusesIfAsked (auto_command_of (map string_bytes words.items))
        (F.log files.old) (F.log files.new) (S.state out.old) (S.state out.new) result }
{
    run(alloc, words, files, out)
}

/// States how a run ends, from what `pcc_auto` says of it, with whatever outcome of the search. If
/// the contents of the files are known, the run ends with the answer over them, or as a failed call
/// or running out of memory requires; if they aren't known, less is known (`Ends`). Its exit status
/// and the counts of faults say what `Accounts` lists.
pub fn laws()
    ensures ends { (outcome : OutcomeView) (args : List (List ℕ)) (e e' : List Event)
        (f g : FilesState) (s t : SinkState) (status : ℕ)
        → Runs auto_texts (auto_task outcome args).stage e e' f g s t status
        → Ends (auto_request outcome args) f g s t status }
    ensures accounts { (outcome : OutcomeView) (args : List (List ℕ)) (e e' : List Event)
        (f g : FilesState) (s t : SinkState) (status : ℕ)
        → Runs auto_texts (auto_task outcome args).stage e e' f g s t status
        → Accounts (auto_request outcome args) f g s t status }
{
    pcc_stages::laws();
}
