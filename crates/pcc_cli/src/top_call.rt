//! The whole program, over any files and any output.

ghost use Rattle.std.specs.Prelude.{ℕ, List, map, string_bytes};
ghost use Rattle.file_port.specs.Events.{Event};
ghost use Rattle.file_port.specs.Files.{FilesState};
ghost use Rattle.file_port.specs.Sink.{SinkState};
ghost use Rattle.pcc_stages.specs.Runs.{Runs, Prints};
ghost use Rattle.pcc_stages.specs.Ends.{Ends};
ghost use Rattle.pcc_stages.specs.Accounts.{Accounts};
ghost use Rattle.pcc_stages.specs.Texts.{texts};
ghost use Rattle.pcc_stages.specs.Decisions.{Decides, exit_of};
ghost use Rattle.pcc_commands.specs.Tasks.{task_of, request_of};
ghost use Rattle.pcc_gate.specs.Safe.{AcceptedSafe};
ghost use Rattle.pcc_cli.specs.Clauses.{LogTells, RunKeeps, DoesCheck, DoesCheckFrom, DoesRun, DoesRefuse};
ghost use Rattle.pcc_cli.specs.Clauses.{DoesRef, DoesAsm, DoesProve, DoesProveExactly, DoesDemo, DoesDemoExactly};
ghost use Rattle.pcc_cli.specs.Clauses.{DoesUpgrade, DoesHost, DoesCompile, DoesCompileExactly, DoesNothing};
ghost use Rattle.pcc_words.specs.Invocations.{command_of};
ghost use Rattle.pcc_cli.specs.Means.{KeepsClauses, MeansIfCommand};
ghost use Rattle.pcc_cli.specs.Headline.{IsVerdict, AcceptedRunsSafely, AgentsStayInParts, BoundedReturns};
ghost use Rattle.pcc_commands.specs.Reports.{report_exit};

use file_port::{Files, Sink};
use pcc_commands::{
    Report, asm_command, bpf_command, check_command, demo_command, host_command, prove_command,
    ref_command, run_command, upgrade_command,
};
use pcc_stages::{Stop, status_after};
use pcc_words::{Command, read_arguments};
use std::alloc::Global;

/// Makes the reads and the write of the command that the arguments are, and returns its report or
/// its stop. Prints nothing.
fn decide<'a, F: Files>(
    alloc: Global,
    words: &'a [String],
    files: &mut F,
) -> Result<Report, Stop<'a>>
    ensures { Decides report_exit (task_of (map string_bytes words.entry.now)).stage
        (F.log files.old) (F.log files.new) (F.state files.old) (F.state files.new) result }
{
    match read_arguments(alloc, words) {
        Ok(Some(Command::Asm(args))) => asm_command(alloc, args, files),
        Ok(Some(Command::Prove(args))) => prove_command(alloc, args, files),
        Ok(Some(Command::Check(args))) => check_command(alloc, args, files),
        Ok(Some(Command::Run(args))) => run_command(alloc, args, files),
        Ok(Some(Command::Ref(args))) => ref_command(alloc, args, files),
        Ok(Some(Command::Demo(n))) => demo_command(alloc, n, files),
        Ok(Some(Command::Upgrade(args))) => upgrade_command(alloc, args, files),
        Ok(Some(Command::Host(script))) => host_command(alloc, script, files),
        Ok(Some(Command::Bpf(args))) => bpf_command(alloc, args, files),
        Ok(None) => Err(Stop::Usage),
        Err(_) => Err(Stop::Memory),
    }
}

/// Prints the report or stop of the run, and returns the exit status.
fn print<S: Sink>(decision: Result<Report, Stop<'_>>, out: &mut S) -> u8
    ensures { Prints (exit_of report_exit decision.entry)
        (S.state out.old) (S.state out.new) result }
{
    match decision {
        Ok(report) => status_after(0, report.print(out)),
        Err(stop) => status_after(stop.status(), stop.print(out)),
    }
}

/// Runs the command that the arguments `words` ask for, over the files and the output, and returns
/// the exit status. The program's name isn't among the arguments. The status is 0 done, 1 refused,
/// 2 the arguments aren't a command, 3 a file is missing or its read failed, 4 a write to a file or
/// to the output failed, 5 out of memory.
///
/// Reads and refuses first, and prints then; nothing is printed before all files are read.
///
/// By `happens`, the log of the files tells what became of them. Each command has a clause, which
/// says by what reads and what write the log grew, and what was printed. In each, memory may run
/// out behind the first of the reads that the command makes; then nothing is written or printed. If
/// the arguments are no command, nothing is read, and the usage line is printed (`no_command`).
///
/// These clauses together say all: by `laws`, `runs`, the log grew by the reads and the write that
/// the command's definition asks for, in their order, and by no other event, and text and status
/// are a function of what these reads gave. By `ends` and `accounts` of `laws` follows how the run
/// ended, also over files whose contents are known, and what its status and the counts of faults
/// tell.
///
/// By `checks`, `check` reads FILE once. It prints `accepted` exactly if the bytes read are
/// accepted under the policy, which is so exactly if they are with every lemma inlined; else it
/// prints the line of a refusal. `refuses` says which: the refusal of the first check that fails.
/// `checks_from` says the same of a policy `@NAME`: the one that one earlier read of NAME gave.
///
/// By `runs_code`, `run` runs the code that was accepted from the bytes read, and no other, and
/// prints the lines of the machine that tests each access. By `refers`, `ref` prints them for the
/// code in FILE. What `asm` writes is the source's container (`assembles`). What `prove` writes is
/// accepted, and is its input but for the proof (`proves`); `proves_exactly` says which containers
/// it proves. What `upgrade` writes is accepted under each policy under which the container that it
/// reads is accepted (`upgrades`). By `compiles`, what `bpf` writes is accepted, and its runs on a
/// packet return 0 if the program's value is 0, else 1; if IN isn't a program, `bpf` prints the
/// first thing that is wrong with it. `compiles_exactly` says which container it writes. By
/// `demonstrates`, `demo` uses no file, and tells of accepted code of its source; by
/// `demonstrates_exactly`, exactly if `prove` proves it. By `hosts`, `host` prints for each turn the
/// result that its agent has alone, with its own budgets, whatever the other agents do.
///
/// By `sound`, for every policy, also from a file, no run of accepted code from a state that
/// satisfies the precondition is blocked, and what it returns satisfies the postcondition. By
/// `safe`, this holds for the start states of the policy that `run` uses, and such a run neither
/// changes nor depends on anything outside its rights. By `apart`, no address is in the parts of
/// two agents of a host, and the rights of each agent at its start lie in its own part, from where
/// it runs safely too: so no agent changes or learns anything of another's. By `returns`, if
/// accepted bytes bound their steps, no packet of `run` is out of steps with at least as many for
/// each, and an agent of a host returns within the bound.
pub fn pcc<F: Files, S: Sink>(alloc: Global, words: Vec<String>, files: &mut F, out: &mut S) -> u8
    ensures happens { LogTells (F.log files.old) (F.log files.new)
        (F.state files.old) (F.state files.new) }
    ensures checks { RunKeeps F.log S.state words.items files out result (DoesCheck IsVerdict) }
    ensures checks_from { RunKeeps F.log S.state words.items files out result
        (DoesCheckFrom IsVerdict) }
    ensures runs_code { RunKeeps F.log S.state words.items files out result (DoesRun IsVerdict) }
    ensures refuses { RunKeeps F.log S.state words.items files out result DoesRefuse }
    ensures refers { RunKeeps F.log S.state words.items files out result DoesRef }
    ensures assembles { RunKeeps F.log S.state words.items files out result DoesAsm }
    ensures proves { RunKeeps F.log S.state words.items files out result DoesProve }
    ensures proves_exactly { RunKeeps F.log S.state words.items files out result DoesProveExactly }
    ensures demonstrates { RunKeeps F.log S.state words.items files out result DoesDemo }
    ensures demonstrates_exactly { RunKeeps F.log S.state words.items files out result
        DoesDemoExactly }
    ensures upgrades { RunKeeps F.log S.state words.items files out result DoesUpgrade }
    ensures hosts { RunKeeps F.log S.state words.items files out result DoesHost }
    ensures compiles { RunKeeps F.log S.state words.items files out result DoesCompile }
    ensures compiles_exactly { RunKeeps F.log S.state words.items files out result
        DoesCompileExactly }
    ensures no_command { RunKeeps F.log S.state words.items files out result DoesNothing }
    ensures sound { AcceptedSafe }
    ensures safe { AcceptedRunsSafely }
    ensures apart { AgentsStayInParts }
    ensures returns { BoundedReturns }
{
    laws();
    accepted_laws();
    let decision = decide(alloc, words.as_slice(), files);
    print(decision, out)
}

/// States how runs end, for anything that runs as a command asks for, `pcc` or another program. If
/// the contents of the files are known, the run ends with the answer over them, or as a failed call
/// or running out of memory requires; if they aren't known, less is known (`Ends`). Its exit status
/// and the counts of faults say what `Accounts` lists.
///
/// By `keeps`, it keeps the clause of each command. By `runs`, a run that keeps these clauses, and
/// whose log tells what became of the files, runs as a command asks for. By `means`, it means what
/// `specs/Means` says.
pub fn laws()
    ensures ends { (args : List (List ℕ)) (e e' : List Event) (f g : FilesState) (s t : SinkState)
        (status : ℕ) → Runs texts (task_of args).stage e e' f g s t status
        → Ends (request_of args) f g s t status }
    ensures accounts { (args : List (List ℕ)) (e e' : List Event) (f g : FilesState)
        (s t : SinkState) (status : ℕ) → Runs texts (task_of args).stage e e' f g s t status
        → Accounts (request_of args) f g s t status }
    ensures keeps { (words : List (List ℕ)) (e e' : List Event) (f g : FilesState) (s t : SinkState)
        (status : ℕ) → Runs texts (task_of words).stage e e' f g s t status
        → KeepsClauses words e e' s t status }
    ensures runs { (words : List (List ℕ)) (e e' : List Event) (f g : FilesState) (s t : SinkState)
        (status : ℕ) → KeepsClauses words e e' s t status → LogTells e e' f g
        → Runs texts (task_of words).stage e e' f g s t status }
    ensures means { (words : List (List ℕ)) (e e' : List Event) (s t : SinkState) (status : ℕ)
        → KeepsClauses words e e' s t status
        → MeansIfCommand (command_of words) e e' s t status }
{
    pcc_stages::laws();
    pcc_gate::laws();
    policy_set::laws();
    packet_store::laws();
    agent_script::laws();
    bounds_prover::prove_laws();
    bpf_words::laws();
    bpf_compile::laws();
    gate_upgrade::laws();
    asm_text::laws();
    pcc_asm::laws();
}

/// States what accepted code is worth, for `pcc` or another program: what `sound`, `safe`, `apart`
/// and `returns` of `pcc` say.
pub fn accepted_laws()
    ensures sound { AcceptedSafe }
    ensures safe { AcceptedRunsSafely }
    ensures apart { AgentsStayInParts }
    ensures returns { BoundedReturns }
{
    pcc_gate::laws();
    packet_store::laws();
    alpha_cfg::isolation_laws();
    alpha_turns::part_laws();
}
