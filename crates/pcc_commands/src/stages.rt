//! The stages of commands: each returns its value, or what ends the command there. `specs/Stages`
//! defines each stage under its name.

ghost use Rattle.std.specs.Prelude.{◌≡◌, ◌≤◌, length, is_some};
ghost use Rattle.std.specs.Prelude.{IfOk, IfErr};
ghost use Rattle.asm_text.specs.declared.limits.TheConstants.{MAX_SOURCE};
ghost use Rattle.asm_text.specs.Views.{source_view};
ghost use Rattle.pcc_asm.specs.Views.{IsSpelled};
ghost use Rattle.proof_container.specs.Versions.{profile_of};
ghost use Rattle.pcc_gate.specs.Answers.{IsAcceptedBy};
ghost use Rattle.bpf_words.specs.Programs.{IsProgram};
ghost use Rattle.pcc_words.specs.Commands.{IsVersionOf};
ghost use Rattle.agent_script.specs.declared.script.TheConstants.{MAX_SCRIPT};
ghost use Rattle.agent_script.specs.Scripts.{IsScript, script_view};
ghost use Rattle.pcc_stages.specs.Answers.{Gives, GivesPure};
ghost use Rattle.pcc_commands.specs.Stages.Judging as judging;
ghost use Rattle.pcc_commands.specs.Stages.Assembling as assembling;
ghost use Rattle.pcc_commands.specs.Stages.Proving as proving;
ghost use Rattle.pcc_commands.specs.Stages.Upgrading as upgrading;
ghost use Rattle.pcc_commands.specs.Stages.Compiling as compiling;
ghost use Rattle.pcc_commands.specs.Stages.Hosting as hosting;
ghost use Rattle.pcc_commands.specs.Inside.Writes.{Wrote};
ghost use Rattle.pcc_commands.specs.Inside.Shows.{IsOfGate, shown_by};

use crate::report::Report;
use agent_script::{MAX_SCRIPT, Script, ScriptFault, read_script};
use asm_text::{LineFault, MAX_SOURCE, Source, read_source};
use bounds_prover::{Measure, ProveFault, ProveFlaw, prove};
use bpf_compile::compile;
use bpf_words::{Bpf, BpfFault, read_bpf};
use file_port::{Files, Put};
use gate_upgrade::{UpgradeFault, UpgradeFlaw, upgraded};
use pcc_asm::{AsmFault, assemble};
use pcc_gate::{Accepted, GateFault, Refusal, gate};
use pcc_stages::{RefusedLine, Stop, bytes_of, container_bytes_of};
use policy_set::Policy;
use proof_container::{Head, profile_of, write};
use std::alloc::Global;

/// The maximal number of bytes that are read of a program of classic BPF; no program is longer than
/// 320.
pub const MAX_PROGRAM_FILE: u32 = 65_536;

/// What the gate says of the bytes.
#[tactic(auto, unfolding(crate::specs::Stages::Judging::accepted_in))]
fn judged<'a>(alloc: Global, policy: &Policy, bytes: &[u8]) -> Result<Accepted, Stop<'a>>
    ensures exact { GivesPure (λ a. tt) (judging.accepted_in policy.now bytes.now) result }
    ensures accepted { IfOk result (λ a. IsAcceptedBy policy.now bytes.now a) }
    ensures refused { IfErr result IsOfGate }
{
    match gate(alloc, policy, bytes) {
        Ok(accepted) => Ok(accepted),
        Err(GateFault::Refused(refusal)) => Err(Stop::Refused(RefusedLine::Container(refusal))),
        Err(GateFault::Memory | GateFault::Results) => Err(Stop::Memory),
    }
}

/// Checks the container in the bytes under the policy, and returns what was accepted.
pub fn accepted_in<'a>(alloc: Global, policy: &Policy, bytes: &[u8]) -> Result<Accepted, Stop<'a>>
    ensures exact { GivesPure (λ a. tt) (judging.accepted_in policy.now bytes.now) result }
    ensures code { GivesPure (λ a. a.code) (judging.accepted_code_in policy.now bytes.now) result }
    ensures shown { GivesPure shown_by (judging.shown_in policy.now bytes.now) result }
    ensures policy { IfOk result (λ a. a.policy ≡ policy.now) }
    ensures refused { IfErr result IsOfGate }
{
    judged(alloc, policy, bytes)
}

/// Returns the bytes of the container with a proof of its verification condition under the policy;
/// stops if there is none.
pub fn proved_in<'a>(alloc: Global, policy: &Policy, bytes: &[u8]) -> Result<Vec<u8>, Stop<'a>>
    ensures { GivesPure (λ bytes. bytes.items) (proving.proved_in policy.now bytes.now) result }
{
    match prove(alloc, policy, bytes) {
        Ok(container) => Ok(container),
        Err(ProveFault::At(ProveFlaw::Refused(refusal))) => {
            Err(Stop::Refused(RefusedLine::Container(refusal)))
        }
        Err(ProveFault::At(ProveFlaw::NotEasy(part))) => {
            Err(Stop::Refused(RefusedLine::NotEasy(part)))
        }
        Err(ProveFault::At(ProveFlaw::TooBig(measure, number))) => {
            Err(Stop::Refused(RefusedLine::TooBig(measure, number)))
        }
        Err(ProveFault::Memory | ProveFault::Results) => Err(Stop::Memory),
    }
}

/// Parses the text as a source in the profile of the version; its invariants may name the remaining
/// steps if there is a bound.
#[tactic(auto, unfolding(crate::specs::Stages::Assembling::source_in))]
fn source_in<'a>(
    alloc: Global,
    version: u32,
    bound: Option<u32>,
    text: &[u8],
) -> Result<Source, Stop<'a>>
    requires short { length text.now ≤ MAX_SOURCE }
    ensures exact { GivesPure source_view (assembling.source_in version bound text.now) result }
    ensures spelled { IfOk result
        (λ s. IsSpelled (profile_of version) (is_some bound) (source_view s)) }
{
    match read_source(alloc, text, profile_of(version), bound.is_some()) {
        Ok(source) => Ok(source),
        Err(LineFault::At(line, flaw)) => Err(Stop::Refused(RefusedLine::BadLine(line, flaw))),
        Err(LineFault::Memory) => Err(Stop::Memory),
    }
}

/// The container of the version and the bound, as bytes, that the source is assembled into for the
/// policy.
fn assembled_as<'a>(
    alloc: Global,
    version: u32,
    bound: Option<u32>,
    policy: &Policy,
    source: &Source,
) -> Result<Vec<u8>, Stop<'a>>
    requires spelled { IsSpelled (profile_of version) (is_some bound) (source_view source.now) }
    requires fits { IsVersionOf bound version }
    ensures { GivesPure (λ bytes. bytes.items)
        (assembling.assembled_as version bound policy.now (source_view source.now)) result }
{
    match assemble(alloc, source, policy, version, bound) {
        Ok(assembled) => match write(alloc, &assembled.view()) {
            Ok(bytes) => Ok(bytes),
            Err(_) => Err(Stop::Memory),
        },
        Err(AsmFault::At(flaw)) => Err(Stop::Refused(RefusedLine::BadSource(flaw))),
        Err(AsmFault::Memory) => Err(Stop::Memory),
    }
}

/// Assembles the source in the text for the policy, and returns the bytes of the container with
/// this version and step bound.
pub fn assembled_in<'a>(
    alloc: Global,
    version: u32,
    bound: Option<u32>,
    policy: &Policy,
    text: &[u8],
) -> Result<Vec<u8>, Stop<'a>>
    requires short { length text.now ≤ MAX_SOURCE }
    requires fits { IsVersionOf bound version }
    ensures { GivesPure (λ bytes. bytes.items)
        (assembling.assembled_in version bound policy.now text.now) result }
{
    let source = match source_in(alloc, version, bound, text) {
        Ok(source) => source,
        Err(stop) => return Err(stop),
    };
    assembled_as(alloc, version, bound, policy, &source)
}

/// Reads the container file with this name, checks it under the policy, and returns what was
/// accepted.
pub fn accepted_of<'a, F: Files>(
    alloc: Global,
    policy: &Policy,
    name: &'a str,
    files: &mut F,
) -> Result<Accepted, Stop<'a>>
    ensures exact { Gives (λ a. tt) (judging.accepted_of policy.now name.entry.now)
        (F.log files.old) (F.log files.new) (F.state files.old) (F.state files.new) result }
    ensures code { Gives (λ a. a.code) (judging.accepted_code_of policy.now name.entry.now)
        (F.log files.old) (F.log files.new) (F.state files.old) (F.state files.new) result }
    ensures policy { IfOk result (λ a. a.policy ≡ policy.now) }
{
    let bytes = container_bytes_of(alloc, name, files)?;
    accepted_in(alloc, policy, &bytes)
}

/// Reads the container file with this name, and returns its bytes with a proof of its verification
/// condition under the policy; stops if there is none.
pub fn proved_of<'a, F: Files>(
    alloc: Global,
    policy: &Policy,
    name: &'a str,
    files: &mut F,
) -> Result<Vec<u8>, Stop<'a>>
    ensures { Gives (λ bytes. bytes.items) (proving.proved_of policy.now name.entry.now)
        (F.log files.old) (F.log files.new) (F.state files.old) (F.state files.new) result }
{
    let bytes = container_bytes_of(alloc, name, files)?;
    proved_in(alloc, policy, &bytes)
}

/// Reads the source file with this name, assembles it for the policy, and returns the bytes of the
/// container with this version and step bound.
pub fn assembled_of<'a, F: Files>(
    alloc: Global,
    version: u32,
    bound: Option<u32>,
    policy: &Policy,
    name: &'a str,
    files: &mut F,
) -> Result<Vec<u8>, Stop<'a>>
    requires fits { IsVersionOf bound version }
    ensures { Gives (λ bytes. bytes.items)
        (assembling.assembled_of version bound policy.now name.entry.now)
        (F.log files.old) (F.log files.new) (F.state files.old) (F.state files.new) result }
{
    let text = bytes_of(
        alloc,
        name,
        MAX_SOURCE as u32,
        RefusedLine::SourceTooLong,
        files,
    )?;
    assembled_in(alloc, version, bound, policy, &text)
}

/// The container of version 2, as bytes, that the container in the bytes is upgraded to.
#[tactic(auto, unfolding(crate::specs::Stages::Upgrading::upgraded_in))]
fn upgraded_in<'a>(alloc: Global, bytes: &[u8]) -> Result<Vec<u8>, Stop<'a>>
    ensures { GivesPure (λ bytes. bytes.items) (upgrading.upgraded_in bytes.now) result }
{
    match upgraded(alloc, bytes) {
        Ok(container) => Ok(container),
        Err(UpgradeFault::At(UpgradeFlaw::TooLong(length))) => Err(Stop::Refused(
            RefusedLine::Container(Refusal::TooLong(length)),
        )),
        Err(UpgradeFault::At(UpgradeFlaw::Malformed(offset, flaw))) => Err(Stop::Refused(
            RefusedLine::Container(Refusal::Malformed(offset, flaw)),
        )),
        Err(UpgradeFault::At(UpgradeFlaw::Already)) => Err(Stop::Refused(RefusedLine::Already)),
        Err(UpgradeFault::At(UpgradeFlaw::OtherPolicy(number))) => Err(Stop::Refused(
            RefusedLine::Container(Refusal::OtherPolicy(Head::Number(number))),
        )),
        Err(UpgradeFault::At(UpgradeFlaw::TooBig(size))) => {
            Err(Stop::Refused(RefusedLine::TooBig(Measure::Bytes, size)))
        }
        Err(UpgradeFault::Memory) => Err(Stop::Memory),
    }
}

/// Reads the container file with this name, and returns the bytes of the container of version 2
/// that it is upgraded to.
pub fn upgraded_of<'a, F: Files>(
    alloc: Global,
    name: &'a str,
    files: &mut F,
) -> Result<Vec<u8>, Stop<'a>>
    ensures { Gives (λ bytes. bytes.items) (upgrading.upgraded_of name.entry.now)
        (F.log files.old) (F.log files.new) (F.state files.old) (F.state files.new) result }
{
    let bytes = container_bytes_of(alloc, name, files)?;
    upgraded_in(alloc, &bytes)
}

/// The program of classic BPF that the bytes are.
#[tactic(auto, unfolding(crate::specs::Stages::Compiling::program_in))]
fn program_in<'a>(alloc: Global, bytes: &[u8]) -> Result<Vec<Bpf>, Stop<'a>>
    ensures exact { GivesPure (λ program. program.items) (compiling.program_in bytes.now) result }
    ensures program { IfOk result (λ program. IsProgram program.items) }
{
    match read_bpf(alloc, bytes) {
        Ok(program) => Ok(program),
        Err(BpfFault::At(flaw)) => Err(Stop::Refused(RefusedLine::BadProgram(flaw))),
        Err(BpfFault::Memory) => Err(Stop::Memory),
    }
}

/// The container, as bytes, that the program is compiled to.
#[tactic(auto, unfolding(crate::specs::Stages::Compiling::compiled_as))]
fn compiled_as<'a>(alloc: Global, program: &[Bpf]) -> Result<Vec<u8>, Stop<'a>>
    requires { IsProgram program.now }
    ensures { GivesPure (λ bytes. bytes.items) (compiling.compiled_as program.now) result }
{
    match compile(alloc, program) {
        Ok(container) => Ok(container),
        Err(_) => Err(Stop::Memory),
    }
}

/// Parses the bytes as a program, compiles it, and returns the bytes of the container.
fn compiled_in<'a>(alloc: Global, bytes: &[u8]) -> Result<Vec<u8>, Stop<'a>>
    ensures { GivesPure (λ bytes. bytes.items) (compiling.compiled_in bytes.now) result }
{
    let program = match program_in(alloc, bytes) {
        Ok(program) => program,
        Err(stop) => return Err(stop),
    };
    compiled_as(alloc, &program)
}

/// Reads the program file with this name, compiles it, and returns the bytes of the container.
pub fn compiled_of<'a, F: Files>(
    alloc: Global,
    name: &'a str,
    files: &mut F,
) -> Result<Vec<u8>, Stop<'a>>
    ensures { Gives (λ bytes. bytes.items) (compiling.compiled_of name.entry.now)
        (F.log files.old) (F.log files.new) (F.state files.old) (F.state files.new) result }
{
    let bytes = bytes_of(
        alloc,
        name,
        MAX_PROGRAM_FILE,
        RefusedLine::ProgramTooLong,
        files,
    )?;
    compiled_in(alloc, &bytes)
}

/// The script that the text says.
#[tactic(auto, unfolding(crate::specs::Stages::Hosting::script_in))]
fn script_in<'a>(alloc: Global, text: &[u8]) -> Result<Script, Stop<'a>>
    requires { length text.now ≤ MAX_SCRIPT }
    ensures exact { GivesPure script_view (hosting.script_in text.now) result }
    ensures script { IfOk result (λ script. IsScript (script_view script)) }
{
    match read_script(alloc, text) {
        Ok(script) => Ok(script),
        Err(ScriptFault::At(line, flaw)) => Err(Stop::Refused(RefusedLine::BadScript(line, flaw))),
        Err(ScriptFault::Memory) => Err(Stop::Memory),
    }
}

/// Reads the script in the file with this name.
pub fn script_of<'a, F: Files>(
    alloc: Global,
    name: &'a str,
    files: &mut F,
) -> Result<Script, Stop<'a>>
    ensures exact { Gives script_view (hosting.script_of name.entry.now)
        (F.log files.old) (F.log files.new) (F.state files.old) (F.state files.new) result }
    ensures script { IfOk result (λ script. IsScript (script_view script)) }
{
    let text = bytes_of(
        alloc,
        name,
        MAX_SCRIPT as u32,
        RefusedLine::ScriptTooLong,
        files,
    )?;
    script_in(alloc, &text)
}

/// Writes the bytes to the file with this name, and reports how many they are.
pub fn write_to<'a, F: Files>(
    name: &'a str,
    bytes: &[u8],
    files: &mut F,
) -> Result<Report, Stop<'a>>
    ensures { Wrote name.entry.now bytes.now
        (F.log files.old) (F.log files.new) (F.state files.old) (F.state files.new) result }
{
    match files.write(name, bytes) {
        Put::Done => Ok(Report::Written(bytes.len() as u64)),
        Put::Failed => Err(Stop::WriteFault(name)),
    }
}
