//! The lines that say why something is refused.

ghost use Rattle.file_port.specs.Sink.{Puts};
ghost use Rattle.pcc_stages.specs.Stops.{refused_text};

use crate::agent_stop::AgentStop;
use agent_script::ScriptFlaw;
use asm_text::LineFlaw;
use bounds_prover::Measure;
use bpf_words::BpfFlaw;
use file_port::{Put, Sink};
use formula_text::TextFlaw;
use packet_store::PacketFault;
use pcc_asm::AsmFlaw;
use pcc_gate::Refusal;
use pcc_lines::{
    print_already, print_bpf_flaw, print_bpf_too_long, print_container_too_long, print_not_easy,
    print_packet_fault, print_packets_too_long, print_policy_form, print_policy_length,
    print_policy_lines, print_policy_too_long, print_refusal, print_script_fault,
    print_script_too_long, print_source_fault, print_source_too_long, print_too_big,
    print_unknown_policy,
};

/// A line that says why what was asked for is refused, with the facts that it prints.
#[derive(Clone, Copy)]
pub enum RefusedLine {
    /// No policy has the name given.
    UnknownPolicy,
    /// The policy's file is longer than what is read of one.
    PolicyTooLong,
    /// The policy's file has so many lines instead of two.
    PolicyLines(u64),
    /// The first line of the policy's file that is too long, numbered from 1.
    PolicyLength(u32),
    /// The first line of the policy's file that isn't a formula, numbered from 1: the position of
    /// the first token that is wrong, and what is wrong there.
    PolicyForm(u32, u64, TextFlaw),
    /// The container is refused.
    Container(Refusal),
    /// The container's file is longer than a file may be.
    ContainerTooLong,
    /// The first part of the container's verification condition that isn't easy: 0 is the part of
    /// the start, k + 1 the part of invariant k.
    NotEasy(u32),
    /// The proof, or the container with it, is past a limit: the first such limit, and its measure.
    TooBig(Measure, u64),
    /// The container to be upgraded is of a later version already.
    Already,
    /// The source's file is longer than a source may be.
    SourceTooLong,
    /// The first line of the source that is wrong, numbered from 1; 0 if there is no instruction.
    BadLine(u32, LineFlaw),
    /// The source's lines are right, but don't give code.
    BadSource(AsmFlaw),
    /// The packet file is longer than a file may be.
    PacketsTooLong,
    /// The packet file has a fault.
    BadPackets(PacketFault),
    /// The program's file is longer than what is read of one.
    ProgramTooLong,
    /// The bytes aren't a program of classic BPF: the first thing that is wrong with them.
    BadProgram(BpfFlaw),
    /// The script's file is longer than a script may be.
    ScriptTooLong,
    /// The first line of the script that is wrong, numbered from 1; 0 if no line loads an agent.
    BadScript(u32, ScriptFlaw),
    /// The agent with this number isn't loaded.
    OfAgent(u32, AgentStop),
}

impl RefusedLine {
    /// Prints the line.
    pub fn print<S: Sink>(self, out: &mut S) -> Put
        ensures { Puts (refused_text self) (S.state out.old) (S.state out.new) result }
    {
        match self {
            RefusedLine::UnknownPolicy => print_unknown_policy(out),
            RefusedLine::PolicyTooLong => print_policy_too_long(out),
            RefusedLine::PolicyLines(count) => print_policy_lines(count, out),
            RefusedLine::PolicyLength(line) => print_policy_length(line, out),
            RefusedLine::PolicyForm(line, at, flaw) => {
                print_policy_form(line, at, flaw.name(), out)
            }
            RefusedLine::Container(refusal) => print_refusal(refusal, out),
            RefusedLine::ContainerTooLong => print_container_too_long(out),
            RefusedLine::NotEasy(part) => print_not_easy(part, out),
            RefusedLine::TooBig(measure, number) => print_too_big(measure.name(), number, out),
            RefusedLine::Already => print_already(out),
            RefusedLine::SourceTooLong => print_source_too_long(out),
            RefusedLine::BadLine(line, flaw) => print_source_fault(line, flaw.name(), out),
            RefusedLine::BadSource(flaw) => print_source_fault(flaw.line(), flaw.name(), out),
            RefusedLine::PacketsTooLong => print_packets_too_long(out),
            RefusedLine::BadPackets(fault) => print_packet_fault(fault, out),
            RefusedLine::ProgramTooLong => print_bpf_too_long(out),
            RefusedLine::BadProgram(flaw) => print_bpf_flaw(flaw, out),
            RefusedLine::ScriptTooLong => print_script_too_long(out),
            RefusedLine::BadScript(line, flaw) => print_script_fault(line, flaw.name(), out),
            RefusedLine::OfAgent(agent, why) => why.print(agent, out),
        }
    }
}
