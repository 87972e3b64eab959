//! Why a call does nothing, with its status and its line.

ghost use Rattle.std.specs.Prelude.{◌≡◌};
ghost use Rattle.file_port.specs.Sink.{Puts};
ghost use Rattle.pcc_c.specs.Statuses.{reason_status};
ghost use Rattle.pcc_c.specs.Reasons.{policy_flaw_line, reason_line};

use crate::statuses::{
    ALREADY, BAD_POLICY, BAD_PROGRAM, BAD_SOURCE, BAD_VERSION, NOT_EASY, TOO_BIG, UNKNOWN_POLICY,
};
use asm_text::LineFlaw;
use bounds_prover::Measure;
use bpf_words::BpfFlaw;
use file_port::{Put, Sink};
use pcc_asm::AsmFlaw;
use pcc_gate::Refusal;
use pcc_lines::{
    print_already, print_bpf_flaw, print_not_easy, print_policy_form, print_policy_length,
    print_policy_lines, print_refusal, print_source_fault, print_source_too_long, print_too_big,
    print_unknown_policy, refusal_number,
};
use policy_set::PolicyFlaw;

/// Why a call does nothing: the first cause.
#[derive(Clone, Copy)]
pub enum Reason {
    /// The container is refused: the first acceptance check that fails.
    Refused(Refusal),
    /// The container to be upgraded is of a later version already.
    Already,
    /// No built-in policy has the name given.
    UnknownPolicy,
    /// The policy file spells no policy: its first error.
    BadPolicy(PolicyFlaw),
    /// The source has more bytes than a source may have.
    SourceTooLong,
    /// The first line of the source that is wrong, numbered from 1; 0 if there is no instruction.
    BadLine(u32, LineFlaw),
    /// The source isn't well-formed code: its first error.
    BadCode(AsmFlaw),
    /// The bytes are no program of classic BPF: the first error.
    BadProgram(BpfFlaw),
    /// The first part of the verification condition that isn't easy: 0 is the part of the start,
    /// k + 1 that of invariant k.
    NotEasy(u32),
    /// What would be made is past a limit: the first such limit, and its measure.
    TooBig(Measure, u64),
    /// There is no such version, or the step bound isn't one that the version may have.
    BadVersion,
}

/// Prints the line of a policy file that spells no policy.
fn print_policy_flaw<S: Sink>(flaw: PolicyFlaw, out: &mut S) -> Put
    ensures { Puts (policy_flaw_line flaw) (S.state out.old) (S.state out.new) result }
{
    match flaw {
        PolicyFlaw::Lines(count) => print_policy_lines(count as u64, out),
        PolicyFlaw::Length(line) => print_policy_length(line, out),
        PolicyFlaw::Form(line, at, what) => print_policy_form(line, at as u64, what.name(), out),
    }
}

impl Reason {
    /// Returns the status of a call that does nothing for this reason.
    pub fn status(self) -> u32
        ensures { result ≡ reason_status self }
    {
        match self {
            Reason::Refused(refusal) => refusal_number(refusal),
            Reason::Already => ALREADY,
            Reason::UnknownPolicy => UNKNOWN_POLICY,
            Reason::BadPolicy(_) => BAD_POLICY,
            Reason::SourceTooLong => BAD_SOURCE,
            Reason::BadLine(_, _) => BAD_SOURCE,
            Reason::BadCode(_) => BAD_SOURCE,
            Reason::BadProgram(_) => BAD_PROGRAM,
            Reason::NotEasy(_) => NOT_EASY,
            Reason::TooBig(_, _) => TOO_BIG,
            Reason::BadVersion => BAD_VERSION,
        }
    }

    /// Prints the line of the reason, as `pcc` does; of `BadVersion` nothing.
    pub fn print<S: Sink>(self, out: &mut S) -> Put
        ensures { Puts (reason_line self) (S.state out.old) (S.state out.new) result }
    {
        match self {
            Reason::Refused(refusal) => print_refusal(refusal, out),
            Reason::Already => print_already(out),
            Reason::UnknownPolicy => print_unknown_policy(out),
            Reason::BadPolicy(flaw) => print_policy_flaw(flaw, out),
            Reason::SourceTooLong => print_source_too_long(out),
            Reason::BadLine(line, flaw) => print_source_fault(line, flaw.name(), out),
            Reason::BadCode(flaw) => print_source_fault(flaw.line(), flaw.name(), out),
            Reason::BadProgram(flaw) => print_bpf_flaw(flaw, out),
            Reason::NotEasy(part) => print_not_easy(part, out),
            Reason::TooBig(measure, number) => print_too_big(measure.name(), number, out),
            Reason::BadVersion => out.put(b""),
        }
    }
}
