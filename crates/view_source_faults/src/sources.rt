//! The report on the text of a source.

ghost use Rattle.std.specs.Prelude.{◌≡◌, ◌≤◌, ◌++◌, length, is_some, OnOk, IfOk, decimal};
ghost use Rattle.std.specs.Option.{option_map};
ghost use Rattle.proof_container.specs.Versions.{profile_of, IsVersion, IsBoundOf};
ghost use Rattle.asm_text.specs.declared.limits.TheConstants.{MAX_SOURCE};
ghost use Rattle.asm_text.specs.Names.{line_flaw_name};
ghost use Rattle.asm_text.specs.SourceParsing.{parsed_source};
ghost use Rattle.asm_text.specs.Views.{ParsesSource, source_view};
ghost use Rattle.pcc_asm.specs.Assembling.{assembled_code};
ghost use Rattle.pcc_asm.specs.Names.{asm_flaw_line, asm_flaw_name};
ghost use Rattle.pcc_asm.specs.Views.{IsSpelled};
ghost use Rattle.view_faults.specs.Views.{span_view, limits_view};
ghost use Rattle.view_source_faults.specs.Inside.Views.{IsCodeAnswer};
ghost use Rattle.view_faults.specs.Marking.{marked_line};
ghost use Rattle.view_faults.specs.Lines.{numbered_line};
ghost use Rattle.view_source_faults.specs.Spans.{flaw_span, asm_flaw_span, flaw_limits};
ghost use Rattle.pcc_lines.specs.Sources.{source_fault_line};
ghost use Rattle.view_source_faults.specs.SourceReports.{source_line, source_fault_text};
ghost use Rattle.view_faults.specs.Marking.{no_limits};
ghost use Rattle.view_source_faults.specs.SourceReports.{report_of_code, source_report};

use crate::spans::{asm_flaw_span, flaw_limits, flaw_span};
use asm_text::{LineFault, LineFlaw, Source, read_source};
use pcc_asm::{AsmFault, AsmFlaw, assemble};
use policy_set::{Policy, PolicyKind};
use proof_container::profile_of;
use std::alloc::{AllocError, Global};
use view_faults::{Limits, Report, Span, numbered_line, push_marked_line, push_number};

/// Adds a number and what is counted.
fn push_count(out: &mut Vec<u8>, count: usize, counted: &str) -> Result<(), AllocError>
    ensures { OnOk result (out.new.items ≡ out.old.items ++ (decimal count ++ counted.now)) }
{
    push_number(out, count as u64)?;
    out.extend_from_slice(counted.as_bytes())
}

/// How many instructions a source has.
#[tactic(auto, unfolding(asm_text::specs::Views::source_view))]
fn insn_count(source: &Source) -> usize
    ensures { result ≡ length (source_view source.now).insns }
{
    source.insns.len()
}

/// How many labels a source has.
#[tactic(auto, unfolding(asm_text::specs::Views::source_view))]
fn label_count(source: &Source) -> usize
    ensures { result ≡ length (source_view source.now).labels }
{
    source.labels.len()
}

/// How many invariants a source has.
#[tactic(auto, unfolding(asm_text::specs::Views::source_view))]
fn inv_count(source: &Source) -> usize
    ensures { result ≡ length (source_view source.now).invs }
{
    source.invs.len()
}

/// How many instructions, labels and invariants a source has, as a line.
fn source_line(alloc: Global, source: &Source) -> Result<Vec<u8>, AllocError>
    ensures { IfOk result (λ v. v.items ≡ source_line (source_view source.now)) }
{
    let mut out = Vec::new(alloc);
    out.extend_from_slice(b"source: ")?;
    push_count(&mut out, insn_count(source), " instructions, ")?;
    push_count(&mut out, label_count(source), " labels, ")?;
    push_count(&mut out, inv_count(source), " invariants\n")?;
    Ok(out)
}

/// Adds the number of the line that is wrong, and the name of what is wrong with it.
#[tactic(auto, unfolding(pcc_lines::specs::Sources::source_fault_line))]
fn push_fault(out: &mut Vec<u8>, number: u32, kind: &str) -> Result<(), AllocError>
    ensures { OnOk result (out.new.items ≡ out.old.items ++ source_fault_line number kind.now) }
{
    out.extend_from_slice(b"line ")?;
    push_number(out, u64::from(number))?;
    out.push(b' ')?;
    out.extend_from_slice(kind.as_bytes())?;
    out.push(b'\n')?;
    Ok(())
}

/// What is said of a line that is wrong, and its mark.
fn marked_fault(
    alloc: Global,
    number: u32,
    kind: &str,
    line: &[u8],
    span: Option<Span>,
    limits: Option<Limits>,
) -> Result<Vec<u8>, AllocError>
    ensures { IfOk result (λ v. v.items ≡ source_fault_line number kind.now
        ++ marked_line line.now (option_map span_view span) (option_map limits_view limits)) }
{
    let mut out = Vec::new(alloc);
    push_fault(&mut out, number, kind)?;
    push_marked_line(&mut out, line, span, limits)?;
    Ok(out)
}

/// What is said of a line that isn't there.
fn bare_fault(alloc: Global, number: u32, kind: &str) -> Result<Vec<u8>, AllocError>
    ensures { IfOk result (λ v. v.items ≡ source_fault_line number kind.now) }
{
    let mut out = Vec::new(alloc);
    push_fault(&mut out, number, kind)?;
    Ok(out)
}

/// What is said of a text that spells no source.
#[tactic(auto, using(crate::proofs::FaultLines::no_line, crate::proofs::FaultLines::some_line))]
fn flaw_lines(
    alloc: Global,
    version: u32,
    bound: Option<u32>,
    text: &[u8],
    number: u32,
    flaw: LineFlaw,
) -> Result<Vec<u8>, AllocError>
    ensures { IfOk result (λ v. v.items ≡ source_fault_text text.now number
        (line_flaw_name flaw) (flaw_span (profile_of version) (is_some bound) flaw)
        (flaw_limits (profile_of version) flaw)) }
{
    match numbered_line(text, number) {
        None => {
            let lines = bare_fault(alloc, number, flaw.name())?;
            Ok(lines)
        }
        Some(line) => {
            let profile = profile_of(version);
            let span = flaw_span(alloc, profile, bound.is_some(), flaw, line)?;
            let limits = flaw_limits(profile, flaw, line);
            let lines = marked_fault(alloc, number, flaw.name(), line, span, limits)?;
            Ok(lines)
        }
    }
}

/// What is said of a source that isn't assembled.
#[tactic(auto, using(crate::proofs::FaultLines::no_line, crate::proofs::FaultLines::some_line))]
fn asm_flaw_lines(alloc: Global, text: &[u8], flaw: AsmFlaw) -> Result<Vec<u8>, AllocError>
    ensures { IfOk result (λ v. v.items ≡ source_fault_text text.now (asm_flaw_line flaw)
        (asm_flaw_name flaw) (asm_flaw_span flaw) no_limits) }
{
    let number = flaw.line();
    match numbered_line(text, number) {
        None => {
            let lines = bare_fault(alloc, number, flaw.name())?;
            Ok(lines)
        }
        Some(line) => {
            let span = asm_flaw_span(flaw, line);
            let lines = marked_fault(alloc, number, flaw.name(), line, span, None)?;
            Ok(lines)
        }
    }
}

/// Parses the text as a source in the profile of the version; invariants may name the remaining
/// steps if there is a bound. Errors: the first fault.
pub(crate) fn source_in(
    alloc: Global,
    version: u32,
    bound: Option<u32>,
    text: &[u8],
) -> Result<Source, LineFault>
    requires short { length text.now ≤ MAX_SOURCE }
    ensures exact { ParsesSource source_view
        (parsed_source (profile_of version) (is_some bound) text.now) result }
    ensures spelled { IfOk result
        (λ s. IsSpelled (profile_of version) (is_some bound) (source_view s)) }
{
    match read_source(alloc, text, profile_of(version), bound.is_some()) {
        Ok(source) => Ok(source),
        Err(LineFault::At(number, flaw)) => Err(LineFault::At(number, flaw)),
        Err(LineFault::Memory) => Err(LineFault::Memory),
    }
}

/// The first line at which the source can't be assembled, if there is one.
fn asm_flaw(
    alloc: Global,
    version: u32,
    bound: Option<u32>,
    source: &Source,
) -> Result<Option<AsmFlaw>, AllocError>
    requires spelled { IsSpelled (profile_of version) (is_some bound) (source_view source.now) }
    requires version { IsVersion version }
    requires bound { IsBoundOf version bound }
    ensures { IfOk result (IsCodeAnswer (assembled_code (profile_of version)
        (source_view source.now))) }
{
    let policy = Policy::of(alloc, PolicyKind::Filter)?;
    match assemble(alloc, source, &policy, version, bound) {
        Ok(_) => Ok(None),
        Err(AsmFault::At(flaw)) => Ok(Some(flaw)),
        Err(AsmFault::Memory) => Err(AllocError),
    }
}

/// What is said of a source, by what it is assembled to.
#[tactic(auto, using(crate::proofs::Assembled::right_report, crate::proofs::Assembled::wrong_report))]
fn code_lines(
    alloc: Global,
    version: u32,
    bound: Option<u32>,
    text: &[u8],
    source: &Source,
) -> Result<Report, AllocError>
    requires spelled { IsSpelled (profile_of version) (is_some bound) (source_view source.now) }
    requires version { IsVersion version }
    requires bound { IsBoundOf version bound }
    ensures { IfOk result (λ r. (r.right, r.text.items) ≡ report_of_code text.now
        (source_view source.now) (assembled_code (profile_of version) (source_view source.now))) }
{
    match asm_flaw(alloc, version, bound, source)? {
        None => {
            let text = source_line(alloc, source)?;
            Ok(Report { right: true, text })
        }
        Some(flaw) => {
            let text = asm_flaw_lines(alloc, text, flaw)?;
            Ok(Report { right: false, text })
        }
    }
}

/// Returns a report on the source that `text` is, assembled in `version` of containers, 1 to 4,
/// with the step bound `bound`: how many instructions, labels and invariants it has.
///
/// Else the report has the first line that is wrong, numbered from 1, or 0 if there is no
/// instruction, and the kind of the fault, as `pcc asm` prints them. If the text has such a line,
/// the report shows the line, a byte that is neither a tab nor printable as `?`, and a mark under
/// what is wrong with it. That is the first token if it isn't a mnemonic; the first operand that
/// isn't a register or is out of its range (the mark's line repeats the token or operand, and has the
/// range); the place in a formula; the first byte that isn't printable; the label of a branch; and else the
/// first byte that isn't blank. The report is right if the source is assembled. No fault depends on
/// a policy.
///
/// `text` has at most `MAX_SOURCE` bytes, and `bound` is given exactly in version 3, from 1 to
/// `proof_container::MAX_BOUND`. The grammar is that of `asm_text::read_source`, and the faults are
/// those of `pcc_asm::assemble` too.
///
/// Errors: out of memory.
#[tactic(auto, using(crate::proofs::SourceSaid::said_source, crate::proofs::SourceSaid::said_flaw))]
pub fn source_lines(
    alloc: Global,
    version: u32,
    bound: Option<u32>,
    text: &[u8],
) -> Result<Report, AllocError>
    requires short { length text.now ≤ MAX_SOURCE }
    requires version { IsVersion version }
    requires bound { IsBoundOf version bound }
    ensures exact { IfOk result
        (λ r. (r.right, r.text.items) ≡ source_report version bound text.now) }
{
    match source_in(alloc, version, bound, text) {
        Ok(source) => {
            let report = code_lines(alloc, version, bound, text, &source)?;
            Ok(report)
        }
        Err(LineFault::At(number, flaw)) => {
            let text = flaw_lines(alloc, version, bound, text, number, flaw)?;
            Ok(Report { right: false, text })
        }
        Err(LineFault::Memory) => Err(AllocError),
    }
}
