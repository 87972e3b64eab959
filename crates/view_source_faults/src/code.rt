//! The code that a text spells as a source.

ghost use Rattle.std.specs.Prelude.{◌≡◌, ◌≤◌, length, map, is_some, IfOk};
ghost use Rattle.proof_container.specs.Versions.{profile_of, IsVersion, IsBoundOf};
ghost use Rattle.asm_text.specs.declared.limits.TheConstants.{MAX_SOURCE};
ghost use Rattle.asm_text.specs.Views.{source_view};
ghost use Rattle.pcc_asm.specs.Assembling.{assembled_code};
ghost use Rattle.pcc_asm.specs.Views.{IsSpelled};
ghost use Rattle.view_source_faults.specs.SourceCode.{lines_and_code, source_code};
ghost use Rattle.view_source_faults.specs.Answers.{IsSourceCode};

use crate::sources::source_in;
use asm_text::{LineFault, LineFlaw, Source, SrcInsn};
use pcc_asm::{AsmFault, AsmFlaw, Assembled, assemble};
use policy_set::{Policy, PolicyKind};
use std::alloc::{AllocError, Global};
use thiserror::Error;

/// The code of a source.
#[derive(Debug, PartialEq, Eq, Drop)]
pub struct SourceCode {
    /// The line of each instruction, from 1.
    pub lines: Vec<u32>,
    /// The bytes of the instruction words, four each, in the order of a container.
    pub code: Vec<u8>,
}

/// Why a text has no code.
#[derive(Clone, Copy, Debug, PartialEq, Eq, Error)]
pub enum CodeFault {
    /// The first line that is wrong, and what is wrong with it.
    #[error("line {0}: {1}")]
    Line(u32, LineFlaw),
    /// The first line that can't be assembled.
    #[error("{0}")]
    Assembling(AsmFlaw),
    /// There was no memory; this says nothing about the text.
    #[error("out of memory")]
    Memory,
}

/// The numbers of the lines of instructions.
fn line_numbers(alloc: Global, insns: &[(u32, SrcInsn)]) -> Result<Vec<u32>, AllocError>
    ensures { IfOk result (λ lines. lines.items ≡ map (λ insn. insn.0) insns.now) }
{
    let mut lines = Vec::new(alloc);
    for (line, _) in insns {
        lines.push(*line)?;
    }
    Ok(lines)
}

/// The lines of a source, and the code that it is assembled to. Errors: out of memory.
fn lines_and_code(
    alloc: Global,
    source: &Source,
    assembled: &Assembled,
) -> Result<SourceCode, AllocError>
    ensures { IfOk result (λ s. (s.lines.items ≡ map (λ insn. insn.0) source.now.insns.items)
        × (s.code.items ≡ assembled.now.code)) }
{
    let lines = line_numbers(alloc, &source.insns)?;
    let mut code = Vec::new(alloc);
    code.extend_from_slice(assembled.view().code)?;
    Ok(SourceCode { lines, code })
}

/// The code of a source that was parsed.
#[tactic(auto, using(crate::proofs::Codes::code_told, crate::proofs::Codes::flaw_told))]
fn code_of(
    alloc: Global,
    version: u32,
    bound: Option<u32>,
    source: &Source,
) -> Result<SourceCode, CodeFault>
    requires spelled { IsSpelled (profile_of version) (is_some bound) (source_view source.now) }
    requires version { IsVersion version }
    requires bound { IsBoundOf version bound }
    ensures { let s = source_view source.now in
        IsSourceCode (lines_and_code s (assembled_code (profile_of version) s)) result }
{
    let Ok(policy) = Policy::of(alloc, PolicyKind::Filter) else {
        return Err(CodeFault::Memory);
    };
    match assemble(alloc, source, &policy, version, bound) {
        Ok(assembled) => match lines_and_code(alloc, source, &assembled) {
            Ok(code) => Ok(code),
            Err(_) => Err(CodeFault::Memory),
        },
        Err(AsmFault::At(flaw)) => Err(CodeFault::Assembling(flaw)),
        Err(AsmFault::Memory) => Err(CodeFault::Memory),
    }
}

/// Returns the code that `text` spells as a source in `version` of containers, 1 to 4, with the step
/// bound `bound`, and the line of each of its instructions. No code depends on a policy.
///
/// `text` has at most `MAX_SOURCE` bytes, and `bound` is given exactly in version 3, from 1 to
/// `proof_container::MAX_BOUND`.
///
/// Errors: `Line` and `Assembling` name the first line that is wrong, as `source_lines` does.
/// `Memory` says nothing about `text`.
#[tactic(auto, unfolding(crate::specs::SourceCode::source_code))]
pub fn source_code(
    alloc: Global,
    version: u32,
    bound: Option<u32>,
    text: &[u8],
) -> Result<SourceCode, CodeFault>
    requires short { length text.now ≤ MAX_SOURCE }
    requires version { IsVersion version }
    requires bound { IsBoundOf version bound }
    ensures exact { IsSourceCode (source_code version bound text.now) result }
{
    match source_in(alloc, version, bound, text) {
        Ok(source) => code_of(alloc, version, bound, &source),
        Err(LineFault::At(line, flaw)) => Err(CodeFault::Line(line, flaw)),
        Err(LineFault::Memory) => Err(CodeFault::Memory),
    }
}
