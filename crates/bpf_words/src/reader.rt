//! Reading bytes as a program.

ghost use Rattle.std.specs.Prelude.{◌≡◌, ◌+◌, ◌*◌, ◌/◌, ◌<◌, ◌≤◌, length, Some, None, IfOk};
ghost use Rattle.bpf_words.specs.declared.insn.TheConstants.{MAX_PROGRAM};
ghost use Rattle.bpf_words.specs.Programs.{HasWidths, IsProgram};
ghost use Rattle.bpf_words.specs.Reading.{flaw_if, insn_at, insns_of, op_flaw, insn_flaw, flaw_from, return_flaw, first_flaw, HaveWidths, size_flaw, IsProgramRead};

use crate::fault::{BpfFault, BpfFlaw};
use crate::insn::{Bpf, BpfOp, LOADABLE, MAX_PROGRAM, bpf_op};
use std::alloc::{AllocError, Global};

/// The instruction of the `i`-th eight bytes.
fn insn_at(bytes: &[u8], i: usize) -> Bpf
    requires { 8 * i + 8 ≤ length bytes.now }
    ensures exact { result ≡ insn_at bytes.now i }
{
    let at = 8 * i;
    Bpf {
        code: u16::from_le_bytes([bytes[at], bytes[at + 1]]),
        jt: bytes[at + 2],
        jf: bytes[at + 3],
        k: u32::from_le_bytes([bytes[at + 4], bytes[at + 5], bytes[at + 6], bytes[at + 7]]),
    }
}

/// The instructions of bytes.
fn insns_of(alloc: Global, bytes: &[u8]) -> Result<Vec<Bpf>, AllocError>
    ensures exact { IfOk result (λ v. v.items ≡ insns_of bytes.now) }
{
    let mut insns = Vec::new(alloc);
    for i in 0..bytes.len() / 8 {
        insns.push(insn_at(bytes, i))?;
    }
    Ok(insns)
}

/// Returns the flaw if the test is true.
fn flaw_if(test: bool, flaw: BpfFlaw) -> Option<BpfFlaw>
    ensures exact { result ≡ flaw_if test flaw }
{
    if test { Some(flaw) } else { None }
}

/// What is wrong with the instruction at an index of `count`, by what it does.
fn op_flaw(count: usize, i: usize, insn: Bpf, op: BpfOp) -> Option<BpfFlaw>
    requires short { count ≤ MAX_PROGRAM }
    requires within { i < count }
    ensures exact { result ≡ op_flaw count i insn op }
{
    let k = insn.k as usize;
    let index = i as u64;
    match op {
        BpfOp::Ld => flaw_if(k + 4 > LOADABLE, BpfFlaw::Offset(index)),
        BpfOp::Ldh => flaw_if(k + 2 > LOADABLE, BpfFlaw::Offset(index)),
        BpfOp::Ldb => flaw_if(k + 1 > LOADABLE, BpfFlaw::Offset(index)),
        BpfOp::Rsh => flaw_if(k > 31, BpfFlaw::Shift(index)),
        BpfOp::Ja => flaw_if(i + 1 + k >= count, BpfFlaw::Jump(index)),
        BpfOp::Jump(_) => {
            let passes = i + 1 + insn.jt as usize >= count || i + 1 + insn.jf as usize >= count;
            flaw_if(passes, BpfFlaw::Jump(index))
        }
        _ => None,
    }
}

/// What is wrong with the instruction at an index of `count`.
fn insn_flaw(count: usize, i: usize, insn: Bpf) -> Option<BpfFlaw>
    requires short { count ≤ MAX_PROGRAM }
    requires within { i < count }
    ensures exact { result ≡ insn_flaw count i insn }
    ensures widths { HasWidths insn }
{
    match bpf_op(insn.code) {
        Some(op) => op_flaw(count, i, insn, op),
        None => Some(BpfFlaw::Opcode(i as u64)),
    }
}

/// The first flaw of instructions, but for what the last one does.
fn flaw_of(insns: &[Bpf]) -> Option<BpfFlaw>
    requires short { length insns.now ≤ MAX_PROGRAM }
    ensures exact { result ≡ flaw_from (length insns.now) 0 insns.now }
    ensures widths { result ≡ None → HaveWidths insns.now }
{
    for i in 0..insns.len() {
        let flaw = insn_flaw(insns.len(), i, insns[i]);
        if flaw.is_some() {
            return flaw;
        }
    }
    None
}

/// That the last instruction, at this index, doesn't return.
fn return_flaw(i: usize, insn: Bpf) -> Option<BpfFlaw>
    ensures exact { result ≡ return_flaw i (Some insn) }
{
    match bpf_op(insn.code) {
        Some(BpfOp::Ret) => None,
        Some(BpfOp::RetA) => None,
        _ => Some(BpfFlaw::NoReturn(i as u64)),
    }
}

/// The first flaw of instructions.
fn first_flaw(insns: &[Bpf]) -> Option<BpfFlaw>
    requires short { length insns.now ≤ MAX_PROGRAM }
    requires some { 0 < length insns.now }
    ensures exact { result ≡ first_flaw insns.now }
    ensures program { result ≡ None → IsProgram insns.now }
{
    match flaw_of(insns) {
        Some(flaw) => Some(flaw),
        None => return_flaw(insns.len() - 1, insns[insns.len() - 1]),
    }
}

/// What is wrong with a length in bytes.
fn size_flaw(size: usize) -> Option<BpfFlaw>
    ensures exact { result ≡ size_flaw size }
    ensures some { result ≡ None → 0 < size / 8 }
    ensures few { result ≡ None → size / 8 ≤ MAX_PROGRAM }
{
    if size == 0 {
        return Some(BpfFlaw::Size(size as u64));
    }
    if size % 8 != 0 {
        return Some(BpfFlaw::Size(size as u64));
    }
    flaw_if(size / 8 > MAX_PROGRAM, BpfFlaw::Count((size / 8) as u64))
}

/// Returns the program that the bytes encode: eight bytes for each instruction, `code` (two bytes,
/// little-endian), `jt`, `jf` and `k` (four bytes, little-endian). Fields that an instruction
/// doesn't use aren't checked.
///
/// Errors, the first that holds: the length is 0 or not a multiple of eight; there are more than
/// `MAX_PROGRAM` instructions; an instruction (the one with the least index) has a code that no
/// instruction has, loads past the first `LOADABLE` bytes, shifts by more than 31, or jumps past
/// the last instruction; the last instruction doesn't return. Or out of memory.
///
/// Source: McCanne and Jacobson, The BSD Packet Filter, USENIX 1993, section 3.
pub fn read_bpf(alloc: Global, bytes: &[u8]) -> Result<Vec<Bpf>, BpfFault>
    ensures exact { IsProgramRead bytes.now result }
    ensures program { IfOk result (λ v. IsProgram v.items) }
{
    if let Some(flaw) = size_flaw(bytes.len()) {
        return Err(BpfFault::At(flaw));
    }
    let insns = insns_of(alloc, bytes)?;
    match first_flaw(&insns) {
        Some(flaw) => Err(BpfFault::At(flaw)),
        None => Ok(insns),
    }
}
