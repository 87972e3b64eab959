//! Sets of registers 0 to 30, as the bits of a word. Register 31 is in none.

use alpha_words::{Insn, Reg, Rhs};
use std::alloc::{AllocError, Global};

/// Returns the set of one register.
pub(crate) fn bit(register: u32) -> u32 {
    if register < 31 { 1 << register } else { 0 }
}

/// Returns whether the set has the register.
pub(crate) fn has(set: u32, register: u32) -> bool {
    set & bit(register) != 0
}

/// Returns the set of one register of an instruction.
fn bit_of(register: &Reg) -> u32 {
    bit(register.number())
}

/// Returns the register of a second operand.
fn bit_of_rhs(rhs: &Rhs) -> u32 {
    match rhs {
        Rhs::Reg(register) => bit_of(register),
        Rhs::Lit(_) => 0,
    }
}

/// Returns the registers that the instruction reads; of `ret` the result.
pub(crate) fn reads(insn: &Insn) -> u32 {
    match insn {
        Insn::Lda { rb, .. } | Insn::Ldah { rb, .. } => bit_of(rb),
        Insn::Ldq { rb, .. } | Insn::LdqU { rb, .. } => bit_of(rb),
        Insn::Stq { ra, rb, .. } => bit_of(ra) | bit_of(rb),
        Insn::Oper { ra, rhs, .. } => bit_of(ra) | bit_of_rhs(rhs),
        Insn::Branch { ra, .. } => bit_of(ra),
        Insn::Br { .. } => 0,
        Insn::Ret => 1,
    }
}

/// Returns the register that the instruction writes.
pub(crate) fn writes(insn: &Insn) -> u32 {
    match insn {
        Insn::Lda { ra, .. } | Insn::Ldah { ra, .. } => bit_of(ra),
        Insn::Ldq { ra, .. } | Insn::LdqU { ra, .. } => bit_of(ra),
        Insn::Oper { rc, .. } => bit_of(rc),
        Insn::Stq { .. } | Insn::Branch { .. } | Insn::Br { .. } | Insn::Ret => 0,
    }
}

/// Lists the first `most` registers of the set, from the lowest.
///
/// Errors: out of memory.
pub(crate) fn listed(alloc: Global, set: u32, most: usize) -> Result<Vec<u32>, AllocError> {
    let mut registers = Vec::new(alloc);
    for register in 0..31u32 {
        if has(set, register) && registers.len() < most {
            registers.push(register)?;
        }
    }
    Ok(registers)
}
