//! Words of blocks, as text.

use alpha_words::{Insn, Rhs};
use bpf_code::BLOCK;
use std::alloc::{AllocError, Global};

/// The second operand.
fn operand_text(alloc: Global, rhs: Rhs) -> Result<String, AllocError> {
    match rhs {
        Rhs::Lit(n) => format!(in alloc; "#{n}"),
        Rhs::Reg(rb) => {
            let number = rb.number();
            format!(in alloc; "r{number}")
        }
    }
}

/// A word: what it does, what it reads and what it writes.
fn word_text(alloc: Global, insn: Insn) -> Result<String, AllocError> {
    match insn {
        Insn::Ldq { ra, rb, disp } => {
            let to = ra.number();
            let base = rb.number();
            format!(in alloc; "Ldq {disp} r{base} r{to}")
        }
        Insn::Oper { op, ra, rhs, rc } => {
            let from = ra.number();
            let to = rc.number();
            let operand = operand_text(alloc, rhs)?;
            format!(in alloc; "{op:?} r{from} {operand} r{to}")
        }
        Insn::Branch { cond, ra, disp } => {
            let tested = ra.number();
            format!(in alloc; "{cond:?} r{tested} {disp}")
        }
        Insn::Br { disp } => format!(in alloc; "Br {disp}"),
        Insn::Ret => format!(in alloc; "Ret"),
        _ => format!(in alloc; "other"),
    }
}

/// Appends a word, behind a semicolon where it isn't the first.
fn push_word(alloc: Global, text: &mut String, insn: Insn) -> Result<(), AllocError> {
    if !text.is_empty() {
        text.push_str("; ")?;
    }
    let word = word_text(alloc, insn)?;
    text.push_str(word.as_str())
}

/// Returns the words of the block at an index, separated by semicolons.
pub fn words_text(alloc: Global, code: &[Insn], index: usize) -> Result<String, AllocError> {
    let mut text = String::new(alloc);
    for insn in code.iter().skip(index.saturating_mul(BLOCK)).take(BLOCK) {
        push_word(alloc, &mut text, *insn)?;
    }
    Ok(text)
}
