//! Generating the code of a program, block by block.

ghost use Rattle.std.specs.Prelude.{◌≡◌, ◌+◌, ◌-◌, ◌*◌, ◌<◌, ◌≤◌, ◌++◌, ◌∷◌, [], length, replicate, slice_get, Some, IfOk, OnOk};
ghost use Rattle.alpha_words.specs.declared.insn.Insn.TheVariants as words;
ghost use Rattle.bpf_words.specs.declared.insn.BpfOp.TheVariants as ops;
ghost use Rattle.bpf_words.specs.declared.insn.TheConstants.{MAX_PROGRAM};
ghost use Rattle.bpf_words.specs.Programs.{bpf_op, IsInBounds, IsProgram, IsSoundAt};
ghost use Rattle.bpf_code.specs.declared.blocks.TheConstants.{BLOCK};
ghost use Rattle.bpf_code.specs.Blocks.{block_of, bpf_code, branch_pair, constant_code, end_code, filled, block_code, load_code, straight_code};
ghost use Rattle.bpf_code.specs.Inside.Bounds.{KeepsTo};

use crate::words::{
    by_literal, by_register, byte_code, constant_code, load_quad, quad_reg, test_code,
};
use alpha_words::{Cond, Insn, Reg, Rhs};
use bpf_words::{Bpf, BpfOp, bpf_op};
use std::alloc::{AllocError, Global};
use word_ops::Op;

/// The number of words in a block.
pub const BLOCK: usize = 20;

/// Adds a word.
fn push_word(code: &mut Vec<Insn>, word: Insn) -> Result<(), AllocError>
    ensures exact { OnOk result (code.new.items ≡ code.old.items ++ word ∷ []) }
{
    let _no_operand: Option<Rhs> = None; // names the type for the prover
    code.push(word)?;
    Ok(())
}

/// Adds the words that load `last + 1` bytes of the packet at `k` into A.
fn push_load(code: &mut Vec<Insn>, k: u32, last: u32) -> Result<(), AllocError>
    requires few { last ≤ 3 }
    requires inside { k + last < 64 }
    ensures exact { OnOk result (code.new.items ≡ code.old.items ++ load_code k last) }
{
    push_word(code, load_quad(2, k / 8))?;
    push_word(code, load_quad(3, (k + last) / 8))?;
    for n in 0..last + 1 {
        code.extend_from_slice(&byte_code(n, quad_reg(k, n), (k + n) % 8))?;
    }
    Ok(())
}

/// Adds the words that bring `k` into register 5, and one that makes of it and A what is wanted.
fn push_with_constant(code: &mut Vec<Insn>, k: u32, word: Insn) -> Result<(), AllocError>
    ensures exact { OnOk result
        (code.new.items ≡ code.old.items ++ (constant_code 5 k ++ word ∷ [])) }
{
    code.extend_from_slice(&constant_code(5, k))?;
    push_word(code, word)?;
    Ok(())
}

/// Adds the words that add `k` to A, modulo 2^32.
fn push_sum(code: &mut Vec<Insn>, k: u32) -> Result<(), AllocError>
    ensures exact { OnOk result
        (code.new.items ≡ code.old.items ++ straight_code ops.Add k) }
{
    push_with_constant(code, k, by_register(Op::Add, 1, 5, 1))?;
    push_word(code, by_literal(Op::Sll, 1, 32, 1))?;
    push_word(code, by_literal(Op::Srl, 1, 32, 1))?;
    Ok(())
}

/// Adds the words that bring `k` into A.
fn push_constant(code: &mut Vec<Insn>, k: u32) -> Result<(), AllocError>
    ensures exact { OnOk result (code.new.items ≡ code.old.items ++ constant_code 1 k) }
{
    code.extend_from_slice(&constant_code(1, k))?;
    Ok(())
}

/// Adds what a block computes before it ends.
fn push_straight(code: &mut Vec<Insn>, op: BpfOp, k: u32) -> Result<(), AllocError>
    requires { KeepsTo op k }
    ensures exact { OnOk result (code.new.items ≡ code.old.items ++ straight_code op k) }
{
    match op {
        BpfOp::Ld => push_load(code, k, 3),
        BpfOp::Ldh => push_load(code, k, 1),
        BpfOp::Ldb => push_load(code, k, 0),
        BpfOp::LdImm => push_constant(code, k),
        BpfOp::Add => push_sum(code, k),
        BpfOp::Or => push_with_constant(code, k, by_register(Op::Bis, 1, 5, 1)),
        BpfOp::And => push_with_constant(code, k, by_register(Op::Band, 1, 5, 1)),
        BpfOp::Rsh => push_word(code, by_literal(Op::Srl, 1, k as u8, 1)),
        BpfOp::Ja => push_word(code, by_literal(Op::Add, 31, 0, 6)),
        BpfOp::Jump(test) => push_with_constant(code, k, test_code(test)),
        BpfOp::Ret => push_word(code, by_literal(Op::Add, 31, if k == 0 { 0 } else { 1 }, 0)),
        BpfOp::RetA => push_word(code, by_register(Op::Cmpult, 31, 1, 0)),
    }
}

/// Appends two branches: to block `i` if register 6 isn't 0, else to block `j`.
fn push_branches(code: &mut Vec<Insn>, i: usize, j: usize) -> Result<(), AllocError>
    requires far { i ≤ MAX_PROGRAM }
    requires near { j ≤ MAX_PROGRAM }
    requires ahead { length code.now.items + 1 ≤ BLOCK * i }
    requires over { length code.now.items + 2 ≤ BLOCK * j }
    ensures exact { OnOk result
        (code.new.items ≡ code.old.items ++ branch_pair (length code.old.items) i j) }
{
    let at = code.len();
    let taken = (BLOCK * i - (at + 1)) as i32;
    let passed = (BLOCK * j - (at + 2)) as i32;
    push_word(
        code,
        Insn::Branch {
            cond: Cond::NotZero,
            ra: Reg::new(6),
            disp: taken,
        },
    )?;
    push_word(code, Insn::Br { disp: passed })?;
    Ok(())
}

/// Adds the last words of block `i`.
fn push_end(code: &mut Vec<Insn>, i: usize, insn: Bpf, op: BpfOp) -> Result<(), AllocError>
    requires early { i < MAX_PROGRAM }
    requires bounds { IsInBounds MAX_PROGRAM i insn op }
    requires place { length code.now.items ≤ BLOCK * i + 18 }
    ensures exact { OnOk result
        (code.new.items ≡ code.old.items ++ end_code (length code.old.items) i insn op) }
{
    match op {
        BpfOp::Ret | BpfOp::RetA => push_returns(code),
        BpfOp::Ja => {
            let to = i + 1 + insn.k as usize;
            push_branches(code, to, to)
        }
        BpfOp::Jump(_) => {
            push_branches(code, i + 1 + insn.jt as usize, i + 1 + insn.jf as usize)
        }
        _ => push_branches(code, i + 1, i + 1),
    }
}

/// Adds two returns.
fn push_returns(code: &mut Vec<Insn>) -> Result<(), AllocError>
    ensures exact { OnOk result
        (code.new.items ≡ code.old.items ++ words.Ret ∷ words.Ret ∷ []) }
{
    push_word(code, Insn::Ret)?;
    push_word(code, Insn::Ret)?;
    Ok(())
}

/// Adds so many words that nothing leads to.
fn fill(code: &mut Vec<Insn>, count: usize) -> Result<(), AllocError>
    ensures exact { OnOk result
        (code.new.items ≡ code.old.items ++ replicate count words.Ret) }
{
    for _ in 0..count {
        push_word(code, Insn::Ret)?;
    }
    Ok(())
}

/// Adds block `i`, given what the code of its instruction says.
fn push_words(code: &mut Vec<Insn>, i: usize, insn: Bpf, op: BpfOp) -> Result<(), AllocError>
    requires early { i < MAX_PROGRAM }
    requires bounds { IsInBounds MAX_PROGRAM i insn op }
    requires keeps { KeepsTo op insn.k }
    requires place { length code.now.items ≡ BLOCK * i }
    ensures exact { OnOk result
        (code.new.items ≡ code.old.items ++ filled BLOCK (block_code i insn op)) }
{
    push_straight(code, op, insn.k)?;
    push_end(code, i, insn, op)?;
    fill(code, BLOCK * (i + 1) - code.len())
}

/// Adds the block of the instruction at an index of a program.
fn push_block(code: &mut Vec<Insn>, program: &[Bpf], i: usize) -> Result<(), AllocError>
    requires program { IsProgram program.now }
    requires within { i < length program.now }
    requires place { length code.now.items ≡ BLOCK * i }
    ensures exact { (insn : Bpf) → slice_get program.now i ≡ Some insn → OnOk result
        (code.new.items ≡ code.old.items ++ block_of i insn (bpf_op insn.code)) }
{
    let insn = program[i];
    match bpf_op(insn.code) {
        Some(op) => push_words(code, i, insn, op),
        None => unreachable!(),
    }
}

/// Returns the code of a program: a block of `BLOCK` words for each instruction.
///
/// Errors: out of memory.
pub fn bpf_code(alloc: Global, program: &[Bpf]) -> Result<Vec<Insn>, AllocError>
    requires program { IsProgram program.now }
    ensures exact { IfOk result (λ v. v.items ≡ bpf_code program.now) }
{
    let mut code = Vec::new(alloc);
    for i in 0..program.len() {
        push_block(&mut code, program, i)?;
    }
    Ok(code)
}
