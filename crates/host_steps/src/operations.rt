//! Predecoded code: an operation for each instruction, its operator and kind of operand in one tag.

ghost use Rattle.std.specs.Prelude.{◌≡◌, ◌<◌, length, IfOk};
ghost use Rattle.host_steps.specs.Operations.{IsWriteAt, IsBranchAt};
ghost use Rattle.host_steps.specs.Operations.{IsOperationAt, AreOperations};

use alpha_cfg::Code;
use alpha_words::{Cond, Insn, Reg, Rhs};
use std::alloc::{AllocError, Global};
use word_ops::Op;

/// A predecoded instruction. An operator of profile 1 has one operation for a register as its
/// second operand, and one, `..Lit`, for a literal; the other operators share `Oper` and `OperLit`.
/// `to` is the index that a branch leads to. No operation writes register 31.
#[derive(Clone, Copy)]
pub enum Operation {
    /// `ra := rb + disp`.
    Lda { ra: Reg, rb: Reg, disp: i16 },
    /// `ra :=` the quadword at `rb + disp`.
    Ldq { ra: Reg, rb: Reg, disp: i16 },
    /// `ra := rb + 65536 * disp`.
    Ldah { ra: Reg, rb: Reg, disp: i16 },
    /// `ra :=` the quadword that holds the byte at `rb + disp`.
    LdqU { ra: Reg, rb: Reg, disp: i16 },
    /// The quadword at `rb + disp := ra`.
    Stq { ra: Reg, rb: Reg, disp: i16 },
    /// `rc := ra + rb`.
    Add { ra: Reg, rb: Reg, rc: Reg },
    /// `rc := ra - rb`.
    Sub { ra: Reg, rb: Reg, rc: Reg },
    /// `rc := ra and rb`, bitwise.
    Band { ra: Reg, rb: Reg, rc: Reg },
    /// `rc := ra or rb`, bitwise.
    Bis { ra: Reg, rb: Reg, rc: Reg },
    /// `rc := ra` shifted to the left by `rb`.
    Sll { ra: Reg, rb: Reg, rc: Reg },
    /// `rc := ra` shifted to the right by `rb`.
    Srl { ra: Reg, rb: Reg, rc: Reg },
    /// `rc :=` 1 if `ra = rb`, else 0.
    Cmpeq { ra: Reg, rb: Reg, rc: Reg },
    /// `rc :=` 1 if `ra < rb`, signed, else 0.
    Cmplt { ra: Reg, rb: Reg, rc: Reg },
    /// `rc :=` 1 if `ra ≤ rb`, signed, else 0.
    Cmple { ra: Reg, rb: Reg, rc: Reg },
    /// `rc :=` 1 if `ra < rb`, unsigned, else 0.
    Cmpult { ra: Reg, rb: Reg, rc: Reg },
    /// `rc :=` 1 if `ra ≤ rb`, unsigned, else 0.
    Cmpule { ra: Reg, rb: Reg, rc: Reg },
    /// `rc :=` the operator's result for `ra` and `rb`.
    Oper { op: Op, ra: Reg, rb: Reg, rc: Reg },
    /// `rc := ra + lit`.
    AddLit { ra: Reg, lit: u8, rc: Reg },
    /// `rc := ra - lit`.
    SubLit { ra: Reg, lit: u8, rc: Reg },
    /// `rc := ra and lit`, bitwise.
    BandLit { ra: Reg, lit: u8, rc: Reg },
    /// `rc := ra or lit`, bitwise.
    BisLit { ra: Reg, lit: u8, rc: Reg },
    /// `rc := ra` shifted to the left by `lit`.
    SllLit { ra: Reg, lit: u8, rc: Reg },
    /// `rc := ra` shifted to the right by `lit`.
    SrlLit { ra: Reg, lit: u8, rc: Reg },
    /// `rc :=` 1 if `ra = lit`, else 0.
    CmpeqLit { ra: Reg, lit: u8, rc: Reg },
    /// `rc :=` 1 if `ra < lit`, signed, else 0.
    CmpltLit { ra: Reg, lit: u8, rc: Reg },
    /// `rc :=` 1 if `ra ≤ lit`, signed, else 0.
    CmpleLit { ra: Reg, lit: u8, rc: Reg },
    /// `rc :=` 1 if `ra < lit`, unsigned, else 0.
    CmpultLit { ra: Reg, lit: u8, rc: Reg },
    /// `rc :=` 1 if `ra ≤ lit`, unsigned, else 0.
    CmpuleLit { ra: Reg, lit: u8, rc: Reg },
    /// `rc :=` the operator's result for `ra` and `lit`.
    OperLit { op: Op, ra: Reg, lit: u8, rc: Reg },
    /// Branches to `to` if the lowest bit of `ra` is 0.
    Blbc { ra: Reg, to: u32 },
    /// Branches to `to` if `ra = 0`.
    Beq { ra: Reg, to: u32 },
    /// Branches to `to` if `ra < 0`, signed.
    Blt { ra: Reg, to: u32 },
    /// Branches to `to` if `ra ≤ 0`, signed.
    Ble { ra: Reg, to: u32 },
    /// Branches to `to` if the lowest bit of `ra` is 1.
    Blbs { ra: Reg, to: u32 },
    /// Branches to `to` if `ra` isn't 0.
    Bne { ra: Reg, to: u32 },
    /// Branches to `to` if `ra ≥ 0`, signed.
    Bge { ra: Reg, to: u32 },
    /// Branches to `to` if `ra > 0`, signed.
    Bgt { ra: Reg, to: u32 },
    /// Branches to `to`.
    Br { to: u32 },
    /// Returns, which ends the run.
    Ret,
    /// Does nothing but go on to the next instruction: the instruction would write register 31.
    Next,
}

const _: () = prove!(size_of::<Operation>() == 16);

/// The operation of an operate instruction at an index, with two registers.
fn by_register(code: &Code, i: u32, op: Op, ra: Reg, rb: Reg, rc: Reg) -> Operation
    requires { IsWriteAt code.now i (Insn.Oper op ra (Rhs.Reg rb) rc) rc }
    ensures { IsOperationAt code.now i result }
{
    match &op {
        Op::Add => Operation::Add { ra, rb, rc },
        Op::Sub => Operation::Sub { ra, rb, rc },
        Op::Band => Operation::Band { ra, rb, rc },
        Op::Bis => Operation::Bis { ra, rb, rc },
        Op::Sll => Operation::Sll { ra, rb, rc },
        Op::Srl => Operation::Srl { ra, rb, rc },
        Op::Cmpeq => Operation::Cmpeq { ra, rb, rc },
        Op::Cmplt => Operation::Cmplt { ra, rb, rc },
        Op::Cmple => Operation::Cmple { ra, rb, rc },
        Op::Cmpult => Operation::Cmpult { ra, rb, rc },
        Op::Cmpule => Operation::Cmpule { ra, rb, rc },
        _ => Operation::Oper { op, ra, rb, rc },
    }
}

/// The operation of an operate instruction at an index, with a literal.
fn by_literal(code: &Code, i: u32, op: Op, ra: Reg, lit: u8, rc: Reg) -> Operation
    requires { IsWriteAt code.now i (Insn.Oper op ra (Rhs.Lit lit) rc) rc }
    ensures { IsOperationAt code.now i result }
{
    match &op {
        Op::Add => Operation::AddLit { ra, lit, rc },
        Op::Sub => Operation::SubLit { ra, lit, rc },
        Op::Band => Operation::BandLit { ra, lit, rc },
        Op::Bis => Operation::BisLit { ra, lit, rc },
        Op::Sll => Operation::SllLit { ra, lit, rc },
        Op::Srl => Operation::SrlLit { ra, lit, rc },
        Op::Cmpeq => Operation::CmpeqLit { ra, lit, rc },
        Op::Cmplt => Operation::CmpltLit { ra, lit, rc },
        Op::Cmple => Operation::CmpleLit { ra, lit, rc },
        Op::Cmpult => Operation::CmpultLit { ra, lit, rc },
        Op::Cmpule => Operation::CmpuleLit { ra, lit, rc },
        _ => Operation::OperLit { op, ra, lit, rc },
    }
}

/// The operation of a conditional branch at an index, which leads to `to`.
fn by_condition(code: &Code, i: u32, cond: Cond, ra: Reg, to: u32) -> Operation
    requires { IsBranchAt code.now i cond ra to }
    ensures { IsOperationAt code.now i result }
{
    match cond {
        Cond::LowClear => Operation::Blbc { ra, to },
        Cond::Zero => Operation::Beq { ra, to },
        Cond::Negative => Operation::Blt { ra, to },
        Cond::NotPositive => Operation::Ble { ra, to },
        Cond::LowSet => Operation::Blbs { ra, to },
        Cond::NotZero => Operation::Bne { ra, to },
        Cond::NotNegative => Operation::Bge { ra, to },
        Cond::Positive => Operation::Bgt { ra, to },
    }
}

/// The operation of the instruction at an index.
fn operation_of(code: &Code, i: u32) -> Operation
    requires { i < length code.now }
    ensures { IsOperationAt code.now i result }
{
    let _ = code.count(); // tells the prover that this is code
    let insn = code.insn(i);
    match insn {
        Insn::Lda { ra, rb, disp } => {
            if ra.number() == 31 {
                Operation::Next
            } else {
                Operation::Lda { ra, rb, disp }
            }
        }
        Insn::Ldq { ra, rb, disp } => Operation::Ldq { ra, rb, disp },
        Insn::Ldah { ra, rb, disp } => {
            if ra.number() == 31 {
                Operation::Next
            } else {
                Operation::Ldah { ra, rb, disp }
            }
        }
        Insn::LdqU { ra, rb, disp } => Operation::LdqU { ra, rb, disp },
        Insn::Stq { ra, rb, disp } => Operation::Stq { ra, rb, disp },
        Insn::Oper { op, ra, rhs, rc } => {
            if rc.number() == 31 {
                return Operation::Next;
            }
            match rhs {
                Rhs::Reg(rb) => by_register(code, i, op, ra, rb, rc),
                Rhs::Lit(lit) => by_literal(code, i, op, ra, lit, rc),
            }
        }
        Insn::Branch { cond, ra, .. } => by_condition(code, i, cond, ra, code.jump(i, &insn)),
        Insn::Br { .. } => Operation::Br {
            to: code.jump(i, &insn),
        },
        Insn::Ret => Operation::Ret,
    }
}

/// Returns the operations of `code`, one for each instruction, in order.
///
/// Errors: out of memory.
pub fn operations_of(alloc: Global, code: &Code) -> Result<Vec<Operation>, AllocError>
    ensures { IfOk result (λ operations. AreOperations code.now operations.items) }
{
    let mut operations = Vec::new(alloc);
    for i in 0..code.count() {
        operations.push(operation_of(code, i))?;
    }
    Ok(operations)
}
