//! Instructions.

use crate::operators::{AluOp, Scale, ShiftOp, X86Cond};
use crate::reg::X86Reg;

/// An instruction of the subset. `[base + disp]` is the quadword at the sum of a register and a
/// displacement in bytes; jumps count bytes from the next instruction. Immediates and displacements
/// are sign-extended if their type is signed. The value is an instruction of the processor only if
/// its base may be one (`X86Reg::is_base`), its index isn't rsp, and its count is below 64
/// (`has_operands`).
#[derive(Clone, Copy, Debug, PartialEq, Eq)]
pub enum X86Insn {
    /// `mov to,from`: `to := from`.
    Mov {
        to: X86Reg,
        from: X86Reg,
    },
    /// `mov to,imm`: `to := imm`, sign-extended.
    MovImm {
        to: X86Reg,
        imm: i32,
    },
    /// `mov to32,imm`: `to := imm`, zero-extended.
    MovZero {
        to: X86Reg,
        imm: u32,
    },
    /// `movabs to,imm`: `to := imm`.
    MovAbs {
        to: X86Reg,
        imm: u64,
    },
    /// `mov to,[base+disp]`: `to :=` the quadword.
    Load {
        to: X86Reg,
        base: X86Reg,
        disp: i32,
    },
    /// `mov [base+disp],from`: the quadword `:= from`.
    Store {
        base: X86Reg,
        disp: i32,
        from: X86Reg,
    },
    /// `op to,from`: `to := to op from`, and the flags of that.
    Alu {
        op: AluOp,
        to: X86Reg,
        from: X86Reg,
    },
    /// `op to,imm`: `to := to op imm`, and the flags of that.
    AluImm {
        op: AluOp,
        to: X86Reg,
        imm: i32,
    },
    /// `op to,[base+disp]`: `to := to op` the quadword, and the flags of that.
    AluLoad {
        op: AluOp,
        to: X86Reg,
        base: X86Reg,
        disp: i32,
    },
    /// `lea to,[base+disp]`: `to := base + disp`.
    Lea {
        to: X86Reg,
        base: X86Reg,
        disp: i32,
    },
    /// `lea to,[base+index*scale]`: `to := base + index * scale`.
    LeaScaled {
        to: X86Reg,
        base: X86Reg,
        index: X86Reg,
        scale: Scale,
    },
    /// `op to,count`: shifts `to`; the flags are undefined.
    ShiftImm {
        op: ShiftOp,
        to: X86Reg,
        count: u8,
    },
    /// `op to,cl`: shifts `to` by rcx modulo 64; the flags are undefined.
    ShiftCl {
        op: ShiftOp,
        to: X86Reg,
    },
    /// `not to`: complements each bit of `to`.
    Not {
        to: X86Reg,
    },
    /// `test left,right`: the flags of the bitwise and.
    Test {
        left: X86Reg,
        right: X86Reg,
    },
    /// `test left,imm`: the flags of the bitwise and.
    TestImm {
        left: X86Reg,
        imm: i32,
    },
    /// `setCOND to8`: the low byte of `to` is 1 if the condition holds, else 0; the rest stays.
    Set {
        cond: X86Cond,
        to: X86Reg,
    },
    /// `movzx to32,from8`: `to :=` the low byte of `from`.
    MovByte {
        to: X86Reg,
        from: X86Reg,
    },
    /// `movzx to32,from16`: `to :=` the low two bytes of `from`.
    MovTwo {
        to: X86Reg,
        from: X86Reg,
    },
    /// `mov to32,from32`: `to :=` the low four bytes of `from`.
    MovFour {
        to: X86Reg,
        from: X86Reg,
    },
    /// `jCOND disp`: jumps if the condition holds.
    JumpIf {
        cond: X86Cond,
        disp: i32,
    },
    /// `jmp disp`: jumps.
    Jump {
        disp: i32,
    },
    /// `ret`: ends the run.
    Ret,
    /// `nop`, of one byte: does nothing. Loop heads are aligned with it.
    Nop,
}
