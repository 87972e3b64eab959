//! Encoding of instructions as bytes.

ghost use Rattle.std.specs.Prelude.{◌≡◌, ◌+◌, ◌<◌, ◌++◌, [], ◌∷◌, List, length, if◌then◌else◌, is_ok};
ghost use Rattle.std.specs.Int.{to_le_bytes, w32, w64};
ghost use Rattle.x86_words.specs.Encoding as encoding;

use crate::bytes::InsnBytes;
use crate::insn::X86Insn;
use crate::operators::Scale;
use crate::reg::X86Reg;
use std::alloc::AllocError;

/// Returns the REX prefix of three registers, whose high bits it has.
fn rex(w: u8, reg: u8, index: u8, base: u8) -> u8
    requires w { w < 2 }
    requires reg { reg < 16 }
    requires index { index < 16 }
    requires base { base < 16 }
    ensures { result ≡ encoding.rex w reg index base }
{
    0x40 + 8 * w + 4 * (reg / 8) + 2 * (index / 8) + base / 8
}

/// Returns a ModR/M byte, or a SIB byte.
fn modrm(mode: u8, reg: u8, rm: u8) -> u8
    requires { mode < 4 }
    ensures { result ≡ encoding.modrm mode reg rm }
{
    64 * mode + 8 * (reg % 8) + rm % 8
}

/// Returns prefix, opcode and ModR/M with a register as r/m.
fn at_reg(w: u8, opcode: u8, reg: u8, rm: X86Reg) -> InsnBytes
    requires w { w < 2 }
    requires reg { reg < 16 }
    ensures { result ≡ encoding.at_reg w opcode reg rm }
{
    let rm = rm.number();
    InsnBytes::three(rex(w, reg, 0, rm), opcode, modrm(3, reg, rm))
}

/// Returns prefix, opcode, ModR/M with a register as r/m, and an immediate.
fn at_reg_imm(opcode: u8, digit: u8, rm: X86Reg, imm: i32) -> InsnBytes
    requires { digit < 8 }
    ensures { result ≡ encoding.at_reg 1 opcode digit rm ++ encoding.four_bytes imm }
{
    let rm = rm.number();
    let prefix = rex(1, digit, 0, rm);
    InsnBytes::seven(prefix, opcode, modrm(3, digit, rm), imm.to_le_bytes())
}

/// Returns prefix, the opcode byte 0F with another, and ModR/M with a register as r/m.
fn at_reg_0f(opcode: u8, reg: u8, rm: X86Reg) -> InsnBytes
    requires { reg < 16 }
    ensures { result ≡ encoding.at_reg_0F opcode reg rm }
{
    let rm = rm.number();
    InsnBytes::four(rex(0, reg, 0, rm), 0x0f, opcode, modrm(3, reg, rm))
}

/// Returns prefix, opcode and ModR/M with the quadword at `base + disp` as r/m.
fn at_memory(opcode: u8, reg: X86Reg, base: X86Reg, disp: i32) -> InsnBytes
    ensures { result ≡ encoding.at_memory opcode reg base disp }
{
    let (reg, base) = (reg.number(), base.number());
    let prefix = rex(1, reg, 0, base);
    InsnBytes::seven(prefix, opcode, modrm(2, reg, base), disp.to_le_bytes())
}

/// Returns the bytes of `lea` with a scaled index.
fn scaled(to: X86Reg, base: X86Reg, index: X86Reg, scale: Scale) -> InsnBytes
    ensures { result ≡ encoding.bytes_of (X86Insn.LeaScaled to base index scale) }
{
    let (to, base, index) = (to.number(), base.number(), index.number());
    let prefix = rex(1, to, index, base);
    let sib = modrm(scale.bits(), index, base);
    InsnBytes::five(prefix, [0x8d, modrm(1, to, 4), sib, 0])
}

impl X86Insn {
    /// Returns the bytes of the instruction.
    pub fn bytes(self) -> InsnBytes
        ensures { result ≡ encoding.bytes_of self }
    {
        match self {
            X86Insn::Mov { to, from } => at_reg(1, 0x89, from.number(), to),
            X86Insn::MovImm { to, imm } => at_reg_imm(0xc7, 0, to, imm),
            X86Insn::MovZero { to, imm } => mov_zero(to, imm),
            X86Insn::MovAbs { to, imm } => mov_abs(to, imm),
            X86Insn::Load { to, base, disp } => at_memory(0x8b, to, base, disp),
            X86Insn::Store { base, disp, from } => at_memory(0x89, from, base, disp),
            X86Insn::Alu { op, to, from } => at_reg(1, op.opcode(), to.number(), from),
            X86Insn::AluImm { op, to, imm } => at_reg_imm(0x81, op.digit(), to, imm),
            X86Insn::AluLoad { op, to, base, disp } => at_memory(op.opcode(), to, base, disp),
            X86Insn::Lea { to, base, disp } => at_memory(0x8d, to, base, disp),
            X86Insn::LeaScaled {
                to,
                base,
                index,
                scale,
            } => scaled(to, base, index, scale),
            X86Insn::ShiftImm { op, to, count } => shift(op.digit(), to, count),
            X86Insn::ShiftCl { op, to } => at_reg(1, 0xd3, op.digit(), to),
            X86Insn::Not { to } => at_reg(1, 0xf7, 2, to),
            X86Insn::Test { left, right } => at_reg(1, 0x85, right.number(), left),
            X86Insn::TestImm { left, imm } => at_reg_imm(0xf7, 0, left, imm),
            X86Insn::Set { cond, to } => at_reg_0f(0x90 + cond.code(), 0, to),
            X86Insn::MovByte { to, from } => at_reg_0f(0xb6, to.number(), from),
            X86Insn::MovTwo { to, from } => at_reg_0f(0xb7, to.number(), from),
            X86Insn::MovFour { to, from } => at_reg(0, 0x89, from.number(), to),
            X86Insn::JumpIf { cond, disp } => {
                InsnBytes::six(0x0f, 0x80 + cond.code(), disp.to_le_bytes())
            }
            X86Insn::Jump { disp } => InsnBytes::five(0xe9, disp.to_le_bytes()),
            X86Insn::Ret => InsnBytes::one(0xc3),
            X86Insn::Nop => InsnBytes::one(0x90),
        }
    }

    /// Appends the bytes of the instruction to `out`. Errors: out of memory; `out` is unchanged.
    pub fn encode(self, out: &mut Vec<u8>) -> Result<(), AllocError>
        ensures exact { out.new.items
            ≡ (if is_ok result then out.old.items ++ encoding.bytes_of self else out.old.items) }
    {
        out.extend_from_slice(self.bytes().as_slice())
    }

    /// Returns the length of the instruction in bytes, 1 to 10.
    pub fn length(self) -> usize
        ensures value { result ≡ encoding.length_of self }
        ensures below { result < 11 }
    {
        match self {
            X86Insn::Ret | X86Insn::Nop => 1,
            X86Insn::Mov { .. }
            | X86Insn::Alu { .. }
            | X86Insn::ShiftCl { .. }
            | X86Insn::Not { .. }
            | X86Insn::Test { .. }
            | X86Insn::MovFour { .. } => 3,
            X86Insn::ShiftImm { .. }
            | X86Insn::Set { .. }
            | X86Insn::MovByte { .. }
            | X86Insn::MovTwo { .. } => 4,
            X86Insn::LeaScaled { .. } | X86Insn::Jump { .. } => 5,
            X86Insn::MovZero { .. } | X86Insn::JumpIf { .. } => 6,
            X86Insn::MovImm { .. }
            | X86Insn::Load { .. }
            | X86Insn::Store { .. }
            | X86Insn::AluImm { .. }
            | X86Insn::AluLoad { .. }
            | X86Insn::Lea { .. }
            | X86Insn::TestImm { .. } => 7,
            X86Insn::MovAbs { .. } => 10,
        }
    }

    /// Checks that the base may be one, that the index isn't rsp, and that the count is below 64.
    pub fn has_operands(self) -> bool
        ensures { result ≡ encoding.has_operands self }
    {
        match self {
            X86Insn::Load { base, .. }
            | X86Insn::Store { base, .. }
            | X86Insn::AluLoad { base, .. }
            | X86Insn::Lea { base, .. } => base.is_base(),
            X86Insn::LeaScaled { index, .. } => index.number() != 4,
            X86Insn::ShiftImm { count, .. } => count < 64,
            _ => true,
        }
    }
}

/// Returns the bytes of `mov` with an immediate of four bytes, zero-extended.
fn mov_zero(to: X86Reg, imm: u32) -> InsnBytes
    ensures { result ≡ encoding.bytes_of (X86Insn.MovZero to imm) }
{
    let to = to.number();
    InsnBytes::six(rex(0, 0, 0, to), 0xb8 + to % 8, imm.to_le_bytes())
}

/// Returns the bytes of `mov` with an immediate of eight bytes.
fn mov_abs(to: X86Reg, imm: u64) -> InsnBytes
    ensures { result ≡ encoding.bytes_of (X86Insn.MovAbs to imm) }
{
    let to = to.number();
    InsnBytes::ten(rex(1, 0, 0, to), 0xb8 + to % 8, imm.to_le_bytes())
}

/// Returns the bytes of a shift by a count.
fn shift(digit: u8, to: X86Reg, count: u8) -> InsnBytes
    requires { digit < 8 }
    ensures { result ≡ encoding.at_reg 1 0xC1 digit to ++ count ∷ [] }
{
    let to = to.number();
    InsnBytes::four(rex(1, digit, 0, to), 0xc1, modrm(3, digit, to), count)
}
