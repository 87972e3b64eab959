//! Decoding of the instruction at the front of bytes.

ghost use Rattle.std.specs.Prelude.{◌≡◌, ◌↔◌, ◌<◌, ◌≤◌, length, slice_index, IfSome, Some};
ghost use Rattle.x86_words.specs.declared.insn.X86Insn.{X86Insn};
ghost use Rattle.x86_words.specs.Encoding.{length_of};
ghost use Rattle.x86_words.specs.Decoding as decoding;

use crate::insn::X86Insn;
use crate::operators::{AluOp, Scale, ShiftOp, X86Cond};
use crate::reg::X86Reg;

/// Returns the byte at a place, or 0 past the end.
fn byte_at(bytes: &[u8], place: usize) -> u8
    ensures { result ≡ slice_index bytes.now place }
{
    if place < bytes.len() { bytes[place] } else { 0 }
}

/// Returns the register of three bits, the lowest of `low`, with the prefix's bit R above them.
fn reg_r(prefix: u8, low: u8) -> X86Reg
    ensures { result ≡ decoding.reg_r prefix low }
{
    X86Reg::new(8 * (prefix / 4 % 2) + low % 8)
}

/// Returns the register of three bits, the lowest of `low`, with the prefix's bit X above them.
fn reg_x(prefix: u8, low: u8) -> X86Reg
    ensures { result ≡ decoding.reg_x prefix low }
{
    X86Reg::new(8 * (prefix / 2 % 2) + low % 8)
}

/// Returns the register of three bits, the lowest of `low`, with the prefix's bit B above them.
fn reg_b(prefix: u8, low: u8) -> X86Reg
    ensures { result ≡ decoding.reg_b prefix low }
{
    X86Reg::new(8 * (prefix % 2) + low % 8)
}

/// Returns the four bytes from a place on, as a number.
fn four_at(bytes: &[u8], place: usize) -> u32
    requires { place < 10 }
    ensures { result ≡ decoding.four_at bytes.now place }
{
    u32::from_le_bytes([
        byte_at(bytes, place),
        byte_at(bytes, place + 1),
        byte_at(bytes, place + 2),
        byte_at(bytes, place + 3),
    ])
}

/// Returns the four bytes from a place on, as a number in two's complement.
fn signed_at(bytes: &[u8], place: usize) -> i32
    requires { place < 10 }
    ensures { result ≡ decoding.signed_at bytes.now place }
{
    four_at(bytes, place).cast_signed()
}

/// Returns the eight bytes from a place on, as a number.
fn eight_at(bytes: &[u8], place: usize) -> u64
    requires { place < 10 }
    ensures { result ≡ decoding.eight_at bytes.now place }
{
    u64::from_le_bytes([
        byte_at(bytes, place),
        byte_at(bytes, place + 1),
        byte_at(bytes, place + 2),
        byte_at(bytes, place + 3),
        byte_at(bytes, place + 4),
        byte_at(bytes, place + 5),
        byte_at(bytes, place + 6),
        byte_at(bytes, place + 7),
    ])
}

/// Returns the instruction of opcode 89: its r/m is a register or a quadword.
fn mov_form(mode: u8, reg: X86Reg, rm: X86Reg, number: i32) -> X86Insn
    ensures { result ≡ decoding.mov_form mode reg rm number }
{
    if mode == 3 {
        X86Insn::Mov { to: rm, from: reg }
    } else {
        X86Insn::Store {
            base: rm,
            disp: number,
            from: reg,
        }
    }
}

/// Returns the instruction of an operator's opcode: its r/m is a register or a quadword.
fn alu_form(mode: u8, reg: X86Reg, rm: X86Reg, number: i32, op: AluOp) -> X86Insn
    ensures { result ≡ decoding.alu_form mode reg rm number op }
{
    if mode == 3 {
        X86Insn::Alu {
            op,
            to: reg,
            from: rm,
        }
    } else {
        X86Insn::AluLoad {
            op,
            to: reg,
            base: rm,
            disp: number,
        }
    }
}

/// Returns `lea`, with a displacement or a scaled index.
fn lea_form(prefix: u8, mode: u8, reg: X86Reg, rm: X86Reg, number: i32, sib: u8) -> X86Insn
    ensures { result ≡ decoding.lea_form prefix mode reg rm number sib }
{
    if mode == 2 {
        X86Insn::Lea {
            to: reg,
            base: rm,
            disp: number,
        }
    } else {
        X86Insn::LeaScaled {
            to: reg,
            base: reg_b(prefix, sib),
            index: reg_x(prefix, sib / 8),
            scale: Scale::of_bits(sib / 64),
        }
    }
}

/// Returns `not` or `test`, by the digit.
fn not_form(digit: u8, rm: X86Reg, number: i32) -> X86Insn
    ensures { result ≡ decoding.not_form digit rm number }
{
    if digit == 2 {
        X86Insn::Not { to: rm }
    } else {
        X86Insn::TestImm {
            left: rm,
            imm: number,
        }
    }
}

/// Returns the operator's form with an immediate, by the digit.
fn alu_imm_form(digit: u8, rm: X86Reg, number: i32) -> Option<X86Insn>
    ensures { result ≡ decoding.alu_imm_form digit rm number }
{
    Some(X86Insn::AluImm {
        op: AluOp::of_digit(digit)?,
        to: rm,
        imm: number,
    })
}

/// Returns the shift by a count, by the digit.
fn shift_imm_form(digit: u8, rm: X86Reg, count: u8) -> Option<X86Insn>
    ensures { result ≡ decoding.shift_imm_form digit rm count }
{
    Some(X86Insn::ShiftImm {
        op: ShiftOp::of_digit(digit)?,
        to: rm,
        count,
    })
}

/// Returns the shift by rcx, by the digit.
fn shift_cl_form(digit: u8, rm: X86Reg) -> Option<X86Insn>
    ensures { result ≡ decoding.shift_cl_form digit rm }
{
    Some(X86Insn::ShiftCl {
        op: ShiftOp::of_digit(digit)?,
        to: rm,
    })
}

/// Returns the form that bytes with the prefix bit W may have, by the opcode.
fn wide_form(prefix: u8, opcode: u8, modrm: u8, bytes: &[u8]) -> Option<X86Insn>
    ensures { result ≡ decoding.wide_form prefix opcode modrm bytes.now }
{
    let (mode, digit) = (modrm / 64, modrm / 8 % 8);
    let (reg, rm) = (reg_r(prefix, modrm / 8), reg_b(prefix, modrm));
    let next = byte_at(bytes, 3);
    let number = signed_at(bytes, 3);
    match opcode {
        0xb8..=0xbf => Some(X86Insn::MovAbs {
            to: reg_b(prefix, opcode),
            imm: eight_at(bytes, 2),
        }),
        0x89 => Some(mov_form(mode, reg, rm, number)),
        0x8b => Some(X86Insn::Load {
            to: reg,
            base: rm,
            disp: number,
        }),
        0xc7 => Some(X86Insn::MovImm {
            to: rm,
            imm: number,
        }),
        0x81 => alu_imm_form(digit, rm, number),
        0x8d => Some(lea_form(prefix, mode, reg, rm, number, next)),
        0xc1 => shift_imm_form(digit, rm, next),
        0xd3 => shift_cl_form(digit, rm),
        0xf7 => Some(not_form(digit, rm, number)),
        0x85 => Some(X86Insn::Test {
            left: rm,
            right: reg,
        }),
        _ => Some(alu_form(mode, reg, rm, number, AluOp::of_opcode(opcode)?)),
    }
}

/// Returns `setCOND`, by the second opcode byte.
fn set_form(second: u8, rm: X86Reg) -> Option<X86Insn>
    ensures { result ≡ decoding.set_form second rm }
{
    Some(X86Insn::Set {
        cond: X86Cond::of_code(second % 16)?,
        to: rm,
    })
}

/// Returns the form that bytes with a prefix without W may have. `second` and `third` are the bytes
/// after the opcode; the second is another opcode byte if the first is 0F.
fn narrow_form(prefix: u8, opcode: u8, second: u8, third: u8, bytes: &[u8]) -> Option<X86Insn>
    ensures { result ≡ decoding.narrow_form prefix opcode second third bytes.now }
{
    let (reg, rm) = (reg_r(prefix, third / 8), reg_b(prefix, third));
    match (opcode, second) {
        (0xb8..=0xbf, _) => Some(X86Insn::MovZero {
            to: reg_b(prefix, opcode),
            imm: four_at(bytes, 2),
        }),
        (0x89, _) => Some(X86Insn::MovFour {
            to: reg_b(prefix, second),
            from: reg_r(prefix, second / 8),
        }),
        (_, 0xb6) => Some(X86Insn::MovByte { to: reg, from: rm }),
        (_, 0xb7) => Some(X86Insn::MovTwo { to: reg, from: rm }),
        _ => set_form(second, rm),
    }
}

/// Returns the conditional jump, by the second opcode byte.
fn jump_if_form(bytes: &[u8]) -> Option<X86Insn>
    ensures { result ≡ decoding.jump_if_form bytes.now }
{
    Some(X86Insn::JumpIf {
        cond: X86Cond::of_code(byte_at(bytes, 1) % 16)?,
        disp: signed_at(bytes, 2),
    })
}

/// Returns the form that bytes without a prefix may have, by the opcode.
fn plain_form(opcode: u8, bytes: &[u8]) -> Option<X86Insn>
    ensures { result ≡ decoding.plain_form opcode bytes.now }
{
    match opcode {
        0xe9 => Some(X86Insn::Jump {
            disp: signed_at(bytes, 1),
        }),
        0xc3 => Some(X86Insn::Ret),
        0x90 => Some(X86Insn::Nop),
        _ => jump_if_form(bytes),
    }
}

/// Returns the only form that the bytes may begin with.
fn form_at_front(bytes: &[u8]) -> Option<X86Insn>
    ensures { result ≡ decoding.form_at_front bytes.now }
{
    let first = byte_at(bytes, 0);
    let second = byte_at(bytes, 1);
    let third = byte_at(bytes, 2);
    match first {
        0x48..=0x4f => wide_form(first, second, third, bytes),
        0x40..=0x47 => narrow_form(first, second, third, byte_at(bytes, 3), bytes),
        _ => plain_form(first, bytes),
    }
}

/// Checks whether the value is an instruction, and the bytes begin with its own.
fn is_own(bytes: &[u8], insn: &X86Insn) -> bool
    ensures { result ≡ decoding.is_own bytes.now insn.now }
{
    insn.has_operands() && bytes.starts_with(insn.bytes().as_slice())
}

/// Returns the instruction at the front of the bytes, or None if they begin with none.
fn at_front(bytes: &[u8]) -> Option<X86Insn>
    ensures { result ≡ decoding.insn_at_front bytes.now }
{
    let insn = form_at_front(bytes)?;
    if is_own(bytes, &insn) {
        Some(insn)
    } else {
        None
    }
}

/// Returns the instruction at the front of the bytes, or None if they begin with none.
pub fn decode(bytes: &[u8]) -> Option<X86Insn>
    ensures exact { result ≡ decoding.insn_at_front bytes.now }
    ensures begins { (i : X86Insn) → (result ≡ Some i) ↔ decoding.BeginsWith bytes.now i }
    ensures within { IfSome result (λ i. length_of i ≤ length bytes.now) }
{
    at_front(bytes)
}
