//! x86-64 instructions as text, in Intel's syntax, as objdump prints them.

use std::alloc::{AllocError, Global};
use x86_words::{AluOp, Scale, ShiftOp, X86Cond, X86Insn, X86Reg};

/// The registers of 64 bits.
const WORDS: [&str; 16] = [
    "rax", "rcx", "rdx", "rbx", "rsp", "rbp", "rsi", "rdi", "r8", "r9", "r10", "r11", "r12", "r13",
    "r14", "r15",
];

/// Their low four bytes.
const FOURS: [&str; 16] = [
    "eax", "ecx", "edx", "ebx", "esp", "ebp", "esi", "edi", "r8d", "r9d", "r10d", "r11d", "r12d",
    "r13d", "r14d", "r15d",
];

/// Their low two bytes.
const TWOS: [&str; 16] = [
    "ax", "cx", "dx", "bx", "sp", "bp", "si", "di", "r8w", "r9w", "r10w", "r11w", "r12w", "r13w",
    "r14w", "r15w",
];

/// Their low bytes.
const BYTES: [&str; 16] = [
    "al", "cl", "dl", "bl", "spl", "bpl", "sil", "dil", "r8b", "r9b", "r10b", "r11b", "r12b",
    "r13b", "r14b", "r15b",
];

/// The name of a register.
fn word(reg: X86Reg) -> &'static str {
    WORDS[reg.number() as usize]
}

/// The name of its low four bytes.
fn four(reg: X86Reg) -> &'static str {
    FOURS[reg.number() as usize]
}

/// The name of its low two bytes.
fn two(reg: X86Reg) -> &'static str {
    TWOS[reg.number() as usize]
}

/// The name of its low byte.
fn byte(reg: X86Reg) -> &'static str {
    BYTES[reg.number() as usize]
}

/// The name of an operator.
fn alu_name(op: AluOp) -> &'static str {
    match op {
        AluOp::Add => "add",
        AluOp::Or => "or",
        AluOp::And => "and",
        AluOp::Sub => "sub",
        AluOp::Xor => "xor",
        AluOp::Cmp => "cmp",
    }
}

/// The name of a shift.
fn shift_name(op: ShiftOp) -> &'static str {
    match op {
        ShiftOp::Shl => "shl",
        ShiftOp::Shr => "shr",
        ShiftOp::Sar => "sar",
    }
}

/// The suffix of a condition.
fn cond_name(cond: X86Cond) -> &'static str {
    match cond {
        X86Cond::Below => "b",
        X86Cond::AboveOrEqual => "ae",
        X86Cond::Equal => "e",
        X86Cond::NotEqual => "ne",
        X86Cond::BelowOrEqual => "be",
        X86Cond::Above => "a",
        X86Cond::Sign => "s",
        X86Cond::NoSign => "ns",
        X86Cond::Less => "l",
        X86Cond::GreaterOrEqual => "ge",
        X86Cond::LessOrEqual => "le",
        X86Cond::Greater => "g",
    }
}

/// A mnemonic with two operands.
fn pair(alloc: Global, mnemonic: &str, left: &str, right: &str) -> Result<String, AllocError> {
    format!(in alloc; "{mnemonic} {left},{right}")
}

/// A mnemonic with a register and an immediate.
fn with_imm(alloc: Global, mnemonic: &str, to: &str, imm: u64) -> Result<String, AllocError> {
    format!(in alloc; "{mnemonic} {to},0x{imm:x}")
}

/// A number of 32 bits as a word, sign-extended.
fn extended(number: i32) -> u64 {
    i64::from(number).cast_unsigned()
}

/// The sum of a register and a displacement, in brackets.
fn sum(alloc: Global, base: X86Reg, disp: i32) -> Result<String, AllocError> {
    let base = word(base);
    let size = disp.unsigned_abs();
    if disp == 0 {
        format!(in alloc; "[{base}]")
    } else if disp < 0 {
        format!(in alloc; "[{base}-0x{size:x}]")
    } else {
        format!(in alloc; "[{base}+0x{size:x}]")
    }
}

/// A mnemonic with a register and a quadword.
fn load(
    alloc: Global,
    mnemonic: &str,
    to: X86Reg,
    base: X86Reg,
    disp: i32,
) -> Result<String, AllocError> {
    let to = word(to);
    let at = sum(alloc, base, disp)?;
    format!(in alloc; "{mnemonic} {to},QWORD PTR {at}")
}

/// A store.
fn store(alloc: Global, base: X86Reg, disp: i32, from: X86Reg) -> Result<String, AllocError> {
    let from = word(from);
    let at = sum(alloc, base, disp)?;
    format!(in alloc; "mov QWORD PTR {at},{from}")
}

/// `lea` with a displacement.
fn lea(alloc: Global, to: X86Reg, base: X86Reg, disp: i32) -> Result<String, AllocError> {
    let to = word(to);
    let at = sum(alloc, base, disp)?;
    format!(in alloc; "lea {to},{at}")
}

/// `lea` with a scaled index.
fn lea_scaled(
    alloc: Global,
    to: X86Reg,
    base: X86Reg,
    index: X86Reg,
    scale: Scale,
) -> Result<String, AllocError> {
    let (to, base, index, scale) = (word(to), word(base), word(index), scale.factor());
    format!(in alloc; "lea {to},[{base}+{index}*{scale}]")
}

/// `setCOND`.
fn set(alloc: Global, cond: X86Cond, to: X86Reg) -> Result<String, AllocError> {
    let (cond, to) = (cond_name(cond), byte(to));
    format!(in alloc; "set{cond} {to}")
}

/// `jCOND`.
fn jump_if(alloc: Global, cond: X86Cond, disp: i32) -> Result<String, AllocError> {
    let cond = cond_name(cond);
    format!(in alloc; "j{cond} .+{disp}")
}

/// `not`.
fn not(alloc: Global, to: X86Reg) -> Result<String, AllocError> {
    let to = word(to);
    format!(in alloc; "not {to}")
}

/// Returns the instruction as text.
pub fn insn_text(alloc: Global, insn: X86Insn) -> Result<String, AllocError> {
    match insn {
        X86Insn::Mov { to, from } => pair(alloc, "mov", word(to), word(from)),
        X86Insn::MovImm { to, imm } => with_imm(alloc, "mov", word(to), extended(imm)),
        X86Insn::MovZero { to, imm } => with_imm(alloc, "mov", four(to), u64::from(imm)),
        X86Insn::MovAbs { to, imm } => with_imm(alloc, "movabs", word(to), imm),
        X86Insn::Load { to, base, disp } => load(alloc, "mov", to, base, disp),
        X86Insn::Store { base, disp, from } => store(alloc, base, disp, from),
        X86Insn::Alu { op, to, from } => pair(alloc, alu_name(op), word(to), word(from)),
        X86Insn::AluImm { op, to, imm } => with_imm(alloc, alu_name(op), word(to), extended(imm)),
        X86Insn::AluLoad { op, to, base, disp } => load(alloc, alu_name(op), to, base, disp),
        X86Insn::Lea { to, base, disp } => lea(alloc, to, base, disp),
        X86Insn::LeaScaled {
            to,
            base,
            index,
            scale,
        } => lea_scaled(alloc, to, base, index, scale),
        X86Insn::ShiftImm { op, to, count } => {
            with_imm(alloc, shift_name(op), word(to), u64::from(count))
        }
        X86Insn::ShiftCl { op, to } => pair(alloc, shift_name(op), word(to), "cl"),
        X86Insn::Not { to } => not(alloc, to),
        X86Insn::Test { left, right } => pair(alloc, "test", word(left), word(right)),
        X86Insn::TestImm { left, imm } => with_imm(alloc, "test", word(left), extended(imm)),
        X86Insn::Set { cond, to } => set(alloc, cond, to),
        X86Insn::MovByte { to, from } => pair(alloc, "movzx", four(to), byte(from)),
        X86Insn::MovTwo { to, from } => pair(alloc, "movzx", four(to), two(from)),
        X86Insn::MovFour { to, from } => pair(alloc, "mov", four(to), four(from)),
        X86Insn::JumpIf { cond, disp } => jump_if(alloc, cond, disp),
        X86Insn::Jump { disp } => format!(in alloc; "jmp .+{disp}"),
        X86Insn::Ret => format!(in alloc; "ret"),
        X86Insn::Nop => format!(in alloc; "nop"),
    }
}
