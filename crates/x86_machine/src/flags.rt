//! Status flags: what operators make of them, and when conditions hold.

ghost use Rattle.std.specs.Prelude.{◌≡◌};
ghost use Rattle.x86_machine.specs.Flags as defined;

use word_ops::{Op, apply};
use x86_words::{AluOp, ShiftOp, X86Cond};

/// The status flags that conditions read.
#[derive(Clone, Copy, Debug, PartialEq, Eq)]
pub struct Flags {
    /// CF: a carry or a borrow out of the highest bit.
    pub carry: bool,
    /// ZF: the result is 0.
    pub zero: bool,
    /// SF: the highest bit of the result.
    pub sign: bool,
    /// OF: the result, read in two's complement, isn't in range.
    pub overflow: bool,
}

/// Returns the word of an operator: sums and differences are modulo 2^64.
pub fn alu_word(op: AluOp, a: u64, b: u64) -> u64
    ensures { result ≡ defined.alu_word op a b }
{
    match op {
        AluOp::Add => apply(Op::Add, a, b),
        AluOp::Or => apply(Op::Bis, a, b),
        AluOp::And => apply(Op::Band, a, b),
        AluOp::Sub | AluOp::Cmp => apply(Op::Sub, a, b),
        AluOp::Xor => apply(Op::Xor, a, b),
    }
}

/// Returns the word of a shift by a count, which is taken modulo 64.
pub fn shift_word(op: ShiftOp, a: u64, count: u64) -> u64
    ensures { result ≡ defined.shift_word op a count }
{
    match op {
        ShiftOp::Shl => apply(Op::Sll, a, count),
        ShiftOp::Shr => apply(Op::Srl, a, count),
        ShiftOp::Sar => apply(Op::Sra, a, count),
    }
}

/// Returns the flags of a result, given CF and OF.
fn result_flags(word: u64, carry: bool, overflow: bool) -> Flags
    ensures { result ≡ defined.result_flags word carry overflow }
{
    Flags {
        carry,
        zero: word == 0,
        sign: word >= 1 << 63,
        overflow,
    }
}

/// Returns the flags of a sum.
fn sum_flags(a: u64, b: u64) -> Flags
    ensures { result ≡ defined.alu_flags AluOp.Add a b }
{
    let (word, carry) = a.overflowing_add(b);
    let (_, overflow) = a.cast_signed().overflowing_add(b.cast_signed());
    result_flags(word, carry, overflow)
}

/// Returns the flags of a difference.
fn difference_flags(a: u64, b: u64) -> Flags
    ensures { result ≡ defined.alu_flags AluOp.Sub a b }
{
    let (_, overflow) = a.cast_signed().overflowing_sub(b.cast_signed());
    result_flags(apply(Op::Sub, a, b), a < b, overflow)
}

/// Returns the flags of an operator.
pub fn alu_flags(op: AluOp, a: u64, b: u64) -> Flags
    ensures { result ≡ defined.alu_flags op a b }
{
    match op {
        AluOp::Add => sum_flags(a, b),
        AluOp::Sub | AluOp::Cmp => difference_flags(a, b),
        AluOp::Or | AluOp::And | AluOp::Xor => result_flags(alu_word(op, a, b), false, false),
    }
}

/// Checks whether two flags differ.
fn differ(a: bool, b: bool) -> bool
    ensures { result ≡ defined.differ a b }
{
    if a { !b } else { b }
}

/// Checks whether the condition holds.
pub fn cond_holds(cond: X86Cond, flags: Flags) -> bool
    ensures { result ≡ defined.cond_holds cond flags }
{
    let less = differ(flags.sign, flags.overflow);
    match cond {
        X86Cond::Below => flags.carry,
        X86Cond::AboveOrEqual => !flags.carry,
        X86Cond::Equal => flags.zero,
        X86Cond::NotEqual => !flags.zero,
        X86Cond::BelowOrEqual => flags.carry || flags.zero,
        X86Cond::Above => !(flags.carry || flags.zero),
        X86Cond::Sign => flags.sign,
        X86Cond::NoSign => !flags.sign,
        X86Cond::Less => less,
        X86Cond::GreaterOrEqual => !less,
        X86Cond::LessOrEqual => flags.zero || less,
        X86Cond::Greater => !(flags.zero || less),
    }
}
