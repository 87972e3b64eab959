//! Registers, operands and memory spans.

ghost use Rattle.std.specs.Prelude.{◌≡◌, ◌↔◌, IsTrue, length, pos, ◌*ℤ◌};
ghost use Rattle.alpha_cfg.specs.Machine as machine;
ghost use Rattle.word_ops.specs.Registers as registers;
ghost use Rattle.word_ops.specs.Rights as rights;

use alpha_words::{Cond, Reg, Rhs, Tested, cond_relation, cond_taken, cond_tested};
use word_ops::holds;

/// Returns a register's word from `regs`, or 0 for register 31.
#[inline(always)]
pub fn read_reg(regs: &[u64; 31], reg: Reg) -> u64
    ensures { result ≡ registers.read_reg regs.now reg }
{
    let r = reg.number();
    if r == 31 { 0 } else { regs[r as usize] }
}

/// Writes a register's word; a write to register 31 is ignored.
#[inline(always)]
pub fn write_reg(regs: &mut [u64; 31], reg: Reg, word: u64)
    ensures { regs.new ≡ registers.write_reg regs.old reg word }
{
    let r = reg.number();
    if r != 31 {
        regs[r as usize] = word;
    }
}

/// Returns the word of the second operand: a register's word or the literal.
#[inline(always)]
pub fn rhs_word(regs: &[u64; 31], rhs: &Rhs) -> u64
    ensures { result ≡ machine.rhs_word regs.now rhs.now }
{
    match *rhs {
        Rhs::Reg(rb) => read_reg(regs, rb),
        Rhs::Lit(literal) => u64::from(literal),
    }
}

/// Returns the sum of register `rb` and the sign-extended displacement in bytes, modulo 2^64.
#[inline(always)]
pub fn address_of(regs: &[u64; 31], rb: Reg, disp: i16) -> u64
    ensures { result ≡ machine.address_of regs.now rb disp }
{
    read_reg(regs, rb).wrapping_add(i64::from(disp).cast_unsigned())
}

/// Returns the sum of register `rb` and 65,536 times the sign-extended displacement, modulo 2^64.
pub fn far_address_of(regs: &[u64; 31], rb: Reg, disp: i16) -> u64
    ensures { result ≡ machine.address_of regs.now rb (disp *ℤ pos 65536) }
{
    let far = i64::from(disp) * 65_536;
    read_reg(regs, rb).wrapping_add(far.cast_unsigned())
}

/// Returns the address of the quadword that holds the byte at `addr`.
pub fn aligned(addr: u64) -> u64
    ensures { result ≡ machine.aligned addr }
{
    addr - addr % 8
}

/// Checks whether a conditional branch is taken if its register holds `word`.
#[inline(always)]
pub fn takes(cond: Cond, word: u64) -> bool
    ensures { result ≡ machine.takes cond word }
{
    let tested = match cond_tested(cond) {
        Tested::Word => word,
        Tested::LowBit => word & 1,
    };
    let compares = holds(cond_relation(cond), tested, 0);
    if cond_taken(cond) {
        compares
    } else {
        !compares
    }
}

/// Checks whether `addr` is the address of a quadword of the span.
#[inline(always)]
fn is_in_span(span: (u64, u64), addr: u64) -> bool
    ensures { result ≡ rights.in_span span addr }
{
    let (base, count) = span;
    if addr < base {
        return false;
    }
    let offset = addr - base;
    offset % 8 == 0 && offset / 8 < count
}

/// Checks whether `addr` is the address of a quadword of one of the `spans`, each a base address in
/// bytes and a count of quadwords.
#[inline(always)]
pub fn is_allowed(spans: &[(u64, u64)], addr: u64) -> bool
    ensures { result ≡ rights.allowed spans.now addr }
{
    spans.iter().any(|span| is_in_span(*span, addr))
}
