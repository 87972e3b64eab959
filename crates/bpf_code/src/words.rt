//! The instructions of which blocks are made.

ghost use Rattle.std.specs.Prelude.{◌≡◌, ◌*◌, ◌<◌, ◌≤◌, pos};
ghost use Rattle.alpha_words.specs.declared.insn.Insn.TheVariants.{Ldq, Oper};
ghost use Rattle.alpha_words.specs.declared.insn.Rhs.TheVariants as operands;
ghost use Rattle.bpf_code.specs.Blocks.{byte_code, constant_code, quad_reg, shift_in, test_code};

use alpha_words::{Insn, Reg, Rhs};
use bpf_words::BpfTest;
use word_ops::Op;

/// Returns the instruction `rc := ra op n`.
pub fn by_literal(op: Op, ra: u32, n: u8, rc: u32) -> Insn
    requires from { ra < 32 }
    requires to { rc < 32 }
    ensures exact { result ≡ Oper op ra (operands.Lit n) rc }
{
    Insn::Oper {
        op,
        ra: Reg::new(ra),
        rhs: Rhs::Lit(n),
        rc: Reg::new(rc),
    }
}

/// Returns the instruction `rc := ra op rb`.
pub fn by_register(op: Op, ra: u32, rb: u32, rc: u32) -> Insn
    requires from { ra < 32 }
    requires with { rb < 32 }
    requires to { rc < 32 }
    ensures exact { result ≡ Oper op ra (operands.Reg rb) rc }
{
    Insn::Oper {
        op,
        ra: Reg::new(ra),
        rhs: Rhs::Reg(Reg::new(rb)),
        rc: Reg::new(rc),
    }
}

/// Returns the instruction that loads quadword `quad` of the packet, counted from 0, into `ra`.
pub fn load_quad(ra: u32, quad: u32) -> Insn
    requires register { ra < 32 }
    requires inside { quad < 8 }
    ensures exact { result ≡ Ldq ra 16 (pos (8 * quad)) }
{
    Insn::Ldq {
        ra: Reg::new(ra),
        rb: Reg::new(16),
        disp: (8 * quad) as i16,
    }
}

/// Returns code that puts the constant `k` into register `r`, by its four bytes, big-endian.
pub fn constant_code(r: u32, k: u32) -> [Insn; 7]
    requires { r < 32 }
    ensures exact { result ≡ constant_code r k }
{
    [
        by_literal(Op::Add, 31, (k / 16_777_216) as u8, r),
        by_literal(Op::Sll, r, 8, r),
        by_literal(Op::Add, r, (k / 65_536 % 256) as u8, r),
        by_literal(Op::Sll, r, 8, r),
        by_literal(Op::Add, r, (k / 256 % 256) as u8, r),
        by_literal(Op::Sll, r, 8, r),
        by_literal(Op::Add, r, (k % 256) as u8, r),
    ]
}

/// Room for one more byte in a register; before the first byte the register is cleared.
fn shift_in(n: u32, r: u32) -> Insn
    requires { r < 32 }
    ensures exact { result ≡ shift_in n r }
{
    if n == 0 {
        by_literal(Op::Add, 31, 0, r)
    } else {
        by_literal(Op::Sll, r, 8, r)
    }
}

/// Returns code that moves byte `n` of a load into A; it is byte `at` of the quadword in register
/// `q`.
pub fn byte_code(n: u32, q: u32, at: u32) -> [Insn; 4]
    requires register { q < 32 }
    requires byte { at < 8 }
    ensures exact { result ≡ byte_code n q at }
{
    [
        shift_in(n, 1),
        by_literal(Op::Srl, q, (8 * at) as u8, 4),
        by_literal(Op::Band, 4, 255, 4),
        by_register(Op::Add, 1, 4, 1),
    ]
}

/// Returns the number of the register whose quadword has byte `n` of a load at offset `k`.
pub fn quad_reg(k: u32, n: u32) -> u32
    requires small { k ≤ 64 }
    requires few { n ≤ 4 }
    ensures exact { result ≡ quad_reg k n }
    ensures below { result < 32 }
{
    if (k + n) / 8 == k / 8 { 2 } else { 3 }
}

/// Returns the instruction that puts the result of a jump's test into register 6.
pub fn test_code(test: BpfTest) -> Insn
    ensures exact { result ≡ test_code test }
{
    match test {
        BpfTest::Jeq => by_register(Op::Cmpeq, 1, 5, 6),
        BpfTest::Jgt => by_register(Op::Cmpult, 5, 1, 6),
        BpfTest::Jge => by_register(Op::Cmpule, 5, 1, 6),
        BpfTest::Jset => by_register(Op::Band, 1, 5, 6),
    }
}
