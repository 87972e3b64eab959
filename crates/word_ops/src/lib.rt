//! 64-bit machine words: the result of every operator and relation, from one table.
//!
//! All layers above share the definitions in `specs/`:
//!
//! - `Words`: the operators and relations;
//! - `Operators`: their names and profiles, one table for all;
//! - `Memory`: memories;
//! - `Rights`: rights to load and store;
//! - `Registers`: the registers' words.
//!
//! The layers above rely on this: `apply` and `holds` compute exactly the definitions' `word_of`
//! and `test_of`.
//!
//! Source: Alpha Architecture Handbook, "Integer Arithmetic Instructions" and "Logical and Shift
//! Instructions".

#![tactic(auto)]

mod operators;
mod theorems;

ghost use Rattle.std.specs.Prelude.{◌≡◌, ◌<◌};
ghost use Rattle.word_ops.specs.Words.{word_of, test_of, shifted_signed};

pub use operators::{
    OPERATORS, has_op, of_profile, op_code, op_constant, op_count, op_keyword, op_mnemonic,
    op_number, op_of, op_of_code, op_of_constant, op_of_keyword, op_of_mnemonic, profile_number,
};
pub use theorems::{laws, operator_laws, order_laws};

/// A binary operator on 64-bit words.
#[derive(Clone, Copy, Debug, PartialEq, Eq)]
pub enum Op {
    /// The sum, modulo 2^64.
    Add,
    /// The difference, modulo 2^64.
    Sub,
    /// Bitwise and.
    Band,
    /// Bitwise or.
    Bis,
    /// Shift left; zeros come in.
    Sll,
    /// Logical shift right; zeros come in.
    Srl,
    /// 1 if the words are equal, else 0.
    Cmpeq,
    /// 1 if the first word is less, both read as two's complement, else 0.
    Cmplt,
    /// 1 if the first word is less or equal, both read as two's complement, else 0.
    Cmple,
    /// 1 if the first word is less, both read as unsigned, else 0.
    Cmpult,
    /// 1 if the first word is less or equal, both read as unsigned, else 0.
    Cmpule,
    /// Bitwise exclusive or.
    Xor,
    /// Bitwise and with the complement of the second word.
    Bic,
    /// The sum of four times the first word and the second, modulo 2^64.
    S4add,
    /// The sum of eight times the first word and the second, modulo 2^64.
    S8add,
    /// Arithmetic shift right; copies of the sign bit come in.
    Sra,
    /// The byte of the first word at byte offset `b` modulo 8, zero-extended, `b` being the second
    /// word.
    Extb,
    /// The two bytes from byte offset `b` modulo 8 on, zero-extended; bytes past the word are zero.
    Extw,
    /// The four bytes from byte offset `b` modulo 8 on, zero-extended; bytes past the word are
    /// zero.
    Extl,
}

/// A set of operators and instructions: each has the first operators, `One` fewer than `Two`.
#[derive(Clone, Copy, Debug, PartialEq, Eq)]
pub enum Profile {
    /// The operators up to `Cmpule`.
    One,
    /// The operators up to `Extl`.
    Two,
}

/// A relation between two words. The signed relations read two's complement.
#[derive(Clone, Copy, Debug, PartialEq, Eq)]
pub enum Rel {
    /// Equal.
    Eq,
    /// Unsigned less than.
    Ult,
    /// Unsigned less than or equal.
    Ule,
    /// Signed less than.
    Slt,
    /// Signed less than or equal.
    Sle,
}

/// Checks whether the relation `rel` holds between `a` and `b`, in this order.
pub fn holds(rel: Rel, a: u64, b: u64) -> bool
    ensures { result ≡ test_of rel a b }
{
    match rel {
        Rel::Eq => a == b,
        Rel::Ult => a < b,
        Rel::Ule => a <= b,
        Rel::Slt => a.cast_signed() < b.cast_signed(),
        Rel::Sle => a.cast_signed() <= b.cast_signed(),
    }
}

/// Shifts `a` right by `by` bits, with copies of its sign bit coming in.
fn shifted_signed(a: u64, by: u64) -> u64
    requires { by < 64 }
    ensures { result ≡ shifted_signed a by }
{
    if a < 1 << 63 {
        a >> by
    } else {
        u64::MAX - ((u64::MAX - a) >> by)
    }
}

/// Returns the result of `op` on `a` and `b`. Sums and differences wrap around; a shift takes its
/// count modulo 64.
pub fn apply(op: Op, a: u64, b: u64) -> u64
    ensures { result ≡ word_of op a b }
{
    match op {
        Op::Add => a.wrapping_add(b),
        Op::Sub => a.wrapping_sub(b),
        Op::Band => a & b,
        Op::Bis => a | b,
        Op::Sll => a << (b % 64),
        Op::Srl => a >> (b % 64),
        Op::Cmpeq => u64::from(holds(Rel::Eq, a, b)),
        Op::Cmplt => u64::from(holds(Rel::Slt, a, b)),
        Op::Cmple => u64::from(holds(Rel::Sle, a, b)),
        Op::Cmpult => u64::from(holds(Rel::Ult, a, b)),
        Op::Cmpule => u64::from(holds(Rel::Ule, a, b)),
        Op::Xor => a ^ b,
        Op::Bic => a & (b ^ u64::MAX),
        Op::S4add => a.wrapping_mul(4).wrapping_add(b),
        Op::S8add => a.wrapping_mul(8).wrapping_add(b),
        Op::Sra => shifted_signed(a, b % 64),
        Op::Extb => (a >> (8 * (b % 8))) % 256,
        Op::Extw => (a >> (8 * (b % 8))) % 65_536,
        Op::Extl => (a >> (8 * (b % 8))) % 4_294_967_296,
    }
}
