//! The table of operators: their names in terms, formulas, sources and instruction words.
//!
//! A new operator is a row here and a row in `specs/Operators`; the crates above look it up. Source
//! of mnemonics, opcodes and functions: Alpha Architecture Handbook, the opcode tables.

ghost use Rattle.std.specs.Prelude.{◌≡◌, ◌<◌, ◌==◌, ◌&&◌};
ghost use Rattle.std.specs.Str.{bytes_eq};
ghost use Rattle.word_ops.specs.Operators as operators;

use crate::{Op, Profile};

/// All operators, in the order of their numbers.
pub const OPERATORS: [Op; 19] = [
    Op::Add,
    Op::Sub,
    Op::Band,
    Op::Bis,
    Op::Sll,
    Op::Srl,
    Op::Cmpeq,
    Op::Cmplt,
    Op::Cmple,
    Op::Cmpult,
    Op::Cmpule,
    Op::Xor,
    Op::Bic,
    Op::S4add,
    Op::S8add,
    Op::Sra,
    Op::Extb,
    Op::Extw,
    Op::Extl,
];

/// The number, constant, keyword, mnemonic, opcode and function of an operator.
#[derive(Clone, Copy)]
struct Row(u32, u32, &'static str, &'static str, u32, u32);

/// Returns the operator's row of the table.
fn op_row(op: Op) -> Row
    ensures number { result.0 ≡ operators.op_number op }
    ensures constant { result.1 ≡ operators.op_constant op }
    ensures keyword { result.2.now ≡ operators.op_keyword op }
    ensures mnemonic { result.3.now ≡ operators.op_mnemonic op }
    ensures opcode { result.4 ≡ operators.op_opcode op }
    ensures function { result.5 ≡ operators.op_function op }
{
    match op {
        Op::Add => Row(0, 0, "add", "addq", 0x10, 0x20),
        Op::Sub => Row(1, 1, "sub", "subq", 0x10, 0x29),
        Op::Band => Row(2, 2, "band", "and", 0x11, 0x00),
        Op::Bis => Row(3, 3, "bis", "bis", 0x11, 0x20),
        Op::Sll => Row(4, 4, "sll", "sll", 0x12, 0x39),
        Op::Srl => Row(5, 5, "srl", "srl", 0x12, 0x34),
        Op::Cmpeq => Row(6, 6, "cmpeq", "cmpeq", 0x10, 0x2d),
        Op::Cmplt => Row(7, 7, "cmplt", "cmplt", 0x10, 0x4d),
        Op::Cmple => Row(8, 8, "cmple", "cmple", 0x10, 0x6d),
        Op::Cmpult => Row(9, 9, "cmpult", "cmpult", 0x10, 0x1d),
        Op::Cmpule => Row(10, 10, "cmpule", "cmpule", 0x10, 0x3d),
        Op::Xor => Row(11, 88, "xor", "xor", 0x11, 0x40),
        Op::Bic => Row(12, 89, "bic", "bic", 0x11, 0x08),
        Op::S4add => Row(13, 90, "s4add", "s4addq", 0x10, 0x22),
        Op::S8add => Row(14, 91, "s8add", "s8addq", 0x10, 0x32),
        Op::Sra => Row(15, 92, "sra", "sra", 0x12, 0x3c),
        Op::Extb => Row(16, 93, "extb", "extbl", 0x12, 0x06),
        Op::Extw => Row(17, 94, "extw", "extwl", 0x12, 0x16),
        Op::Extl => Row(18, 95, "extl", "extll", 0x12, 0x26),
    }
}

/// Returns the number that names an operator in evaluations: its index in `OPERATORS`, 0 to 18.
pub fn op_number(op: Op) -> u32
    ensures { result ≡ operators.op_number op }
{
    op_row(op).0
}

/// Returns the number of the constant that denotes an operator in terms.
pub fn op_constant(op: Op) -> u32
    ensures { result ≡ operators.op_constant op }
{
    op_row(op).1
}

/// Returns the name of an operator in formulas.
pub fn op_keyword(op: Op) -> &'static str
    ensures { result.now ≡ operators.op_keyword op }
{
    op_row(op).2
}

/// Returns the name of an operator in sources: the mnemonic of its instruction.
pub fn op_mnemonic(op: Op) -> &'static str
    ensures { result.now ≡ operators.op_mnemonic op }
{
    op_row(op).3
}

/// Returns the opcode, below 64, and the function, below 128, of an operator's instruction.
pub fn op_code(op: Op) -> (u32, u32)
    ensures opcode { result.0 ≡ operators.op_opcode op }
    ensures function { result.1 ≡ operators.op_function op }
    ensures short { result.0 < 64 }
    ensures below { result.1 < 128 }
{
    let row = op_row(op);
    (row.4, row.5)
}

/// Returns the operator that evaluations name by `number`, or None if `number` is above 18.
pub fn op_of(number: u32) -> Option<Op>
    ensures { result ≡ operators.op_of number }
{
    OPERATORS
        .iter()
        .copied()
        .find(|op| op_number(*op) == number)
}

/// Returns the operator that a constant denotes in terms, or None if it denotes no operator.
pub fn op_of_constant(constant: u32) -> Option<Op>
    ensures { result ≡ operators.op_of_constant constant }
{
    OPERATORS
        .iter()
        .copied()
        .find(|op| op_constant(*op) == constant)
}

/// Checks whether `text` is the operator's name in formulas.
fn has_keyword(op: Op, text: &[u8]) -> bool
    ensures { result ≡ bytes_eq text.now (operators.op_keyword op) }
{
    text == op_keyword(op).as_bytes()
}

/// Returns the operator whose name in formulas is `text`, or None if no operator has that name.
#[tactic(auto, unfolding(crate::specs::Operators::op_of_keyword))]
pub fn op_of_keyword(text: &[u8]) -> Option<Op>
    ensures { result ≡ operators.op_of_keyword text.now }
{
    OPERATORS.iter().copied().find(|op| has_keyword(*op, text))
}

/// Checks whether `text` is the operator's name in sources.
fn has_mnemonic(op: Op, text: &[u8]) -> bool
    ensures { result ≡ bytes_eq text.now (operators.op_mnemonic op) }
{
    text == op_mnemonic(op).as_bytes()
}

/// Returns the operator whose mnemonic is `text`, or None if no operator has that mnemonic.
#[tactic(auto, unfolding(crate::specs::Operators::op_of_mnemonic))]
pub fn op_of_mnemonic(text: &[u8]) -> Option<Op>
    ensures { result ≡ operators.op_of_mnemonic text.now }
{
    OPERATORS.iter().copied().find(|op| has_mnemonic(*op, text))
}

/// Checks whether the operator's instruction has this opcode and this function.
fn has_code(op: Op, opcode: u32, function: u32) -> bool
    ensures { result ≡ (operators.op_opcode op == opcode && operators.op_function op == function) }
{
    let code = op_code(op);
    code.0 == opcode && code.1 == function
}

/// Returns the operator with this opcode and function, or None if no operator has both.
pub fn op_of_code(opcode: u32, function: u32) -> Option<Op>
    ensures { result ≡ operators.op_of_code opcode function }
{
    OPERATORS
        .iter()
        .copied()
        .find(|op| has_code(*op, opcode, function))
}

/// Returns the place of a profile among profiles, from 1 on. Each has what those before it have.
pub fn profile_number(profile: Profile) -> u32
    ensures { result ≡ operators.profile_number profile }
{
    match profile {
        Profile::One => 1,
        Profile::Two => 2,
    }
}

/// Returns how many operators `profile` has; it has the first ones.
pub fn op_count(profile: Profile) -> u32
    ensures { result ≡ operators.op_count profile }
{
    match profile {
        Profile::One => 11,
        Profile::Two => 19,
    }
}

/// Checks whether `profile` has the operator `op`.
pub fn has_op(profile: Profile, op: Op) -> bool
    ensures { result ≡ operators.has_op profile op }
{
    op_number(op) < op_count(profile)
}

/// Returns `op` if it is an operator and `profile` has it, else None.
pub fn of_profile(profile: Profile, op: Option<Op>) -> Option<Op>
    ensures { result ≡ operators.of_profile profile op }
{
    let Some(op) = op else {
        return None;
    };
    if has_op(profile, op) { Some(op) } else { None }
}
