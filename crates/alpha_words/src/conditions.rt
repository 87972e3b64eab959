//! The table of the conditions of branches: the opcode and mnemonic of each, what it compares with
//! 0 and how, and whether the branch is taken if that holds or if it doesn't.
//!
//! A new condition is a row here and a row in `specs/Conditions`; the crates above look it up.
//! Source: Alpha Architecture Handbook, "Conditional Branch" and the opcode tables.

ghost use Rattle.std.specs.Prelude.{◌≡◌, ◌<◌};
ghost use Rattle.alpha_words.specs.Conditions as table;

use word_ops::Rel;

/// The condition of a conditional branch: a test of a register's lowest bit or of its sign.
#[derive(Clone, Copy, Debug, PartialEq, Eq)]
pub enum Cond {
    /// `blbc`: the lowest bit is 0.
    LowClear,
    /// `beq`: the word is 0.
    Zero,
    /// `blt`: the word is below 0, in two's complement.
    Negative,
    /// `ble`: the word is at most 0, in two's complement.
    NotPositive,
    /// `blbs`: the lowest bit is 1.
    LowSet,
    /// `bne`: the word isn't 0.
    NotZero,
    /// `bge`: the word is at least 0, in two's complement.
    NotNegative,
    /// `bgt`: the word is above 0, in two's complement.
    Positive,
}

/// What a branch compares with 0.
#[derive(Clone, Copy, Debug, PartialEq, Eq)]
pub enum Tested {
    /// The word.
    Word,
    /// The word's lowest bit.
    LowBit,
}

/// How a branch compares with 0, in two's complement.
#[derive(Clone, Copy, Debug, PartialEq, Eq)]
pub enum ToZero {
    /// It is 0.
    Equal,
    /// It is below 0.
    Less,
    /// It is at most 0.
    AtMost,
}

/// All conditions, in the order of their opcodes.
const CONDITIONS: [Cond; 8] = [
    Cond::LowClear,
    Cond::Zero,
    Cond::Negative,
    Cond::NotPositive,
    Cond::LowSet,
    Cond::NotZero,
    Cond::NotNegative,
    Cond::Positive,
];

/// The opcode and mnemonic of a condition, what is compared with 0, how, and whether the branch is
/// taken if that holds.
#[derive(Clone, Copy)]
struct Row(u32, &'static str, Tested, ToZero, bool);

/// Returns the condition's row of the table.
#[inline(always)]
fn cond_row(cond: Cond) -> Row
    ensures opcode { result.0 ≡ table.cond_opcode_of cond }
    ensures mnemonic { result.1.now ≡ table.cond_mnemonic cond }
    ensures tested { result.2 ≡ table.cond_tested cond }
    ensures to_zero { result.3 ≡ table.cond_to_zero cond }
    ensures taken { result.4 ≡ table.cond_taken cond }
{
    match cond {
        Cond::LowClear => Row(0x38, "blbc", Tested::LowBit, ToZero::Equal, true),
        Cond::Zero => Row(0x39, "beq", Tested::Word, ToZero::Equal, true),
        Cond::Negative => Row(0x3a, "blt", Tested::Word, ToZero::Less, true),
        Cond::NotPositive => Row(0x3b, "ble", Tested::Word, ToZero::AtMost, true),
        Cond::LowSet => Row(0x3c, "blbs", Tested::LowBit, ToZero::Equal, false),
        Cond::NotZero => Row(0x3d, "bne", Tested::Word, ToZero::Equal, false),
        Cond::NotNegative => Row(0x3e, "bge", Tested::Word, ToZero::Less, false),
        Cond::Positive => Row(0x3f, "bgt", Tested::Word, ToZero::AtMost, false),
    }
}

/// Returns the opcode, below 64, of a conditional branch.
pub fn cond_opcode_of(cond: Cond) -> u32
    ensures value { result ≡ table.cond_opcode_of cond }
    ensures below { result < 64 }
{
    cond_row(cond).0
}

/// Returns the mnemonic of a conditional branch.
pub fn cond_mnemonic(cond: Cond) -> &'static str
    ensures { result.now ≡ table.cond_mnemonic cond }
{
    cond_row(cond).1
}

/// Returns what a branch on the condition compares with 0.
#[inline(always)]
pub fn cond_tested(cond: Cond) -> Tested
    ensures { result ≡ table.cond_tested cond }
{
    cond_row(cond).2
}

/// Returns how a branch on the condition compares with 0.
#[inline(always)]
pub fn cond_to_zero(cond: Cond) -> ToZero
    ensures { result ≡ table.cond_to_zero cond }
{
    cond_row(cond).3
}

/// Returns the relation by which a branch on the condition compares with 0.
#[inline(always)]
pub fn cond_relation(cond: Cond) -> Rel
    ensures { result ≡ table.cond_relation cond }
{
    match cond_to_zero(cond) {
        ToZero::Equal => Rel::Eq,
        ToZero::Less => Rel::Slt,
        ToZero::AtMost => Rel::Sle,
    }
}

/// Checks whether a branch on the condition is taken if the comparison holds; else it is taken if
/// the comparison doesn't hold.
#[inline(always)]
pub fn cond_taken(cond: Cond) -> bool
    ensures { result ≡ table.cond_taken cond }
{
    cond_row(cond).4
}

/// Returns the condition of the branch with this opcode, or None if the opcode is no conditional
/// branch's.
pub fn cond_at(opcode: u32) -> Option<Cond>
    ensures { result ≡ table.cond_at opcode }
{
    CONDITIONS
        .iter()
        .copied()
        .find(|cond| cond_opcode_of(*cond) == opcode)
}
