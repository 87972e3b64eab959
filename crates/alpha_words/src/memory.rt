//! The table of the instructions of the memory format: the names of each in sources and instruction
//! words, what it does with its first register, and the first profile that has it.
//!
//! A new instruction is a row here and a row in `specs/MemoryOps`; the texts and words of the
//! crates above look it up. Source: Alpha Architecture Handbook, "Memory Integer Load/Store
//! Instructions" and the opcode tables.

ghost use Rattle.std.specs.Prelude.{◌≡◌, ◌<◌, ◌==◌};
ghost use Rattle.std.specs.Str.{bytes_eq};
ghost use Rattle.alpha_words.specs.MemoryOps as table;

use word_ops::{Profile, profile_number};

/// An instruction of the memory format, without its operands.
#[derive(Clone, Copy, Debug, PartialEq, Eq)]
pub enum MemoryOp {
    /// Computes an address.
    Lda,
    /// Computes a far address: its displacement is in units of 65,536 bytes.
    Ldah,
    /// Loads a quadword.
    Ldq,
    /// Loads the quadword that holds a byte.
    LdqU,
    /// Stores a quadword.
    Stq,
}

/// What an instruction of the memory format does with its first register.
#[derive(Clone, Copy, Debug, PartialEq, Eq)]
pub enum MemoryKind {
    /// Writes an address into the register.
    Address,
    /// Writes a quadword of memory into the register.
    Load,
    /// Writes the register's word into memory.
    Store,
}

/// All instructions of the memory format, in the order of their opcodes.
const MEMORY_OPS: [MemoryOp; 5] = [
    MemoryOp::Lda,
    MemoryOp::Ldah,
    MemoryOp::LdqU,
    MemoryOp::Ldq,
    MemoryOp::Stq,
];

/// The opcode, mnemonic, kind and first profile of an instruction.
#[derive(Clone, Copy)]
struct Row(u32, &'static str, MemoryKind, Profile);

/// Returns the instruction's row of the table.
fn memory_row(op: MemoryOp) -> Row
    ensures opcode { result.0 ≡ table.memory_opcode op }
    ensures mnemonic { result.1.now ≡ table.memory_mnemonic op }
    ensures kind { result.2 ≡ table.memory_kind op }
    ensures since { result.3 ≡ table.memory_since op }
{
    match op {
        MemoryOp::Lda => Row(0x08, "lda", MemoryKind::Address, Profile::One),
        MemoryOp::Ldah => Row(0x09, "ldah", MemoryKind::Address, Profile::Two),
        MemoryOp::LdqU => Row(0x0b, "ldq_u", MemoryKind::Load, Profile::Two),
        MemoryOp::Ldq => Row(0x29, "ldq", MemoryKind::Load, Profile::One),
        MemoryOp::Stq => Row(0x2d, "stq", MemoryKind::Store, Profile::One),
    }
}

/// Returns the opcode, below 64, of an instruction of the memory format.
pub fn memory_opcode(op: MemoryOp) -> u32
    ensures value { result ≡ table.memory_opcode op }
    ensures below { result < 64 }
{
    memory_row(op).0
}

/// Returns the mnemonic of an instruction of the memory format.
pub fn memory_mnemonic(op: MemoryOp) -> &'static str
    ensures { result.now ≡ table.memory_mnemonic op }
{
    memory_row(op).1
}

/// Returns what an instruction of the memory format does with its first register.
pub fn memory_kind(op: MemoryOp) -> MemoryKind
    ensures { result ≡ table.memory_kind op }
{
    memory_row(op).2
}

/// Checks whether `profile` has the instruction of the memory format `op`.
pub fn has_memory_op(profile: Profile, op: MemoryOp) -> bool
    ensures { result ≡ table.has_memory_op profile op }
{
    profile_number(memory_row(op).3) <= profile_number(profile)
}

/// Returns the instruction of the memory format with this opcode, or None if none has it.
pub fn memory_op_at(opcode: u32) -> Option<MemoryOp>
    ensures { result ≡ table.memory_op_at opcode }
{
    MEMORY_OPS
        .iter()
        .copied()
        .find(|op| memory_opcode(*op) == opcode)
}

/// Checks whether `text` is the mnemonic of the instruction.
fn has_mnemonic(op: MemoryOp, text: &[u8]) -> bool
    ensures { result ≡ bytes_eq text.now (table.memory_mnemonic op) }
{
    text == memory_mnemonic(op).as_bytes()
}

/// Returns the instruction of the memory format whose mnemonic is `text`, or None if none has it.
#[tactic(auto, unfolding(crate::specs::MemoryOps::memory_op_named))]
pub fn memory_op_named(text: &[u8]) -> Option<MemoryOp>
    ensures { result ≡ table.memory_op_named text.now }
{
    MEMORY_OPS
        .iter()
        .copied()
        .find(|op| has_mnemonic(*op, text))
}

/// Returns `op` if it is an instruction and `profile` has it, else None.
pub fn memory_op_of(profile: Profile, op: Option<MemoryOp>) -> Option<MemoryOp>
    ensures { result ≡ table.memory_op_of profile op }
{
    let Some(op) = op else {
        return None;
    };
    if has_memory_op(profile, op) {
        Some(op)
    } else {
        None
    }
}
