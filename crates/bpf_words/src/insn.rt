//! Instructions of classic BPF.

ghost use Rattle.std.specs.Prelude.{◌≡◌};
ghost use Rattle.bpf_words.specs.Programs.{bpf_op};

/// The maximal number of instructions in a program.
pub const MAX_PROGRAM: usize = 40;

/// How many bytes, from the packet's first on, a load may read; no packet of a program is shorter.
pub const LOADABLE: usize = 64;

/// An instruction as its fields. A field that the instruction doesn't use may have any value.
#[derive(Clone, Copy, Debug, PartialEq, Eq)]
pub struct Bpf {
    /// The opcode.
    pub code: u16,
    /// How many instructions a jump skips if its test holds.
    pub jt: u8,
    /// How many instructions a jump skips if its test doesn't hold.
    pub jf: u8,
    /// An offset in bytes, a constant, a number of bits, or a number of instructions to skip.
    pub k: u32,
}

/// The test of a conditional jump, which compares A with k.
#[derive(Clone, Copy, Debug, PartialEq, Eq)]
pub enum BpfTest {
    /// A equals k.
    Jeq,
    /// A is greater than k.
    Jgt,
    /// A is greater than or equal to k.
    Jge,
    /// A and k have a bit in common.
    Jset,
}

/// What an instruction does; A is the accumulator, a register of 32 bits.
#[derive(Clone, Copy, Debug, PartialEq, Eq)]
pub enum BpfOp {
    /// Loads the four bytes of the packet at offset k, big-endian.
    Ld,
    /// Loads the two bytes at offset k, big-endian.
    Ldh,
    /// Loads the byte at offset k.
    Ldb,
    /// Loads k itself.
    LdImm,
    /// Adds k, modulo 2^32.
    Add,
    /// Sets the bits of k (bitwise or).
    Or,
    /// Clears all bits but those of k (bitwise and).
    And,
    /// Shifts A to the right by k bits.
    Rsh,
    /// Skips k instructions.
    Ja,
    /// Skips jt instructions if the test holds, else jf.
    Jump(BpfTest),
    /// Returns k.
    Ret,
    /// Returns A.
    RetA,
}

/// Returns what an instruction with this opcode does, or None if no instruction has the opcode.
pub fn bpf_op(code: u16) -> Option<BpfOp>
    ensures exact { result ≡ bpf_op code }
{
    match code {
        0x20 => Some(BpfOp::Ld),
        0x28 => Some(BpfOp::Ldh),
        0x30 => Some(BpfOp::Ldb),
        0x00 => Some(BpfOp::LdImm),
        0x04 => Some(BpfOp::Add),
        0x44 => Some(BpfOp::Or),
        0x54 => Some(BpfOp::And),
        0x74 => Some(BpfOp::Rsh),
        0x05 => Some(BpfOp::Ja),
        0x15 => Some(BpfOp::Jump(BpfTest::Jeq)),
        0x25 => Some(BpfOp::Jump(BpfTest::Jgt)),
        0x35 => Some(BpfOp::Jump(BpfTest::Jge)),
        0x45 => Some(BpfOp::Jump(BpfTest::Jset)),
        0x06 => Some(BpfOp::Ret),
        0x16 => Some(BpfOp::RetA),
        _ => None,
    }
}
