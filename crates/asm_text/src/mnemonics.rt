//! Mnemonics.

ghost use Rattle.std.specs.Prelude.{◌≡◌};
ghost use Rattle.std.specs.Str.{bytes_eq};
ghost use Rattle.asm_text.specs.Mnemonics.{mnemonic_text};
ghost use Rattle.asm_text.specs.Mnemonics.{other_mnemonic, mnemonic_of};

use alpha_words::{Cond, MemoryOp, cond_mnemonic, memory_mnemonic, memory_op_named, memory_op_of};
use word_ops::{Op, Profile, of_profile, op_mnemonic, op_of_mnemonic};

/// What the first lexeme of an instruction names.
#[derive(Clone, Copy, Debug, PartialEq, Eq)]
pub enum Mnemonic {
    /// An instruction of the memory format.
    Memory(MemoryOp),
    /// An operator.
    Oper(Op),
    /// A conditional branch.
    Branch(Cond),
    /// `br`.
    Br,
    /// `ret`.
    Ret,
    /// `nop`.
    Nop,
}

/// The mnemonics that are neither operators nor of the memory format, by opcode.
const MNEMONICS: [Mnemonic; 11] = [
    Mnemonic::Nop,
    Mnemonic::Ret,
    Mnemonic::Br,
    Mnemonic::Branch(Cond::LowClear),
    Mnemonic::Branch(Cond::Zero),
    Mnemonic::Branch(Cond::Negative),
    Mnemonic::Branch(Cond::NotPositive),
    Mnemonic::Branch(Cond::LowSet),
    Mnemonic::Branch(Cond::NotZero),
    Mnemonic::Branch(Cond::NotNegative),
    Mnemonic::Branch(Cond::Positive),
];

fn mnemonic_text(mnemonic: Mnemonic) -> &'static str
    ensures { result.now ≡ mnemonic_text mnemonic }
{
    match mnemonic {
        Mnemonic::Memory(op) => memory_mnemonic(op),
        Mnemonic::Oper(op) => op_mnemonic(op),
        Mnemonic::Branch(cond) => cond_mnemonic(cond),
        Mnemonic::Br => "br",
        Mnemonic::Ret => "ret",
        Mnemonic::Nop => "nop",
    }
}

/// Checks whether the lexeme is this mnemonic.
fn is_mnemonic(mnemonic: Mnemonic, lexeme: &[u8]) -> bool
    ensures { result ≡ bytes_eq lexeme.now (mnemonic_text mnemonic) }
{
    lexeme == mnemonic_text(mnemonic).as_bytes()
}

/// Returns the mnemonic that the lexeme is, of those that are neither operators nor of the memory
/// format.
#[tactic(auto, unfolding(crate::specs::Mnemonics::other_mnemonic))]
fn other_mnemonic(lexeme: &[u8]) -> Option<Mnemonic>
    ensures { result ≡ other_mnemonic lexeme.now }
{
    MNEMONICS
        .iter()
        .copied()
        .find(|mnemonic| is_mnemonic(*mnemonic, lexeme))
}

/// Returns the mnemonic of `profile` that the lexeme is, or None if it is none.
#[tactic(auto, unfolding(crate::specs::Mnemonics::mnemonic_of))]
pub fn mnemonic_named(lexeme: &[u8], profile: Profile) -> Option<Mnemonic>
    ensures { result ≡ mnemonic_of profile lexeme.now }
{
    match of_profile(profile, op_of_mnemonic(lexeme)) {
        Some(op) => Some(Mnemonic::Oper(op)),
        None => match memory_op_of(profile, memory_op_named(lexeme)) {
            Some(op) => Some(Mnemonic::Memory(op)),
            None => other_mnemonic(lexeme),
        },
    }
}
