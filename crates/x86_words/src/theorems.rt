//! Theorems about the definitions, with nothing to run.

ghost use Rattle.std.specs.Prelude.{◌≡◌, ℕ, ◌↔◌, ◌++◌, List, length, Some};
ghost use Rattle.x86_words.specs.declared.insn.X86Insn.{X86Insn};
ghost use Rattle.x86_words.specs.Encoding.{bytes_of, length_of, EncodesX86};
ghost use Rattle.x86_words.specs.Decoding.{BeginsWith, insn_at_front};

/// Proves that bytes begin with at most one instruction, which the decoder's definition finds.
///
/// No instruction's bytes are the front of another's. Each form has one length.
pub fn laws()
    ensures one { (b : List ℕ) (i j : X86Insn) → BeginsWith b i → BeginsWith b j → i ≡ j }
    ensures front { (b : List ℕ) (i : X86Insn) → (insn_at_front b ≡ Some i) ↔ BeginsWith b i }
    ensures lengths { (i : X86Insn) → length (bytes_of i) ≡ length_of i }
{}
