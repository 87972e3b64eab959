//! The words of code as bytes.

ghost use Rattle.std.specs.Prelude.{◌≡◌, IfOk};
ghost use Rattle.pcc_asm.specs.Words.{insn_word, code_bytes};
ghost use Rattle.bpf_compile.specs.Inside.Insns.{IsOneInsn, AreOneInsns};

use alpha_words::{Insn, encode};
use std::alloc::{AllocError, Global};
use word_ops::Profile;

/// The word that is written for an instruction.
#[tactic(auto, using(pcc_asm::proofs::Written::word_is))]
fn word_of(insn: Insn) -> u32
    requires { IsOneInsn insn }
    ensures { result ≡ insn_word insn }
{
    alpha_words::laws();
    encode(insn, Profile::One)
}

/// Returns the words of the code as bytes, each word little-endian.
///
/// Errors: out of memory.
#[tactic(auto, using(pcc_asm::proofs::Written::all_written))]
pub fn bytes_of(alloc: Global, code: &[Insn]) -> Result<Vec<u8>, AllocError>
    requires { AreOneInsns code.now }
    ensures { IfOk result (λ v. v.items ≡ code_bytes code.now) }
{
    let mut bytes = Vec::new(alloc);
    for i in 0..code.len() {
        bytes.extend_from_slice(&word_of(code[i]).to_le_bytes())?;
    }
    Ok(bytes)
}
