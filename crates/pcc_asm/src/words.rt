//! The instruction words of code.

ghost use Rattle.std.specs.Prelude.{◌≡◌, IfOk};
ghost use Rattle.std.specs.List.{AllByRecursion};
ghost use Rattle.pcc_asm.specs.Inside.Views.{IsEncodable};
ghost use Rattle.pcc_asm.specs.Words.{insn_word, code_bytes};

use alpha_words::{Insn, encode};
use std::alloc::{AllocError, Global};
use word_ops::Profile;

/// Returns the word that encodes an instruction of the profile.
#[tactic(auto, using(crate::proofs::Written::word_is))]
fn word_of(insn: Insn, profile: Profile) -> u32
    requires { IsEncodable profile insn }
    ensures { result ≡ insn_word insn }
{
    encode(insn, profile)
}

/// Returns the words of the profile's instructions as bytes, little-endian. Errors: out of memory.
#[tactic(auto, using(crate::proofs::Written::all_written))]
pub fn bytes_of(alloc: Global, code: &[Insn], profile: Profile) -> Result<Vec<u8>, AllocError>
    requires { AllByRecursion (IsEncodable profile) code.now }
    ensures { IfOk result (λ v. v.items ≡ code_bytes code.now) }
{
    let mut bytes = Vec::new(alloc);
    for i in 0..code.len() {
        bytes.extend_from_slice(&word_of(code[i], profile).to_le_bytes())?;
    }
    Ok(bytes)
}
