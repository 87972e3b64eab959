//! Theorems about upgraded containers; their functions run nothing.

ghost use Rattle.gate_upgrade.specs.Laws.{UpgradedExactly, UpgradeRefused, UpgradedAccepted};
ghost use Rattle.std.specs.Prelude.{◌≡◌, ◌≤◌, ℕ, List, Ok};
ghost use Rattle.word_ops.specs.declared.Profile.TheVariants.{One, Two};
ghost use Rattle.alpha_words.specs.declared.insn.Insn.{Insn};
ghost use Rattle.alpha_words.specs.Encoding.{Encodes};
ghost use Rattle.alpha_words.specs.Decoding.{decoded};
ghost use Rattle.alpha_cfg.specs.CodeBytes.{EncodesCode};
ghost use Rattle.term_table.specs.Tree.{Tree};
ghost use Rattle.term_table.specs.Measures.{weight_of};
ghost use Rattle.lf_signature.specs.Typing.{Checks};
ghost use Rattle.lf_signature.specs.Constants.{size_of, op_count_of, places_of, declared};
ghost use Rattle.lf_signature.specs.declared.editions.WordSignature.{WordSignature};

/// States that a relation between two containers says what bytes are upgraded to (`exactly`), that
/// bytes are refused with a flaw exactly if it is the first of their tests that fails (`refused`),
/// and that an accepted container is upgraded to an accepted one: whatever profile 1 and its
/// signature have, the later ones have unchanged.
pub fn laws()
    ensures exactly { UpgradedExactly }
    ensures refused { UpgradeRefused }
    ensures accepted { UpgradedAccepted }
{
    proof_container::laws();
    crate::profile_laws();
    crate::longer_laws();
}

/// States that an instruction word that encodes an instruction in profile 1 encodes it in profile
/// 2, and is decoded to it there; so bytes of code in profile 1 are bytes of equal code in profile
/// 2.
pub fn profile_laws()
    ensures words { (w : ℕ) (i : Insn) → Encodes One w i → Encodes Two w i }
    ensures reads { (w : ℕ) (i : Insn) → decoded One w ≡ Ok i → decoded Two w ≡ Ok i }
    ensures code { (bytes : List ℕ) (code : List Insn) →
        EncodesCode One bytes code → EncodesCode Two bytes code }
{}

/// States that whatever checks over a signature of word arithmetic checks over each signature with
/// no fewer constants and operators. Its weight by the parameters of the longer signature equals
/// its weight by those of the shorter one.
pub fn longer_laws()
    ensures checks { (s u : WordSignature) (ctx : List Tree) (m a : Tree) →
        size_of s ≤ size_of u → op_count_of s ≤ op_count_of u →
        Checks (declared s) ctx m a → Checks (declared u) ctx m a }
    ensures weighs { (s u : WordSignature) (ctx : List Tree) (m a : Tree) → size_of s ≤ size_of u →
        Checks (declared s) ctx m a →
        weight_of (places_of u) m ≡ weight_of (places_of s) m }
{}
