//! Theorems about the definitions; nothing here runs.

ghost use Rattle.std.specs.Prelude.{◌≡◌, ℕ, List, Ok, None, ◌↔◌, Bool, Option, is_some};
ghost use Rattle.proof_container.specs.Contents.{Contents};
ghost use Rattle.proof_container.specs.Encoding.{IsContents};
ghost use Rattle.view_container.specs.Sources.{source_listing};
ghost use Rattle.view_container.specs.Laws.{AreLineNumbers, IsListedSource};
ghost use Rattle.view_container.specs.Beside.{BesideView, first_other};
ghost use Rattle.word_ops.specs.declared.Profile.{Profile};
ghost use Rattle.alpha_words.specs.declared.insn.Insn.{Insn};
ghost use Rattle.formula_tree.specs.Formulas.{Form};
ghost use Rattle.alpha_cfg.specs.CodeBytes.{EncodesCode};
ghost use Rattle.term_table.specs.Bytes.{IsBytes};
ghost use Rattle.policy_set.specs.Views.{PolicyView};
ghost use Rattle.asm_text.specs.Sources.{Source, SpellsSource};
ghost use Rattle.proof_container.specs.Versions.{profile_of};
ghost use Rattle.pcc_asm.specs.Assembling.{plain_contents, assembled_code, assembled_contents};
ghost use Rattle.pcc_asm.specs.Words.{code_bytes};
ghost use Rattle.asm_print.specs.Listing.{ExtrasView, code_text, code_source};
ghost use Rattle.asm_print.specs.Laws.{IsSpellableCode, AreSpellableExtras};
ghost use Rattle.view_container.specs.Containers.{HoldsCode, HasWrittenReturns, without_proofs};

/// States what a listing that is a source assembles into. If the contents of a container have a
/// source listing, its text parses as exactly one source. That source assembles into the
/// container's code and, for each policy that the contents name, into the contents without lemmas
/// and proof, if each return has the hint that the assembler writes. No difference from a source's
/// code is noted exactly if that is the container's code.
pub fn laws()
    ensures source { (c : Contents) (beside : BesideView) (text : List ℕ) → IsContents c
        → AreLineNumbers beside.lines → source_listing c beside ≡ Ok text
        → IsListedSource c beside text }
    ensures same { (code other : List ℕ) → (first_other code other ≡ None) ↔ (code ≡ other) }
{
    crate::assembly_laws();
}

/// States the theorems about printed code. The text of code of a profile with its invariants parses
/// as exactly one source, whatever comments, hints and notes are printed with them. That source
/// assembles into that code; and for a policy and a version, with a step bound or without, into
/// what a container with that code and those invariants holds. So, for a container that holds them,
/// it assembles into the contents without lemmas and proof. Bytes that encode the code, each return
/// with the hint that the assembler writes, are the code bytes of such a container.
pub fn assembly_laws()
    ensures source { (p : Profile) (left : Bool) (code : List Insn) (invs : List (ℕ × Form))
        (extras : ExtrasView) (s : Source) → IsSpellableCode p left code invs
        → AreSpellableExtras extras
        → SpellsSource p left (code_text extras code invs) s ↔ (s ≡ code_source code invs) }
    ensures code { (p : Profile) (left : Bool) (code : List Insn) (invs : List (ℕ × Form))
        → IsSpellableCode p left code invs
        → assembled_code p (code_source code invs) ≡ Ok code }
    ensures contents { (v : ℕ) (bound : Option ℕ) (policy : PolicyView) (code : List Insn)
        (invs : List (ℕ × Form)) → IsSpellableCode (profile_of v) (is_some bound) code invs
        → assembled_contents v bound policy (code_source code invs)
        ≡ Ok (plain_contents v bound policy invs code) }
    ensures container { (policy : PolicyView) (code : List Insn) (invs : List (ℕ × Form))
        (c : Contents) → IsSpellableCode (profile_of c.version) (is_some c.bound) code invs
        → HoldsCode policy code invs c
        → assembled_contents c.version c.bound policy (code_source code invs)
        ≡ Ok (without_proofs c) }
    ensures words { (p : Profile) (bytes : List ℕ) (code : List Insn) → IsBytes bytes
        → EncodesCode p bytes code → HasWrittenReturns bytes code → bytes ≡ code_bytes code }
{
    asm_text::laws();
    asm_print::insn_laws();
    asm_print::laws();
    pcc_asm::laws();
}
