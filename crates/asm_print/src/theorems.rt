//! Theorems about the definitions, with nothing to run.

ghost use Rattle.std.specs.Prelude.{◌≡◌, ℕ, Bool, List, length, map, ◌<◌, ◌≤◌, ◌^◌, true};
ghost use Rattle.std.specs.Prelude.{slice_get, Some};
ghost use Rattle.word_ops.specs.declared.Profile.{Profile};
ghost use Rattle.formula_tree.specs.Formulas.{Form};
ghost use Rattle.alpha_words.specs.declared.insn.Insn.{Insn};
ghost use Rattle.asm_text.specs.Sources.{HaveInsns, SpellsSource};
ghost use Rattle.asm_print.specs.Targets.{is_target};
ghost use Rattle.asm_print.specs.Listing.{ExtrasView, code_text, code_source};
ghost use Rattle.asm_print.specs.Laws.{IsSpellableCode, AreSpellableExtras, source_insns_from};
ghost use Rattle.asm_print.specs.Laws.{labels_where};
ghost use Rattle.alpha_words.specs.Encoding.{has_insn};
ghost use Rattle.alpha_cfg.specs.Flow.{IsCode};
ghost use Rattle.text_tokens.specs.Lines.{IsLine};
ghost use Rattle.text_tokens.specs.Tokens.{Token, Consists};
ghost use Rattle.asm_text.specs.declared.marks.Punct.{Punct};
ghost use Rattle.asm_text.specs.Marks.{source_class};
ghost use Rattle.asm_text.specs.Labels.{is_label};
ghost use Rattle.asm_text.specs.Insns.{SpellsInsn};
ghost use Rattle.asm_text.specs.Statements.{are_printable, before_comment};
ghost use Rattle.asm_print.specs.declared.limits.TheConstants.{MAX_INSN_TEXT};
ghost use Rattle.asm_print.specs.Printing.{label_text, insn_text, source_insn, IsSpellable};

/// Proves that the printed text of code with its invariants spells the source of its lines.
///
/// This holds for each profile, whether invariants may name the remaining steps or not. The source
/// doesn't depend on the comments, hints and notes. Its instructions are the code's, in order. It
/// has a label for each index that a branch goes to. Its invariants are the given ones.
pub fn laws()
    ensures spells { (p : Profile) (left : Bool) (code : List Insn) (invs : List (ℕ × Form))
        (extras : ExtrasView) → IsSpellableCode p left code invs → AreSpellableExtras extras
        → SpellsSource p left (code_text extras code invs) (code_source code invs) }
    ensures insns { (code : List Insn) (invs : List (ℕ × Form))
        → map (λ x. x.1) (code_source code invs).insns ≡ source_insns_from 0 code }
    ensures labels { (code : List Insn) (invs : List (ℕ × Form))
        → (code_source code invs).labels ≡ labels_where (is_target code) 0 code }
    ensures invs { (code : List Insn) (invs : List (ℕ × Form)) → HaveInsns 0 (length code) invs
        → (code_source code invs).invs ≡ invs }
{
    formula_text::laws();
    crate::insn_laws();
}

/// Proves that an instruction's printed text spells it under each profile that has it.
///
/// A branch goes to the label of its target index. The text is printable, has no comment, is on one
/// line, and is short. The text of an index is a label, and different indices have different
/// labels. All of this holds for every instruction of well-formed code.
pub fn insn_laws()
    ensures spells { (p : Profile) (i : ℕ) (insn : Insn)
        → has_insn p insn ≡ true → IsSpellable i insn
        → (ts : List (Token Punct)) × Consists source_class (insn_text i insn) ts
        × SpellsInsn p (source_insn i insn) ts }
    ensures printable { (i : ℕ) (insn : Insn) → IsSpellable i insn
        → are_printable (insn_text i insn) ≡ true }
    ensures comment { (i : ℕ) (insn : Insn) → IsSpellable i insn
        → before_comment (insn_text i insn) ≡ insn_text i insn }
    ensures line { (i : ℕ) (insn : Insn) → IsSpellable i insn → IsLine (insn_text i insn) }
    ensures short { (i : ℕ) (insn : Insn) → IsSpellable i insn
        → length (insn_text i insn) ≤ MAX_INSN_TEXT }
    ensures label { (i : ℕ) → i < 2 ^ 64 → is_label (label_text i) ≡ true }
    ensures one_label { (i j : ℕ) → i < 2 ^ 64 → j < 2 ^ 64
        → label_text i ≡ label_text j → i ≡ j }
    ensures code { (code : List Insn) (i : ℕ) (insn : Insn) → IsCode code
        → slice_get code i ≡ Some insn → IsSpellable i insn }
{}
