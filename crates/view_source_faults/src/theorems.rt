//! Theorems about the definitions; nothing here runs.

ghost use Rattle.std.specs.Prelude.{◌≡◌, ℕ, Bool, List, Some, Err, IsSome};
ghost use Rattle.word_ops.specs.declared.Profile.{Profile};
ghost use Rattle.asm_text.specs.declared.fault.LineFlaw.{LineFlaw};
ghost use Rattle.asm_text.specs.SourceParsing.{parsed_source};
ghost use Rattle.view_source_faults.specs.Laws.{IsTokenFlaw};
ghost use Rattle.view_faults.specs.Lines.{numbered_line};
ghost use Rattle.view_source_faults.specs.Spans.{flaw_span};

/// States that faults in a single token get a mark, for each profile, and whether invariants may
/// name the remaining steps or not. If a text isn't a source because of one token of a statement,
/// which isn't a mnemonic, is a wrong operand or isn't a formula, then the line reported is a line
/// of the text, and it has a mark.
#[tactic(auto, using(crate::proofs::Marked::fault_marked))]
pub fn laws()
    ensures marked { (p : Profile) (left : Bool) (text : List ℕ) (n : ℕ) (flaw : LineFlaw)
        → IsTokenFlaw flaw → parsed_source p left text ≡ Err (n, flaw) → (line : List ℕ)
        × (numbered_line text n ≡ Some line) × IsSome (flaw_span p left flaw line) }
{}
