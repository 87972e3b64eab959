//! Theorems about the definitions, with nothing to run.

ghost use Rattle.std.specs.Prelude.{◌≡◌, ◌↔◌, ℕ, Bool, List, take, Ok, Err};
ghost use Rattle.word_ops.specs.declared.Profile.{Profile};
ghost use Rattle.text_tokens.specs.Tokens.{Token};
ghost use Rattle.asm_text.specs.declared.fault.LineFlaw.{LineFlaw};
ghost use Rattle.asm_text.specs.declared.marks.Punct.{Punct};
ghost use Rattle.asm_text.specs.Insns.{SourceInsn, SpellsInsn};
ghost use Rattle.asm_text.specs.InsnParsing.{parsed_insn};
ghost use Rattle.text_tokens.specs.Lines.{AreLines, lines_of};
ghost use Rattle.asm_text.specs.Sources.{Source, SpellsSource};
ghost use Rattle.asm_text.specs.SourceParsing.{parsed_source};
ghost use Rattle.asm_text.specs.Faults.{FailsAt, IsSourceFault, BeginsNoSource};

/// Proves that the parser and the grammar agree, for each profile, whether invariants may name the
/// remaining steps or not.
///
/// Tokens spell an instruction, and a text has lines and spells a source, exactly if it parses as
/// that. A text has an error exactly if the parser reports it, so it either has one error or spells
/// one source. No source begins with the lines up to one that fails.
pub fn laws()
    ensures insns { (p : Profile) (ts : List (Token Punct)) (i : SourceInsn)
        → SpellsInsn p i ts ↔ (parsed_insn p ts ≡ Ok i) }
    ensures lines { (text : List ℕ) (ls : List (List ℕ)) → AreLines text ls ↔ (lines_of text ≡ ls) }
    ensures sources { (p : Profile) (left : Bool) (text : List ℕ) (s : Source)
        → SpellsSource p left text s ↔ (parsed_source p left text ≡ Ok s) }
    ensures faults { (p : Profile) (left : Bool) (text : List ℕ) (n : ℕ) (flaw : LineFlaw)
        → (parsed_source p left text ≡ Err (n, flaw)) ↔ IsSourceFault p left text n flaw }
    ensures begins { (p : Profile) (left : Bool) (text : List ℕ) (n : ℕ) (flaw : LineFlaw)
        (lines : List (List ℕ)) → FailsAt p left text n flaw → AreLines text lines
        → BeginsNoSource p left (take n lines) }
{}
