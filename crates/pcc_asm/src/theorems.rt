//! Theorems about the definitions, with nothing to run.

ghost use Rattle.std.specs.Prelude.{◌≡◌, ◌↔◌, Bool, List, Ok, Err};
ghost use Rattle.word_ops.specs.declared.Profile.{Profile};
ghost use Rattle.alpha_words.specs.declared.insn.Insn.{Insn};
ghost use Rattle.asm_text.specs.Sources.{Source};
ghost use Rattle.pcc_asm.specs.declared.fault.AsmFlaw.{AsmFlaw};
ghost use Rattle.pcc_asm.specs.Assembling.{IsAssembled, assembled_code};
ghost use Rattle.pcc_asm.specs.Faults.{IsAsmFault};
ghost use Rattle.pcc_asm.specs.Views.{IsSpelled};

/// Proves that the assembler and its specification agree.
///
/// For a source that some text spells in a profile, the assembler returns instructions exactly if
/// they are the source's and are code of that profile. A source has an error exactly if the
/// assembler reports it, so it has one error or one code.
pub fn laws()
    ensures assembled { (p : Profile) (left : Bool) (s : Source) (insns : List Insn) →
        IsSpelled p left s →
        IsAssembled p s insns ↔ (assembled_code p s ≡ Ok insns) }
    ensures faults { (p : Profile) (s : Source) (flaw : AsmFlaw)
        → (assembled_code p s ≡ Err flaw) ↔ IsAsmFault p s flaw }
{}
