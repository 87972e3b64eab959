//! Theorems about the definitions; nothing here runs.

ghost use Rattle.std.specs.Prelude.{◌≡◌, ◌↔◌, ℕ, List, Ok, Err};
ghost use Rattle.bpf_words.specs.declared.insn.Bpf.{Bpf};
ghost use Rattle.bpf_words.specs.declared.fault.BpfFlaw.{BpfFlaw};
ghost use Rattle.bpf_words.specs.Flaws.{MeansFlaw};
ghost use Rattle.bpf_words.specs.Programs.{IsProgram};
ghost use Rattle.bpf_words.specs.Reading.{AreBytes, program_of, HasInsns};
ghost use Rattle.bpf_words.specs.Values.{bpf_value, ComesTo};

/// States the theorems about reading and values. A program that is read has the instructions of all
/// bytes, one for each eight, in their order (`reads`), and is well formed (`program`); nothing else
/// is a program that is read (`exact`). A flaw is found exactly if what its kind says holds, and no
/// flaw that is tested before it does (`means`). A program has its value on a packet (`comes_to`),
/// and no other (`one`).
pub fn laws()
    ensures reads { (bytes : List ℕ) (program : List Bpf) → program_of bytes ≡ Ok program
        → HasInsns bytes program }
    ensures program { (bytes : List ℕ) (program : List Bpf) → AreBytes bytes
        → program_of bytes ≡ Ok program → IsProgram program }
    ensures exact { (bytes : List ℕ) (program : List Bpf) → AreBytes bytes
        → (program_of bytes ≡ Ok program) ↔ (HasInsns bytes program × IsProgram program) }
    ensures means { (bytes : List ℕ) (flaw : BpfFlaw) → (program_of bytes ≡ Err flaw)
        ↔ MeansFlaw bytes flaw }
    ensures comes_to { (program : List Bpf) (packet : List ℕ) → IsProgram program
        → ComesTo program packet 0 0 (bpf_value program packet) }
    ensures one { (program : List Bpf) (packet : List ℕ) (i a v w : ℕ)
        → ComesTo program packet i a v → ComesTo program packet i a w → v ≡ w }
{}
