//! Theorems about the definitions, with nothing to run.

ghost use Rattle.std.specs.Prelude.{◌≡◌, ℕ, ◌+◌, ◌^◌, ◌<◌, ◌↔◌, List, Some};
ghost use Rattle.x86_words.specs.declared.insn.X86Insn.{X86Insn};
ghost use Rattle.x86_machine.specs.declared.outcome.X86Outcome.TheVariants.{OutOfSteps};
ghost use Rattle.x86_machine.specs.Flags.{AfterCmp, AfterTest, AfterSubOne};
ghost use Rattle.x86_machine.specs.Machine.{X86, IsX86, StandsAtOffset, fetched, x86_step, x86_run};

/// Proves what conditions say: after a compare, the relations between the two words; after `test`,
/// how the word compares with 0, or its bit 0; after `sub f,1`, whether the count f was 0.
pub fn flag_laws()
    ensures compares { (a b : ℕ) → a < 2 ^ 64 → b < 2 ^ 64 → AfterCmp a b }
    ensures tests { (a : ℕ) → a < 2 ^ 64 → AfterTest a }
    ensures counts { (f : ℕ) → f < 2 ^ 64 → AfterSubOne f }
{}

/// Proves that a step takes the instruction that stands at the offset, if there is one, and what
/// steps and runs keep.
///
/// A step keeps sixteen words, a memory of words and aligned spans, and never changes access rights.
/// If a run is out of steps, running on is one run with the sum of both step limits.
pub fn laws()
    ensures stands { (code : List ℕ) (at : ℕ) (i : X86Insn) → (fetched code at ≡ Some i)
        ↔ StandsAtOffset code at i }
    ensures step { (code : List ℕ) (x : X86) → IsX86 x → IsX86 (x86_step code x).1 }
    ensures rights { (code : List ℕ) (n : ℕ) (x : X86) → (x86_run code n x).1.rights ≡ x.rights }
    ensures joins { (code : List ℕ) (n k : ℕ) (x y : X86)
        → x86_run code n x ≡ (OutOfSteps, y) → x86_run code k y ≡ x86_run code (n + k) x }
{}
