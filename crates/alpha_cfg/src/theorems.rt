//! Theorems about the definitions, with nothing to run.

ghost use Rattle.std.specs.Prelude.{◌≡◌, ℕ, ◌<◌, ◌≤◌, ◌*◌, ◌↔◌, Bool, List, length, Some, None, Ok, All};
ghost use Rattle.word_ops.specs.declared.Profile.{Profile};
ghost use Rattle.alpha_words.specs.declared.insn.Insn.{Insn};
ghost use Rattle.alpha_cfg.specs.declared.code.TheConstants.{MAX_WORDS};
ghost use Rattle.alpha_cfg.specs.Flow.{IsCode};
ghost use Rattle.alpha_cfg.specs.CodeDecoding.{decoded_code, IsReadCode};
ghost use Rattle.alpha_cfg.specs.Cuts.{AreFlags, IsCut, IsUncut};
ghost use Rattle.alpha_cfg.specs.Deciding.{flags_of, uncut_of};
ghost use Rattle.alpha_cfg.specs.Machine.{State, IsState, step_of, run_of};
ghost use Rattle.alpha_cfg.specs.Isolation.{ChangesWritable, DependsOnReadable, RunsJoin};

/// Proves that steps and runs of code preserve well-formed states, keep the index inside the code,
/// and don't change access rights.
pub fn laws()
    ensures step { (code : List Insn) (s : State) → IsCode code → s.index < length code → IsState s
        → IsState (step_of code s).1 }
    ensures step_within { (code : List Insn) (s : State) → IsCode code → s.index < length code
        → IsState s → (step_of code s).1.index < length code }
    ensures run { (code : List Insn) (n : ℕ) (s : State) → IsCode code → s.index < length code
        → IsState s → IsState (run_of code n s).1 }
    ensures run_within { (code : List Insn) (n : ℕ) (s : State) → IsCode code
        → s.index < length code → IsState s
        → (run_of code n s).1.index < length code }
    ensures rights { (code : List Insn) (n : ℕ) (s : State) → (run_of code n s).1.rights
        ≡ s.rights }
{}

/// Proves isolation, for any code. A run changes no address that isn't writable. Its outcome, its
/// registers and all readable memory depend only on registers and readable memory. If a run is out
/// of steps, running on is one run with the sum of both step limits.
pub fn isolation_laws()
    ensures changes { (code : List Insn) (n : ℕ) (s : State) → ChangesWritable code n s }
    ensures depends { (code : List Insn) (n : ℕ) (s : State) → DependsOnReadable code n s }
    ensures joins { (code : List Insn) (n k : ℕ) (s t : State) → RunsJoin code n k s t }
{}

/// Proves that the deciding functions agree with the relations. What the bytes decode to is code;
/// annotated indices have exactly one list of flags; `uncut_of` gives none exactly if they cut the
/// code, and else exactly the least index on a cycle without one.
pub fn decision_laws()
    ensures read { (p : Profile) (bytes : List ℕ) (code : List Insn) → 4 ≤ length bytes
        → length bytes ≤ 4 * MAX_WORDS → decoded_code p bytes ≡ Ok code → IsReadCode bytes code }
    ensures flags { (annotated : List ℕ) (count : ℕ) → All (λ i. i < count) annotated
        → AreFlags annotated count (flags_of annotated count) }
    ensures only_flags { (annotated : List ℕ) (count : ℕ) (marks : List Bool)
        → AreFlags annotated count marks → marks ≡ flags_of annotated count }
    ensures cut { (code : List Insn) (marks : List Bool) → IsCode code
        → (IsCut code marks ↔ (uncut_of code marks ≡ None)) }
    ensures uncut { (code : List Insn) (marks : List Bool) (i : ℕ) → IsCode code
        → (IsUncut code marks i ↔ (uncut_of code marks ≡ Some i)) }
{}
