//! Theorems about the definitions; nothing here runs.

ghost use Rattle.std.specs.Prelude.{ℕ, ◌<◌, IsSome};
ghost use Rattle.word_ops.specs.Rights.{Rights};
ghost use Rattle.alpha_cfg.specs.Machine.{IsState, run_of};
ghost use Rattle.formula_tree.specs.Truth.{IsValid};
ghost use Rattle.policy_set.specs.Satisfies.{Satisfies};
ghost use Rattle.reference_machine.specs.Agents.{EndBy};
ghost use Rattle.reference_machine.specs.Arena.{IsZeroFrom};
ghost use Rattle.reference_machine.specs.Starts.{StartView, Fits, start_regs, start_state};
ghost use Rattle.vcgen.specs.Conditions.{AnnotatedCode, condition};
ghost use Rattle.vcgen.specs.Safety.{IsAnnotated, all_steps};
ghost use Rattle.host_steps.specs.declared.ended.Ended.{Ended};
ghost use Rattle.host_steps.specs.Stepping.{EndsUnblocked};
ghost use Rattle.host_steps.specs.Parts.{PartView, PartFits, open_state, part_at_start, rights_of, IsPartRun, IsPartRunUnder};

/// States the theorems about annotated code whose verification condition is true.
///
/// If a start lies in a part and satisfies the precondition, its rights fit the part, with all
/// steps of the bound left (`start`). If steps are bounded, rights fit only while some steps are
/// left (`left`). Under rights that fit, a run that tests no access isn't blocked (`unblocked`) and
/// is the run of the machine that tests each access. If it ends out of steps, the rights fit again,
/// with its steps fewer left; a run that might make all that are left of a bound returns (`run`).
/// If the rights allow no store from some quadword on, and all quadwords from there on are 0, they
/// stay 0 (`unwritten`).
pub fn laws()
    ensures start { (c : AnnotatedCode) (base : ℕ) (setup : StartView) → IsAnnotated c
        → IsValid (condition c) → Fits base setup → IsState (start_state base setup)
        → Satisfies (rights_of setup) (start_regs setup) (start_state base setup).memory c.pre
        → PartFits c (all_steps c.bound) (part_at_start base setup) (rights_of setup) }
    ensures left { (c : AnnotatedCode) (p : PartView) (left : ℕ) (rights : Rights)
        → IsAnnotated c → IsValid (condition c) → PartFits c left p rights → IsSome c.bound
        → 0 < left }
    ensures unblocked { (c : AnnotatedCode) (p : PartView) (n left : ℕ) (rights : Rights)
        → IsAnnotated c → IsValid (condition c) → PartFits c left p rights
        → EndsUnblocked (run_of c.code n (open_state p)).0 }
    ensures run { (c : AnnotatedCode) (p : PartView) (n left : ℕ) (result : Ended) (q : PartView)
        → IsAnnotated c → IsValid (condition c) → IsPartRun c p n result q
        → (rights : Rights) → PartFits c left p rights
        → IsPartRunUnder c p n left result q rights }
    ensures unwritten { (c : AnnotatedCode) (p : PartView) (n left : ℕ) (result : Ended)
        → (q : PartView) (rights : Rights) (end : ℕ)
        → IsAnnotated c → IsValid (condition c) → IsPartRun c p n result q
        → PartFits c left p rights → EndBy p.base end rights.writes → IsZeroFrom end p.words
        → IsZeroFrom end q.words }
{}
