//! Theorems about the marks of parts; nothing here runs.

ghost use Rattle.std.specs.Prelude.{◌≡◌, ℕ, Bool, List, Option, map, length, is_some, ◌≤◌, ◌<◌};
ghost use Rattle.std.specs.Prelude.{false, ◌∷◌, drop, Some, None};
ghost use Rattle.term_table.specs.Tree.{Tree};
ghost use Rattle.std.specs.List.{AllByRecursion};
ghost use Rattle.prover_class.specs.Parts.{part_proof, first_not_easy};
ghost use Rattle.view_goals.specs.Goals.{PartGoals};
ghost use Rattle.view_marks.specs.Marks.{part_form, part_marks, count_of_goals, all_true};
ghost use Rattle.view_marks.specs.Marks.{first_unmarked, is_easy};
ghost use Rattle.word_ops.specs.declared.Rel.TheVariants.{Ult, Ule};
ghost use Rattle.formula_tree.specs.Formulas.{Exp, Form, FRel};
ghost use Rattle.prover_class.specs.Hypotheses.{Hyps};
ghost use Rattle.prover_class.specs.Bounds.{upper_bound, lower_bound};
ghost use Rattle.view_marks.specs.declared.marking.TheConstants.{PART_BINDERS};
ghost use Rattle.prover_class.specs.Goals.{Prover};
ghost use Rattle.prover_class.specs.Access.{Access, access_form, by_hyp};
ghost use Rattle.view_marks.specs.Hints.{missing_part, hard_parts};
ghost use Rattle.view_marks.specs.Halves.{half_of, IsAmong, HasHardPremise};
ghost use Rattle.view_marks.specs.declared.halves.Half.TheVariants.{Premise, Conclusion};

use prover_goals::round_laws;

/// States what marks say. A part has a proof in the class of easy conditions exactly if each of its
/// goals is marked as easy (`part`), so the first part that isn't easy is the first part with a
/// goal that isn't marked (`first`). There is one mark for each goal (`length`).
pub fn mark_laws()
    ensures part { (bound : Option ℕ) (p : PartGoals) → let counted = is_some bound in
        is_some (part_proof counted (part_form bound p)) ≡ all_true (part_marks counted p) }
    ensures first { (bound : Option ℕ) (n : ℕ) (parts : List PartGoals) →
        let counted = is_some bound in first_not_easy counted n (map (part_form bound) parts)
        ≡ first_unmarked n (map (part_marks counted) parts) }
    ensures length { (counted : Bool) (p : PartGoals)
        → length (part_marks counted p) ≡ count_of_goals p.goals }
{
    round_laws();
}

/// States what hints mean. The missing conjunct of a goal that isn't easy isn't easy itself
/// (`missing`). No conjunct of those that are all missing is easy (`each`), and the first of them is
/// that conjunct (`first`). If `(ult a b)` isn't easy, the upper bound found for `a` isn't below the lower
/// bound found for `b` (`bounds`). If `(ule a b)` isn't easy, the upper bound found for `a` is
/// above the lower bound found for `b` (`at_most`). If a hypothesis' conclusion isn't easy, it grants
/// the access by no proof of its premise (`conclusion`). If its premise isn't, no proof of it is found,
/// for some word if it is quantified (`premise`).
pub fn hint_laws()
    ensures missing { (counted : Bool) (Γ : Hyps) (A : Form)
        → is_easy counted PART_BINDERS Γ A ≡ false
        → is_easy counted PART_BINDERS Γ (missing_part counted Γ A) ≡ false }
    ensures each { (counted : Bool) (Γ : Hyps) (A : Form)
        → AllByRecursion (λ M. is_easy counted PART_BINDERS Γ M ≡ false)
        (hard_parts counted Γ A) }
    ensures first { (counted : Bool) (Γ : Hyps) (A : Form)
        → is_easy counted PART_BINDERS Γ A ≡ false → let parts = hard_parts counted Γ A in
        parts ≡ missing_part counted Γ A ∷ drop 1 parts }
    ensures bounds { (counted : Bool) (Γ : Hyps) (a b : Exp)
        → is_easy counted PART_BINDERS Γ (FRel Ult a b) ≡ false
        → (lower_bound counted Γ b).value ≤ (upper_bound Γ a).value }
    ensures at_most { (counted : Bool) (Γ : Hyps) (a b : Exp)
        → is_easy counted PART_BINDERS Γ (FRel Ule a b) ≡ false
        → (lower_bound counted Γ b).value < (upper_bound Γ a).value }
    ensures conclusion { (counted : Bool) (k : Access) (a : Exp) (F : Form)
        → half_of counted (access_form k a) F ≡ Some Conclusion → (prove : Prover) (Γ : Hyps)
        (p : Tree) → by_hyp prove PART_BINDERS Γ k a F p ≡ None }
    ensures premise { (counted : Bool) (Γ : Hyps) (k : Access) (a : Exp) (F : Form) (p : Tree)
        → IsAmong F p Γ → is_easy counted PART_BINDERS Γ (access_form k a) ≡ false
        → half_of counted (access_form k a) F ≡ Some Premise → HasHardPremise counted Γ F }
{
    round_laws();
}
