//! Theorems about the search by connectives; their functions run nothing.

ghost use Rattle.std.specs.Prelude.{◌≡◌, ◌≤◌, ℕ, Some, None};
ghost use Rattle.term_table.specs.Tree.{Tree};
ghost use Rattle.formula_tree.specs.Formulas.{Form};
ghost use Rattle.lf_terms.specs.ProofTerms.{ff_e};
ghost use Rattle.prover_class.specs.Hypotheses.{Hyps, find_hyp};
ghost use Rattle.prover_class.specs.Goals.{Prover, absurdity, by_shape, goal_proof, levels};
ghost use Rattle.prover_goals.specs.Provers.{whole_proof};

/// States how the search of `prover_class` proceeds in rounds. Its result for a goal doesn't depend
/// on the number of remaining rounds if that is at least the goal's levels. A goal that is a
/// hypothesis has that hypothesis' proof. Else, if the hypotheses are absurd, it follows from
/// falsity. Else it is proved by its shape, its parts again by whole searches.
pub fn round_laws()
    ensures enough { (leaf : Prover) (n m out : ℕ) (Γ : Hyps) (A : Form) → levels A ≤ n
        → levels A ≤ m → goal_proof leaf n out Γ A ≡ goal_proof leaf m out Γ A }
    ensures found { (leaf : Prover) (out : ℕ) (Γ : Hyps) (A : Form) (p : Tree)
        → find_hyp Γ A ≡ Some p → whole_proof leaf out Γ A ≡ Some p }
    ensures absurd { (leaf : Prover) (out : ℕ) (Γ : Hyps) (A : Form) (p : Tree)
        → find_hyp Γ A ≡ None → absurdity Γ ≡ Some p
        → whole_proof leaf out Γ A ≡ Some (ff_e A p) }
    ensures shape { (leaf : Prover) (out : ℕ) (Γ : Hyps) (A : Form)
        → find_hyp Γ A ≡ None → absurdity Γ ≡ None
        → whole_proof leaf out Γ A ≡ by_shape (whole_proof leaf) leaf out Γ A }
{}
