//! Theorems about the definitions: they give proofs, and equal ones if hypotheses are repeated.

ghost use Rattle.std.specs.Prelude.{◌≡◌, ◌<◌, ◌≤◌, ◌^◌, ◌↔◌, ℕ, Bool, true, List, [], Some, None};
ghost use Rattle.term_table.specs.Tree.{Tree};
ghost use Rattle.lf_signature.specs.Terms.{pf};
ghost use Rattle.lf_signature.specs.Typing.{Checks};
ghost use Rattle.lf_signature.specs.Constants.{size_of, declared};
ghost use Rattle.formula_tree.specs.Formulas.{Form};
ghost use Rattle.formula_tree.specs.Scope.{IsOver};
ghost use Rattle.formula_tree.specs.Sizes.{form_height};
ghost use Rattle.lf_terms.specs.Encoding.{form_encoding};
ghost use Rattle.prover_class.specs.Parts.{conjoined, part_proof, condition_proof, first_not_easy};
ghost use Rattle.prover_class.specs.Hypotheses.{with_new};
ghost use Rattle.prover_class.specs.Repeats.{part_proof_adding, with_repeats};
ghost use Rattle.lf_signature.specs.declared.editions.WordSignature.{WordSignature};
ghost use Rattle.lf_signature.specs.Known.{HasOp};
ghost use Rattle.lf_signature.specs.declared.numbers.TheConstants.{SUB_LO};
ghost use Rattle.formula_tree.specs.Operators.{Uses};

/// States that the prover's definitions are sound and decide what is easy. The term that they give
/// for a closed condition is a proof of it by the typing derivations, if the condition's height is
/// at most 2^29. It is one over each signature of word arithmetic that has the condition's
/// operators and, if steps are counted, the rule `sub_lo`. So it is a proof over the third
/// signature; if no steps are counted, also over the second, which has all operators, and over the
/// first if the operators are those of profile 1. The definitions give a term exactly if no part is
/// the first that isn't easy, whatever number the parts begin with.
pub fn class_laws()
    ensures sound { (s : WordSignature) (counted : Bool) (parts : List Form) (p : Tree)
        → (counted ≡ true → SUB_LO < size_of s) → IsOver 0 (conjoined parts) []
        → Uses (HasOp (declared s)) (conjoined parts)
        → form_height (conjoined parts) ≤ 2 ^ 29 → condition_proof counted parts ≡ Some p
        → Checks (declared s) [] p (pf (form_encoding (conjoined parts))) }
    ensures exact { (counted : Bool) (parts : List Form) (n : ℕ) →
        (first_not_easy counted n parts ≡ None)
        ↔ ((p : Tree) × (condition_proof counted parts ≡ Some p)) }
{}

/// States that repeated hypotheses change no proof. Let an implication add all its hypotheses, also
/// those whose formula is already one, and leave all else alike; then a part of a condition has an
/// equal proof, or none as before. Both are one search with the way of adding as a parameter; with
/// the definition's way it is the definition's search.
pub fn repeat_laws()
    ensures unchanged { (counted : Bool) (part : Form) →
        part_proof_adding with_new counted part ≡ part_proof counted part }
    ensures repeats { (counted : Bool) (part : Form) →
        part_proof_adding with_repeats counted part ≡ part_proof counted part }
{}
