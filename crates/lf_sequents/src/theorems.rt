//! Theorems about sequents.

ghost use Rattle.std.specs.Prelude.{◌≡◌, ℕ, List, [], Option, Some};
ghost use Rattle.term_table.specs.Tree.{Tree, Const, Num};
ghost use Rattle.term_table.specs.Table.{TableView, tree_at, ctx_of, Extends};
ghost use Rattle.lf_signature.specs.Terms.{pf};
ghost use Rattle.lf_signature.specs.Rules.{Rule, rule_type};
ghost use Rattle.lf_signature.specs.Typing.{Checks};
ghost use Rattle.lf_signature.specs.Constants.{rule_at};
ghost use Rattle.lf_terms.specs.Instance.{trees_of, nth_arg, form_with, by_rule};
ghost use Rattle.lf_sequents.specs.declared.sequent.Sequent.{Sequent};
ghost use Rattle.lf_sequents.specs.Sequents.{IsSequent, AreSequents};
ghost use Rattle.lf_sequents.specs.Answers.{HasForm, proofs_taken};
ghost use Rattle.lf_sequents.specs.Room.{HasVarRoom};

/// States that a sequent of a table is also a sequent of each later table. Without hypotheses its
/// term checks against the proofs of its goal in the empty context, also in a later table. A term
/// proves at most one formula.
pub fn sequent_laws()
    ensures lasts { (sig : Const → Option Tree) (t u : TableView) (s : Sequent)
        → Extends t u → IsSequent sig t s → IsSequent sig u s }
    ensures closed { (sig : Const → Option Tree) (t u : TableView) (s : Sequent)
        → Extends t u → IsSequent sig t s → s.hyps.items ≡ []
        → Checks sig [] (tree_at u s.term) (pf (tree_at u s.goal)) }
    ensures unique { (sig : Const → Option Tree) (ctx : List Tree) (p a b : Tree)
        → Checks sig ctx p (pf a) → Checks sig ctx p (pf b) → a ≡ b }
{}

/// States that a rule's constant, applied to parameters and premises that have the rule's form,
/// proves the conclusion, if variables stay below 2^32.
pub fn conclusion_laws()
    ensures { (sig : Const → Option Tree) (t : TableView) (hyps params : List ℕ) (n : ℕ) (r : Rule)
        (premises : List Sequent) → rule_at n ≡ Some r → sig (Num n) ≡ Some (rule_type r)
        → AreSequents sig t premises → HasVarRoom t hyps params premises
        → HasForm sig t hyps params r premises
        → Checks sig (ctx_of t hyps)
        (by_rule n (trees_of t params) (proofs_taken t r.premises premises))
        (pf (form_with r.conclusion (nth_arg (trees_of t params)))) }
{}
