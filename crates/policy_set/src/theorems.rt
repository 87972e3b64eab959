//! Theorems about the definitions, with nothing to run.

ghost use Rattle.std.specs.Prelude.{◌≡◌, ◌≤◌, ◌↔◌, ℕ, true, List, length, Ok, Err};
ghost use Rattle.word_ops.specs.Operators.{IsFirstOp};
ghost use Rattle.formula_text.specs.Printing.{form_text};
ghost use Rattle.policy_set.specs.declared.kind.PolicyKind.{PolicyKind};
ghost use Rattle.policy_set.specs.declared.limits.TheConstants.{MAX_FORM_LINE};
ghost use Rattle.policy_set.specs.Names.{IsNumberOf, is_number_of};
ghost use Rattle.policy_set.specs.PolicyText.{SpellsPolicy, IsPolicyFlaw, from_file, policy_read};
ghost use Rattle.policy_set.specs.declared.fault.PolicyFlaw as flaws;
ghost use Rattle.policy_set.specs.Digest.{policy_text};
ghost use Rattle.policy_set.specs.Views.{PolicyView, built_in, IsPolicy, PolicyUses};

/// Proves that the built-in policies are well formed and use only operators of profile 1.
///
/// `is_number_of` decides its relation. Bytes read as a policy exactly if they spell it (`spelled`),
/// and have a flaw exactly if it is the first of their tests that fails (`flawed`). What they spell
/// is a well-formed policy. The text of a policy spells a policy with its formulas, if
/// no line of it is too long. Policies with different formulas have different texts.
pub fn laws()
    ensures built_in { (kind : PolicyKind) → IsPolicy (built_in kind) }
    ensures operators { (kind : PolicyKind) → PolicyUses IsFirstOp (built_in kind) }
    ensures numbers { (policy : PolicyView) (n : ℕ) → (is_number_of policy n ≡ true)
        ↔ IsNumberOf policy n }
    ensures spelled { (bytes : List ℕ) (policy : PolicyView) →
        SpellsPolicy bytes policy ↔ (policy_read bytes ≡ Ok policy) }
    ensures flawed { (bytes : List ℕ) (flaw : flaws.PolicyFlaw) →
        (policy_read bytes ≡ Err flaw) ↔ IsPolicyFlaw bytes flaw }
    ensures kept { (bytes : List ℕ) (policy : PolicyView) →
        SpellsPolicy bytes policy → IsPolicy policy }
    ensures printed { (policy : PolicyView) → IsPolicy policy →
        length (form_text 0 policy.pre) ≤ MAX_FORM_LINE →
        length (form_text 0 policy.post) ≤ MAX_FORM_LINE →
        SpellsPolicy (policy_text policy) (from_file policy.pre policy.post) }
    ensures texts { (P Q : PolicyView) → IsPolicy P → IsPolicy Q →
        policy_text P ≡ policy_text Q → (P.pre ≡ Q.pre) × (P.post ≡ Q.post) }
{}
