//! Theorems about the signature of word arithmetic; their functions run nothing.

ghost use Rattle.std.specs.Prelude.{◌≡◌, ◌↔◌, ℕ, Option, Some, [], true};
ghost use Rattle.std.specs.Option.{option_map};
ghost use Rattle.term_table.specs.Tree.{Tree, Const, Num, Calc, Fact, Deny};
ghost use Rattle.lf_signature.specs.Rules.{Rule, rule_type};
ghost use Rattle.lf_signature.specs.Order.{IsSignature};
ghost use Rattle.lf_signature.specs.Constants.{place_of, rule_at, declared};
ghost use Rattle.lf_signature.specs.declared.tables.Place.TheVariants.{ByRule};
ghost use Rattle.lf_signature.specs.Constants.{Longest};
ghost use Rattle.lf_signature.specs.Terms.{pf, falsity};
ghost use Rattle.lf_signature.specs.Typing.{Checks};
ghost use Rattle.formula_tree.specs.Formulas.{Form};
ghost use Rattle.lf_encode.specs.Contexts.{EncodesForm};
ghost use Rattle.lf_truth.specs.Validity.{EncodesClosed, IsSoundSignature};
ghost use Rattle.lf_truth.specs.Validity.{IsTrueType, AreGivenTypes};
ghost use Rattle.lf_truth.specs.RuleSorts.{is_sorted};
ghost use Rattle.lf_truth.specs.RuleTruth.{IsTrueRule};

/// States that over a well-formed signature of word arithmetic a closed formula that has a proof is
/// valid, so falsity has no proof. The rule of each number in the table of rules is true for all
/// values of its parameters, and each parameter is used only as its sort allows. The constants that
/// are rules have the types of these rules; the types of evaluations, facts and denials are those
/// of the proofs of valid formulas. Over the empty context the encoding of a closed formula is the
/// encoding without a context.
pub fn truth_laws()
    ensures sound { (sig : Const → Option Tree) → IsSignature sig → AreGivenTypes sig →
        IsSoundSignature sig }
    ensures consistent { (sig : Const → Option Tree) → IsSignature sig → AreGivenTypes sig →
        (t : Tree) → Checks sig [] t (pf falsity) → ⊥ }
    ensures rules { (n : ℕ) (r : Rule) → rule_at n ≡ Some r → IsTrueRule r }
    ensures sorted { (n : ℕ) (r : Rule) → rule_at n ≡ Some r → is_sorted r ≡ true }
    ensures declares { (n i : ℕ) → place_of n ≡ ByRule i →
        declared Longest (Num n) ≡ option_map rule_type (rule_at n) }
    ensures calc { (o x y : ℕ) (a : Tree) → declared Longest (Calc o x y) ≡ Some a → IsTrueType a }
    ensures fact { (r x y : ℕ) (a : Tree) → declared Longest (Fact r x y) ≡ Some a → IsTrueType a }
    ensures deny { (r x y : ℕ) (a : Tree) → declared Longest (Deny r x y) ≡ Some a → IsTrueType a }
    ensures closed { (F : Form) (t : Tree) → EncodesForm [] F t ↔ EncodesClosed F t }
{}
