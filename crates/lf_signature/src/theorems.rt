//! Theorems about the definitions; their functions run nothing.

ghost use Rattle.std.specs.Prelude.{◌≡◌, ◌<◌, ◌≤◌, ◌↔◌, ℕ, true, Option, Some, List, []};
ghost use Rattle.std.specs.Prelude.{length, map, get_or};
ghost use Rattle.std.specs.Option.{option_map};
ghost use Rattle.word_ops.specs.declared.Op.{Op};
ghost use Rattle.word_ops.specs.declared.Rel.{Rel};
ghost use Rattle.term_table.specs.Tree.{Tree, Const, Num, at};
ghost use Rattle.term_table.specs.Subst.{erase};
ghost use Rattle.term_table.specs.Scope.{is_over};
ghost use Rattle.word_ops.specs.Operators.{op_of, op_number, op_of_constant, op_constant};
ghost use Rattle.lf_signature.specs.Numbers.{rel_of, rel_number, rel_of_constant, rel_constant};
ghost use Rattle.lf_signature.specs.Typing.{Checks, Synth, Kind, HasKind, IsType};
ghost use Rattle.lf_signature.specs.Simply.{simply, erased, SChecks, SSynth, SType};
ghost use Rattle.lf_signature.specs.Decide.{checks_of, synth_of, kind_of, is_type_of};
ghost use Rattle.lf_signature.specs.Near.{AgreeOnNearest};
ghost use Rattle.lf_signature.specs.Rules.{Rule, rule_type};
ghost use Rattle.lf_signature.specs.Constants.{Longest, size_of, op_count_of, places_of, rule_at};
ghost use Rattle.lf_signature.specs.Constants.{parameters_of, parameter_counts, declared};
ghost use Rattle.lf_signature.specs.Known.{IsKnownSignature};
ghost use Rattle.lf_signature.specs.declared.editions.WordSignature.{WordSignature};
ghost use Rattle.lf_signature.specs.declared.editions.WordSignature.TheVariants.{Sigma1};
ghost use Rattle.lf_signature.specs.Outside.{numbered_rows, evaluated_rows, AreDeclared};
ghost use Rattle.lf_signature.specs.Worked.{AreVerdicts};
ghost use Rattle.lf_signature.specs.Order.{IsSignature};

/// States that the functions of typing decide its derivations, over any signature, and that a term
/// synthesises at most one type.
pub fn typing_laws()
    ensures checks { (sig : Const → Option Tree) (ctx : List Tree) (m a : Tree) →
        Checks sig ctx m a ↔ (checks_of sig m ctx a ≡ true) }
    ensures synth { (sig : Const → Option Tree) (ctx : List Tree) (r a : Tree) →
        Synth sig ctx r a ↔ (synth_of sig r ctx ≡ Some a) }
    ensures unique { (sig : Const → Option Tree) (ctx : List Tree) (r a b : Tree) →
        Synth sig ctx r a → Synth sig ctx r b → a ≡ b }
    ensures kinds { (sig : Const → Option Tree) (ctx : List Tree) (p : Tree) (k : Kind) →
        HasKind sig ctx p k ↔ (kind_of sig p ctx ≡ Some k) }
    ensures types { (sig : Const → Option Tree) (ctx : List Tree) (a : Tree) →
        IsType sig ctx a ↔ (is_type_of sig a ctx ≡ true) }
{}

/// States that typing a tree depends only on the nearest types that its variables reach. Contexts
/// that agree on the `n` nearest types give a tree over `n` variables equal results.
pub fn near_laws()
    ensures checks { (sig : Const → Option Tree) (n : ℕ) (ctx other : List Tree) (m a : Tree) →
        is_over n m ≡ true → AgreeOnNearest n ctx other →
        checks_of sig m ctx a ≡ checks_of sig m other a }
    ensures synth { (sig : Const → Option Tree) (n : ℕ) (ctx other : List Tree) (r : Tree) →
        is_over n r ≡ true → AgreeOnNearest n ctx other →
        synth_of sig r ctx ≡ synth_of sig r other }
    ensures kinds { (sig : Const → Option Tree) (n : ℕ) (ctx other : List Tree) (p : Tree) →
        is_over n p ≡ true → AgreeOnNearest n ctx other →
        kind_of sig p ctx ≡ kind_of sig p other }
    ensures types { (sig : Const → Option Tree) (n : ℕ) (ctx other : List Tree) (a : Tree) →
        is_over n a ≡ true → AgreeOnNearest n ctx other →
        is_type_of sig a ctx ≡ is_type_of sig a other }
{}

/// States that every typing derivation has a derivation by the simple rules at the erased types,
/// and that a typed tree has no variables but those of its context.
pub fn simple_laws()
    ensures checks { (sig : Const → Option Tree) (ctx : List Tree) (m a : Tree) →
        Checks sig ctx m a → SChecks (simply sig) (erased ctx) m (erase a) }
    ensures synth { (sig : Const → Option Tree) (ctx : List Tree) (r a : Tree) →
        Synth sig ctx r a → SSynth (simply sig) (erased ctx) r (erase a) }
    ensures types { (sig : Const → Option Tree) (ctx : List Tree) (a : Tree) →
        IsType sig ctx a → SType (simply sig) (erased ctx) a }
    ensures terms_over { (sig : Const → Option Tree) (ctx : List Tree) (m a : Tree) →
        Checks sig ctx m a → is_over (length ctx) m ≡ true }
    ensures types_over { (sig : Const → Option Tree) (ctx : List Tree) (a : Tree) →
        IsType sig ctx a → is_over (length ctx) a ≡ true }
{}

/// States that each type declared by a signature of word arithmetic is closed, well formed over the
/// constants before it, and simply well formed. A rule's constant has the rule's type. A longer
/// signature has what a shorter one has. Operators and relations are found again by their numbers
/// and by their constants.
pub fn signature_laws()
    ensures formed { (s : WordSignature) → IsSignature (declared s) }
    ensures simply { (s : WordSignature) (c : Const) (a : Tree) →
        declared s c ≡ Some a → SType (simply (declared s)) [] a }
    ensures known { (s : WordSignature) → IsKnownSignature (declared s) }
    ensures more { (s u : WordSignature) (c : Const) (a : Tree) → size_of s ≤ size_of u →
        op_count_of s ≤ op_count_of u → declared s c ≡ Some a → declared u c ≡ Some a }
    ensures rules { (s : WordSignature) (n : ℕ) (r : Rule) →
        n < size_of s → rule_at n ≡ Some r → declared s (Num n) ≡ Some (rule_type r) }
    ensures operators { (n : ℕ) (o : Op) → (op_of n ≡ Some o) ↔ (op_number o ≡ n) }
    ensures relations { (n : ℕ) (r : Rel) → (rel_of n ≡ Some r) ↔ (rel_number r ≡ n) }
    ensures op_constants { (c : ℕ) (o : Op) →
        (op_of_constant c ≡ Some o) ↔ (op_constant o ≡ c) }
    ensures rel_constants { (c : ℕ) (r : Rel) →
        (rel_of_constant c ≡ Some r) ↔ (rel_constant r ≡ c) }
{}

/// States that the declared types are those that a second, independent implementation writes out:
/// of every number, none past the last, with how many parameters its constant has; and of worked
/// evaluations at words. Worked terms and types have over the signature the verdicts that they have
/// by hand.
pub fn declared_rows()
    ensures numbered { (n : ℕ) →
        declared Longest (Num n) ≡ option_map (λ r. r.1) (at numbered_rows n) }
    ensures places { parameter_counts ≡ map (λ r. r.0) numbered_rows }
    ensures evaluated { AreDeclared (declared Sigma1) evaluated_rows }
    ensures verdicts { AreVerdicts (declared Sigma1) }
{}

/// States that the counts that weights go by are the signatures': how many parameters each numbered
/// constant has.
pub fn places_laws()
    ensures { (s : WordSignature) (n : ℕ) → n < size_of s →
        get_or (places_of s) n 0 ≡ parameters_of n }
{}
