//! Laws of rules at arguments, of plain substitution and of encodings.

ghost use Rattle.std.specs.Prelude.{◌≡◌, ◌≤◌, ◌+◌, ◌^◌, ℕ, List, [], Option, Some, length};
ghost use Rattle.term_table.specs.Tree.{Tree, Const, Num, Fam, at, shift};
ghost use Rattle.term_table.specs.Subst.{Base, hsub};
ghost use Rattle.term_table.specs.Table.{TableView, tree_at, ctx_of, Extends};
ghost use Rattle.lf_signature.specs.Terms.{pf};
ghost use Rattle.lf_signature.specs.Rules.{Rule, rule_type};
ghost use Rattle.lf_signature.specs.Typing.{Checks};
ghost use Rattle.lf_signature.specs.Constants.{rule_at};
ghost use Rattle.lf_terms.specs.Plain.{IsUnapplied, plain_subst, var_bound, binder_depth};
ghost use Rattle.lf_terms.specs.Named.{AreNamed};
ghost use Rattle.lf_terms.specs.Instance.{nth_arg, form_with, by_rule, AreArguments, AreProofs};
ghost use Rattle.formula_tree.specs.Formulas.{Exp, MemExp, Form, shift_exp, shift_mem};
ghost use Rattle.lf_terms.specs.Encoding.{exp_encoding, mem_encoding, form_encoding};

/// States that a rule's constant, applied to arguments and to proofs of its premises, is a proof of
/// its conclusion at these arguments. A term's variables are bounded by its context and its
/// binders.
pub fn rule_laws()
    ensures sound { (sig : Const → Option Tree) (n : ℕ) (r : Rule) → rule_at n ≡ Some r
        → sig (Num n) ≡ Some (rule_type r) → (ctx : List Tree) (d : ℕ) (args proofs : List Tree)
        → AreArguments sig ctx d r.parameters args
        → AreProofs sig ctx d (nth_arg args) r.premises proofs
        → Checks sig ctx (by_rule n args proofs) (pf (form_with r.conclusion (nth_arg args))) }
    ensures bounded { (sig : Const → Option Tree) (ctx : List Tree) (t a : Tree)
        → Checks sig ctx t a → var_bound t ≤ length ctx + binder_depth t }
{}

/// States that the rule at each named number is the one that its name stands for.
pub fn name_laws()
    ensures { AreNamed }
{}

/// States that hereditary substitution at a base type is ordinary substitution if the variable is
/// applied to nothing, as a variable of a family's type is.
pub fn plain_laws()
    ensures plain { (t : Tree) (x : ℕ) → IsUnapplied x t → (s : ℕ) (m : Tree)
        → var_bound m + binder_depth t ≤ 2 ^ 32 → hsub (Base s) m x t ≡ Some (plain_subst m x t) }
    ensures unapplied { (sig : Const → Option Tree) (ctx : List Tree) (x f : ℕ) (t a : Tree)
        → at ctx x ≡ Some (Fam f) → Checks sig ctx t a → IsUnapplied x t }
{}

/// States that no two expressions, memories or formulas have one encoding, and that the encoding of
/// an expression or a memory is shifted as they are.
pub fn encoding_laws()
    ensures one_exp { (a b : Exp) → exp_encoding a ≡ exp_encoding b → a ≡ b }
    ensures one_mem { (m n : MemExp) → mem_encoding m ≡ mem_encoding n → m ≡ n }
    ensures one_form { (A B : Form) → form_encoding A ≡ form_encoding B → A ≡ B }
    ensures shifted_exp { (a : Exp) (k c : ℕ) →
        shift k c (exp_encoding a) ≡ exp_encoding (shift_exp k c a) }
    ensures shifted_mem { (m : MemExp) (k c : ℕ) →
        shift k c (mem_encoding m) ≡ mem_encoding (shift_mem k c m) }
{}
