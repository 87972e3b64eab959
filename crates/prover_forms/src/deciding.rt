//! Decides which relations are proved by the normal forms of their expressions.

ghost use Rattle.std.specs.Prelude.{◌≡◌, is_some};
ghost use Rattle.term_table.specs.Table.{IsKnown, tree_at};
ghost use Rattle.formula_tree.specs.Formulas.{Exp};
ghost use Rattle.lf_terms.specs.Encoding.{exp_encoding};
ghost use Rattle.prover_class.specs.NormalForms.{Rewritten, equal_forms};
ghost use Rattle.prover_forms.specs.Decided.{word_in, form_proof};
ghost use Rattle.prover_forms.specs.Inside.Deciding.{words_hold};

use prover_ids::{ExpNode, exp_node};
use term_table::{Id, Table};
use word_ops::{Rel, holds};

/// Returns the word that the expression is, else None.
pub fn word_at(table: &Table, e: Id) -> Option<u64>
    requires { IsKnown table.now e }
    ensures { (x : Exp) → tree_at table.now e ≡ exp_encoding x → result ≡ word_in x }
{
    match exp_node(table, e) {
        ExpNode::Word(w) => Some(w),
        ExpNode::Apply(_, _, _) => None,
        ExpNode::Var(_) => None,
        ExpNode::Sel(_, _) => None,
        ExpNode::Unbound => None,
    }
}

/// Whether both normal forms are words of which the relation holds.
fn is_of_words(table: &Table, rel: Rel, p: Id, q: Id) -> bool
    requires p { IsKnown table.now p }
    requires q { IsKnown table.now q }
    ensures { (f g : Exp) → tree_at table.now p ≡ exp_encoding f
        → tree_at table.now q ≡ exp_encoding g
        → result ≡ words_hold rel (word_in f) (word_in g) }
{
    match word_at(table, p) {
        None => false,
        Some(v) => match word_at(table, q) {
            None => false,
            Some(w) => holds(rel, v, w),
        },
    }
}

/// Whether the relation is equality, and both normal forms are one.
fn is_of_equals(table: &Table, rel: Rel, p: Id, q: Id) -> bool
    requires p { IsKnown table.now p }
    requires q { IsKnown table.now q }
    ensures { (x y : Exp) (f g : Rewritten) → tree_at table.now p ≡ exp_encoding f.now
        → tree_at table.now q ≡ exp_encoding g.now
        → result ≡ is_some (equal_forms rel x y f g) }
{
    match rel {
        Rel::Eq => table.same(p, q),
        Rel::Ult => false,
        Rel::Ule => false,
        Rel::Slt => false,
        Rel::Sle => false,
    }
}

/// Returns whether the normal forms `p` and `q` of two expressions prove the relation between them:
/// if they are words of which it holds, or if they are equal and the relation is equality.
pub fn is_by_forms(table: &Table, rel: Rel, p: Id, q: Id) -> bool
    requires p { IsKnown table.now p }
    requires q { IsKnown table.now q }
    ensures { (x y : Exp) (f g : Rewritten) → tree_at table.now p ≡ exp_encoding f.now
        → tree_at table.now q ≡ exp_encoding g.now
        → result ≡ is_some (form_proof rel x y f g) }
{
    if is_of_words(table, rel, p, q) {
        return true;
    }
    is_of_equals(table, rel, p, q)
}
