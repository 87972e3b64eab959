//! The words of closed expressions, and what is false by them.

ghost use Rattle.std.specs.Prelude.{◌≡◌};
ghost use Rattle.formula_tree.specs.Views.{exp_view, form_view};
ghost use Rattle.view_values.specs.Values.{applied, closed_value, fails, is_false};

use formula_tree::{Exp, Form};
use word_ops::{Op, Rel, apply, holds};

/// Returns what an operator gives at two words, if both are known.
fn applied(op: Op, a: Option<u64>, b: Option<u64>) -> Option<u64>
    ensures { result ≡ applied op a b }
{
    match a {
        None => None,
        Some(v) => match b {
            None => None,
            Some(w) => Some(apply(op, v, w)),
        },
    }
}

/// Returns the word of an expression of literals and operators alone.
fn closed_value(exp: &Exp) -> Option<u64>
    ensures { result ≡ closed_value (exp_view exp.now) }
{
    match exp {
        Exp::Reg(_) => None,
        Exp::Left => None,
        Exp::Var(_) => None,
        Exp::Lit(word) => Some(*word),
        Exp::Oper(op, a, b) => {
            let left = closed_value(a);
            let right = closed_value(b);
            applied(*op, left, right)
        }
        Exp::Sel(_, _) => None,
    }
}

/// Whether two words are known of which the relation doesn't hold.
fn fails(rel: Rel, a: Option<u64>, b: Option<u64>) -> bool
    ensures { result ≡ fails rel a b }
{
    match a {
        None => false,
        Some(v) => match b {
            None => false,
            Some(w) => !holds(rel, v, w),
        },
    }
}

/// Returns whether a formula is false by computing: it is `ff`, a relation that doesn't hold between
/// closed expressions, or a conjunction with such a part.
pub fn is_false(form: &Form) -> bool
    ensures exact { result ≡ is_false (form_view form.now) }
{
    match form {
        Form::True => false,
        Form::False => true,
        Form::Rel(rel, a, b) => fails(*rel, closed_value(a), closed_value(b)),
        Form::Rd(_) => false,
        Form::Wr(_) => false,
        Form::And(a, b) => is_false(a) || is_false(b),
        Form::Or(_, _) => false,
        Form::Imp(_, _) => false,
        Form::All(_) => false,
        Form::Allm(_) => false,
    }
}
