//! Bounds of expressions, and the proofs that they are made of.
//!
//! Errors: out of memory, or the limit of the memo is reached; each id keeps its tree.

ghost use Rattle.std.specs.Prelude.{◌≡◌, ◌≤◌, IfOk, OnOk};
ghost use Rattle.term_table.specs.Table.{TableView, IsKnown, tree_at, Extends};
ghost use Rattle.hereditary_subst.specs.Kept.{IsMemo};
ghost use Rattle.hereditary_subst.specs.Limits.{SpendsResults};
ghost use Rattle.lf_signature.specs.Nodes.{IsIdOf};
ghost use Rattle.word_ops.specs.declared.Rel.TheVariants.{Ule};
ghost use Rattle.formula_tree.specs.Formulas.{Exp, EVar, ELit, EOp, FRel};
ghost use Rattle.lf_terms.specs.Encoding.{exp_encoding, form_encoding};
ghost use Rattle.prover_class.specs.Bounds.{fit_proof};
ghost use Rattle.prover_bounds.specs.BoundIds.{IsWordBound};
ghost use Rattle.prover_bounds.specs.Candidates.{placed, folded_at};

use hereditary_subst::{Exhausted, Memo};
use prover_ids::{calc, fact, moved, oper, raised, relation, swapped};
use std::alloc::AllocError;
use term_table::{Id, Node, Table};
use word_ops::{Op, Rel, apply};

/// A word and the id of a proof that it is a bound.
#[derive(Clone, Copy)]
pub struct Bound {
    /// The bound.
    pub value: u64,
    /// The proof that the word is a bound.
    pub proof: Id,
}

/// From which side a word bounds an expression.
#[derive(Clone, Copy, PartialEq, Eq, PartialOrd, Ord)]
pub(crate) enum Side {
    /// The expression is at most the word.
    Upper,
    /// The word is at most the expression.
    Lower,
}

/// The formula that the first is at most the second, one being the expression and the other a word,
/// which is the variable 0 under a binder.
#[tactic(auto, using(hereditary_subst::proofs::Rows::rows))]
pub(crate) fn placed(table: &mut Table, memo: &mut Memo, side: Side, e: Id) -> Result<Id, Exhausted>
    requires e { IsKnown table.old e }
    requires memo { IsMemo table.old memo.old }
    ensures known { IfOk result (IsKnown table.new) }
    ensures is { (x : Exp) → tree_at table.old e ≡ exp_encoding x
        → IfOk result (IsIdOf table.new (form_encoding (placed side x))) }
    ensures extends { Extends table.old table.new }
    ensures memo { IsMemo table.new memo.new }
    ensures spends { SpendsResults table.new memo.old memo.new result }
{
    let under = raised(table, memo, e)?;
    let place = table.intern(Node::Var(0))?;
    match side {
        Side::Upper => Ok(relation(table, Rel::Ule, under, place)?),
        Side::Lower => Ok(relation(table, Rel::Ule, place, under)?),
    }
}

/// A word.
pub(crate) fn word(table: &mut Table, w: u64) -> Result<Id, AllocError>
    ensures known { IfOk result (IsIdOf table.new (exp_encoding (ELit w))) }
    ensures extends { Extends table.old table.new }
{
    table.intern(Node::Lit(w))
}

/// The operator at two words.
fn oper_of_words(table: &mut Table, op: Op, v: u64, w: u64) -> Result<Id, AllocError>
    ensures id { IfOk result (IsIdOf table.new (exp_encoding (EOp op (ELit v) (ELit w)))) }
    ensures extends { Extends table.old table.new }
{
    let left = word(table, v)?;
    let right = word(table, w)?;
    oper(table, op, left, right)
}

/// The formula that a word is at most the variable 0 under a binder.
fn word_below_place(table: &mut Table, w: u64) -> Result<Id, AllocError>
    ensures id { IfOk result (IsIdOf table.new (form_encoding (FRel Ule (ELit w) (EVar 0)))) }
    ensures extends { Extends table.old table.new }
{
    let left = word(table, w)?;
    let place = table.intern(Node::Var(0))?;
    relation(table, Rel::Ule, left, place)
}

/// The word that an operator gives at two words as a bound, by a proof that the operator at them is
/// one: from above, from (ule e (o v w)) to (ule e value).
#[tactic(auto, using(hereditary_subst::proofs::Rows::rows))]
pub(crate) fn folded(
    table: &mut Table,
    memo: &mut Memo,
    side: Side,
    e: Id,
    op: Op,
    v: u64,
    w: u64,
    proof: Id,
) -> Result<Bound, Exhausted>
    requires e { IsKnown table.old e }
    requires proof { IsKnown table.old proof }
    requires memo { IsMemo table.old memo.old }
    ensures known { IfOk result (λ b. IsKnown table.new b.proof) }
    ensures is { (x : Exp) → tree_at table.old e ≡ exp_encoding x
        → IfOk result (IsWordBound table.new (folded_at side x op v w (tree_at table.old proof))) }
    ensures extends { Extends table.old table.new }
    ensures memo { IsMemo table.new memo.new }
    ensures spends { SpendsResults table.new memo.old memo.new result }
{
    let value = apply(op, v, w);
    let form = placed(table, memo, side, e)?;
    let from = oper_of_words(table, op, v, w)?;
    let to = word(table, value)?;
    let equal = calc(table, op, v, w)?;
    let proof = moved(table, form, from, to, equal, proof)?;
    Ok(Bound { value, proof })
}

/// The proof that a word is at most what an operator gives at two words, if it is.
#[tactic(auto, using(hereditary_subst::proofs::Rows::rows))]
pub(crate) fn fit_proof(
    table: &mut Table,
    memo: &mut Memo,
    v: u64,
    op: Op,
    a: u64,
    b: u64,
) -> Result<Id, Exhausted>
    requires memo { IsMemo table.old memo.old }
    ensures id { IfOk result (IsIdOf table.new (fit_proof v op a b)) }
    ensures extends { Extends table.old table.new }
    ensures memo { IsMemo table.new memo.new }
    ensures spends { SpendsResults table.new memo.old memo.new result }
{
    let value = apply(op, a, b);
    let from = word(table, value)?;
    let to = oper_of_words(table, op, a, b)?;
    let equal = calc(table, op, a, b)?;
    let back = swapped(table, memo, to, from, equal)?;
    let form = word_below_place(table, v)?;
    let fits = fact(table, Rel::Ule, v, value)?;
    let proof = moved(table, form, from, to, back, fits)?;
    Ok(proof)
}
