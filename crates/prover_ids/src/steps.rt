//! Builds expressions, relations and the steps of proofs in a table.
//!
//! Errors: out of memory alone, except in `swapped`; each id keeps its tree.

ghost use Rattle.std.specs.Prelude.{◌≡◌, ◌≤◌, IfOk, OnOk};
ghost use Rattle.term_table.specs.Table.{IsKnown, tree_at, Extends};
ghost use Rattle.hereditary_subst.specs.Kept.{IsMemo};
ghost use Rattle.hereditary_subst.specs.Limits.{SpendsResults};
ghost use Rattle.lf_signature.specs.Nodes.{IsIdOf};
ghost use Rattle.lf_signature.specs.Terms.{op_term, rel_term};
ghost use Rattle.formula_tree.specs.Formulas.{Exp, Form};
ghost use Rattle.lf_terms.specs.Encoding.{exp_encoding, form_encoding};
ghost use Rattle.prover_ids.specs.Nodes.{right_form};
ghost use Rattle.lf_terms.specs.ProofTerms.{eq_refl, move, swap, calc, fact};

use crate::forms::Access;
use crate::hypotheses::raised;
use hereditary_subst::{Exhausted, Memo};
use lf_signature::numbers::{EQ_REFL, EQ_SUB, RD, WR, rel_constant, rel_number};
use lf_signature::{app1, app2};
use lf_terms::rule_term;
use std::alloc::AllocError;
use term_table::{Id, Node, Table};
use word_ops::{Op, Rel, op_constant, op_number};

/// Builds the operator `op` applied to two expressions.
pub fn oper(table: &mut Table, op: Op, a: Id, b: Id) -> Result<Id, AllocError>
    requires a { IsKnown table.old a }
    requires b { IsKnown table.old b }
    ensures id { IfOk result
        (IsIdOf table.new (op_term op (tree_at table.old a) (tree_at table.old b))) }
    ensures extends { Extends table.old table.new }
{
    app2(table, op_constant(op), a, b)
}

/// Builds the relation `rel` between two expressions.
pub fn relation(table: &mut Table, rel: Rel, a: Id, b: Id) -> Result<Id, AllocError>
    requires a { IsKnown table.old a }
    requires b { IsKnown table.old b }
    ensures id { IfOk result
        (IsIdOf table.new (rel_term rel (tree_at table.old a) (tree_at table.old b))) }
    ensures extends { Extends table.old table.new }
{
    app2(table, rel_constant(rel), a, b)
}

/// Builds the formula that gives the right to the access at the address.
pub fn right(table: &mut Table, access: Access, address: Id) -> Result<Id, AllocError>
    requires address { IsKnown table.old address }
    ensures known { IfOk result (IsKnown table.new) }
    ensures exact { (a : Exp) → tree_at table.old address ≡ exp_encoding a
        → IfOk result (IsIdOf table.new (form_encoding (right_form access a))) }
    ensures extends { Extends table.old table.new }
{
    match access {
        Access::Load => app1(table, RD, address),
        Access::Store => app1(table, WR, address),
    }
}

/// Builds the proof of what the operator gives at two words.
pub fn calc(table: &mut Table, op: Op, v: u64, w: u64) -> Result<Id, AllocError>
    ensures id { IfOk result (IsIdOf table.new (calc op v w)) }
    ensures extends { Extends table.old table.new }
{
    table.intern(Node::Calc(op_number(op), v, w))
}

/// Builds the proof that the relation holds of two words. It is a proof only if the relation holds.
pub fn fact(table: &mut Table, rel: Rel, v: u64, w: u64) -> Result<Id, AllocError>
    ensures id { IfOk result (IsIdOf table.new (fact rel v w)) }
    ensures extends { Extends table.old table.new }
{
    table.intern(Node::Fact(rel_number(rel), v, w))
}

/// Builds the proof that an expression equals itself.
pub fn reflexive(table: &mut Table, a: Id) -> Result<Id, AllocError>
    requires { IsKnown table.old a }
    ensures known { IfOk result (IsKnown table.new) }
    ensures is { (x : Exp) → tree_at table.old a ≡ exp_encoding x
        → IfOk result (IsIdOf table.new (eq_refl x)) }
    ensures extends { Extends table.old table.new }
{
    rule_term(table, EQ_REFL, &[a])
}

/// Builds the proof of the formula `form` at `b` from its proof `proof` at `a` and the proof
/// `equal` that `a` equals `b`. Variable 0 of `form` is the place of `a` and `b`.
pub fn moved(
    table: &mut Table,
    form: Id,
    a: Id,
    b: Id,
    equal: Id,
    proof: Id,
) -> Result<Id, AllocError>
    requires form { IsKnown table.old form }
    requires a { IsKnown table.old a }
    requires b { IsKnown table.old b }
    requires equal { IsKnown table.old equal }
    requires proof { IsKnown table.old proof }
    ensures known { IfOk result (IsKnown table.new) }
    ensures is { (A : Form) (x y : Exp) → tree_at table.old form ≡ form_encoding A
        → tree_at table.old a ≡ exp_encoding x → tree_at table.old b ≡ exp_encoding y
        → IfOk result (IsIdOf table.new
        (move A x y (tree_at table.old equal) (tree_at table.old proof))) }
    ensures extends { Extends table.old table.new }
{
    let function = table.intern(Node::Lam(form))?;
    rule_term(table, EQ_SUB, &[function, a, b, equal, proof])
}

/// Builds the proof that `b` equals `a` from a proof that `a` equals `b`.
///
/// Errors: out of memory, also if a variable would reach 2^32, or the limit of `memo` is reached;
/// each id keeps its tree.
#[tactic(auto, using(hereditary_subst::proofs::Rows::rows))]
pub fn swapped(table: &mut Table, memo: &mut Memo, a: Id, b: Id, equal: Id) -> Result<Id, Exhausted>
    requires a { IsKnown table.old a }
    requires b { IsKnown table.old b }
    requires equal { IsKnown table.old equal }
    requires memo { IsMemo table.old memo.old }
    ensures known { IfOk result (IsKnown table.new) }
    ensures is { (x y : Exp) → tree_at table.old a ≡ exp_encoding x
        → tree_at table.old b ≡ exp_encoding y
        → IfOk result (IsIdOf table.new (swap x y (tree_at table.old equal))) }
    ensures extends { Extends table.old table.new }
    ensures memo { IsMemo table.new memo.new }
    ensures spends { SpendsResults table.new memo.old memo.new result }
{
    let place = table.intern(Node::Var(0))?;
    let under = raised(table, memo, a)?;
    let form = relation(table, Rel::Eq, place, under)?;
    let itself = reflexive(table, a)?;
    Ok(moved(table, form, a, b, equal, itself)?)
}
