//! What a hypothesis about a comparison, or its denial, is split into.
//!
//! A compare instruction gives 1 or 0, so comparing its result with 0 says whether its relation
//! holds. If the relation's first expression is again such a result and its second is 0, the
//! splitting goes on.

ghost use Rattle.std.specs.Prelude.{◌≡◌, ◌+◌, ◌≤◌, [], ◌∷◌, IfOk, IfSome, OnOk, not, IsTrue, ◌↔◌};
ghost use Rattle.term_table.specs.Table.{IsKnown, tree_at, Extends};
ghost use Rattle.lf_signature.specs.Nodes.{IsIdOf};
ghost use Rattle.formula_tree.specs.Formulas.{Exp, ELit};
ghost use Rattle.lf_terms.specs.Encoding.{exp_encoding, form_encoding};
ghost use Rattle.prover_ids.specs.Hypotheses.{AreKnownHyps, AreHyps};
ghost use Rattle.lf_terms.specs.ProofTerms.{word_rule};
ghost use Rattle.prover_class.specs.Hypotheses.{Hyps, compared, comparison, comparison_hyps};
ghost use Rattle.prover_class.specs.Hypotheses.{other_hyps, reversed_hyps, test_rule, tested_hyps, with_new};

use crate::collection::Hypotheses;
use crate::finding::add;
use lf_signature::app2;
use lf_signature::numbers::{CMP_NO, CMP_YES, FF, IMP, NOT_LT, rel_constant};
use lf_terms::rule_term;
use prover_ids::{ExpNode, exp_node};
use std::alloc::AllocError;
use term_table::{Id, Node, Table};
use word_ops::{Op, Rel};

/// The relation of two expressions, or that it leads to falsity.
fn comparison(table: &mut Table, holds: bool, rel: Rel, a: Id, b: Id) -> Result<Id, AllocError>
    requires a { IsKnown table.old a }
    requires b { IsKnown table.old b }
    ensures known { IfOk result (IsKnown table.new) }
    ensures exact { (x y : Exp) → tree_at table.old a ≡ exp_encoding x
        → tree_at table.old b ≡ exp_encoding y
        → IfOk result (IsIdOf table.new (form_encoding (comparison holds rel x y))) }
    ensures extends { Extends table.old table.new }
{
    let form = app2(table, rel_constant(rel), a, b)?;
    if holds {
        return Ok(form);
    }
    let falsity = table.intern(Node::Const(FF))?;
    app2(table, IMP, form, falsity)
}

/// A compare's relation, and its place among the compares.
fn compared(op: Op) -> Option<(Rel, u32)>
    ensures exact { result ≡ compared op }
    ensures in_range { IfSome result (λ r. r.1 ≤ 4) }
{
    match op {
        Op::Cmpeq => Some((Rel::Eq, 0)),
        Op::Cmplt => Some((Rel::Slt, 1)),
        Op::Cmple => Some((Rel::Sle, 2)),
        Op::Cmpult => Some((Rel::Ult, 3)),
        Op::Cmpule => Some((Rel::Ule, 4)),
        _ => None,
    }
}

/// Whether the expression is the word 0.
fn is_zero(table: &Table, id: Id) -> bool
    requires { IsKnown table.now id }
    ensures { (x : Exp) → tree_at table.now id ≡ exp_encoding x → IsTrue result ↔ (x ≡ ELit 0) }
{
    match exp_node(table, id) {
        ExpNode::Word(word) => word == 0,
        _ => false,
    }
}

/// The proof of what a test's comparison with 0 says: that the test is 0, or that it isn't.
fn tested(
    table: &mut Table,
    is_zero: bool,
    place: u32,
    a: Id,
    b: Id,
    proof: Id,
) -> Result<Id, AllocError>
    requires place { place ≤ 4 }
    requires a { IsKnown table.old a }
    requires b { IsKnown table.old b }
    requires proof { IsKnown table.old proof }
    ensures known { IfOk result (IsKnown table.new) }
    ensures exact { (x y : Exp) → tree_at table.old a ≡ exp_encoding x
        → tree_at table.old b ≡ exp_encoding y → IfOk result (IsIdOf table.new
        (word_rule (test_rule is_zero + place) (x ∷ y ∷ []) (tree_at table.old proof ∷ []))) }
    ensures extends { Extends table.old table.new }
{
    let first = if is_zero { CMP_NO } else { CMP_YES };
    rule_term(table, first + place, &[a, b, proof])
}

/// Adds that `b` is at most `a`, by a proof that `a` isn't less.
#[tactic(auto, using(crate::proofs::Growing::rows))]
fn add_reversed(
    table: &mut Table,
    hyps: &mut Hypotheses,
    a: Id,
    b: Id,
    proof: Id,
) -> Result<(), AllocError>
    requires hyps { AreKnownHyps table.old hyps.old }
    requires a { IsKnown table.old a }
    requires b { IsKnown table.old b }
    requires proof { IsKnown table.old proof }
    ensures known { OnOk result (AreKnownHyps table.new hyps.new) }
    ensures exact { (Γ : Hyps) (x y : Exp) → AreHyps table.old hyps.old Γ
        → tree_at table.old a ≡ exp_encoding x → tree_at table.old b ≡ exp_encoding y
        → OnOk result (AreHyps table.new hyps.new
        (with_new Γ (reversed_hyps x y (tree_at table.old proof)))) }
    ensures extends { Extends table.old table.new }
{
    let form = app2(table, rel_constant(Rel::Ule), b, a)?;
    let reversed = rule_term(table, NOT_LT, &[a, b, proof])?;
    add(table, hyps, form, reversed)
}

/// Adds what the comparison is split into, which `proof` proves.
#[cycle(comparing)]
#[tactic(auto, using(crate::proofs::Growing::rows))]
pub(crate) fn add_comparison(
    table: &mut Table,
    hyps: &mut Hypotheses,
    holds: bool,
    rel: Rel,
    a: Id,
    b: Id,
    proof: Id,
) -> Result<(), AllocError>
    requires hyps { AreKnownHyps table.old hyps.old }
    requires a { IsKnown table.old a }
    requires b { IsKnown table.old b }
    requires proof { IsKnown table.old proof }
    ensures known { OnOk result (AreKnownHyps table.new hyps.new) }
    ensures exact { (Γ : Hyps) (x y : Exp) → AreHyps table.old hyps.old Γ
        → tree_at table.old a ≡ exp_encoding x → tree_at table.old b ≡ exp_encoding y
        → OnOk result (AreHyps table.new hyps.new
        (with_new Γ (comparison_hyps (tested_hyps x) holds rel x y (tree_at table.old proof)))) }
    ensures extends { Extends table.old table.new }
{
    let form = comparison(table, holds, rel, a, b)?;
    add(table, hyps, form, proof)?;
    add_others(table, hyps, holds, rel, a, b, proof)
}

/// Adds what the comparison is split into in addition to itself.
#[cycle(comparing)]
#[tactic(auto, using(crate::proofs::Growing::rows))]
fn add_others(
    table: &mut Table,
    hyps: &mut Hypotheses,
    holds: bool,
    rel: Rel,
    a: Id,
    b: Id,
    proof: Id,
) -> Result<(), AllocError>
    requires hyps { AreKnownHyps table.old hyps.old }
    requires a { IsKnown table.old a }
    requires b { IsKnown table.old b }
    requires proof { IsKnown table.old proof }
    ensures known { OnOk result (AreKnownHyps table.new hyps.new) }
    ensures exact { (Γ : Hyps) (x y : Exp) → AreHyps table.old hyps.old Γ
        → tree_at table.old a ≡ exp_encoding x → tree_at table.old b ≡ exp_encoding y
        → OnOk result (AreHyps table.new hyps.new
        (with_new Γ (other_hyps (tested_hyps x) holds rel x y (tree_at table.old proof)))) }
    ensures extends { Extends table.old table.new }
{
    match rel {
        Rel::Eq => {
            if is_zero(table, b) {
                add_tested(table, hyps, holds, a, proof)
            } else {
                Ok(())
            }
        }
        Rel::Ult => {
            if holds {
                Ok(())
            } else {
                add_reversed(table, hyps, a, b, proof)
            }
        }
        Rel::Ule | Rel::Slt | Rel::Sle => Ok(()),
    }
}

/// Adds what is split off if the expression is 0, or if it isn't.
#[cycle(comparing)]
#[tactic(auto, using(crate::proofs::Growing::rows))]
fn add_tested(
    table: &mut Table,
    hyps: &mut Hypotheses,
    is_zero: bool,
    a: Id,
    proof: Id,
) -> Result<(), AllocError>
    requires hyps { AreKnownHyps table.old hyps.old }
    requires a { IsKnown table.old a }
    requires proof { IsKnown table.old proof }
    ensures known { OnOk result (AreKnownHyps table.new hyps.new) }
    ensures exact { (Γ : Hyps) (x : Exp) → AreHyps table.old hyps.old Γ
        → tree_at table.old a ≡ exp_encoding x → OnOk result (AreHyps table.new hyps.new
        (with_new Γ (tested_hyps x is_zero (tree_at table.old proof)))) }
    ensures extends { Extends table.old table.new }
{
    match exp_node(table, a) {
        ExpNode::Apply(op, x, y) => match compared(op) {
            Some((rel, place)) => {
                let proof = tested(table, is_zero, place, x, y, proof)?;
                add_comparison(table, hyps, !is_zero, rel, x, y, proof)
            }
            None => Ok(()),
        },
        _ => Ok(()),
    }
}
