//! Splits a hypothesis into parts.

ghost use Rattle.std.specs.Prelude.{◌≡◌, ◌<◌, [], ◌∷◌, IfOk, IfSome, OnOk};
ghost use Rattle.term_table.specs.Table.{IsKnown, tree_at, Extends};
ghost use Rattle.lf_signature.specs.Nodes.{IsIdOf};
ghost use Rattle.formula_tree.specs.Formulas.{Form, FAnd, FImp};
ghost use Rattle.lf_terms.specs.Encoding.{form_encoding};
ghost use Rattle.prover_ids.specs.Hypotheses.{AreKnownHyps, AreHyps};
ghost use Rattle.lf_terms.specs.ProofTerms.{and_l, and_r};
ghost use Rattle.prover_class.specs.Hypotheses.{Hyps, split_hyps, with_new};
ghost use Rattle.prover_hyps.specs.Inside.Splits.{AreSeen, AreSplit, IsNegated};

use crate::collection::{Hypotheses, Key, key_of};
use crate::comparing::add_comparison;
use crate::finding::add;
use lf_signature::numbers::{AND_L, AND_R};
use lf_terms::rule_term;
use prover_ids::{FormNode, form_node};
use std::alloc::AllocError;
use std::collections::BTreeSet;
use term_table::{Id, Table};
use word_ops::Rel;

/// The left of a conjunction, proved by it.
fn left_proof(table: &mut Table, a: Id, b: Id, proof: Id) -> Result<Id, AllocError>
    requires a { IsKnown table.old a }
    requires b { IsKnown table.old b }
    requires proof { IsKnown table.old proof }
    ensures known { IfOk result (IsKnown table.new) }
    ensures exact { (A B : Form) → tree_at table.old a ≡ form_encoding A
        → tree_at table.old b ≡ form_encoding B
        → IfOk result (IsIdOf table.new (and_l A B (tree_at table.old proof))) }
    ensures extends { Extends table.old table.new }
{
    rule_term(table, AND_L, &[a, b, proof])
}

/// The right of a conjunction, proved by it.
fn right_proof(table: &mut Table, a: Id, b: Id, proof: Id) -> Result<Id, AllocError>
    requires a { IsKnown table.old a }
    requires b { IsKnown table.old b }
    requires proof { IsKnown table.old proof }
    ensures known { IfOk result (IsKnown table.new) }
    ensures exact { (A B : Form) → tree_at table.old a ≡ form_encoding A
        → tree_at table.old b ≡ form_encoding B
        → IfOk result (IsIdOf table.new (and_r A B (tree_at table.old proof))) }
    ensures extends { Extends table.old table.new }
{
    rule_term(table, AND_R, &[a, b, proof])
}

/// A relation of two expressions.
#[derive(Clone, Copy)]
struct Relation {
    rel: Rel,
    a: Id,
    b: Id,
}

/// The relation that is said to lead to falsity.
fn negated(table: &Table, a: Id, b: Id) -> Option<Relation>
    requires a { IsKnown table.now a }
    requires b { IsKnown table.now b }
    ensures known { IfSome result (λ r. IsKnown table.now r.a × IsKnown table.now r.b) }
    ensures exact { (A B : Form) → tree_at table.now a ≡ form_encoding A
        → tree_at table.now b ≡ form_encoding B → IsNegated table.now A B result }
{
    match form_node(table, b) {
        FormNode::False => match form_node(table, a) {
            FormNode::Relation(rel, a, b) => Some(Relation { rel, a, b }),
            _ => None,
        },
        _ => None,
    }
}

/// Adds what an implication is split into.
fn add_implication(
    table: &mut Table,
    hyps: &mut Hypotheses,
    form: Id,
    a: Id,
    b: Id,
    proof: Id,
) -> Result<(), AllocError>
    requires hyps { AreKnownHyps table.old hyps.old }
    requires form { IsKnown table.old form }
    requires a { IsKnown table.old a }
    requires b { IsKnown table.old b }
    requires proof { IsKnown table.old proof }
    ensures known { OnOk result (AreKnownHyps table.new hyps.new) }
    ensures exact { (Γ : Hyps) (A B : Form) → AreHyps table.old hyps.old Γ
        → tree_at table.old form ≡ form_encoding (FImp A B)
        → tree_at table.old a ≡ form_encoding A → tree_at table.old b ≡ form_encoding B
        → OnOk result (AreHyps table.new hyps.new
        (with_new Γ (split_hyps (FImp A B) (tree_at table.old proof)))) }
    ensures extends { Extends table.old table.new }
{
    match negated(table, a, b) {
        Some(r) => add_comparison(table, hyps, false, r.rel, r.a, r.b, proof),
        None => add(table, hyps, form, proof),
    }
}

/// Adds what the formula is split into. What the conjunctions in `seen` are split into is there
/// already.
#[cycle(splitting)]
#[tactic(auto, using(crate::proofs::Growing::rows))]
fn add_parts(
    table: &mut Table,
    seen: &mut BTreeSet<Key>,
    hyps: &mut Hypotheses,
    form: Id,
    proof: Id,
) -> Result<(), AllocError>
    requires hyps { AreKnownHyps table.old hyps.old }
    requires form { IsKnown table.old form }
    requires proof { IsKnown table.old proof }
    ensures known { OnOk result (AreKnownHyps table.new hyps.new) }
    ensures exact { (Γ : Hyps) (A : Form) → AreHyps table.old hyps.old Γ
        → AreSeen table.old Γ seen.old → tree_at table.old form ≡ form_encoding A
        → OnOk result (AreSplit table.new hyps.new seen.new
        (with_new Γ (split_hyps A (tree_at table.old proof)))) }
    ensures extends { Extends table.old table.new }
{
    match form_node(table, form) {
        FormNode::And(a, b) => add_both(table, seen, hyps, form, a, b, proof),
        FormNode::Relation(rel, a, b) => add_comparison(table, hyps, true, rel, a, b, proof),
        FormNode::Imp(a, b) => add_implication(table, hyps, form, a, b, proof),
        _ => add(table, hyps, form, proof),
    }
}

/// Adds what a conjunction is split into, and visits it only once.
#[cycle(splitting)]
#[tactic(auto, using(crate::proofs::Growing::rows))]
fn add_both(
    table: &mut Table,
    seen: &mut BTreeSet<Key>,
    hyps: &mut Hypotheses,
    form: Id,
    a: Id,
    b: Id,
    proof: Id,
) -> Result<(), AllocError>
    requires hyps { AreKnownHyps table.old hyps.old }
    requires form { IsKnown table.old form }
    requires a { IsKnown table.old a }
    requires b { IsKnown table.old b }
    requires proof { IsKnown table.old proof }
    requires below { (a < form) × (b < form) }
    ensures known { OnOk result (AreKnownHyps table.new hyps.new) }
    ensures exact { (Γ : Hyps) (A B : Form) → AreHyps table.old hyps.old Γ
        → AreSeen table.old Γ seen.old → tree_at table.old form ≡ form_encoding (FAnd A B)
        → tree_at table.old a ≡ form_encoding A → tree_at table.old b ≡ form_encoding B
        → OnOk result (AreSplit table.new hyps.new seen.new
        (with_new Γ (split_hyps (FAnd A B) (tree_at table.old proof)))) }
    ensures extends { Extends table.old table.new }
{
    let key = key_of(form);
    if seen.contains(&key) {
        return Ok(());
    }
    let left = left_proof(table, a, b, proof)?;
    add_parts(table, seen, hyps, a, left)?;
    let right = right_proof(table, a, b, proof)?;
    add_parts(table, seen, hyps, b, right)?;
    seen.insert(key)?;
    Ok(())
}

/// Appends the hypotheses that the formula, which `proof` proves, is split into, in order. Leaves
/// out those that are already hypotheses.
///
/// Errors: out of memory alone; then some of them may have been appended. Each id keeps its tree.
pub fn add_split(
    table: &mut Table,
    hyps: &mut Hypotheses,
    form: Id,
    proof: Id,
) -> Result<(), AllocError>
    requires hyps { AreKnownHyps table.old hyps.old }
    requires form { IsKnown table.old form }
    requires proof { IsKnown table.old proof }
    ensures known { OnOk result (AreKnownHyps table.new hyps.new) }
    ensures exact { (Γ : Hyps) (A : Form) → AreHyps table.old hyps.old Γ
        → tree_at table.old form ≡ form_encoding A → OnOk result (AreHyps table.new hyps.new
        (with_new Γ (split_hyps A (tree_at table.old proof)))) }
    ensures extends { Extends table.old table.new }
{
    let mut seen = BTreeSet::new(table.allocator());
    add_parts(table, &mut seen, hyps, form, proof)
}
