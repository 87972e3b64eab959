//! Proves falsity from hypotheses.

ghost use Rattle.std.specs.Prelude.{◌≡◌, [], ◌∷◌, IfOk, IfSome};
ghost use Rattle.term_table.specs.Table.{IsKnown, tree_at, Extends, Stands};
ghost use Rattle.lf_signature.specs.Nodes.{IsIdOf};
ghost use Rattle.formula_tree.specs.Formulas.{Form, FFalse};
ghost use Rattle.lf_terms.specs.Encoding.{form_encoding};
ghost use Rattle.prover_ids.specs.Hypotheses.{AreKnownHyps, AreHyps};
ghost use Rattle.lf_terms.specs.ProofTerms.{imp_e};
ghost use Rattle.prover_class.specs.Hypotheses.{Hyps};
ghost use Rattle.prover_class.specs.Goals.{refute, refuted, absurdity};
ghost use Rattle.prover_hyps.specs.Inside.Refutations.{IsKnownRefutation, StandsRefuted};

use crate::collection::Hypotheses;
use crate::finding::find_hyp;
use lf_signature::numbers::{FF, IMP_E};
use lf_terms::rule_term;
use prover_ids::{FormNode, form_node};
use std::alloc::AllocError;
use term_table::{Id, Node, Table};

/// A formula, the proof that it leads to falsity, and its proof.
#[derive(Clone, Copy)]
struct Refutation {
    form: Id,
    denial: Id,
    proof: Id,
}

/// What the hypothesis says to lead to falsity, if it is a hypothesis too.
fn refute_by(table: &Table, hyps: &Hypotheses, form: Id, denial: Id) -> Option<Refutation>
    requires hyps { AreKnownHyps table.now hyps.now }
    requires form { IsKnown table.now form }
    requires denial { IsKnown table.now denial }
    ensures known { IfSome result (IsKnownRefutation table.now) }
    ensures exact { (Γ : Hyps) (A : Form) → AreHyps table.now hyps.now Γ
        → tree_at table.now form ≡ form_encoding A
        → StandsRefuted table.now (refute Γ A (tree_at table.now denial)) result }
{
    match form_node(table, form) {
        FormNode::Imp(a, b) => match form_node(table, b) {
            FormNode::False => match find_hyp(table, hyps, a) {
                Some(proof) => Some(Refutation {
                    form: a,
                    denial,
                    proof,
                }),
                None => None,
            },
            _ => None,
        },
        _ => None,
    }
}

/// The first refutation in the list.
fn first_refutation(table: &Table, hyps: &Hypotheses) -> Option<Refutation>
    requires { AreKnownHyps table.now hyps.now }
    ensures known { IfSome result (IsKnownRefutation table.now) }
    ensures exact { (Γ : Hyps) → AreHyps table.now hyps.now Γ
        → StandsRefuted table.now (refuted Γ Γ) result }
{
    let list = hyps.as_slice();
    for i in 0..list.len() {
        if let Some(first) = refute_by(table, hyps, list[i].form, list[i].proof) {
            return Some(first);
        }
    }
    None
}

/// The proof of falsity by a refutation.
fn contradiction(table: &mut Table, falsity: Id, refutation: Refutation) -> Result<Id, AllocError>
    requires falsity { IsKnown table.old falsity }
    requires refutation { IsKnownRefutation table.old refutation }
    ensures known { IfOk result (IsKnown table.new) }
    ensures exact { (A : Form) → tree_at table.old refutation.form ≡ form_encoding A
        → tree_at table.old falsity ≡ form_encoding FFalse → IfOk result (IsIdOf table.new
        (imp_e A FFalse (tree_at table.old refutation.denial)
        (tree_at table.old refutation.proof))) }
    ensures extends { Extends table.old table.new }
{
    rule_term(
        table,
        IMP_E,
        &[
            refutation.form,
            falsity,
            refutation.denial,
            refutation.proof,
        ],
    )
}

/// Returns a proof of falsity, if there is one: a hypothesis that is falsity, or the first
/// refutation.
///
/// Errors: out of memory alone; each id keeps its tree.
#[tactic(auto, using(crate::proofs::Growing::rows))]
pub fn absurdity(table: &mut Table, hyps: &Hypotheses) -> Result<Option<Id>, AllocError>
    requires { AreKnownHyps table.old hyps.now }
    ensures known { IfOk result (λ o. IfSome o (IsKnown table.new)) }
    ensures exact { (Γ : Hyps) → AreHyps table.old hyps.now Γ
        → IfOk result (Stands table.new (absurdity Γ)) }
    ensures extends { Extends table.old table.new }
{
    let falsity = table.intern(Node::Const(FF))?;
    if let Some(proof) = find_hyp(table, hyps, falsity) {
        return Ok(Some(proof));
    }
    match first_refutation(table, hyps) {
        None => Ok(None),
        Some(first) => {
            let proof = contradiction(table, falsity, first)?;
            Ok(Some(proof))
        }
    }
}
