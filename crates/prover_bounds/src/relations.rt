//! The bound that a hypothesis gives of an expression that it relates to a word.

ghost use Rattle.std.specs.Prelude.{◌≡◌, ◌≤◌, IfOk, drop, OnOk};
ghost use Rattle.term_table.specs.Tree.{Tree};
ghost use Rattle.term_table.specs.Table.{IsKnown, tree_at, Extends};
ghost use Rattle.hereditary_subst.specs.Kept.{IsMemo};
ghost use Rattle.hereditary_subst.specs.Limits.{SpendsResults, NeverResults};
ghost use Rattle.word_ops.specs.declared.Rel.TheVariants.{Ult};
ghost use Rattle.formula_tree.specs.Formulas.{Exp, ELit, Form, FRel};
ghost use Rattle.lf_terms.specs.Encoding.{exp_encoding, form_encoding};
ghost use Rattle.prover_ids.specs.Hypotheses.{AreKnownHyps, AreHyps};
ghost use Rattle.prover_class.specs.Hypotheses.{Hyps};
ghost use Rattle.prover_bounds.specs.declared.bounds.Side.TheVariants.{Upper, Lower};
ghost use Rattle.prover_bounds.specs.declared.relations.Kind.TheVariants.{Less};
ghost use Rattle.prover_bounds.specs.BoundIds.{IsWordBound};
ghost use Rattle.prover_bounds.specs.Candidates.{by_less, by_more, by_equal, by_relation};
ghost use Rattle.prover_bounds.specs.Choices.{IsRelated, IsToWord, by_first};

use crate::bounds::{Bound, Side, folded, placed, word};
use crate::parts::limit;
use hereditary_subst::{Exhausted, Memo};
use lf_signature::numbers::{LT_PRED, ULE_REFL, ULT_ULE};
use lf_terms::rule_term;
use prover_ids::{FormNode, Hypothesis, form_node, literal, moved};
use term_table::{Id, Table};
use word_ops::{Op, Rel, apply};

/// The kinds of relations that bound an expression by a word.
#[derive(Clone, Copy)]
pub(crate) enum Kind {
    /// One of expression and word is at most the other.
    AtMost,
    /// The one is less than the other.
    Less,
    /// They are equal.
    Equal,
}

/// How a hypothesis relates an expression to a word.
#[derive(Clone, Copy)]
pub(crate) struct Related {
    pub(crate) kind: Kind,
    pub(crate) value: u64,
}

/// The relation of this kind to the word that `b` is, if `a` is the expression `e`.
fn to_word(table: &Table, kind: Kind, a: Id, b: Id, e: Id) -> Option<Related>
    requires a { IsKnown table.now a }
    requires b { IsKnown table.now b }
    requires e { IsKnown table.now e }
    ensures { (x y z : Exp) → tree_at table.now e ≡ exp_encoding x
        → tree_at table.now a ≡ exp_encoding y → tree_at table.now b ≡ exp_encoding z
        → IsToWord kind x y z result }
{
    if !table.same(a, e) {
        return None;
    }
    match literal(table, b) {
        None => None,
        Some(value) => Some(Related { kind, value }),
    }
}

/// The relation, unless it says less than 0, which bounds nothing.
fn unless_zero(related: Option<Related>) -> Option<Related>
    ensures { (x y z : Exp) → IsToWord Less x y z related
        → IsRelated Upper x (FRel Ult y z) result }
{
    match related {
        None => None,
        Some(r) => { if r.value == 0 { None } else { Some(r) } }
    }
}

/// How the relation bounds the expression from above.
fn above(table: &Table, rel: Rel, a: Id, b: Id, e: Id) -> Option<Related>
    requires a { IsKnown table.now a }
    requires b { IsKnown table.now b }
    requires e { IsKnown table.now e }
    ensures { (x y z : Exp) → tree_at table.now e ≡ exp_encoding x
        → tree_at table.now a ≡ exp_encoding y → tree_at table.now b ≡ exp_encoding z
        → IsRelated Upper x (FRel rel y z) result }
{
    match rel {
        Rel::Ule => to_word(table, Kind::AtMost, a, b, e),
        Rel::Ult => unless_zero(to_word(table, Kind::Less, a, b, e)),
        Rel::Eq => to_word(table, Kind::Equal, a, b, e),
        Rel::Slt => None,
        Rel::Sle => None,
    }
}

/// How the relation bounds the expression from below.
fn below(table: &Table, rel: Rel, a: Id, b: Id, e: Id) -> Option<Related>
    requires a { IsKnown table.now a }
    requires b { IsKnown table.now b }
    requires e { IsKnown table.now e }
    ensures { (x y z : Exp) → tree_at table.now e ≡ exp_encoding x
        → tree_at table.now a ≡ exp_encoding y → tree_at table.now b ≡ exp_encoding z
        → IsRelated Lower x (FRel rel y z) result }
{
    match rel {
        Rel::Ule => to_word(table, Kind::AtMost, b, a, e),
        Rel::Ult => to_word(table, Kind::Less, b, a, e),
        Rel::Eq => to_word(table, Kind::Equal, a, b, e),
        Rel::Slt => None,
        Rel::Sle => None,
    }
}

/// How the hypothesis relates the expression to a word that bounds it from this side; None if it
/// says nothing about the expression.
pub(crate) fn relation_of(table: &Table, side: Side, form: Id, e: Id) -> Option<Related>
    requires form { IsKnown table.now form }
    requires e { IsKnown table.now e }
    ensures { (x : Exp) (A : Form) → tree_at table.now e ≡ exp_encoding x
        → tree_at table.now form ≡ form_encoding A → IsRelated side x A result }
{
    match form_node(table, form) {
        FormNode::Relation(rel, a, b) => match side {
            Side::Upper => above(table, rel, a, b, e),
            Side::Lower => below(table, rel, a, b, e),
        },
        _ => None,
    }
}

/// The bound that the relation gives.
pub(crate) fn bound_word(side: Side, kind: Kind, value: u64) -> u64
    ensures { (x : Exp) (h : Tree) → result ≡ (by_relation side kind x value h).value }
{
    match kind {
        Kind::AtMost => value,
        Kind::Less => match side {
            Side::Upper => apply(Op::Sub, value, 1),
            Side::Lower => value,
        },
        Kind::Equal => value,
    }
}

/// The bound of an expression that is less than a word: at most the word minus 1.
#[tactic(auto, using(hereditary_subst::proofs::Rows::rows))]
fn by_less(
    table: &mut Table,
    memo: &mut Memo,
    e: Id,
    w: u64,
    word: Id,
    proof: Id,
) -> Result<Bound, Exhausted>
    requires e { IsKnown table.old e }
    requires word { IsKnown table.old word }
    requires proof { IsKnown table.old proof }
    requires memo { IsMemo table.old memo.old }
    ensures known { IfOk result (λ b. IsKnown table.new b.proof) }
    ensures is { (x : Exp) → tree_at table.old e ≡ exp_encoding x
        → tree_at table.old word ≡ exp_encoding (ELit w)
        → IfOk result (IsWordBound table.new (by_less x w (tree_at table.old proof))) }
    ensures extends { Extends table.old table.new }
    ensures memo { IsMemo table.new memo.new }
    ensures spends { SpendsResults table.new memo.old memo.new result }
{
    let before = rule_term(table, LT_PRED, &[e, word, proof])?;
    folded(table, memo, Side::Upper, e, Op::Sub, w, 1, before)
}

/// The bound of an expression that is more than a word: at least the word.
fn by_more(table: &mut Table, e: Id, w: u64, word: Id, proof: Id) -> Result<Bound, Exhausted>
    requires e { IsKnown table.old e }
    requires word { IsKnown table.old word }
    requires proof { IsKnown table.old proof }
    ensures known { IfOk result (λ b. IsKnown table.new b.proof) }
    ensures is { (x : Exp) → tree_at table.old e ≡ exp_encoding x
        → tree_at table.old word ≡ exp_encoding (ELit w)
        → IfOk result (IsWordBound table.new (by_more x w (tree_at table.old proof))) }
    ensures extends { Extends table.old table.new }
    ensures memory { NeverResults result }
{
    let bound = rule_term(table, ULT_ULE, &[word, e, proof])?;
    Ok(Bound {
        value: w,
        proof: bound,
    })
}

/// The bound of an expression that equals a word: the word.
#[tactic(auto, using(hereditary_subst::proofs::Rows::rows))]
fn by_equal(
    table: &mut Table,
    memo: &mut Memo,
    side: Side,
    e: Id,
    w: u64,
    word: Id,
    proof: Id,
) -> Result<Bound, Exhausted>
    requires e { IsKnown table.old e }
    requires word { IsKnown table.old word }
    requires proof { IsKnown table.old proof }
    requires memo { IsMemo table.old memo.old }
    ensures known { IfOk result (λ b. IsKnown table.new b.proof) }
    ensures is { (x : Exp) → tree_at table.old e ≡ exp_encoding x
        → tree_at table.old word ≡ exp_encoding (ELit w)
        → IfOk result (IsWordBound table.new (by_equal side x w (tree_at table.old proof))) }
    ensures extends { Extends table.old table.new }
    ensures memo { IsMemo table.new memo.new }
    ensures spends { SpendsResults table.new memo.old memo.new result }
{
    let form = placed(table, memo, side, e)?;
    let itself = rule_term(table, ULE_REFL, &[e])?;
    let bound = moved(table, form, e, word, proof, itself)?;
    Ok(Bound {
        value: w,
        proof: bound,
    })
}

/// The bound by a relation of the expression to the word, which `proof` proves.
#[tactic(auto, using(hereditary_subst::proofs::Rows::rows))]
fn by_relation(
    table: &mut Table,
    memo: &mut Memo,
    side: Side,
    related: Related,
    e: Id,
    word: Id,
    proof: Id,
) -> Result<Bound, Exhausted>
    requires e { IsKnown table.old e }
    requires word { IsKnown table.old word }
    requires proof { IsKnown table.old proof }
    requires memo { IsMemo table.old memo.old }
    ensures known { IfOk result (λ b. IsKnown table.new b.proof) }
    ensures is { (x : Exp) → tree_at table.old e ≡ exp_encoding x
        → tree_at table.old word ≡ exp_encoding (ELit related.value)
        → IfOk result (IsWordBound table.new
        (by_relation side related.kind x related.value (tree_at table.old proof))) }
    ensures extends { Extends table.old table.new }
    ensures memo { IsMemo table.new memo.new }
    ensures spends { SpendsResults table.new memo.old memo.new result }
{
    let value = related.value;
    match related.kind {
        Kind::AtMost => Ok(Bound { value, proof }),
        Kind::Less => match side {
            Side::Upper => by_less(table, memo, e, value, word, proof),
            Side::Lower => by_more(table, e, value, word, proof),
        },
        Kind::Equal => by_equal(table, memo, side, e, value, word, proof),
    }
}

/// The bound that the hypothesis at this index gives of the expression; the limit if it gives none.
#[tactic(auto, using(hereditary_subst::proofs::Rows::rows))]
pub(crate) fn by_hypothesis(
    table: &mut Table,
    memo: &mut Memo,
    side: Side,
    hyps: &[Hypothesis],
    at: usize,
    e: Id,
) -> Result<Bound, Exhausted>
    requires hyps { AreKnownHyps table.old hyps.now }
    requires e { IsKnown table.old e }
    requires memo { IsMemo table.old memo.old }
    ensures known { IfOk result (λ b. IsKnown table.new b.proof) }
    ensures is { (Γ : Hyps) (x : Exp) → AreHyps table.old hyps.now Γ
        → tree_at table.old e ≡ exp_encoding x
        → IfOk result (IsWordBound table.new (by_first side x (drop at Γ))) }
    ensures extends { Extends table.old table.new }
    ensures memo { IsMemo table.new memo.new }
    ensures spends { SpendsResults table.new memo.old memo.new result }
{
    if hyps.len() <= at {
        return limit(table, side, e);
    }
    let hyp = hyps[at];
    match relation_of(table, side, hyp.form, e) {
        None => limit(table, side, e),
        Some(r) => {
            let word = word(table, r.value)?;
            by_relation(table, memo, side, r, e, word, hyp.proof)
        }
    }
}
