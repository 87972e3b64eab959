//! Facts that follow from one hypothesis, which are hypotheses too.
//!
//! Errors: out of memory, or the search's limit is reached; each id keeps its tree.

ghost use Rattle.std.specs.Prelude.{IfOk, IfSome, OnOk};
ghost use Rattle.term_table.specs.Table.{IsKnown, Extends};
ghost use Rattle.prover_ids.specs.Hypotheses.{AreKnownHyps};
ghost use Rattle.prover_goals.specs.Search.{IsSearch};
ghost use Rattle.auto_facts.specs.Facts.{IsFact};

use crate::terms::raise;
use auto_candidates::known;
use hereditary_subst::Exhausted;
use lf_signature::app2;
use lf_signature::numbers::{EM, FF, FF_E, IMP, IMP_E, LE_ANTI, NOT_LT, OR_E, ZERO_LE};
use lf_terms::rule_term;
use prover_goals::Search;
use prover_hyps::{Hypotheses, add_split};
use prover_ids::{FormNode, Sides, form_node, literal, relation};
use std::alloc::AllocError;
use term_table::{Id, Node, Table};
use word_ops::Rel;

/// As so many steps a hypothesis counts that is looked at.
const STEPS_A_LOOK: u64 = 4;

/// A formula with its proof.
#[derive(Clone, Copy)]
pub struct Fact {
    /// The formula.
    pub form: Id,
    /// The proof.
    pub proof: Id,
}

/// The proof of `form` by a proof of falsity from its denial, which is variable 0 there; `under` is
/// the form under its binder.
fn by_denial(table: &mut Table, form: Id, under: Id, falsity: Id) -> Result<Id, AllocError>
    requires form { IsKnown table.old form }
    requires under { IsKnown table.old under }
    requires falsity { IsKnown table.old falsity }
    ensures known { IfOk result (IsKnown table.new) }
    ensures extends { Extends table.old table.new }
{
    let absurd = rule_term(table, FF_E, &[under, falsity])?;
    let right = table.intern(Node::Lam(absurd))?;
    let itself = table.intern(Node::Var(0))?;
    let left = table.intern(Node::Lam(itself))?;
    let none = table.intern(Node::Const(FF))?;
    let denial = app2(table, IMP, form, none)?;
    let either = rule_term(table, EM, &[form])?;
    rule_term(table, OR_E, &[form, denial, form, either, left, right])
}

/// The proof of falsity from `denied`, a proof that `b` isn't at most `a`, and from variable 0, one
/// that `a` isn't less than `b`.
fn not_above(table: &mut Table, a: Id, b: Id, denied: Id) -> Result<Id, AllocError>
    requires a { IsKnown table.old a }
    requires b { IsKnown table.old b }
    requires denied { IsKnown table.old denied }
    ensures known { IfOk result (IsKnown table.new) }
    ensures extends { Extends table.old table.new }
{
    let not_less = table.intern(Node::Var(0))?;
    let at_most = rule_term(table, NOT_LT, &[a, b, not_less])?;
    let form = relation(table, Rel::Ule, b, a)?;
    let none = table.intern(Node::Const(FF))?;
    rule_term(table, IMP_E, &[form, none, denied, at_most])
}

/// The proof of falsity from `denied`, a proof that `a` doesn't equal `zero`, and from variable 0,
/// one that `zero` isn't less than `a`.
fn not_above_zero(table: &mut Table, a: Id, zero: Id, denied: Id) -> Result<Id, AllocError>
    requires a { IsKnown table.old a }
    requires zero { IsKnown table.old zero }
    requires denied { IsKnown table.old denied }
    ensures known { IfOk result (IsKnown table.new) }
    ensures extends { Extends table.old table.new }
{
    let not_less = table.intern(Node::Var(0))?;
    let at_most = rule_term(table, NOT_LT, &[zero, a, not_less])?;
    let least = rule_term(table, ZERO_LE, &[a])?;
    let equal = rule_term(table, LE_ANTI, &[a, zero, at_most, least])?;
    let form = relation(table, Rel::Eq, a, zero)?;
    let none = table.intern(Node::Const(FF))?;
    rule_term(table, IMP_E, &[form, none, denied, equal])
}

/// The fact that the first of `order` is less than the second, by `denied`, a proof that this one
/// isn't at most the first, or, if `equal`, that it doesn't equal the first, which is 0. `raised`
/// has both under one more binder, and so has `denied`.
fn fact_above(
    table: &mut Table,
    equal: bool,
    order: Sides,
    raised: Sides,
    denied: Id,
) -> Result<Fact, AllocError>
    requires left { IsKnown table.old order.left }
    requires right { IsKnown table.old order.right }
    requires low { IsKnown table.old raised.left }
    requires high { IsKnown table.old raised.right }
    requires denied { IsKnown table.old denied }
    ensures fact { IfOk result (IsFact table.new) }
    ensures extends { Extends table.old table.new }
{
    let (low, high) = (raised.left, raised.right);
    let form = relation(table, Rel::Ult, order.left, order.right)?;
    let under = relation(table, Rel::Ult, low, high)?;
    let falsity = if equal {
        not_above_zero(table, high, low, denied)?
    } else {
        not_above(table, low, high, denied)?
    };
    let proof = by_denial(table, form, under, falsity)?;
    Ok(Fact { form, proof })
}

/// The fact that the first of `order` is less than the second, by `denial`, as in `fact_above`.
#[tactic(auto, using(prover_goals::proofs::Kept::rows))]
fn above(
    table: &mut Table,
    search: &mut Search,
    equal: bool,
    order: Sides,
    denial: Id,
) -> Result<Fact, Exhausted>
    requires left { IsKnown table.old order.left }
    requires right { IsKnown table.old order.right }
    requires denial { IsKnown table.old denial }
    requires search { IsSearch table.old search.old }
    ensures fact { IfOk result (IsFact table.new) }
    ensures extends { Extends table.old table.new }
    ensures search { OnOk result (IsSearch table.new search.new) }
{
    let (left, right) = (order.left, order.right);
    let low = raise(table, search, left)?;
    let high = raise(table, search, right)?;
    let denied = raise(table, search, denial)?;
    let order = Sides { left, right };
    let raised = Sides {
        left: low,
        right: high,
    };
    Ok(fact_above(table, equal, order, raised, denied)?)
}

/// What follows from `denial`, a proof that the relation doesn't hold.
#[tactic(auto, using(prover_goals::proofs::Kept::rows))]
fn by_denied(
    table: &mut Table,
    search: &mut Search,
    rel: Rel,
    sides: Sides,
    denial: Id,
) -> Result<Option<Fact>, Exhausted>
    requires left { IsKnown table.old sides.left }
    requires right { IsKnown table.old sides.right }
    requires denial { IsKnown table.old denial }
    requires search { IsSearch table.old search.old }
    ensures fact { IfOk result (λ o. IfSome o (IsFact table.new)) }
    ensures extends { Extends table.old table.new }
    ensures search { OnOk result (IsSearch table.new search.new) }
{
    let order = Sides {
        left: sides.right,
        right: sides.left,
    };
    let equal = rel == Rel::Eq && literal(table, sides.right) == Some(0);
    if rel != Rel::Ule && !equal {
        return Ok(None);
    }
    let fact = above(table, search, equal, order, denial)?;
    Ok(Some(fact))
}

/// What follows from a formula with this proof.
#[tactic(auto, using(prover_goals::proofs::Kept::rows))]
fn derived(
    table: &mut Table,
    search: &mut Search,
    form: Id,
    proof: Id,
) -> Result<Option<Fact>, Exhausted>
    requires form { IsKnown table.old form }
    requires proof { IsKnown table.old proof }
    requires search { IsSearch table.old search.old }
    ensures fact { IfOk result (λ o. IfSome o (IsFact table.new)) }
    ensures extends { Extends table.old table.new }
    ensures search { OnOk result (IsSearch table.new search.new) }
{
    let FormNode::Imp(premise, conclusion) = form_node(table, form) else {
        return Ok(None);
    };
    let FormNode::False = form_node(table, conclusion) else {
        return Ok(None);
    };
    match form_node(table, premise) {
        FormNode::Relation(rel, left, right) => {
            let fact = by_denied(table, search, rel, Sides { left, right }, proof)?;
            Ok(fact)
        }
        _ => Ok(None),
    }
}

/// Returns the hypothesis at place `i`, if there is one.
pub fn fact_at(table: &Table, hyps: &Hypotheses, i: usize) -> Option<Fact>
    ensures { IfSome result (IsFact table.now) }
{
    let list = hyps.as_slice();
    if i >= list.len() {
        return None;
    }
    let form = known(table, list[i].form)?;
    let proof = known(table, list[i].proof)?;
    Some(Fact { form, proof })
}

/// Adds what follows from the hypothesis at place `i`, if there is one.
#[tactic(auto, using(prover_goals::proofs::Kept::rows))]
fn add_from(
    table: &mut Table,
    search: &mut Search,
    hyps: &mut Hypotheses,
    i: usize,
) -> Result<(), Exhausted>
    requires hyps { AreKnownHyps table.old hyps.old }
    requires search { IsSearch table.old search.old }
    ensures known { OnOk result (AreKnownHyps table.new hyps.new) }
    ensures extends { Extends table.old table.new }
    ensures search { OnOk result (IsSearch table.new search.new) }
{
    let Some(hyp) = fact_at(table, hyps, i) else {
        return Ok(());
    };
    let Some(fact) = derived(table, search, hyp.form, hyp.proof)? else {
        return Ok(());
    };
    add_split(table, hyps, fact.form, fact.proof)?;
    Ok(())
}

/// Adds what follows from the hypotheses from `from` on to them: `(ult b a)` from
/// `(not (ule a b))`, and `(ult 0 a)` from `(not (eq a 0))`.
///
/// Errors: out of memory, or the limit of `search` is reached; each id keeps its tree.
#[tactic(auto, using(prover_goals::proofs::Kept::rows))]
pub fn add_derived(
    table: &mut Table,
    search: &mut Search,
    hyps: &mut Hypotheses,
    from: usize,
) -> Result<(), Exhausted>
    requires hyps { AreKnownHyps table.old hyps.old }
    requires search { IsSearch table.old search.old }
    ensures known { OnOk result (AreKnownHyps table.new hyps.new) }
    ensures extends { Extends table.old table.new }
    ensures search { OnOk result (IsSearch table.new search.new) }
{
    let count = hyps.as_slice().len();
    search.spend_steps((count.saturating_sub(from) as u64).saturating_mul(STEPS_A_LOOK))?;
    for i in from..count {
        add_from(table, search, hyps, i)?;
    }
    Ok(())
}
