//! Which half of an implication keeps it from granting an access.
//!
//! The conclusion is tried without the premise: `tt` takes its place, which needs no hypothesis.
//! Errors: out of memory, and `Results` if the search would cache more results than it may; every
//! id keeps its tree.

ghost use Rattle.std.specs.Prelude.{◌≡◌, IfOk, IfSome, OnOk};
ghost use Rattle.term_table.specs.Table.{IsKnown, tree_at, Extends};
ghost use Rattle.formula_tree.specs.Formulas.{Form, FTrue, FImp};
ghost use Rattle.lf_signature.specs.Nodes.{IsIdOf};
ghost use Rattle.lf_terms.specs.Encoding.{form_encoding};
ghost use Rattle.prover_goals.specs.Search.{IsSearch};
ghost use Rattle.view_marks.specs.Halves.{is_granted, half_by, half_of};
ghost use Rattle.view_marks.specs.Inside.Halves.{IsAlone, IsBodyAlone};

use crate::PART_BINDERS;
use crate::hints::hypotheses_of;
use hereditary_subst::Exhausted;
use lf_encode::quantified;
use lf_signature::app2;
use lf_signature::numbers::{ALL, IMP, TT};
use prover_conditions::proof_by_access;
use prover_goals::{Context, Search};
use prover_ids::{FormNode, form_node};
use std::alloc::AllocError;
use term_table::{Id, Node, Table};

/// A half of an implication.
#[derive(Clone, Copy, Debug, PartialEq, Eq)]
pub enum Half {
    /// What it needs.
    Premise,
    /// What it gives.
    Conclusion,
}

/// The implication from `tt`.
fn always(table: &mut Table, conclusion: Id) -> Result<Id, AllocError>
    requires { IsKnown table.old conclusion }
    ensures id { (Q : Form) → tree_at table.old conclusion ≡ form_encoding Q
        → IfOk result (IsIdOf table.new (form_encoding (FImp FTrue Q))) }
    ensures known { IfOk result (IsKnown table.new) }
    ensures extends { Extends table.old table.new }
{
    let truth = table.intern(Node::Const(TT))?;
    let implied = app2(table, IMP, truth, conclusion)?;
    Ok(implied)
}

/// The quantified implication from `tt`, if the formula that is quantified is an implication.
fn body_alone(table: &mut Table, body: Id) -> Result<Option<Id>, AllocError>
    requires { IsKnown table.old body }
    ensures exact { IfOk result (IsBodyAlone table.old table.new body) }
    ensures known { IfOk result (λ o. IfSome o (IsKnown table.new)) }
    ensures extends { Extends table.old table.new }
{
    match form_node(table, body) {
        FormNode::Imp(_, conclusion) => {
            let implied = always(table, conclusion)?;
            let all = quantified(table, ALL, implied)?;
            Ok(Some(all))
        }
        FormNode::True => Ok(None),
        FormNode::False => Ok(None),
        FormNode::Relation(_, _, _) => Ok(None),
        FormNode::Right(_, _) => Ok(None),
        FormNode::And(_, _) => Ok(None),
        FormNode::Or(_, _) => Ok(None),
        FormNode::All(_) => Ok(None),
        FormNode::AllMem(_) => Ok(None),
    }
}

/// The formula with `tt` as its premise, if it is an implication or a quantified one.
fn conclusion_alone(table: &mut Table, form: Id) -> Result<Option<Id>, AllocError>
    requires { IsKnown table.old form }
    ensures exact { IfOk result (IsAlone table.old table.new form) }
    ensures known { IfOk result (λ o. IfSome o (IsKnown table.new)) }
    ensures extends { Extends table.old table.new }
{
    match form_node(table, form) {
        FormNode::Imp(_, conclusion) => {
            let implied = always(table, conclusion)?;
            Ok(Some(implied))
        }
        FormNode::All(body) => {
            let alone = body_alone(table, body)?;
            Ok(alone)
        }
        FormNode::True => Ok(None),
        FormNode::False => Ok(None),
        FormNode::Relation(_, _, _) => Ok(None),
        FormNode::Right(_, _) => Ok(None),
        FormNode::And(_, _) => Ok(None),
        FormNode::Or(_, _) => Ok(None),
        FormNode::AllMem(_) => Ok(None),
    }
}

/// Whether `hyp`, as the only hypothesis, grants the access `goal`.
#[tactic(auto, using(prover_goals::proofs::Kept::rows))]
fn is_granted(
    table: &mut Table,
    search: &mut Search,
    counted: bool,
    hyp: Id,
    goal: Id,
) -> Result<bool, Exhausted>
    requires hyp { IsKnown table.old hyp }
    requires goal { IsKnown table.old goal }
    requires search { IsSearch table.old search.old }
    ensures exact { (A F : Form) → tree_at table.old goal ≡ form_encoding A
        → tree_at table.old hyp ≡ form_encoding F
        → IfOk result (λ b. b ≡ is_granted counted A F) }
    ensures extends { Extends table.old table.new }
    ensures search { OnOk result (IsSearch table.new search.new) }
{
    let hyps = hypotheses_of(table, &[hyp])?;
    let mut context = Context::new(table, PART_BINDERS, hyps)?;
    let proof = proof_by_access(table, search, &mut context, counted, goal)?;
    Ok(proof.is_some())
}

/// The half that is wanting, if the conclusion alone grants the access or doesn't.
fn half_by(granted: bool) -> Half
    ensures { result ≡ half_by granted }
{
    if granted {
        Half::Premise
    } else {
        Half::Conclusion
    }
}

/// Returns which half of the hypothesis `hyp` keeps it from granting the access `goal`, which isn't
/// easy: the conclusion, if it doesn't grant the access with `tt` as its premise, or else the
/// premise. None if `hyp` is no implication. Both are from a part over the machine's variables, with
/// `PART_BINDERS` binders outside. `counted` says whether steps are counted.
///
/// Errors: as for `missing_parts`.
#[tactic(auto, using(prover_goals::proofs::Kept::rows))]
pub fn half_of(
    table: &mut Table,
    search: &mut Search,
    counted: bool,
    hyp: Id,
    goal: Id,
) -> Result<Option<Half>, Exhausted>
    requires hyp { IsKnown table.old hyp }
    requires goal { IsKnown table.old goal }
    requires search { IsSearch table.old search.old }
    ensures exact { (A F : Form) → tree_at table.old goal ≡ form_encoding A
        → tree_at table.old hyp ≡ form_encoding F
        → IfOk result (λ o. o ≡ half_of counted A F) }
    ensures extends { Extends table.old table.new }
    ensures search { OnOk result (IsSearch table.new search.new) }
{
    match conclusion_alone(table, hyp)? {
        None => Ok(None),
        Some(alone) => {
            let granted = is_granted(table, search, counted, alone, goal)?;
            Ok(Some(half_by(granted)))
        }
    }
}
