//! Proofs of goals, by their connectives and then by all means.
//!
//! Errors: out of memory, or the search's limit is reached; each id keeps its tree.

ghost use Rattle.std.specs.Prelude.{◌≡◌, ◌-◌, IfOk, IfSome, OnOk};
ghost use Rattle.term_table.specs.Table.{IsKnown, Extends};
ghost use Rattle.prover_goals.specs.Search.{IsSearch, IsContext};

use crate::leaves::leaf_proof;
use auto_facts::{raise, under_hypothesis};
use hereditary_subst::Exhausted;
use lf_signature::numbers::{ALL_I, ALLM_I, AND_I, IMP_I, OR_L, OR_R, TT_I};
use lf_terms::rule_term;
use prover_goals::{Context, Search, under_binder};
use prover_hyps::find_hyp;
use prover_ids::{FormNode, Sides, form_node};
use std::alloc::AllocError;
use term_table::{Id, Node, Table};

/// The most connectives that stand in each other.
const MOST_DEPTH: u32 = 4_096;

/// As so many steps a goal counts.
const STEPS_A_GOAL: u64 = 64;

/// By which means a goal is proved.
#[derive(Clone, Copy)]
struct How {
    // whether steps are counted
    counted: bool,
    // how many connectives may still stand in each other
    left: u32,
}

/// What stands under a quantifier, and the number of the rule that introduces it.
#[derive(Clone, Copy)]
struct Over {
    rule: u32,
    body: Id,
}

/// The proof of truth.
fn truth(table: &mut Table) -> Result<Option<Id>, AllocError>
    ensures known { IfOk result (λ o. IfSome o (IsKnown table.new)) }
    ensures extends { Extends table.old table.new }
{
    let proof = rule_term(table, TT_I, &[])?;
    Ok(Some(proof))
}

/// The same means a level deeper.
fn below(how: How) -> How
    ensures { result.left ≡ how.left - 1 }
{
    How {
        counted: how.counted,
        left: how.left.saturating_sub(1),
    }
}

/// The proof of a goal.
#[cycle(proving)]
#[tactic(auto, using(prover_goals::proofs::Kept::rows))]
fn proof_by(
    table: &mut Table,
    search: &mut Search,
    context: &mut Context,
    how: How,
    goal: Id,
) -> Result<Option<Id>, Exhausted>
    requires goal { IsKnown table.old goal }
    requires search { IsSearch table.old search.old }
    requires context { IsContext table.old context.old }
    ensures known { IfOk result (λ o. IfSome o (IsKnown table.new)) }
    ensures extends { Extends table.old table.new }
    ensures search { OnOk result (IsSearch table.new search.new) }
    ensures context { OnOk result (IsContext table.new context.new) }
{
    search.spend_steps(STEPS_A_GOAL)?;
    if let Some(proof) = find_hyp(table, &context.hyps, goal) {
        return Ok(Some(proof));
    }
    if how.left == 0 {
        return Ok(None);
    }
    proof_by_shape(table, search, context, below(how), goal)
}

/// The proof of a goal by its shape.
#[cycle(proving)]
#[tactic(auto, using(prover_goals::proofs::Kept::rows))]
fn proof_by_shape(
    table: &mut Table,
    search: &mut Search,
    context: &mut Context,
    how: How,
    goal: Id,
) -> Result<Option<Id>, Exhausted>
    requires goal { IsKnown table.old goal }
    requires search { IsSearch table.old search.old }
    requires context { IsContext table.old context.old }
    ensures known { IfOk result (λ o. IfSome o (IsKnown table.new)) }
    ensures extends { Extends table.old table.new }
    ensures search { OnOk result (IsSearch table.new search.new) }
    ensures context { OnOk result (IsContext table.new context.new) }
{
    match form_node(table, goal) {
        FormNode::True => Ok(truth(table)?),
        FormNode::And(left, right) => {
            proof_of_both(table, search, context, how, Sides { left, right })
        }
        FormNode::Or(left, right) => {
            proof_of_either(table, search, context, how, Sides { left, right })
        }
        FormNode::Imp(left, right) => {
            proof_of_implication(table, search, context, how, Sides { left, right })
        }
        FormNode::All(body) => {
            proof_for_all(table, search, context, how, Over { rule: ALL_I, body })
        }
        FormNode::AllMem(body) => {
            proof_for_all(table, search, context, how, Over { rule: ALLM_I, body })
        }
        _ => leaf_proof(table, search, context, how.counted, goal),
    }
}

/// The proof of a conjunction.
#[cycle(proving)]
#[tactic(auto, using(prover_goals::proofs::Kept::rows))]
fn proof_of_both(
    table: &mut Table,
    search: &mut Search,
    context: &mut Context,
    how: How,
    sides: Sides,
) -> Result<Option<Id>, Exhausted>
    requires left { IsKnown table.old sides.left }
    requires right { IsKnown table.old sides.right }
    requires search { IsSearch table.old search.old }
    requires context { IsContext table.old context.old }
    ensures known { IfOk result (λ o. IfSome o (IsKnown table.new)) }
    ensures extends { Extends table.old table.new }
    ensures search { OnOk result (IsSearch table.new search.new) }
    ensures context { OnOk result (IsContext table.new context.new) }
{
    let (a, b) = (sides.left, sides.right);
    let Some(left) = proof_by(table, search, context, how, a)? else {
        return Ok(None);
    };
    let Some(right) = proof_by(table, search, context, how, b)? else {
        return Ok(None);
    };
    let proof = rule_term(table, AND_I, &[a, b, left, right])?;
    Ok(Some(proof))
}

/// The proof of a disjunction: by its left, else by its right.
#[cycle(proving)]
#[tactic(auto, using(prover_goals::proofs::Kept::rows))]
fn proof_of_either(
    table: &mut Table,
    search: &mut Search,
    context: &mut Context,
    how: How,
    sides: Sides,
) -> Result<Option<Id>, Exhausted>
    requires left { IsKnown table.old sides.left }
    requires right { IsKnown table.old sides.right }
    requires search { IsSearch table.old search.old }
    requires context { IsContext table.old context.old }
    ensures known { IfOk result (λ o. IfSome o (IsKnown table.new)) }
    ensures extends { Extends table.old table.new }
    ensures search { OnOk result (IsSearch table.new search.new) }
    ensures context { OnOk result (IsContext table.new context.new) }
{
    let (a, b) = (sides.left, sides.right);
    if let Some(left) = proof_by(table, search, context, how, a)? {
        let proof = rule_term(table, OR_L, &[a, b, left])?;
        return Ok(Some(proof));
    }
    let Some(right) = proof_by(table, search, context, how, b)? else {
        return Ok(None);
    };
    let proof = rule_term(table, OR_R, &[a, b, right])?;
    Ok(Some(proof))
}

/// The proof of an implication: that of the second under the first.
#[cycle(proving)]
#[tactic(auto, using(prover_goals::proofs::Kept::rows))]
fn proof_of_implication(
    table: &mut Table,
    search: &mut Search,
    context: &Context,
    how: How,
    sides: Sides,
) -> Result<Option<Id>, Exhausted>
    requires left { IsKnown table.old sides.left }
    requires right { IsKnown table.old sides.right }
    requires search { IsSearch table.old search.old }
    requires context { IsContext table.old context.now }
    ensures known { IfOk result (λ o. IfSome o (IsKnown table.new)) }
    ensures extends { Extends table.old table.new }
    ensures search { OnOk result (IsSearch table.new search.new) }
{
    let (a, b) = (sides.left, sides.right);
    let goal = raise(table, search, b)?;
    let mut under = under_hypothesis(table, search, context, a)?;
    let Some(second) = proof_by(table, search, &mut under, how, goal)? else {
        return Ok(None);
    };
    let body = table.intern(Node::Lam(second))?;
    let proof = rule_term(table, IMP_I, &[a, b, body])?;
    Ok(Some(proof))
}

/// The proof of a quantifier, by that of what stands under its binder.
#[cycle(proving)]
#[tactic(auto, using(prover_goals::proofs::Kept::rows))]
fn proof_for_all(
    table: &mut Table,
    search: &mut Search,
    context: &Context,
    how: How,
    over: Over,
) -> Result<Option<Id>, Exhausted>
    requires body { IsKnown table.old over.body }
    requires search { IsSearch table.old search.old }
    requires context { IsContext table.old context.now }
    ensures known { IfOk result (λ o. IfSome o (IsKnown table.new)) }
    ensures extends { Extends table.old table.new }
    ensures search { OnOk result (IsSearch table.new search.new) }
{
    let (rule, body) = (over.rule, over.body);
    let mut under = under_binder(table, search, context)?;
    let proof = proof_by(table, search, &mut under, how, body)?;
    Ok(generalized(table, rule, body, proof)?)
}

/// The proof of a quantifier over `body`, by the rule of that number, from that of `body`, if there
/// is one.
fn generalized(
    table: &mut Table,
    rule: u32,
    body: Id,
    proof: Option<Id>,
) -> Result<Option<Id>, AllocError>
    requires body { IsKnown table.old body }
    requires proof { IfSome proof (IsKnown table.old) }
    ensures known { IfOk result (λ o. IfSome o (IsKnown table.new)) }
    ensures extends { Extends table.old table.new }
{
    match proof {
        None => Ok(None),
        Some(proof) => {
            let form = table.intern(Node::Lam(body))?;
            let under = table.intern(Node::Lam(proof))?;
            let whole = rule_term(table, rule, &[form, under])?;
            Ok(Some(whole))
        }
    }
}

/// Returns the proof of a goal under the hypotheses of the context, which may be formulas that
/// follow from others (`auto_facts::add_derived`); None if it finds none. `counted` says whether steps are
/// counted.
///
/// Errors: out of memory, or the limit of `search` is reached; each id keeps its tree.
#[tactic(auto, using(prover_goals::proofs::Kept::rows))]
pub fn proof_of(
    table: &mut Table,
    search: &mut Search,
    context: &mut Context,
    counted: bool,
    goal: Id,
) -> Result<Option<Id>, Exhausted>
    requires goal { IsKnown table.old goal }
    requires search { IsSearch table.old search.old }
    requires context { IsContext table.old context.old }
    ensures known { IfOk result (λ o. IfSome o (IsKnown table.new)) }
    ensures extends { Extends table.old table.new }
    ensures search { OnOk result (IsSearch table.new search.new) }
    ensures context { OnOk result (IsContext table.new context.new) }
{
    let how = How {
        counted,
        left: MOST_DEPTH,
    };
    proof_by(table, search, context, how, goal)
}
