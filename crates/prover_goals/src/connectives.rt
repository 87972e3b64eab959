//! Proofs of goals by their connectives.
//!
//! Errors: out of memory, or the search's limit is reached; each id keeps its tree.

ghost use Rattle.std.specs.Prelude.{◌≡◌, IfOk, IfSome, OnOk};
ghost use Rattle.term_table.specs.Table.{IsKnown, tree_at, Extends};
ghost use Rattle.formula_tree.specs.Formulas.{FAnd, FOr, FImp};
ghost use Rattle.prover_ids.specs.Nodes.{IsLower};
ghost use Rattle.prover_class.specs.Access.{without_access};
ghost use Rattle.prover_goals.specs.Provers.{IsProofBy, whole_proof, prover_of};
ghost use Rattle.prover_goals.specs.Search.{IsSearch, IsContext, IsAfter};
ghost use Rattle.prover_goals.specs.Inside.Connectives.{shape_proof, IsJoinProof, IsOverProof};
ghost use Rattle.hereditary_subst.specs.Limits.{SpendsResults};

use crate::contexts::{under_binder, under_hypothesis};
use crate::introductions::{both, generalized, implied, joined, truth};
use crate::leaf::{Leaf, WordsAlone};
use crate::search::{Context, Search, keep_answer};
use hereditary_subst::Exhausted;
use lf_signature::numbers::{ALL_I, ALLM_I, FF_E, OR_L, OR_R};
use lf_terms::rule_term;
use prover_hyps::find_hyp;
use prover_ids::{FormNode, form_node, raised};
use term_table::{Id, Table};

/// Returns the proof of `goal` under the hypotheses of `context` that the search of `prover_class`
/// by connectives gives, with `leaf` for goals that have none: None if it gives none. Results for
/// goals are cached in their contexts.
///
/// Errors: out of memory, or the limit of `search` is reached; each id keeps its tree.
#[cycle(proving)]
#[tactic(auto, using(crate::proofs::Kept::rows))]
pub fn goal_proof<L: Leaf>(
    table: &mut Table,
    leaf: &L,
    search: &mut Search,
    context: &mut Context,
    goal: Id,
) -> Result<Option<Id>, Exhausted>
    requires goal { IsKnown table.old goal }
    requires search { IsSearch table.old search.old }
    requires context { IsContext table.old context.old }
    ensures known { IfOk result (λ o. IfSome o (IsKnown table.new)) }
    ensures exact { let c = context.old in let p = whole_proof (prover_of (L.by leaf.now)) in
        IfOk result (IsProofBy p table.old table.new c.hyps c.outside goal) }
    ensures extends { Extends table.old table.new }
    ensures after { OnOk result (IsAfter table.new search.new context.old context.new) }
    ensures spends { SpendsResults table.new search.old.memo search.new.memo result }
{
    if let Some(found) = context.found(table, leaf.means(), goal) {
        return Ok(found);
    }
    let proof = unkept_proof(table, leaf, search, context, goal)?;
    keep_answer(table, search, context, leaf.means(), goal, proof)
}

/// The proof of a goal of which nothing is cached: a hypothesis, or what follows from falsity, or
/// by its shape.
#[cycle(proving)]
#[tactic(auto, using(crate::proofs::Kept::rows))]
fn unkept_proof<L: Leaf>(
    table: &mut Table,
    leaf: &L,
    search: &mut Search,
    context: &mut Context,
    goal: Id,
) -> Result<Option<Id>, Exhausted>
    requires goal { IsKnown table.old goal }
    requires search { IsSearch table.old search.old }
    requires context { IsContext table.old context.old }
    ensures known { IfOk result (λ o. IfSome o (IsKnown table.new)) }
    ensures exact { let c = context.old in let p = whole_proof (prover_of (L.by leaf.now)) in
        IfOk result (IsProofBy p table.old table.new c.hyps c.outside goal) }
    ensures extends { Extends table.old table.new }
    ensures after { OnOk result (IsAfter table.new search.new context.old context.new) }
    ensures spends { SpendsResults table.new search.old.memo search.new.memo result }
{
    if let Some(proof) = find_hyp(table, &context.hyps, goal) {
        return Ok(Some(proof));
    }
    if let Some(falsity) = context.absurd {
        let proof = rule_term(table, FF_E, &[goal, falsity])?;
        return Ok(Some(proof));
    }
    proof_by_shape(table, leaf, search, context, goal)
}

/// The proof of a goal by its shape.
#[cycle(proving)]
#[tactic(auto, using(crate::proofs::Kept::rows))]
fn proof_by_shape<L: Leaf>(
    table: &mut Table,
    leaf: &L,
    search: &mut Search,
    context: &mut Context,
    goal: Id,
) -> Result<Option<Id>, Exhausted>
    requires goal { IsKnown table.old goal }
    requires search { IsSearch table.old search.old }
    requires context { IsContext table.old context.old }
    ensures known { IfOk result (λ o. IfSome o (IsKnown table.new)) }
    ensures exact { let c = context.old in let p = shape_proof (prover_of (L.by leaf.now)) in
        IfOk result (IsProofBy p table.old table.new c.hyps c.outside goal) }
    ensures extends { Extends table.old table.new }
    ensures after { OnOk result (IsAfter table.new search.new context.old context.new) }
    ensures spends { SpendsResults table.new search.old.memo search.new.memo result }
{
    match form_node(table, goal) {
        FormNode::True => truth(table),
        FormNode::And(a, b) => proof_of_both(table, leaf, search, context, goal, a, b),
        FormNode::Or(a, b) => proof_of_either(table, leaf, search, context, goal, a, b),
        FormNode::Imp(a, b) => proof_of_implication(table, leaf, search, context, goal, a, b),
        FormNode::All(b) => proof_for_all(table, leaf, search, context, goal, ALL_I, b),
        FormNode::AllMem(b) => proof_for_all(table, leaf, search, context, goal, ALLM_I, b),
        FormNode::False => leaf.leaf_proof(table, search, context, goal),
        FormNode::Relation(_, _, _) => leaf.leaf_proof(table, search, context, goal),
        FormNode::Right(_, _) => leaf.leaf_proof(table, search, context, goal),
    }
}

/// The proof of a conjunction.
#[cycle(proving)]
#[tactic(auto, using(crate::proofs::Kept::rows))]
fn proof_of_both<L: Leaf>(
    table: &mut Table,
    leaf: &L,
    search: &mut Search,
    context: &mut Context,
    whole: Id,
    a: Id,
    b: Id,
) -> Result<Option<Id>, Exhausted>
    requires a { IsKnown table.old a }
    requires b { IsKnown table.old b }
    requires lower { IsLower table.old a whole × IsLower table.old b whole }
    requires search { IsSearch table.old search.old }
    requires context { IsContext table.old context.old }
    ensures known { IfOk result (λ o. IfSome o (IsKnown table.new)) }
    ensures exact { let c = context.old in let p = prover_of (L.by leaf.now) in IfOk result
        (IsJoinProof p table.old table.new c.hyps c.outside FAnd a b) }
    ensures extends { Extends table.old table.new }
    ensures after { OnOk result (IsAfter table.new search.new context.old context.new) }
    ensures spends { SpendsResults table.new search.old.memo search.new.memo result }
{
    match goal_proof(table, leaf, search, context, a)? {
        None => Ok(None),
        Some(left) => {
            let right = goal_proof(table, leaf, search, context, b)?;
            both(table, a, b, left, right)
        }
    }
}

/// The proof of a disjunction: by its left, else by its right.
#[cycle(proving)]
#[tactic(auto, using(crate::proofs::Kept::rows))]
fn proof_of_either<L: Leaf>(
    table: &mut Table,
    leaf: &L,
    search: &mut Search,
    context: &mut Context,
    whole: Id,
    a: Id,
    b: Id,
) -> Result<Option<Id>, Exhausted>
    requires a { IsKnown table.old a }
    requires b { IsKnown table.old b }
    requires lower { IsLower table.old a whole × IsLower table.old b whole }
    requires search { IsSearch table.old search.old }
    requires context { IsContext table.old context.old }
    ensures known { IfOk result (λ o. IfSome o (IsKnown table.new)) }
    ensures exact { let c = context.old in let p = prover_of (L.by leaf.now) in IfOk result
        (IsJoinProof p table.old table.new c.hyps c.outside FOr a b) }
    ensures extends { Extends table.old table.new }
    ensures after { OnOk result (IsAfter table.new search.new context.old context.new) }
    ensures spends { SpendsResults table.new search.old.memo search.new.memo result }
{
    let left = goal_proof(table, leaf, search, context, a)?;
    if let Some(proof) = left {
        return joined(table, OR_L, a, b, Some(proof));
    }
    let right = goal_proof(table, leaf, search, context, b)?;
    joined(table, OR_R, a, b, right)
}

/// The proof of an implication: that of the second under the first.
#[cycle(proving)]
#[tactic(auto, using(crate::proofs::Kept::rows))]
fn proof_of_implication<L: Leaf>(
    table: &mut Table,
    leaf: &L,
    search: &mut Search,
    context: &Context,
    whole: Id,
    a: Id,
    b: Id,
) -> Result<Option<Id>, Exhausted>
    requires a { IsKnown table.old a }
    requires b { IsKnown table.old b }
    requires lower { IsLower table.old b whole }
    requires search { IsSearch table.old search.old }
    requires context { IsContext table.old context.now }
    ensures known { IfOk result (λ o. IfSome o (IsKnown table.new)) }
    ensures exact { let c = context.now in let p = prover_of (L.by leaf.now) in IfOk result
        (IsJoinProof p table.old table.new c.hyps c.outside FImp a b) }
    ensures extends { Extends table.old table.new }
    ensures search { OnOk result (IsSearch table.new search.new) }
    ensures spends { SpendsResults table.new search.old.memo search.new.memo result }
{
    let mut under = under_hypothesis(table, search, context, a)?;
    let goal = raised(table, &mut search.memo, b)?;
    let proof = goal_proof(table, leaf, search, &mut under, goal)?;
    implied(table, a, b, proof)
}

/// The proof of a quantifier over `b`, by the rule of that number.
#[cycle(proving)]
#[tactic(auto, using(crate::proofs::Kept::rows))]
fn proof_for_all<L: Leaf>(
    table: &mut Table,
    leaf: &L,
    search: &mut Search,
    context: &Context,
    whole: Id,
    rule: u32,
    b: Id,
) -> Result<Option<Id>, Exhausted>
    requires b { IsKnown table.old b }
    requires lower { IsLower table.old b whole }
    requires search { IsSearch table.old search.old }
    requires context { IsContext table.old context.now }
    ensures known { IfOk result (λ o. IfSome o (IsKnown table.new)) }
    ensures exact { let c = context.now in let p = prover_of (L.by leaf.now) in IfOk result
        (IsOverProof p table.old table.new c.hyps c.outside rule b) }
    ensures extends { Extends table.old table.new }
    ensures search { OnOk result (IsSearch table.new search.new) }
    ensures spends { SpendsResults table.new search.old.memo search.new.memo result }
{
    let mut under = under_binder(table, search, context)?;
    let proof = goal_proof(table, leaf, search, &mut under, b)?;
    generalized(table, rule, b, proof)
}

/// Returns the proof of `goal` under the hypotheses of `context` by connectives and words alone:
/// None if they give none. `counted` says whether steps are counted.
///
/// Errors: out of memory, or the limit of `search` is reached; each id keeps its tree.
pub fn proof_without_access(
    table: &mut Table,
    search: &mut Search,
    context: &mut Context,
    counted: bool,
    goal: Id,
) -> Result<Option<Id>, Exhausted>
    requires goal { IsKnown table.old goal }
    requires search { IsSearch table.old search.old }
    requires context { IsContext table.old context.old }
    ensures known { IfOk result (λ o. IfSome o (IsKnown table.new)) }
    ensures exact { let c = context.old in let p = without_access counted in
        IfOk result (IsProofBy p table.old table.new c.hyps c.outside goal) }
    ensures extends { Extends table.old table.new }
    ensures after { OnOk result (IsAfter table.new search.new context.old context.new) }
    ensures spends { SpendsResults table.new search.old.memo search.new.memo result }
{
    goal_proof(table, &WordsAlone { counted }, search, context, goal)
}
