//! Proofs of goals that have no connective, and of premises of access.
//!
//! Errors: out of memory, or the search's limit is reached; each id keeps its tree.

ghost use Rattle.std.specs.Prelude.{IfOk, IfSome, OnOk};
ghost use Rattle.term_table.specs.Table.{IsKnown, Extends};
ghost use Rattle.prover_goals.specs.Search.{IsSearch, IsContext};
ghost use Rattle.auto_facts.specs.Facts.{IsFact};

use crate::chains::{Asked, related_proof};
use auto_facts::{Fact, Wanted, fact_at, premise_of, with_fact};
use hereditary_subst::Exhausted;
use lf_signature::numbers::AND_I;
use lf_terms::rule_term;
use prover_conditions::{proof_by_access, proof_by_all_means};
use prover_goals::{Context, Search, proof_without_access};
use prover_ids::{FormNode, form_node, right};
use std::alloc::AllocError;
use term_table::{Id, Table};

/// As so many steps a hypothesis counts that is tried for access.
const STEPS_A_TRY: u64 = 16;

/// The proof of a relation by hypotheses whose expressions have the same normal forms; None for any
/// other goal.
#[tactic(auto, using(prover_goals::proofs::Kept::rows))]
fn relation_proof(
    table: &mut Table,
    search: &mut Search,
    context: &mut Context,
    counted: bool,
    goal: Id,
) -> Result<Option<Id>, Exhausted>
    requires goal { IsKnown table.old goal }
    requires search { IsSearch table.old search.old }
    requires context { IsContext table.old context.old }
    ensures known { IfOk result (λ o. IfSome o (IsKnown table.new)) }
    ensures extends { Extends table.old table.new }
    ensures search { OnOk result (IsSearch table.new search.new) }
    ensures context { OnOk result (IsContext table.new context.new) }
{
    match form_node(table, goal) {
        FormNode::Relation(rel, a, b) => {
            let asked = Asked {
                counted,
                outside: context.outside,
                rel,
                a,
                b,
            };
            related_proof(table, search, context, &asked)
        }
        _ => Ok(None),
    }
}

/// The proof of a part of a premise, without access.
#[tactic(auto, using(prover_goals::proofs::Kept::rows))]
fn part_proof(
    table: &mut Table,
    search: &mut Search,
    context: &mut Context,
    counted: bool,
    part: Id,
) -> Result<Option<Id>, Exhausted>
    requires part { IsKnown table.old part }
    requires search { IsSearch table.old search.old }
    requires context { IsContext table.old context.old }
    ensures known { IfOk result (λ o. IfSome o (IsKnown table.new)) }
    ensures extends { Extends table.old table.new }
    ensures search { OnOk result (IsSearch table.new search.new) }
    ensures context { OnOk result (IsContext table.new context.new) }
{
    if let Some(proof) = proof_without_access(table, search, context, counted, part)? {
        return Ok(Some(proof));
    }
    relation_proof(table, search, context, counted, part)
}

/// The proof of a conjunction, by the proofs of its sides.
fn conjoined(table: &mut Table, a: Id, b: Id, left: Id, right: Id) -> Result<Option<Id>, AllocError>
    requires a { IsKnown table.old a }
    requires b { IsKnown table.old b }
    requires left { IsKnown table.old left }
    requires right { IsKnown table.old right }
    ensures known { IfOk result (λ o. IfSome o (IsKnown table.new)) }
    ensures extends { Extends table.old table.new }
{
    let proof = rule_term(table, AND_I, &[a, b, left, right])?;
    Ok(Some(proof))
}

/// The proof of a premise, without access: of a conjunction by its parts.
#[tactic(auto, using(prover_goals::proofs::Kept::rows))]
fn premise_proof(
    table: &mut Table,
    search: &mut Search,
    context: &mut Context,
    counted: bool,
    premise: Id,
) -> Result<Option<Id>, Exhausted>
    requires premise { IsKnown table.old premise }
    requires search { IsSearch table.old search.old }
    requires context { IsContext table.old context.old }
    ensures known { IfOk result (λ o. IfSome o (IsKnown table.new)) }
    ensures extends { Extends table.old table.new }
    ensures search { OnOk result (IsSearch table.new search.new) }
    ensures context { OnOk result (IsContext table.new context.new) }
{
    search.spend_steps(1)?;
    let FormNode::And(a, b) = form_node(table, premise) else {
        return part_proof(table, search, context, counted, premise);
    };
    let Some(left) = premise_proof(table, search, context, counted, a)? else {
        return Ok(None);
    };
    let Some(right) = premise_proof(table, search, context, counted, b)? else {
        return Ok(None);
    };
    Ok(conjoined(table, a, b, left, right)?)
}

/// The proof of access under one more hypothesis.
#[tactic(auto, using(prover_goals::proofs::Kept::rows))]
fn access_with(
    table: &mut Table,
    search: &mut Search,
    context: &Context,
    wanted: &Wanted,
    fact: Fact,
) -> Result<Option<Id>, Exhausted>
    requires wanted { IsKnown table.old wanted.now.address }
    requires fact { IsFact table.old fact }
    requires search { IsSearch table.old search.old }
    requires context { IsContext table.old context.now }
    ensures known { IfOk result (λ o. IfSome o (IsKnown table.new)) }
    ensures extends { Extends table.old table.new }
    ensures search { OnOk result (IsSearch table.new search.new) }
{
    let mut more = with_fact(table, search, context, fact)?;
    let goal = right(table, wanted.access, wanted.address)?;
    proof_by_access(table, search, &mut more, wanted.counted, goal)
}

/// The proof of access by the hypothesis at place `i`, if its premise is proved.
#[tactic(auto, using(prover_goals::proofs::Kept::rows))]
fn proof_by_premise(
    table: &mut Table,
    search: &mut Search,
    context: &mut Context,
    wanted: &Wanted,
    i: usize,
) -> Result<Option<Id>, Exhausted>
    requires wanted { IsKnown table.old wanted.now.address }
    requires search { IsSearch table.old search.old }
    requires context { IsContext table.old context.old }
    ensures known { IfOk result (λ o. IfSome o (IsKnown table.new)) }
    ensures extends { Extends table.old table.new }
    ensures search { OnOk result (IsSearch table.new search.new) }
    ensures context { OnOk result (IsContext table.new context.new) }
{
    let Some(hyp) = fact_at(table, &context.hyps, i) else {
        return Ok(None);
    };
    let Some(premise) = premise_of(table, search, wanted, hyp.form)? else {
        return Ok(None);
    };
    let Some(proof) = premise_proof(table, search, context, wanted.counted, premise)? else {
        return Ok(None);
    };
    let form = premise;
    access_with(table, search, context, wanted, Fact { form, proof })
}

/// The proof of access by the first hypothesis whose premise is proved.
#[tactic(auto, using(prover_goals::proofs::Kept::rows))]
fn proof_by_premises(
    table: &mut Table,
    search: &mut Search,
    context: &mut Context,
    wanted: &Wanted,
) -> Result<Option<Id>, Exhausted>
    requires wanted { IsKnown table.old wanted.now.address }
    requires search { IsSearch table.old search.old }
    requires context { IsContext table.old context.old }
    ensures known { IfOk result (λ o. IfSome o (IsKnown table.new)) }
    ensures extends { Extends table.old table.new }
    ensures search { OnOk result (IsSearch table.new search.new) }
    ensures context { OnOk result (IsContext table.new context.new) }
{
    let count = context.hyps.as_slice().len();
    search.spend_steps((count as u64).saturating_mul(STEPS_A_TRY))?;
    for i in 0..count {
        if let Some(proof) = proof_by_premise(table, search, context, wanted, i)? {
            return Ok(Some(proof));
        }
    }
    Ok(None)
}

/// Returns the proof of a goal that has no connective: the prover's own, else by hypotheses whose
/// expressions have the same normal forms, or by a premise of access.
#[tactic(auto, using(prover_goals::proofs::Kept::rows))]
pub(crate) fn leaf_proof(
    table: &mut Table,
    search: &mut Search,
    context: &mut Context,
    counted: bool,
    goal: Id,
) -> Result<Option<Id>, Exhausted>
    requires goal { IsKnown table.old goal }
    requires search { IsSearch table.old search.old }
    requires context { IsContext table.old context.old }
    ensures known { IfOk result (λ o. IfSome o (IsKnown table.new)) }
    ensures extends { Extends table.old table.new }
    ensures search { OnOk result (IsSearch table.new search.new) }
    ensures context { OnOk result (IsContext table.new context.new) }
{
    if let Some(proof) = proof_by_all_means(table, search, context, counted, goal)? {
        return Ok(Some(proof));
    }
    match form_node(table, goal) {
        FormNode::Right(access, address) => {
            let wanted = Wanted {
                counted,
                outside: context.outside,
                access,
                address,
            };
            proof_by_premises(table, search, context, &wanted)
        }
        _ => relation_proof(table, search, context, counted, goal),
    }
}
