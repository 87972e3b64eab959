//! Access by a hypothesis with a premise, `(imp P Q)` or `(all (imp P Q))`, Q giving access.
//!
//! Errors: out of memory, or the search's limit is reached; each id keeps its tree.

ghost use Rattle.std.specs.Prelude.{◌≡◌, true, [], List, IfOk, IfSome, OnOk};
ghost use Rattle.term_table.specs.Table.{IsKnown, tree_at, Extends};
ghost use Rattle.lf_signature.specs.Nodes.{IsIdOf};
ghost use Rattle.formula_tree.specs.Formulas.{Exp, Form, FImp};
ghost use Rattle.lf_terms.specs.Encoding.{exp_encoding, form_encoding};
ghost use Rattle.lf_terms.specs.ProofTerms.{all_e};
ghost use Rattle.prover_class.specs.Access.{down, Opened, granted, granted_by};
ghost use Rattle.prover_class.specs.Access as class;
ghost use Rattle.prover_goals.specs.Search.{IsSearch, IsContext, IsAfter};
ghost use Rattle.prover_conditions.specs.Inside.AccessIds.{access_of, way_back, IsKnownGrant, IsKnownFound, IsFoundAt, IsGranted};
ghost use Rattle.hereditary_subst.specs.Limits.{SpendsResults};

use crate::access_moves::{access_move, form_with};
use crate::access_walks::{Asked, Found, Grant, Side, walk};
use hereditary_subst::Exhausted;
use lf_signature::app2;
use lf_signature::numbers::{ALL_E, AND_L, AND_R, IMP, IMP_E};
use lf_terms::rule_term;
use prover_goals::{Context, Search};
use prover_ids::{FormNode, form_node};
use std::alloc::AllocError;
use std::collections::BTreeSet;
use term_table::{Id, Node, Table};

/// The proof at the end of the way, by the proof of the formula.
fn down(table: &mut Table, form: Id, way: &[Side], proof: Id) -> Result<Id, AllocError>
    requires form { IsKnown table.old form }
    requires proof { IsKnown table.old proof }
    ensures known { IfOk result (IsKnown table.new) }
    ensures exact { (A : Form) → tree_at table.old form ≡ form_encoding A
        → IfOk result (IsIdOf table.new (down A (way_back way.now []) (tree_at table.old proof))) }
    ensures extends { Extends table.old table.new }
{
    match way {
        [] => Ok(proof),
        [front @ .., side] => match form_node(table, form) {
            FormNode::And(a, b) => match side {
                Side::Left => {
                    let part = rule_term(table, AND_L, &[a, b, proof])?;
                    let end = down(table, a, front, part)?;
                    Ok(end)
                }
                Side::Right => {
                    let part = rule_term(table, AND_R, &[a, b, proof])?;
                    let end = down(table, b, front, part)?;
                    Ok(end)
                }
            },
            _ => Ok(proof),
        },
    }
}

/// The proof of the access that the goal names, from an implication by `proof`, by what was found.
#[tactic(auto, using(prover_goals::proofs::Kept::rows))]
fn granted(
    table: &mut Table,
    search: &mut Search,
    outside: u32,
    asked: &Asked,
    premise: Id,
    conclusion: Id,
    proof: Id,
    found: &Found,
) -> Result<Id, Exhausted>
    requires asked { IsKnown table.old asked.now.address }
    requires premise { IsKnown table.old premise }
    requires conclusion { IsKnown table.old conclusion }
    requires proof { IsKnown table.old proof }
    requires found { IsKnownFound table.old found.now }
    requires search { IsSearch table.old search.old }
    ensures known { IfOk result (IsKnown table.new) }
    ensures exact { (a : Exp) (P Q : Form) (x : List class.Side × Opened)
        → tree_at table.old asked.now.address ≡ exp_encoding a
        → tree_at table.old premise ≡ form_encoding P
        → tree_at table.old conclusion ≡ form_encoding Q → IsFoundAt table.old x found.now
        → IfOk result (IsIdOf table.new (granted outside (access_of asked.now.access) a P Q
        (tree_at table.old proof) x)) }
    ensures extends { Extends table.old table.new }
    ensures search { OnOk result (IsSearch table.new search.new) }
    ensures spends { SpendsResults table.new search.old.memo search.new.memo result }
{
    let opening = &found.opening;
    let top = rule_term(table, IMP_E, &[premise, conclusion, proof, opening.proof])?;
    let end = down(table, conclusion, found.way.as_slice(), top)?;
    let (z, a) = (opening.address, asked.address);
    let moved = access_move(table, search, outside, asked.access, z, a, end)?;
    Ok(moved)
}

/// The proof of the implication with `put` for the variable, by that for all words.
fn instance_proof(
    table: &mut Table,
    premise: Id,
    conclusion: Id,
    put: Id,
    proof: Id,
) -> Result<Id, AllocError>
    requires premise { IsKnown table.old premise }
    requires conclusion { IsKnown table.old conclusion }
    requires put { IsKnown table.old put }
    requires proof { IsKnown table.old proof }
    ensures known { IfOk result (IsKnown table.new) }
    ensures exact { (P Q : Form) (o : Exp) → tree_at table.old premise ≡ form_encoding P
        → tree_at table.old conclusion ≡ form_encoding Q → tree_at table.old put ≡ exp_encoding o
        → IfOk result (IsIdOf table.new (all_e (FImp P Q) o (tree_at table.old proof))) }
    ensures extends { Extends table.old table.new }
{
    let form = app2(table, IMP, premise, conclusion)?;
    let under = table.intern(Node::Lam(form))?;
    let instance = rule_term(table, ALL_E, &[under, put, proof])?;
    Ok(instance)
}

/// The proof of the access that the goal names, from a quantified implication.
#[tactic(auto, using(prover_goals::proofs::Kept::rows))]
fn granted_instance(
    table: &mut Table,
    search: &mut Search,
    outside: u32,
    asked: &Asked,
    grant: &Grant,
    found: &Found,
) -> Result<Id, Exhausted>
    requires asked { IsKnown table.old asked.now.address }
    requires grant { IsKnownGrant table.old grant.now }
    requires found { IsKnownFound table.old found.now }
    requires search { IsSearch table.old search.old }
    ensures known { IfOk result (IsKnown table.new) }
    ensures exact { (a : Exp) (P Q : Form) (x : List class.Side × Opened)
        → tree_at table.old asked.now.address ≡ exp_encoding a
        → tree_at table.old grant.now.premise ≡ form_encoding P
        → tree_at table.old grant.now.conclusion ≡ form_encoding Q
        → IsFoundAt table.old x found.now → IfOk result (IsIdOf table.new
        (granted_by true outside (access_of asked.now.access) a P Q
        (tree_at table.old grant.now.proof) x)) }
    ensures extends { Extends table.old table.new }
    ensures search { OnOk result (IsSearch table.new search.new) }
    ensures spends { SpendsResults table.new search.old.memo search.new.memo result }
{
    let put = found.opening.put;
    let premise = form_with(table, search, grant.premise, put)?;
    let conclusion = form_with(table, search, grant.conclusion, put)?;
    let proof = instance_proof(table, grant.premise, grant.conclusion, put, grant.proof)?;
    let made = granted(
        table, search, outside, asked, premise, conclusion, proof, found,
    )?;
    Ok(made)
}

/// The proof of the access that the goal names, from the hypothesis, by what was found.
#[tactic(auto, using(prover_goals::proofs::Kept::rows))]
fn granted_by(
    table: &mut Table,
    search: &mut Search,
    outside: u32,
    asked: &Asked,
    grant: &Grant,
    found: &Found,
) -> Result<Id, Exhausted>
    requires asked { IsKnown table.old asked.now.address }
    requires grant { IsKnownGrant table.old grant.now }
    requires found { IsKnownFound table.old found.now }
    requires search { IsSearch table.old search.old }
    ensures known { IfOk result (IsKnown table.new) }
    ensures exact { (a : Exp) (P Q : Form) (x : List class.Side × Opened)
        → tree_at table.old asked.now.address ≡ exp_encoding a
        → tree_at table.old grant.now.premise ≡ form_encoding P
        → tree_at table.old grant.now.conclusion ≡ form_encoding Q
        → IsFoundAt table.old x found.now → IfOk result (IsIdOf table.new
        (granted_by grant.now.quantified outside (access_of asked.now.access) a P Q
        (tree_at table.old grant.now.proof) x)) }
    ensures extends { Extends table.old table.new }
    ensures search { OnOk result (IsSearch table.new search.new) }
    ensures spends { SpendsResults table.new search.old.memo search.new.memo result }
{
    if grant.quantified {
        let made = granted_instance(table, search, outside, asked, grant, found)?;
        Ok(made)
    } else {
        let (p, q) = (grant.premise, grant.conclusion);
        let made = granted(table, search, outside, asked, p, q, grant.proof, found)?;
        Ok(made)
    }
}

/// The proof of the access that the goal names, from the hypothesis; None if no address of its
/// conclusion gives it.
#[tactic(auto, using(prover_goals::proofs::WordRows::rows))]
pub(crate) fn by_grant(
    table: &mut Table,
    search: &mut Search,
    context: &mut Context,
    asked: &Asked,
    grant: &Grant,
) -> Result<Option<Id>, Exhausted>
    requires asked { IsKnown table.old asked.now.address }
    requires grant { IsKnownGrant table.old grant.now }
    requires search { IsSearch table.old search.old }
    requires context { IsContext table.old context.old }
    ensures known { IfOk result (λ o. IfSome o (IsKnown table.new)) }
    ensures exact { let c = context.old in IfOk result (IsGranted table.old table.new c.hyps
        c.outside asked.now grant.now) }
    ensures extends { Extends table.old table.new }
    ensures after { OnOk result (IsAfter table.new search.new context.old context.new) }
    ensures spends { SpendsResults table.new search.old.memo search.new.memo result }
{
    let alloc = table.allocator();
    let mut misses = BTreeSet::new(alloc);
    let form = grant.conclusion;
    match walk(table, search, context, asked, grant, &mut misses, form)? {
        None => Ok(None),
        Some(found) => {
            let outside = context.outside;
            let proof = granted_by(table, search, outside, asked, grant, &found)?;
            Ok(Some(proof))
        }
    }
}
