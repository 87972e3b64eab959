//! Proofs of the right to load or store, by hypotheses that give access.
//!
//! Errors: out of memory, or the search's limit is reached; each id keeps its tree.

ghost use Rattle.std.specs.Prelude.{◌≡◌, ◌<◌, length, get_or, IfOk, IfSome, OnOk};
ghost use Rattle.term_table.specs.Table.{IsKnown, tree_at, Extends, Stands};
ghost use Rattle.formula_tree.specs.Formulas.{Exp};
ghost use Rattle.lf_terms.specs.Encoding.{exp_encoding};
ghost use Rattle.term_table.specs.Subst.{bind};
ghost use Rattle.prover_ids.specs.Nodes.{right_form};
ghost use Rattle.prover_ids.specs.Hypotheses.{AreKnownHyps, AreHyps};
ghost use Rattle.prover_class.specs.Hypotheses.{Hyps};
ghost use Rattle.prover_class.specs.Access.{right_address, moved, without_access, by_hyps, by_access};
ghost use Rattle.prover_goals.specs.Provers.{IsProofBy};
ghost use Rattle.prover_goals.specs.Search.{IsSearch, IsContext, IsAfter};
ghost use Rattle.prover_conditions.specs.Inside.AccessIds.{access_of, IsHypProof, IsBodyProof};
ghost use Rattle.hereditary_subst.specs.Limits.{SpendsResults};

use crate::access_grants::by_grant;
use crate::access_moves::{is_asked, moved_access};
use crate::access_walks::{Asked, Grant};
use hereditary_subst::Exhausted;
use prover_goals::{Context, Search};
use prover_ids::{Access, FormNode, Hypothesis, form_node};
use term_table::{Id, Table};

/// As so many steps a hypothesis counts that is tried: it has two normal forms looked up.
const STEPS_A_TRY: u64 = 4;

/// Access by a quantified hypothesis over `body`.
fn by_quantified(
    table: &mut Table,
    search: &mut Search,
    context: &mut Context,
    asked: &Asked,
    body: Id,
    proof: Id,
) -> Result<Option<Id>, Exhausted>
    requires asked { IsKnown table.old asked.now.address }
    requires body { IsKnown table.old body }
    requires proof { IsKnown table.old proof }
    requires search { IsSearch table.old search.old }
    requires context { IsContext table.old context.old }
    ensures known { IfOk result (λ o. IfSome o (IsKnown table.new)) }
    ensures exact { let c = context.old in IfOk result (IsBodyProof table.old table.new c.hyps
        c.outside asked.now body proof) }
    ensures extends { Extends table.old table.new }
    ensures after { OnOk result (IsAfter table.new search.new context.old context.new) }
    ensures spends { SpendsResults table.new search.old.memo search.new.memo result }
{
    match form_node(table, body) {
        FormNode::Imp(premise, conclusion) => {
            let grant = Grant {
                quantified: true,
                premise,
                conclusion,
                proof,
            };
            let found = by_grant(table, search, context, asked, &grant)?;
            Ok(found)
        }
        FormNode::True | FormNode::False => Ok(None),
        FormNode::Relation(_, _, _) => Ok(None),
        FormNode::Right(_, _) => Ok(None),
        FormNode::And(_, _) => Ok(None),
        FormNode::Or(_, _) => Ok(None),
        FormNode::All(_) => Ok(None),
        FormNode::AllMem(_) => Ok(None),
    }
}

/// Access by a hypothesis that is a right at the address `z`.
#[tactic(auto, using(prover_goals::proofs::WordRows::rows))]
fn by_right(
    table: &mut Table,
    search: &mut Search,
    context: &Context,
    asked: &Asked,
    given: Access,
    z: Id,
    proof: Id,
) -> Result<Option<Id>, Exhausted>
    requires asked { IsKnown table.old asked.now.address }
    requires z { IsKnown table.old z }
    requires proof { IsKnown table.old proof }
    requires search { IsSearch table.old search.old }
    requires context { IsContext table.old context.now }
    ensures known { IfOk result (λ o. IfSome o (IsKnown table.new)) }
    ensures exact { (x y : Exp) → tree_at table.old z ≡ exp_encoding x
        → tree_at table.old asked.now.address ≡ exp_encoding y → IfOk result (Stands table.new
        (bind (right_address (access_of asked.now.access) (right_form given x)) (λ a.
        moved context.now.outside (access_of asked.now.access) y a (tree_at table.old proof)))) }
    ensures extends { Extends table.old table.new }
    ensures search { OnOk result (IsSearch table.new search.new) }
    ensures spends { SpendsResults table.new search.old.memo search.new.memo result }
{
    let (access, a) = (asked.access, asked.address);
    if !is_asked(access, given) {
        return Ok(None);
    }
    let moved = moved_access(table, search, context.outside, access, z, a, proof)?;
    Ok(moved)
}

/// Access by one hypothesis: directly, from an implication, or from an instance.
#[tactic(auto, using(prover_goals::proofs::WordRows::rows))]
fn by_hyp(
    table: &mut Table,
    search: &mut Search,
    context: &mut Context,
    asked: &Asked,
    form: Id,
    proof: Id,
) -> Result<Option<Id>, Exhausted>
    requires asked { IsKnown table.old asked.now.address }
    requires form { IsKnown table.old form }
    requires proof { IsKnown table.old proof }
    requires search { IsSearch table.old search.old }
    requires context { IsContext table.old context.old }
    ensures known { IfOk result (λ o. IfSome o (IsKnown table.new)) }
    ensures exact { let c = context.old in IfOk result (IsHypProof table.old table.new c.hyps
        c.outside asked.now form proof) }
    ensures extends { Extends table.old table.new }
    ensures after { OnOk result (IsAfter table.new search.new context.old context.new) }
    ensures spends { SpendsResults table.new search.old.memo search.new.memo result }
{
    match form_node(table, form) {
        FormNode::Right(given, z) => {
            let moved = by_right(table, search, context, asked, given, z, proof)?;
            Ok(moved)
        }
        FormNode::Imp(premise, conclusion) => {
            let grant = Grant {
                quantified: false,
                premise,
                conclusion,
                proof,
            };
            let found = by_grant(table, search, context, asked, &grant)?;
            Ok(found)
        }
        FormNode::All(body) => {
            let found = by_quantified(table, search, context, asked, body, proof)?;
            Ok(found)
        }
        FormNode::True => Ok(None),
        FormNode::False => Ok(None),
        FormNode::Relation(_, _, _) => Ok(None),
        FormNode::And(_, _) => Ok(None),
        FormNode::Or(_, _) => Ok(None),
        FormNode::AllMem(_) => Ok(None),
    }
}

/// The hypothesis at place `i`.
fn hyp_at(table: &Table, context: &Context, i: usize) -> Hypothesis
    requires hyps { AreKnownHyps table.now context.now.hyps }
    requires within { i < length context.now.hyps }
    ensures known { IsKnown table.now result.form × IsKnown table.now result.proof }
    ensures at { result ≡ get_or context.now.hyps i result }
{
    let _ = table; // only the clauses speak of it
    let list = context.hyps.as_slice();
    list[i]
}

/// Access by the first hypothesis that gives it.
fn by_hyps(
    table: &mut Table,
    search: &mut Search,
    context: &mut Context,
    asked: &Asked,
) -> Result<Option<Id>, Exhausted>
    requires asked { IsKnown table.old asked.now.address }
    requires search { IsSearch table.old search.old }
    requires context { IsContext table.old context.old }
    ensures known { IfOk result (λ o. IfSome o (IsKnown table.new)) }
    ensures exact { let c = context.old in (Γ : Hyps) (a : Exp) → AreHyps table.old c.hyps Γ
        → tree_at table.old asked.now.address ≡ exp_encoding a → IfOk result (Stands table.new
        (by_hyps (without_access asked.now.counted) c.outside Γ (access_of asked.now.access) a Γ)) }
    ensures extends { Extends table.old table.new }
    ensures after { OnOk result (IsAfter table.new search.new context.old context.new) }
    ensures spends { SpendsResults table.new search.old.memo search.new.memo result }
{
    let count = context.hyps.as_slice().len();
    search.spend_steps((count as u64).saturating_mul(STEPS_A_TRY))?;
    for i in 0..count {
        let hyp = hyp_at(table, context, i);
        if let Some(proof) = by_hyp(table, search, context, asked, hyp.form, hyp.proof)? {
            return Ok(Some(proof));
        }
    }
    Ok(None)
}

/// Returns the proof of a goal that is the right to load or store, by the hypotheses of the
/// context: None for any other goal, and if there is no proof. `counted` says whether steps are
/// counted.
///
/// Errors: out of memory, or the limit of `search` is reached; each id keeps its tree.
pub fn proof_by_access(
    table: &mut Table,
    search: &mut Search,
    context: &mut Context,
    counted: bool,
    goal: Id,
) -> Result<Option<Id>, Exhausted>
    requires goal { IsKnown table.old goal }
    requires search { IsSearch table.old search.old }
    requires context { IsContext table.old context.old }
    ensures known { IfOk result (λ o. IfSome o (IsKnown table.new)) }
    ensures exact { let c = context.old in IfOk result
        (IsProofBy (by_access (without_access counted)) table.old table.new c.hyps c.outside goal) }
    ensures extends { Extends table.old table.new }
    ensures after { OnOk result (IsAfter table.new search.new context.old context.new) }
    ensures spends { SpendsResults table.new search.old.memo search.new.memo result }
{
    match form_node(table, goal) {
        FormNode::Right(access, address) => {
            let asked = Asked {
                counted,
                access,
                address,
            };
            let proof = by_hyps(table, search, context, &asked)?;
            Ok(proof)
        }
        FormNode::True => Ok(None),
        FormNode::False => Ok(None),
        FormNode::Relation(_, _, _) => Ok(None),
        FormNode::And(_, _) => Ok(None),
        FormNode::Or(_, _) => Ok(None),
        FormNode::Imp(_, _) => Ok(None),
        FormNode::All(_) => Ok(None),
        FormNode::AllMem(_) => Ok(None),
    }
}
