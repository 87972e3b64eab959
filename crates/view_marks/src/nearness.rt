//! Hypotheses that give rights to addresses with equal summands.
//!
//! Errors: out of memory, or the search would cache more results than it may; every id keeps its
//! tree.

ghost use Rattle.std.specs.Prelude.{◌≡◌, ◌<◌, length, get_or, map, IfOk, OnOk};
ghost use Rattle.term_table.specs.Table.{IsKnown, AllKnown, tree_at, Extends};
ghost use Rattle.formula_tree.specs.Formulas.{Exp};
ghost use Rattle.lf_terms.specs.Encoding.{exp_encoding, form_encoding};
ghost use Rattle.prover_ids.specs.Hypotheses.{AreKnownHyps, AreHyps};
ghost use Rattle.prover_class.specs.Hypotheses.{Hyps};
ghost use Rattle.prover_goals.specs.Search.{IsSearch};
ghost use Rattle.view_marks.specs.Hints.{near};
ghost use Rattle.view_marks.specs.Inside.Nearness.{access_at, IsNear, IsBodyNear, AreReached};

use crate::reached::{Asked, Reach, is_asked, is_reached};
use crate::sums::is_like;
use hereditary_subst::Exhausted;
use prover_goals::Search;
use prover_ids::{FormNode, Hypothesis, Kept, form_node};
use term_table::{Id, Table};

/// How many steps it counts to try one hypothesis, which looks up two normal forms.
const STEPS_A_TRY: u64 = 4;

/// Whether a quantified hypothesis over `body` is near.
#[tactic(auto, using(crate::proofs::Growing::rows))]
fn is_body_near(
    table: &mut Table,
    search: &mut Search,
    kept: &mut Kept<Reach>,
    asked: &Asked,
    body: Id,
) -> Result<bool, Exhausted>
    requires asked { IsKnown table.old asked.now.address }
    requires body { IsKnown table.old body }
    requires search { IsSearch table.old search.old }
    requires kept { AreReached table.old kept.old }
    ensures exact { IfOk result (IsBodyNear table.old asked.now body) }
    ensures extends { Extends table.old table.new }
    ensures search { OnOk result (IsSearch table.new search.new) }
    ensures kept { OnOk result (AreReached table.new kept.new) }
{
    match form_node(table, body) {
        FormNode::Imp(_, conclusion) => {
            let reached = is_reached(table, search, kept, asked, true, conclusion)?;
            Ok(reached)
        }
        FormNode::True => Ok(false),
        FormNode::False => Ok(false),
        FormNode::Relation(_, _, _) => Ok(false),
        FormNode::Right(_, _) => Ok(false),
        FormNode::And(_, _) => Ok(false),
        FormNode::Or(_, _) => Ok(false),
        FormNode::All(_) => Ok(false),
        FormNode::AllMem(_) => Ok(false),
    }
}

/// Checks whether the hypothesis gives the right asked for to addresses with equal summands.
#[tactic(auto, using(crate::proofs::Growing::rows))]
fn is_near(
    table: &mut Table,
    search: &mut Search,
    kept: &mut Kept<Reach>,
    asked: &Asked,
    form: Id,
) -> Result<bool, Exhausted>
    requires asked { IsKnown table.old asked.now.address }
    requires form { IsKnown table.old form }
    requires search { IsSearch table.old search.old }
    requires kept { AreReached table.old kept.old }
    ensures exact { IfOk result (IsNear table.old asked.now form) }
    ensures extends { Extends table.old table.new }
    ensures search { OnOk result (IsSearch table.new search.new) }
    ensures kept { OnOk result (AreReached table.new kept.new) }
{
    match form_node(table, form) {
        FormNode::Right(given, z) => {
            if !is_asked(asked.store, given) {
                return Ok(false);
            }
            let like = is_like(table, search, false, asked.address, z)?;
            Ok(like)
        }
        FormNode::Imp(_, conclusion) => {
            let reached = is_reached(table, search, kept, asked, false, conclusion)?;
            Ok(reached)
        }
        FormNode::All(body) => {
            let near = is_body_near(table, search, kept, asked, body)?;
            Ok(near)
        }
        FormNode::True => Ok(false),
        FormNode::False => Ok(false),
        FormNode::Relation(_, _, _) => Ok(false),
        FormNode::And(_, _) => Ok(false),
        FormNode::Or(_, _) => Ok(false),
        FormNode::AllMem(_) => Ok(false),
    }
}

/// The formula of the hypothesis at place `i`.
fn form_at(table: &Table, hyps: &[Hypothesis], i: usize) -> Hypothesis
    requires hyps { AreKnownHyps table.now hyps.now }
    requires within { i < length hyps.now }
    ensures known { IsKnown table.now result.form }
    ensures at { result ≡ get_or hyps.now i result }
{
    let _ = table; // only the clauses speak of it
    hyps[i]
}

/// Returns the formulas of those hypotheses, in order, that give the right asked for to addresses
/// with equal summands.
#[tactic(auto, using(crate::proofs::Growing::rows))]
pub(crate) fn near(
    table: &mut Table,
    search: &mut Search,
    hyps: &[Hypothesis],
    asked: &Asked,
) -> Result<Vec<Id>, Exhausted>
    requires asked { IsKnown table.old asked.now.address }
    requires hyps { AreKnownHyps table.old hyps.now }
    requires search { IsSearch table.old search.old }
    ensures known { IfOk result (λ v. AllKnown table.new v.items) }
    ensures exact { (Γ : Hyps) (a : Exp) → AreHyps table.old hyps.now Γ
        → tree_at table.old asked.now.address ≡ exp_encoding a
        → IfOk result (λ v. map (tree_at table.new) v.items
        ≡ map form_encoding (near (access_at asked.now.store) a Γ)) }
    ensures extends { Extends table.old table.new }
    ensures search { OnOk result (IsSearch table.new search.new) }
{
    let alloc = table.allocator();
    let mut found = Vec::new(alloc);
    let mut kept = Kept::new(alloc);
    search.spend_steps((hyps.len() as u64).saturating_mul(STEPS_A_TRY))?;
    for i in 0..hyps.len() {
        let hyp = form_at(table, hyps, i);
        if is_near(table, search, &mut kept, asked, hyp.form)? {
            found.push(hyp.form)?;
        }
    }
    Ok(found)
}
