//! The proof of a verification condition.
//!
//! Errors: out of memory, or the search's limit is reached; each id keeps its tree.

ghost use Rattle.std.specs.Prelude.{IfOk, IfSome, OnOk};
ghost use Rattle.term_table.specs.Table.{IsKnown, Extends};
ghost use Rattle.prover_goals.specs.Search.{IsSearch};

use crate::goals::proof_of;
use hereditary_subst::Exhausted;
use lf_signature::numbers::AND_I;
use lf_terms::rule_term;
use prover_conditions::outside_part;
use prover_goals::{Context, Search};
use prover_hyps::Hypotheses;
use prover_ids::{FormNode, form_node};
use term_table::{Id, Table};

/// The proof of a part from no hypotheses.
#[tactic(auto, using(prover_goals::proofs::Kept::rows))]
fn part_proof(
    table: &mut Table,
    search: &mut Search,
    counted: bool,
    part: Id,
) -> Result<Option<Id>, Exhausted>
    requires part { IsKnown table.old part }
    requires search { IsSearch table.old search.old }
    ensures known { IfOk result (λ o. IfSome o (IsKnown table.new)) }
    ensures extends { Extends table.old table.new }
    ensures search { OnOk result (IsSearch table.new search.new) }
{
    let none = Hypotheses::new(table.allocator());
    let mut context = Context::new(table, outside_part(counted), none)?;
    proof_of(table, search, &mut context, counted, part)
}

/// Returns the proof of a verification condition, part by part (`prover_conditions::condition_in`);
/// None if it finds none. `counted` says whether steps are counted.
///
/// Errors: out of memory, or the limit of `search` is reached; each id keeps its tree.
#[tactic(auto, using(prover_goals::proofs::Kept::rows))]
pub fn condition_proof(
    table: &mut Table,
    search: &mut Search,
    counted: bool,
    condition: Id,
) -> Result<Option<Id>, Exhausted>
    requires condition { IsKnown table.old condition }
    requires search { IsSearch table.old search.old }
    ensures known { IfOk result (λ o. IfSome o (IsKnown table.new)) }
    ensures extends { Extends table.old table.new }
    ensures search { OnOk result (IsSearch table.new search.new) }
{
    let FormNode::And(first, rest) = form_node(table, condition) else {
        return part_proof(table, search, counted, condition); // it is truth
    };
    let Some(proof) = part_proof(table, search, counted, first)? else {
        return Ok(None);
    };
    let Some(others) = condition_proof(table, search, counted, rest)? else {
        return Ok(None);
    };
    let whole = rule_term(table, AND_I, &[first, rest, proof, others])?;
    Ok(Some(whole))
}
