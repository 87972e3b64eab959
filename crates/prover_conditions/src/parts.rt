//! The parts of a condition, one after another.
//!
//! Errors: out of memory, or the search's limit is reached; each id keeps its tree.

ghost use Rattle.std.specs.Prelude.{◌≡◌, ◌<◌, List, IfOk, IfSome, OnOk};
ghost use Rattle.term_table.specs.Table.{IsKnown, tree_at, Extends, Stands};
ghost use Rattle.formula_tree.specs.Formulas.{Form};
ghost use Rattle.lf_terms.specs.Encoding.{form_encoding};
ghost use Rattle.prover_class.specs.Parts.{conjoined, outside_part, part_proof};
ghost use Rattle.prover_goals.specs.Search.{IsSearch};
ghost use Rattle.prover_conditions.specs.Conditions.{IsKnownAnswer, IsPartsAnswer};
ghost use Rattle.prover_conditions.specs.Inside.Parts.{AreFirstAndRest};
ghost use Rattle.hereditary_subst.specs.Limits.{SpendsResults};

use crate::all_means::proof_by_all_means;
use hereditary_subst::Exhausted;
use lf_signature::numbers::{AND_I, TT_I};
use lf_terms::rule_term;
use prover_goals::{Context, Search};
use prover_hyps::Hypotheses;
use prover_ids::{FormNode, form_node};
use term_table::{Id, Table};

/// The result of the search for a condition's proof.
pub enum ConditionProof {
    /// The proof of all parts, an id of the table.
    Proved(Id),
    /// The number of the first part that isn't easy: 0 is the entry's part, k + 1 that of invariant
    /// k.
    NotEasy(u32),
}

/// Two formulas that are conjoined.
#[derive(Clone, Copy)]
struct Conjunction {
    first: Id,
    rest: Id,
}

/// The first part of a condition and the rest; None if there are no parts. If an id encodes no
/// parts one after another, the result says only that the rest's id is lower.
fn first_and_rest(table: &Table, condition: Id) -> Option<Conjunction>
    requires { IsKnown table.now condition }
    ensures known { IfSome result (λ c. IsKnown table.now c.first × IsKnown table.now c.rest) }
    ensures below { IfSome result (λ c. c.rest < condition) }
    ensures exact { (l : List Form) → tree_at table.now condition ≡ form_encoding (conjoined l)
        → AreFirstAndRest table.now l result }
{
    match form_node(table, condition) {
        FormNode::And(first, rest) => Some(Conjunction { first, rest }),
        _ => None,
    }
}

/// Returns how many binders count as outside a part: one, the binder of the remaining steps, if
/// steps aren't counted and so it isn't the part's own; else 0.
pub fn outside_part(counted: bool) -> u32
    ensures { result ≡ outside_part counted }
{
    if counted { 0 } else { 1 }
}

/// The proof of a part from no hypotheses.
#[tactic(auto, using(prover_goals::proofs::Kept::rows))]
fn part_proof(
    table: &mut Table,
    search: &mut Search,
    counted: bool,
    part: Id,
) -> Result<Option<Id>, Exhausted>
    requires part { IsKnown table.old part }
    requires search { IsSearch table.old search.old }
    ensures known { IfOk result (λ o. IfSome o (IsKnown table.new)) }
    ensures exact { (A : Form) → tree_at table.old part ≡ form_encoding A
        → IfOk result (Stands table.new (part_proof counted A)) }
    ensures extends { Extends table.old table.new }
    ensures search { OnOk result (IsSearch table.new search.new) }
    ensures spends { SpendsResults table.new search.old.memo search.new.memo result }
{
    let none = Hypotheses::new(table.allocator());
    let mut context = Context::new(table, outside_part(counted), none)?;
    let proof = proof_by_all_means(table, search, &mut context, counted, part)?;
    Ok(proof)
}

/// The proof of a condition, part by part, or the number of the first part that isn't easy, the
/// parts' numbers beginning at `number`. It holds for whatever parts the id is the conjunction of,
/// one after another and ended by truth. `counted` says whether steps are counted.
///
/// Errors: a number would be 2^32, or out of memory.
#[tactic(auto, using(prover_goals::proofs::Kept::rows))]
pub(crate) fn proof_of_parts(
    table: &mut Table,
    search: &mut Search,
    counted: bool,
    condition: Id,
    number: u32,
) -> Result<ConditionProof, Exhausted>
    requires condition { IsKnown table.old condition }
    requires search { IsSearch table.old search.old }
    ensures known { IfOk result (IsKnownAnswer table.new) }
    ensures exact { (l : List Form) → tree_at table.old condition ≡ form_encoding (conjoined l)
        → IfOk result (IsPartsAnswer table.new counted number l) }
    ensures extends { Extends table.old table.new }
    ensures search { OnOk result (IsSearch table.new search.new) }
    ensures spends { SpendsResults table.new search.old.memo search.new.memo result }
{
    let Some(parts) = first_and_rest(table, condition) else {
        let proof = rule_term(table, TT_I, &[])?;
        return Ok(ConditionProof::Proved(proof));
    };
    let Some(proof) = part_proof(table, search, counted, parts.first)? else {
        return Ok(ConditionProof::NotEasy(number));
    };
    let Some(next) = number.checked_add(1) else {
        return Err(Exhausted::Memory);
    };
    match proof_of_parts(table, search, counted, parts.rest, next)? {
        ConditionProof::NotEasy(refused) => Ok(ConditionProof::NotEasy(refused)),
        ConditionProof::Proved(rest) => {
            let whole = rule_term(table, AND_I, &[parts.first, parts.rest, proof, rest])?;
            Ok(ConditionProof::Proved(whole))
        }
    }
}
