//! Compares a term with the result of substituting for the machine's variables. The walk through
//! both builds no node except what is put under binders.
//!
//! Terms that were found equal are cached as results of the substitution, by node and by the count
//! of nearer variables: a second comparison compares ids.

ghost use Rattle.std.specs.Prelude.{◌≡◌, ◌↔◌, ◌+◌, ◌<◌, ◌^◌, IfOk, IsTrue};
ghost use Rattle.term_table.specs.Table.{IsKnown, tree_at, Extends};
ghost use Rattle.term_table.specs.Measures.{height_of};
ghost use Rattle.hereditary_subst.specs.Kept.{IsMemo};
ghost use Rattle.hereditary_subst.specs.Limits.{SpendsResults};
ghost use Rattle.lf_encode.specs.PutTree.{machine_terms_at, put_tree};
ghost use Rattle.lf_encode.specs.Kept.{IsPutMemo, AreMachineTerms};

use crate::puts::{MachineIds, Place, PutMemo, is_near, number, put_variable};
use hereditary_subst::{Exhausted, Memo};
use term_table::{Id, Node, Table};

/// Whether `goal` is the term of `id` after the substitution, `depth` variables being nearer than
/// the machine's.
#[cycle(comparing)]
#[tactic(auto, using(crate::proofs::KeptRows::rows))]
fn is_put_at(
    table: &mut Table,
    shifts: &mut Memo,
    kept: &mut PutMemo,
    ids: &MachineIds,
    id: Id,
    depth: u32,
    goal: Id,
) -> Result<bool, Exhausted>
    requires known { IsKnown table.old id }
    requires goal { IsKnown table.old goal }
    requires ready { AreMachineTerms table.old ids.now }
    requires shifts { IsMemo table.old shifts.old }
    requires kept { IsPutMemo table.old ids.now kept.old }
    requires low { depth + height_of (tree_at table.old id) < 2 ^ 31 }
    ensures exact { let t = table.old in
        let put = put_tree (machine_terms_at t ids.now) depth (tree_at t id) in
        IfOk result (λ b. IsTrue b ↔ (tree_at t goal ≡ put)) }
    ensures extends { Extends table.old table.new }
    ensures shifts { IsMemo table.new shifts.new }
    ensures kept { IsPutMemo table.new ids.now kept.new }
    ensures spends { SpendsResults table.new shifts.old shifts.new result }
{
    if is_near(table, id, depth) {
        return Ok(table.same(goal, id));
    }
    let place = Place {
        id: number(id),
        depth,
    };
    if let Some(put) = kept.find(table, ids, &place) {
        return Ok(table.same(goal, put));
    }
    let equal = is_put_by_parts(table, shifts, kept, ids, id, depth, goal)?;
    if equal {
        kept.keep(shifts, table, ids, place, goal)?;
    }
    Ok(equal)
}

/// Whether `goal` is the term of `id` after the substitution, by the parts of both terms.
#[cycle(comparing)]
#[tactic(auto, using(crate::proofs::KeptRows::rows))]
fn is_put_by_parts(
    table: &mut Table,
    shifts: &mut Memo,
    kept: &mut PutMemo,
    ids: &MachineIds,
    id: Id,
    depth: u32,
    goal: Id,
) -> Result<bool, Exhausted>
    requires known { IsKnown table.old id }
    requires goal { IsKnown table.old goal }
    requires ready { AreMachineTerms table.old ids.now }
    requires shifts { IsMemo table.old shifts.old }
    requires kept { IsPutMemo table.old ids.now kept.old }
    requires low { depth + height_of (tree_at table.old id) < 2 ^ 31 }
    ensures exact { let t = table.old in
        let put = put_tree (machine_terms_at t ids.now) depth (tree_at t id) in
        IfOk result (λ b. IsTrue b ↔ (tree_at t goal ≡ put)) }
    ensures extends { Extends table.old table.new }
    ensures shifts { IsMemo table.new shifts.new }
    ensures kept { IsPutMemo table.new ids.now kept.new }
    ensures spends { SpendsResults table.new shifts.old shifts.new result }
{
    match table.node(id) {
        Node::Var(n) => {
            let put = put_variable(table, shifts, ids, n, depth)?;
            Ok(table.same(goal, put))
        }
        Node::App(f, a) => {
            let Node::App(function, argument) = table.node(goal) else {
                return Ok(false);
            };
            if !is_put_at(table, shifts, kept, ids, f, depth, function)? {
                return Ok(false);
            }
            is_put_at(table, shifts, kept, ids, a, depth, argument)
        }
        Node::Lam(b) => {
            let Node::Lam(body) = table.node(goal) else {
                return Ok(false);
            };
            is_put_at(table, shifts, kept, ids, b, depth + 1, body)
        }
        _ => Ok(table.same(goal, id)),
    }
}

/// Returns whether `goal` is the term that `put` returns for `id` and `ids`. The term of `id` is
/// over the context left, m, r0 to r30 or one without left; the terms of `ids` are substituted for
/// these variables. The first difference ends the comparison.
///
/// `shifts` and `kept` have the cached results of earlier calls on the table, `kept` those for
/// equal `ids`; it may have results of `put_with` too. Terms that are found equal are cached, and
/// count in the limit of `shifts`.
///
/// Errors: out of memory, and `Exhausted::Results` past that limit; each id keeps its tree.
pub fn is_put_with(
    table: &mut Table,
    shifts: &mut Memo,
    kept: &mut PutMemo,
    id: Id,
    ids: &MachineIds,
    goal: Id,
) -> Result<bool, Exhausted>
    requires known { IsKnown table.old id }
    requires goal { IsKnown table.old goal }
    requires ready { AreMachineTerms table.old ids.now }
    requires low { height_of (tree_at table.old id) < 2 ^ 31 }
    requires shifts { IsMemo table.old shifts.old }
    requires kept { IsPutMemo table.old ids.now kept.old }
    ensures exact { let t = table.old in
        let put = put_tree (machine_terms_at t ids.now) 0 (tree_at t id) in
        IfOk result (λ b. IsTrue b ↔ (tree_at t goal ≡ put)) }
    ensures extends { Extends table.old table.new }
    ensures shifts { IsMemo table.new shifts.new }
    ensures kept { IsPutMemo table.new ids.now kept.new }
    ensures spends { SpendsResults table.new shifts.old shifts.new result }
{
    is_put_at(table, shifts, kept, ids, id, 0, goal)
}
