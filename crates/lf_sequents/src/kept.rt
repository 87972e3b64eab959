//! Shifts and ordinary substitution on ids, with cached results.

ghost use Rattle.std.specs.Prelude.{◌≡◌, false, ◌≤◌, ◌^◌, Some, IfOk};
ghost use Rattle.term_table.specs.Tree.{shift};
ghost use Rattle.term_table.specs.Subst.{erase, hsub_type};
ghost use Rattle.term_table.specs.Table.{IsKnown, tree_at, Extends};
ghost use Rattle.lf_signature.specs.Nodes.{IsIdOf};
ghost use Rattle.hereditary_subst.specs.Kept.{IsMemo};
ghost use Rattle.hereditary_subst.specs.Limits.{is_limited};
ghost use Rattle.lf_terms.specs.Plain.{beta};

use hereditary_subst::{Memo, subst_type_with, weaken_with};
use lf_signature::pf;
use std::alloc::AllocError;
use term_table::{Id, Node, Table};

/// Raises every free variable of a tree by `by`.
///
/// Errors: out of memory, also if a variable would reach 2^32; each id keeps its tree.
pub fn raised(table: &mut Table, memo: &mut Memo, id: Id, by: u64) -> Result<Id, AllocError>
    requires small { by ≤ 2 ^ 32 }
    requires known { IsKnown table.old id }
    requires kept { IsMemo table.old memo.old }
    requires unlimited { is_limited memo.old ≡ false }
    ensures id { IfOk result (IsIdOf table.new (shift by 0 (tree_at table.old id))) }
    ensures extends { Extends table.old table.new }
    ensures kept { IsMemo table.new memo.new }
    ensures unlimited { is_limited memo.new ≡ false }
{
    match weaken_with(table, memo, id, by) {
        Ok(Some(raised)) => Ok(raised),
        Ok(None) => Err(AllocError),
        Err(e) => Err(e.memory()),
    }
}

/// The type of proofs with a term of this family for the nearest variable.
///
/// Errors: out of memory, also if substitution has no result.
fn put(
    table: &mut Table,
    memo: &mut Memo,
    proofs: Id,
    arg: Id,
    family: Id,
) -> Result<Id, AllocError>
    requires proofs { IsKnown table.old proofs }
    requires arg { IsKnown table.old arg }
    requires family { IsKnown table.old family }
    requires kept { IsMemo table.old memo.old }
    requires unlimited { is_limited memo.old ≡ false }
    ensures known { IfOk result (IsKnown table.new) }
    ensures is { IfOk result (λ r. hsub_type (erase (tree_at table.old family))
        (tree_at table.old arg) 0 (tree_at table.old proofs) ≡ Some (tree_at table.new r)) }
    ensures extends { Extends table.old table.new }
    ensures kept { IsMemo table.new memo.new }
    ensures unlimited { is_limited memo.new ≡ false }
{
    match subst_type_with(table, memo, proofs, arg, family) {
        Ok(Some(put)) => Ok(put),
        Ok(None) => Err(AllocError),
        Err(e) => Err(e.memory()),
    }
}

/// Returns the body of a formula over a word or memory, `f`, with the term `arg` of this family
/// substituted; if `f` is no abstraction, returns `f`.
///
/// Errors: out of memory, also if substitution has no result; each id keeps its tree.
#[tactic(auto, using(lf_terms::proofs::Grown::grown))]
pub fn beta_id(
    table: &mut Table,
    memo: &mut Memo,
    f: Id,
    arg: Id,
    family: u32,
) -> Result<Id, AllocError>
    requires f { IsKnown table.old f }
    requires arg { IsKnown table.old arg }
    requires kept { IsMemo table.old memo.old }
    requires unlimited { is_limited memo.old ≡ false }
    ensures id { IfOk result
        (IsIdOf table.new (beta (tree_at table.old f) (tree_at table.old arg))) }
    ensures extends { Extends table.old table.new }
    ensures kept { IsMemo table.new memo.new }
    ensures unlimited { is_limited memo.new ≡ false }
{
    let Node::Lam(body) = table.node(f) else {
        return Ok(f);
    };
    let ty = table.intern(Node::Fam(family))?;
    let proofs = pf(table, body)?;
    let put = put(table, memo, proofs, arg, ty)?;
    match table.node(put) {
        Node::TApp(_, formula) => Ok(formula),
        _ => Err(AllocError),
    }
}
