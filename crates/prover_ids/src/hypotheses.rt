//! Hypotheses with their proofs, as ids.

ghost use Rattle.std.specs.Prelude.{◌≤◌, ◌^◌, IfOk, OnOk};
ghost use Rattle.term_table.specs.Tree.{shift};
ghost use Rattle.term_table.specs.Table.{IsKnown, tree_at, Extends};
ghost use Rattle.hereditary_subst.specs.Kept.{IsMemo};
ghost use Rattle.hereditary_subst.specs.Limits.{SpendsResults};
ghost use Rattle.lf_signature.specs.Nodes.{IsIdOf};

use hereditary_subst::{Exhausted, Memo, weaken_with};
use term_table::{Id, Table};

/// A hypothesis and a proof of it.
#[derive(Clone, Copy)]
pub struct Hypothesis {
    /// The formula.
    pub form: Id,
    /// The proof.
    pub proof: Id,
}

/// Returns the tree under one more binder: each free variable is raised by one. Uses the shifts
/// that earlier calls on the table cached in `memo`.
///
/// Errors: out of memory, also if a variable would reach 2^32, or the limit of `memo` is reached;
/// each id keeps its tree.
pub fn raised(table: &mut Table, memo: &mut Memo, id: Id) -> Result<Id, Exhausted>
    requires known { IsKnown table.old id }
    requires memo { IsMemo table.old memo.old }
    ensures id { IfOk result (IsIdOf table.new (shift 1 0 (tree_at table.old id))) }
    ensures extends { Extends table.old table.new }
    ensures memo { IsMemo table.new memo.new }
    ensures spends { SpendsResults table.new memo.old memo.new result }
{
    match weaken_with(table, memo, id, 1)? {
        Some(raised) => Ok(raised),
        None => Err(Exhausted::Memory),
    }
}
