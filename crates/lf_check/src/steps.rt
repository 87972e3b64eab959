//! The calls that build trees, with the cached results: these stay right as the table grows.

ghost use Rattle.std.specs.Prelude.{◌≡◌, ◌≤◌, ◌^◌, IfOk};
ghost use Rattle.term_table.specs.Tree.{shifted};
ghost use Rattle.term_table.specs.Table.{IsKnown, PartsKnown, tree_at, node_tree, Extends, Stands};
ghost use Rattle.hereditary_subst.specs.Heads.{put_type_of};
ghost use Rattle.lf_signature.specs.Nodes.{type_at};
ghost use Rattle.hereditary_subst.specs.Limits.{SpendsResults};
ghost use Rattle.lf_check.specs.Kept.{AreKept};

use crate::judgements::Kept;
use hereditary_subst::{Exhausted, subst_type_with, weaken_with};
use lf_signature::Signature;
use std::alloc::AllocError;
use term_table::{Id, Node, Table};

/// The id of the node's tree.
pub(crate) fn intern_on<S: Signature>(
    table: &mut Table,
    kept: &Kept,
    sig: &S,
    node: Node,
) -> Result<Id, AllocError>
    requires holds { S.holds sig.now table.old }
    requires parts { PartsKnown table.old node }
    requires kept { AreKept (S.declares sig.now table.old) table.old kept.now }
    ensures id { IfOk result
        (λ id. IsKnown table.new id × (tree_at table.new id ≡ node_tree table.old node)) }
    ensures extends { Extends table.old table.new }
    ensures kept { AreKept (S.declares sig.now table.new) table.new kept.now }
{
    let _ = kept; // only the clauses speak of it
    let _ = sig; // only the clauses speak of it
    table.intern(node)
}

/// The tree under so many more binders.
pub(crate) fn weaken_on<S: Signature>(
    table: &mut Table,
    kept: &mut Kept,
    sig: &S,
    id: Id,
    by: u64,
) -> Result<Option<Id>, Exhausted>
    requires holds { S.holds sig.now table.old }
    requires small { by ≤ 2 ^ 32 }
    requires known { IsKnown table.old id }
    requires kept { AreKept (S.declares sig.now table.old) table.old kept.old }
    ensures tree { IfOk result (Stands table.new (shifted by 0 (tree_at table.old id))) }
    ensures extends { Extends table.old table.new }
    ensures kept { AreKept (S.declares sig.now table.new) table.new kept.new }
    ensures spends { SpendsResults table.new kept.old.memo kept.new.memo result }
{
    let _ = sig; // only the clauses speak of it
    weaken_with(table, &mut kept.memo, id, by)
}

/// The type `body` with the term `arg` for the nearest variable, at the simple type of `ty`.
pub(crate) fn subst_on<S: Signature>(
    table: &mut Table,
    kept: &mut Kept,
    sig: &S,
    body: Id,
    arg: Id,
    ty: Id,
) -> Result<Option<Id>, Exhausted>
    requires holds { S.holds sig.now table.old }
    requires body { IsKnown table.old body }
    requires arg { IsKnown table.old arg }
    requires ty { IsKnown table.old ty }
    requires kept { AreKept (S.declares sig.now table.old) table.old kept.old }
    ensures tree { IfOk result (Stands table.new (put_type_of table.old ty arg 0 body)) }
    ensures extends { Extends table.old table.new }
    ensures kept { AreKept (S.declares sig.now table.new) table.new kept.new }
    ensures spends { SpendsResults table.new kept.old.memo kept.new.memo result }
{
    let _ = sig; // only the clauses speak of it
    subst_type_with(table, &mut kept.memo, body, arg, ty)
}

/// The type that the signature declares for the constant.
pub(crate) fn declared_on<S: Signature>(
    table: &mut Table,
    kept: &Kept,
    sig: &S,
    constant: Node,
) -> Result<Option<Id>, AllocError>
    requires holds { S.holds sig.now table.old }
    requires kept { AreKept (S.declares sig.now table.old) table.old kept.now }
    ensures tree { IfOk result
        (Stands table.new (type_at (S.declares sig.now table.old) constant)) }
    ensures extends { Extends table.old table.new }
    ensures kept { AreKept (S.declares sig.now table.new) table.new kept.now }
{
    let _ = kept; // only the clauses speak of it
    sig.type_of(table, constant)
}
