//! Hereditary substitution, shifts and erasure on the LF terms and types of a table.
//!
//! The layer above uses that `subst_type_with` returns the result of hereditary substitution, and
//! None exactly if there is none. The arguments needn't be well typed. The relation, and the
//! function on trees that it equals, are in `term_table` (`specs/Subst`); `specs/Simples` relates
//! `Simple` and the calls' results to them. Each old id keeps its tree, also if a call runs out of
//! memory.
//!
//! No shared subtree is visited twice: a `Memo` caches results by node, depth, argument and type,
//! and can be passed from call to call on one table. Source: Harper and Licata, Mechanizing
//! Metatheory in a Logical Framework, JFP 2007, section 2.
#![tactic(auto)]

mod exhausted;
mod kept;
mod shifts;
mod substitute;

ghost use Rattle.std.specs.Prelude.{◌≡◌, ◌<◌, ◌≤◌, ◌+◌, ◌^◌, IfOk, OnOk};
ghost use Rattle.hereditary_subst.specs.Kept.{IsMemo};
ghost use Rattle.hereditary_subst.specs.Limits.{SpendsResults};
ghost use Rattle.term_table.specs.Tree.{shifted};
ghost use Rattle.term_table.specs.Subst.{HSub, HSubType, hsub, hsub_type, erase};
ghost use Rattle.term_table.specs.Table.{IsKnown, tree_at, Extends, Stands};
ghost use Rattle.hereditary_subst.specs.Simples.{simple_of, IsResult};

pub use exhausted::Exhausted;
pub use kept::Memo;
use shifts::shift_at;
use std::alloc::{AllocError, Global};
use substitute::{subst_at, subst_type_at};
use term_table::{Id, Node, Table, substitution_laws};

/// How many results a check caches at most: the limit that the crates above give a memo.
pub const MOST_RESULTS: usize = 4_000_000;

/// The number of trees of a table above which no call caches another result.
pub const MOST_TREES: u64 = 1_200_000;

/// A simple type: the families and arrows of an LF type, without the terms in it.
#[derive(PartialEq, Eq, Debug, Drop)]
pub enum Simple {
    /// A type family, by its number.
    Base(u32),
    /// Functions from the first type to the second.
    Arrow(Box<Simple>, Box<Simple>),
}

/// Shifts a tree: raises each variable from `from` on by `by`, as if `by` more binders were put
/// outside the `from` nearest. Returns None exactly if a variable would reach 2^32.
///
/// Errors: out of memory alone; each id keeps its tree.
pub fn shift(table: &mut Table, id: Id, by: u32, from: u32) -> Result<Option<Id>, AllocError>
    requires { IsKnown table.old id }
    ensures tree { IfOk result (Stands table.new (shifted by from (tree_at table.old id))) }
    ensures extends { Extends table.old table.new }
{
    table.laws();
    let mut memo = Memo::unlimited(table.allocator());
    match shift_at(table, &mut memo, id, u64::from(by), u64::from(from)) {
        Ok(shifted) => Ok(shifted),
        Err(e) => Err(e.memory()),
    }
}

/// Raises every free variable of a tree by `by`, which is at most 2^32. Returns None exactly if a
/// variable would reach 2^32.
///
/// Errors: out of memory alone; each id keeps its tree.
pub fn weaken(table: &mut Table, id: Id, by: u64) -> Result<Option<Id>, AllocError>
    requires small { by ≤ 2 ^ 32 }
    requires known { IsKnown table.old id }
    ensures tree { IfOk result (Stands table.new (shifted by 0 (tree_at table.old id))) }
    ensures extends { Extends table.old table.new }
{
    let mut memo = Memo::unlimited(table.allocator());
    match weaken_with(table, &mut memo, id, by) {
        Ok(weakened) => Ok(weakened),
        Err(e) => Err(e.memory()),
    }
}

/// Raises every free variable of a tree by `by`, as `weaken` does, with the cached results of
/// earlier calls on the table in `memo`.
///
/// Errors: out of memory, or the limit of `memo` is reached; each id keeps its tree.
pub fn weaken_with(
    table: &mut Table,
    memo: &mut Memo,
    id: Id,
    by: u64,
) -> Result<Option<Id>, Exhausted>
    requires small { by ≤ 2 ^ 32 }
    requires known { IsKnown table.old id }
    requires memo { IsMemo table.old memo.old }
    ensures tree { IfOk result (Stands table.new (shifted by 0 (tree_at table.old id))) }
    ensures extends { Extends table.old table.new }
    ensures memo { IsMemo table.new memo.new }
    ensures spends { SpendsResults table.new memo.old memo.new result }
{
    table.laws();
    shift_at(table, memo, id, by, 0)
}

/// A type with this simple type.
fn type_of_simple(table: &mut Table, s: &Simple) -> Result<Id, AllocError>
    ensures erased { IfOk result
        (λ id. IsKnown table.new id × (erase (tree_at table.new id) ≡ simple_of s.now)) }
    ensures extends { Extends table.old table.new }
{
    match s {
        Simple::Base(a) => table.intern(Node::Fam(*a)),
        Simple::Arrow(from, to) => {
            let a = type_of_simple(table, from)?;
            let b = type_of_simple(table, to)?;
            table.intern(Node::Pi(a, b))
        }
    }
}

/// Substitutes the term `arg` for variable 0 in the term `body`, hereditarily, at the simple type
/// `s` of that variable, and lowers the other variables by one. Returns Some exactly if hereditary
/// substitution has a result, and then this result.
///
/// Errors: out of memory alone; each id keeps its tree.
pub fn subst(table: &mut Table, body: Id, arg: Id, s: &Simple) -> Result<Option<Id>, AllocError>
    requires body { IsKnown table.old body }
    requires arg { IsKnown table.old arg }
    ensures related { let m = tree_at table.old arg in
        let t = tree_at table.old body in
        IfOk result (IsResult table.new (HSub (simple_of s.now) m 0 t)) }
    ensures computed { let m = tree_at table.old arg in
        let t = tree_at table.old body in
        IfOk result (Stands table.new (hsub (simple_of s.now) m 0 t)) }
    ensures extends { Extends table.old table.new }
{
    substitution_laws();
    let ty = type_of_simple(table, s)?;
    let mut memo = Memo::unlimited(table.allocator());
    table.laws();
    match subst_at(table, &mut memo, body, arg, 0, ty) {
        Ok(put) => Ok(put),
        Err(e) => Err(e.memory()),
    }
}

/// Substitutes the term `arg` for variable 0 in the type `body`, hereditarily, at the simple type
/// `s` of that variable, and lowers the other variables by one. Returns Some exactly if hereditary
/// substitution has a result, and then this result.
///
/// Errors: out of memory alone; each id keeps its tree.
pub fn subst_type(
    table: &mut Table,
    body: Id,
    arg: Id,
    s: &Simple,
) -> Result<Option<Id>, AllocError>
    requires body { IsKnown table.old body }
    requires arg { IsKnown table.old arg }
    ensures related { let m = tree_at table.old arg in
        let t = tree_at table.old body in
        IfOk result (IsResult table.new (HSubType (simple_of s.now) m 0 t)) }
    ensures computed { let m = tree_at table.old arg in
        let t = tree_at table.old body in
        IfOk result (Stands table.new (hsub_type (simple_of s.now) m 0 t)) }
    ensures extends { Extends table.old table.new }
{
    substitution_laws();
    let ty = type_of_simple(table, s)?;
    let mut memo = Memo::unlimited(table.allocator());
    table.laws();
    match subst_type_at(table, &mut memo, body, arg, 0, ty) {
        Ok(put) => Ok(put),
        Err(e) => Err(e.memory()),
    }
}

/// Substitutes the term `arg` for variable 0 in the type `body`, as `subst_type` does, at the
/// simple type of the type `ty`, with the cached results of earlier calls on the table in `memo`.
///
/// Errors: out of memory, or the limit of `memo` is reached; each id keeps its tree.
pub fn subst_type_with(
    table: &mut Table,
    memo: &mut Memo,
    body: Id,
    arg: Id,
    ty: Id,
) -> Result<Option<Id>, Exhausted>
    requires body { IsKnown table.old body }
    requires arg { IsKnown table.old arg }
    requires ty { IsKnown table.old ty }
    requires memo { IsMemo table.old memo.old }
    ensures related { let s = erase (tree_at table.old ty) in
        let m = tree_at table.old arg in
        let t = tree_at table.old body in
        IfOk result (IsResult table.new (HSubType s m 0 t)) }
    ensures computed { let s = erase (tree_at table.old ty) in
        let m = tree_at table.old arg in
        let t = tree_at table.old body in
        IfOk result (Stands table.new (hsub_type s m 0 t)) }
    ensures extends { Extends table.old table.new }
    ensures memo { IsMemo table.new memo.new }
    ensures spends { SpendsResults table.new memo.old memo.new result }
{
    substitution_laws();
    table.laws();
    subst_type_at(table, memo, body, arg, 0, ty)
}

/// Returns the simple type of the type `id`; `Base(0)` if `id` isn't a type.
///
/// Errors: out of memory.
pub fn erase(alloc: Global, table: &Table, id: Id) -> Result<Simple, AllocError>
    requires { IsKnown table.now id }
    ensures { IfOk result (λ s. simple_of s ≡ erase (tree_at table.now id)) }
{
    match table.node(id) {
        Node::Fam(a) => Ok(Simple::Base(a)),
        Node::TApp(p, _) => erase(alloc, table, p),
        Node::Pi(a, b) => {
            let from = Box::new(alloc, erase(alloc, table, a)?)?;
            let to = Box::new(alloc, erase(alloc, table, b)?)?;
            Ok(Simple::Arrow(from, to))
        }
        _ => Ok(Simple::Base(0)),
    }
}
