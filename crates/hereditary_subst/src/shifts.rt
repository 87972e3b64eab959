//! Shifting a tree of a table, and lowering a shifted tree again.

ghost use Rattle.std.specs.Prelude.{◌≡◌, ◌<◌, ◌≤◌, ◌+◌, ◌^◌, true, false, IfOk, IsTrue, OnOk};
ghost use Rattle.term_table.specs.Tree.{shifted, Var};
ghost use Rattle.term_table.specs.Scope.{is_scoped, is_term_shape};
ghost use Rattle.term_table.specs.Table.{IsKnown, tree_at, Extends, Stands};
ghost use Rattle.hereditary_subst.specs.Kept.{IsMemo, Lowers};
ghost use Rattle.hereditary_subst.specs.Limits.{SpendsResults};

use crate::exhausted::Exhausted;
use crate::kept::{Memo, Question, number};
use std::alloc::AllocError;
use term_table::{Id, Node, Table};

/// The greatest height of a tree whose result isn't cached, such as an equation of two words
/// without parts: its parts, seven at most, are visited faster than a row is found. The visit is
/// counted.
const MOST_WITHOUT_ROW: u32 = 3;

/// The greatest height of a tree for which nothing is counted: it is part of a tree that is
/// counted.
const MOST_UNCOUNTED: u32 = 2;

/// Returns whether each of the tree's variables is bound or one of the `n` next outside. May return
/// false if the table doesn't know.
pub(crate) fn is_within(table: &Table, id: Id, n: u64) -> bool
    requires { IsKnown table.now id }
    ensures { IsTrue result → is_scoped n (tree_at table.now id) ≡ true }
{
    let reach = table.reach(id);
    reach < u32::MAX && u64::from(reach) <= n
}

/// Whether the tree is not higher than so many.
fn is_low(table: &Table, id: Id, most: u32) -> bool
    requires { IsKnown table.now id }
{
    table.height(id) <= most
}

/// Returns whether `x` is the furthest variable outside the tree, and so occurs in it. May return
/// false if the table doesn't know.
fn is_furthest(table: &Table, id: Id, x: u64) -> bool
    requires { IsKnown table.now id }
{
    let reach = u64::from(table.reach(id));
    reach > x && reach - 1 == x
}

/// The tree with each variable from `from` on raised by `by`. Parts have lower ids, so `from` has
/// room to rise by one at each binder.
#[cycle(shifting)]
#[tactic(auto, using(crate::proofs::Rows::rows))]
pub(crate) fn shift_at(
    table: &mut Table,
    memo: &mut Memo,
    id: Id,
    by: u64,
    from: u64,
) -> Result<Option<Id>, Exhausted>
    requires small { by ≤ 2 ^ 32 }
    requires known { IsKnown table.old id }
    requires room { from + id < 2 ^ 64 }
    requires memo { IsMemo table.old memo.old }
    ensures tree { IfOk result (Stands table.new (shifted by from (tree_at table.old id))) }
    ensures extends { Extends table.old table.new }
    ensures memo { IsMemo table.new memo.new }
    ensures spends { SpendsResults table.new memo.old memo.new result }
{
    table.laws();
    if is_within(table, id, from) {
        return Ok(Some(id));
    }
    if is_low(table, id, MOST_UNCOUNTED) {
        return shift_parts(table, memo, id, by, from);
    }
    if is_low(table, id, MOST_WITHOUT_ROW) {
        memo.spend()?;
        return shift_parts(table, memo, id, by, from);
    }
    let question = Question::Shift(by, from, number(id));
    if let Some(atom) = memo.find(table, &question) {
        return Ok(Some(atom.term));
    }
    let Some(term) = shift_parts(table, memo, id, by, from)? else {
        return Ok(None);
    };
    memo.keep(table, question, term, None)?;
    Ok(Some(term))
}

/// Shifts the tree by shifting its parts.
#[cycle(shifting)]
#[tactic(auto, using(crate::proofs::Rows::rows))]
fn shift_parts(
    table: &mut Table,
    memo: &mut Memo,
    id: Id,
    by: u64,
    from: u64,
) -> Result<Option<Id>, Exhausted>
    requires small { by ≤ 2 ^ 32 }
    requires known { IsKnown table.old id }
    requires room { from + id < 2 ^ 64 }
    requires memo { IsMemo table.old memo.old }
    ensures tree { IfOk result (Stands table.new (shifted by from (tree_at table.old id))) }
    ensures extends { Extends table.old table.new }
    ensures memo { IsMemo table.new memo.new }
    ensures spends { SpendsResults table.new memo.old memo.new result }
{
    match table.node(id) {
        Node::Var(n) => Ok(shift_variable(table, id, n, by, from)?),
        Node::App(f, a) => {
            let Some(g) = shift_at(table, memo, f, by, from)? else {
                return Ok(None);
            };
            let Some(b) = shift_at(table, memo, a, by, from)? else {
                return Ok(None);
            };
            Ok(Some(table.intern(Node::App(g, b))?))
        }
        Node::Lam(b) => {
            let Some(c) = shift_at(table, memo, b, by, from + 1)? else {
                return Ok(None);
            };
            Ok(Some(table.intern(Node::Lam(c))?))
        }
        Node::TApp(_, _) | Node::Pi(_, _) => shift_type_parts(table, memo, id, by, from),
        _ => Ok(Some(id)),
    }
}

/// Shifts the variable `n`.
fn shift_variable(
    table: &mut Table,
    id: Id,
    n: u32,
    by: u64,
    from: u64,
) -> Result<Option<Id>, AllocError>
    requires small { by ≤ 2 ^ 32 }
    requires known { IsKnown table.old id }
    requires is { Var n ≡ tree_at table.old id }
    ensures tree { IfOk result (Stands table.new (shifted by from (tree_at table.old id))) }
    ensures extends { Extends table.old table.new }
{
    if u64::from(n) < from {
        return Ok(Some(id));
    }
    match u32::try_from(u64::from(n) + by) {
        Err(_) => Ok(None),
        Ok(m) => Ok(Some(table.intern(Node::Var(m))?)),
    }
}

/// Shifts a type by shifting its parts.
#[cycle(shifting)]
#[tactic(auto, using(crate::proofs::Rows::rows))]
fn shift_type_parts(
    table: &mut Table,
    memo: &mut Memo,
    id: Id,
    by: u64,
    from: u64,
) -> Result<Option<Id>, Exhausted>
    requires small { by ≤ 2 ^ 32 }
    requires known { IsKnown table.old id }
    requires shape { is_term_shape (tree_at table.old id) ≡ false }
    requires room { from + id < 2 ^ 64 }
    requires memo { IsMemo table.old memo.old }
    ensures tree { IfOk result (Stands table.new (shifted by from (tree_at table.old id))) }
    ensures extends { Extends table.old table.new }
    ensures memo { IsMemo table.new memo.new }
    ensures spends { SpendsResults table.new memo.old memo.new result }
{
    match table.node(id) {
        Node::TApp(p, a) => {
            let Some(q) = shift_at(table, memo, p, by, from)? else {
                return Ok(None);
            };
            let Some(b) = shift_at(table, memo, a, by, from)? else {
                return Ok(None);
            };
            Ok(Some(table.intern(Node::TApp(q, b))?))
        }
        Node::Pi(a, b) => {
            let Some(c) = shift_at(table, memo, a, by, from)? else {
                return Ok(None);
            };
            let Some(d) = shift_at(table, memo, b, by, from + 1)? else {
                return Ok(None);
            };
            Ok(Some(table.intern(Node::Pi(c, d))?))
        }
        _ => Ok(Some(id)),
    }
}

/// Returns the tree that becomes this one if one more binder is put outside the `x` nearest; None
/// says nothing. It is found if the variable `x` doesn't occur.
#[cycle(lowering)]
#[tactic(auto, using(crate::proofs::Rows::rows))]
pub(crate) fn lower_at(
    table: &mut Table,
    memo: &mut Memo,
    id: Id,
    x: u64,
) -> Result<Option<Id>, Exhausted>
    requires known { IsKnown table.old id }
    requires room { x + id < 2 ^ 64 }
    requires memo { IsMemo table.old memo.old }
    ensures tree { IfOk result (Lowers table.new x (tree_at table.old id)) }
    ensures extends { Extends table.old table.new }
    ensures memo { IsMemo table.new memo.new }
    ensures spends { SpendsResults table.new memo.old memo.new result }
{
    if is_within(table, id, x) {
        return Ok(Some(id));
    }
    if is_furthest(table, id, x) {
        return Ok(None);
    }
    if is_low(table, id, MOST_UNCOUNTED) {
        return lower_parts(table, memo, id, x);
    }
    if is_low(table, id, MOST_WITHOUT_ROW) {
        memo.spend()?;
        return lower_parts(table, memo, id, x);
    }
    let question = Question::Lower(x, number(id));
    if let Some(atom) = memo.find(table, &question) {
        return match atom.met {
            None => Ok(Some(atom.term)),
            Some(_) => Ok(None),
        };
    }
    let Some(term) = lower_parts(table, memo, id, x)? else {
        memo.keep(table, question, id, Some(id))?;
        return Ok(None);
    };
    memo.keep(table, question, term, None)?;
    Ok(Some(term))
}

/// Lowers the tree by lowering its parts.
#[cycle(lowering)]
#[tactic(auto, using(crate::proofs::Rows::rows))]
fn lower_parts(table: &mut Table, memo: &mut Memo, id: Id, x: u64) -> Result<Option<Id>, Exhausted>
    requires known { IsKnown table.old id }
    requires room { x + id < 2 ^ 64 }
    requires memo { IsMemo table.old memo.old }
    ensures tree { IfOk result (Lowers table.new x (tree_at table.old id)) }
    ensures extends { Extends table.old table.new }
    ensures memo { IsMemo table.new memo.new }
    ensures spends { SpendsResults table.new memo.old memo.new result }
{
    match table.node(id) {
        Node::Var(n) => Ok(lower_variable(table, id, n, x)?),
        Node::App(f, a) => {
            let Some(g) = lower_at(table, memo, f, x)? else {
                return Ok(None);
            };
            let Some(b) = lower_at(table, memo, a, x)? else {
                return Ok(None);
            };
            Ok(Some(table.intern(Node::App(g, b))?))
        }
        Node::Lam(b) => {
            let Some(c) = lower_at(table, memo, b, x + 1)? else {
                return Ok(None);
            };
            Ok(Some(table.intern(Node::Lam(c))?))
        }
        Node::TApp(_, _) | Node::Pi(_, _) => lower_type_parts(table, memo, id, x),
        _ => Ok(Some(id)),
    }
}

/// Lowers the variable `n`.
fn lower_variable(table: &mut Table, id: Id, n: u32, x: u64) -> Result<Option<Id>, AllocError>
    requires known { IsKnown table.old id }
    requires is { Var n ≡ tree_at table.old id }
    ensures tree { IfOk result (Lowers table.new x (tree_at table.old id)) }
    ensures extends { Extends table.old table.new }
{
    if u64::from(n) == x {
        return Ok(None);
    }
    if u64::from(n) < x {
        return Ok(Some(id));
    }
    Ok(Some(table.intern(Node::Var(n - 1))?))
}

/// Lowers a type by lowering its parts.
#[cycle(lowering)]
#[tactic(auto, using(crate::proofs::Rows::rows))]
fn lower_type_parts(
    table: &mut Table,
    memo: &mut Memo,
    id: Id,
    x: u64,
) -> Result<Option<Id>, Exhausted>
    requires known { IsKnown table.old id }
    requires room { x + id < 2 ^ 64 }
    requires memo { IsMemo table.old memo.old }
    ensures tree { IfOk result (Lowers table.new x (tree_at table.old id)) }
    ensures extends { Extends table.old table.new }
    ensures memo { IsMemo table.new memo.new }
    ensures spends { SpendsResults table.new memo.old memo.new result }
{
    match table.node(id) {
        Node::TApp(p, a) => {
            let Some(q) = lower_at(table, memo, p, x)? else {
                return Ok(None);
            };
            let Some(b) = lower_at(table, memo, a, x)? else {
                return Ok(None);
            };
            Ok(Some(table.intern(Node::TApp(q, b))?))
        }
        Node::Pi(a, b) => {
            let Some(c) = lower_at(table, memo, a, x)? else {
                return Ok(None);
            };
            let Some(d) = lower_at(table, memo, b, x + 1)? else {
                return Ok(None);
            };
            Ok(Some(table.intern(Node::Pi(c, d))?))
        }
        _ => Ok(None),
    }
}
