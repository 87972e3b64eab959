//! Hereditary substitution, by the head of an atomic term. If the head is the variable, it goes on
//! at the simple type that remains; with another head the term is rebuilt. A simple type is passed
//! as the id of a type that erases to it.

ghost use Rattle.std.specs.Prelude.{◌≡◌, ◌<◌, ◌≤◌, ◌+◌, ◌^◌, IfOk, IsTrue, true, OnOk};
ghost use Rattle.term_table.specs.Tree.{App, Lam, Pi, Var};
ghost use Rattle.term_table.specs.Scope.{is_term_shape};
ghost use Rattle.term_table.specs.Table.{IsKnown, tree_at, Extends, Stands};
ghost use Rattle.hereditary_subst.specs.Heads.{put_of, put_type_of, HeadPut, HeadApplied};
ghost use Rattle.hereditary_subst.specs.Kept.{IsMemo};
ghost use Rattle.hereditary_subst.specs.Limits.{SpendsResults};
ghost use Rattle.hereditary_subst.specs.Inside.Spare.{IsLowerable, Spares};

use crate::exhausted::Exhausted;
use crate::kept::{Atom, Memo, Question, number};
use crate::shifts::{lower_at, shift_at};
use std::alloc::AllocError;
use term_table::{Id, Node, Table};

/// Returns whether `r` is canonical and `m` can be raised under all its binders. May return false
/// if the table doesn't know.
fn is_ready(table: &Table, m: Id, r: Id) -> bool
    requires m { IsKnown table.now m }
    requires r { IsKnown table.now r }
    ensures { IsTrue result → IsLowerable (tree_at table.now m) (tree_at table.now r) }
{
    let reach = table.reach(r);
    let outer = table.reach(m);
    let high = table.height(m);
    let deep = table.height(r);
    if reach == u32::MAX {
        return false;
    }
    if u64::from(outer) + u64::from(high) + u64::from(deep) >= 4_294_967_295 {
        return false;
    }
    true
}

/// Returns the tree without the variable `x`, if it is found that `x` doesn't occur in it.
#[tactic(auto, using(crate::proofs::Rows::rows))]
fn spare_at(
    table: &mut Table,
    memo: &mut Memo,
    id: Id,
    m: Id,
    x: u64,
) -> Result<Option<Id>, Exhausted>
    requires known { IsKnown table.old id }
    requires room { x + id < 2 ^ 64 }
    requires known_m { IsKnown table.old m }
    requires memo { IsMemo table.old memo.old }
    ensures tree { IfOk result (Spares table.new (tree_at table.old m) x (tree_at table.old id)) }
    ensures extends { Extends table.old table.new }
    ensures memo { IsMemo table.new memo.new }
    ensures spends { SpendsResults table.new memo.old memo.new result }
{
    let Some(r) = lower_at(table, memo, id, x)? else {
        return Ok(None);
    };
    if is_ready(table, m, r) {
        return Ok(Some(r));
    }
    Ok(None)
}

/// The term with m for the variable x at the simple type of ty.
#[cycle(substitute)]
#[tactic(auto, using(crate::proofs::Rows::rows))]
pub(crate) fn subst_at(
    table: &mut Table,
    memo: &mut Memo,
    id: Id,
    m: Id,
    x: u64,
    ty: Id,
) -> Result<Option<Id>, Exhausted>
    requires known { IsKnown table.old id }
    requires room { x + id < 2 ^ 64 }
    requires known_m { IsKnown table.old m }
    requires known_ty { IsKnown table.old ty }
    requires memo { IsMemo table.old memo.old }
    ensures tree { IfOk result (Stands table.new (put_of table.old ty m x id)) }
    ensures extends { Extends table.old table.new }
    ensures memo { IsMemo table.new memo.new }
    ensures spends { SpendsResults table.new memo.old memo.new result }
{
    if let Node::Lam(b) = table.node(id) {
        return subst_under(table, memo, id, b, m, x, ty);
    }
    match head_at(table, memo, id, m, x, ty) {
        Err(e) => Err(e),
        Ok(None) => Ok(None),
        Ok(Some(atom)) => Ok(Some(atom.term)),
    }
}

/// Substitutes in the abstraction of `b`.
#[cycle(substitute)]
#[tactic(auto, using(crate::proofs::Rows::rows))]
fn subst_under(
    table: &mut Table,
    memo: &mut Memo,
    id: Id,
    b: Id,
    m: Id,
    x: u64,
    ty: Id,
) -> Result<Option<Id>, Exhausted>
    requires known { IsKnown table.old id }
    requires b { b < id }
    requires is { Lam (tree_at table.old b) ≡ tree_at table.old id }
    requires room { x + id < 2 ^ 64 }
    requires known_m { IsKnown table.old m }
    requires known_ty { IsKnown table.old ty }
    requires memo { IsMemo table.old memo.old }
    ensures tree { IfOk result (Stands table.new (put_of table.old ty m x id)) }
    ensures extends { Extends table.old table.new }
    ensures memo { IsMemo table.new memo.new }
    ensures spends { SpendsResults table.new memo.old memo.new result }
{
    if let Some(r) = spare_at(table, memo, id, m, x)? {
        return Ok(Some(r));
    }
    let question = Question::Under(number(m), number(id), x, number(ty));
    if let Some(atom) = memo.find(table, &question) {
        return Ok(Some(atom.term));
    }
    let Some(raised) = shift_at(table, memo, m, 1, 0)? else {
        return Ok(None);
    };
    let Some(c) = subst_at(table, memo, b, raised, x + 1, ty)? else {
        return Ok(None);
    };
    let term = table.intern(Node::Lam(c))?;
    memo.keep(table, question, term, None)?;
    Ok(Some(term))
}

/// The atomic term with m for the variable x at the simple type of ty, with what its head is.
#[cycle(substitute)]
#[tactic(auto, using(crate::proofs::Rows::rows))]
fn head_at(
    table: &mut Table,
    memo: &mut Memo,
    id: Id,
    m: Id,
    x: u64,
    ty: Id,
) -> Result<Option<Atom>, Exhausted>
    requires known { IsKnown table.old id }
    requires room { x + id < 2 ^ 64 }
    requires known_m { IsKnown table.old m }
    requires known_ty { IsKnown table.old ty }
    requires memo { IsMemo table.old memo.old }
    ensures tree { IfOk result (HeadPut table.old ty m x id table.new) }
    ensures extends { Extends table.old table.new }
    ensures memo { IsMemo table.new memo.new }
    ensures spends { SpendsResults table.new memo.old memo.new result }
{
    match table.node(id) {
        Node::Var(n) => Ok(head_variable(table, id, n, m, x, ty)?),
        Node::App(f, a) => head_kept(table, memo, f, a, id, m, x, ty),
        Node::Lam(_) | Node::Fam(_) | Node::TApp(_, _) | Node::Pi(_, _) => Ok(None),
        _ => Ok(Some(Atom {
            term: id,
            met: None,
        })),
    }
}

/// Substitutes in the variable `n`.
fn head_variable(
    table: &mut Table,
    id: Id,
    n: u32,
    m: Id,
    x: u64,
    ty: Id,
) -> Result<Option<Atom>, AllocError>
    requires known { IsKnown table.old id }
    requires is { Var n ≡ tree_at table.old id }
    requires known_m { IsKnown table.old m }
    requires known_ty { IsKnown table.old ty }
    ensures tree { IfOk result (HeadPut table.old ty m x id table.new) }
    ensures extends { Extends table.old table.new }
{
    if u64::from(n) == x {
        return Ok(Some(Atom {
            term: m,
            met: Some(ty),
        }));
    }
    if u64::from(n) < x {
        return Ok(Some(Atom {
            term: id,
            met: None,
        }));
    }
    let term = table.intern(Node::Var(n - 1))?;
    Ok(Some(Atom { term, met: None }))
}

/// Substitutes in the application of `f` to `a`: returns the cached result, or goes by the parts.
#[cycle(substitute)]
#[tactic(auto, using(crate::proofs::Rows::rows))]
fn head_kept(
    table: &mut Table,
    memo: &mut Memo,
    f: Id,
    a: Id,
    id: Id,
    m: Id,
    x: u64,
    ty: Id,
) -> Result<Option<Atom>, Exhausted>
    requires parts { (f < id) × (a < id) }
    requires known { IsKnown table.old id }
    requires is { App (tree_at table.old f) (tree_at table.old a) ≡ tree_at table.old id }
    requires room { x + id < 2 ^ 64 }
    requires known_m { IsKnown table.old m }
    requires known_ty { IsKnown table.old ty }
    requires memo { IsMemo table.old memo.old }
    ensures tree { IfOk result (HeadPut table.old ty m x id table.new) }
    ensures extends { Extends table.old table.new }
    ensures memo { IsMemo table.new memo.new }
    ensures spends { SpendsResults table.new memo.old memo.new result }
{
    if let Some(term) = spare_at(table, memo, id, m, x)? {
        return Ok(Some(Atom { term, met: None }));
    }
    let question = Question::Head(number(m), number(id), x, number(ty));
    if let Some(atom) = memo.find(table, &question) {
        return Ok(Some(atom));
    }
    match head_parts(table, memo, f, a, id, m, x, ty) {
        Err(e) => Err(e),
        Ok(None) => Ok(None),
        Ok(Some(atom)) => {
            memo.keep(table, question, atom.term, atom.met)?;
            Ok(Some(atom))
        }
    }
}

/// Substitutes in the application of `f` to `a`, by the parts.
#[cycle(substitute)]
#[tactic(auto, using(crate::proofs::Rows::rows))]
fn head_parts(
    table: &mut Table,
    memo: &mut Memo,
    f: Id,
    a: Id,
    id: Id,
    m: Id,
    x: u64,
    ty: Id,
) -> Result<Option<Atom>, Exhausted>
    requires parts { (f < id) × (a < id) }
    requires known { IsKnown table.old id }
    requires is { App (tree_at table.old f) (tree_at table.old a) ≡ tree_at table.old id }
    requires room { x + id < 2 ^ 64 }
    requires known_m { IsKnown table.old m }
    requires known_ty { IsKnown table.old ty }
    requires memo { IsMemo table.old memo.old }
    ensures tree { IfOk result (HeadPut table.old ty m x id table.new) }
    ensures extends { Extends table.old table.new }
    ensures memo { IsMemo table.new memo.new }
    ensures spends { SpendsResults table.new memo.old memo.new result }
{
    let Some(b) = subst_at(table, memo, a, m, x, ty)? else {
        return Ok(None);
    };
    match head_at(table, memo, f, m, x, ty) {
        Err(e) => Err(e),
        Ok(None) => Ok(None),
        Ok(Some(Atom { term, met: Some(u) })) => reduce_at(table, memo, term, b, u),
        Ok(Some(Atom { term: g, met: None })) => {
            let term = table.intern(Node::App(g, b))?;
            Ok(Some(Atom { term, met: None }))
        }
    }
}

/// The term g at the simple type of u, applied to b.
#[cycle(substitute)]
#[tactic(auto, using(crate::proofs::Rows::rows))]
fn reduce_at(
    table: &mut Table,
    memo: &mut Memo,
    g: Id,
    b: Id,
    u: Id,
) -> Result<Option<Atom>, Exhausted>
    requires known { IsKnown table.old g }
    requires known_b { IsKnown table.old b }
    requires known_u { IsKnown table.old u }
    requires memo { IsMemo table.old memo.old }
    ensures tree { IfOk result (HeadApplied table.old u g b table.new) }
    ensures extends { Extends table.old table.new }
    ensures memo { IsMemo table.new memo.new }
    ensures spends { SpendsResults table.new memo.old memo.new result }
{
    table.laws();
    let Node::Lam(body) = table.node(g) else {
        return Ok(None);
    };
    match table.node(u) {
        Node::Pi(from, to) => match subst_at(table, memo, body, b, 0, from)? {
            None => Ok(None),
            Some(term) => Ok(Some(Atom {
                term,
                met: Some(to),
            })),
        },
        Node::TApp(p, _) => reduce_at(table, memo, g, b, p),
        _ => Ok(None),
    }
}

/// Whether the tree is a term's.
fn is_term(table: &Table, id: Id) -> bool
    requires { IsKnown table.now id }
    ensures { result ≡ is_term_shape (tree_at table.now id) }
{
    match table.node(id) {
        Node::Fam(_) | Node::TApp(_, _) | Node::Pi(_, _) => false,
        _ => true,
    }
}

/// The type with m for the variable x at the simple type of ty.
#[cycle(typed)]
#[tactic(auto, using(crate::proofs::Rows::rows))]
pub(crate) fn subst_type_at(
    table: &mut Table,
    memo: &mut Memo,
    id: Id,
    m: Id,
    x: u64,
    ty: Id,
) -> Result<Option<Id>, Exhausted>
    requires known { IsKnown table.old id }
    requires room { x + id < 2 ^ 64 }
    requires known_m { IsKnown table.old m }
    requires known_ty { IsKnown table.old ty }
    requires memo { IsMemo table.old memo.old }
    ensures tree { IfOk result (Stands table.new (put_type_of table.old ty m x id)) }
    ensures extends { Extends table.old table.new }
    ensures memo { IsMemo table.new memo.new }
    ensures spends { SpendsResults table.new memo.old memo.new result }
{
    if is_term(table, id) {
        return Ok(None);
    }
    if let Some(r) = spare_at(table, memo, id, m, x)? {
        return Ok(Some(r));
    }
    let question = Question::Type(number(m), number(id), x, number(ty));
    if let Some(atom) = memo.find(table, &question) {
        return Ok(Some(atom.term));
    }
    let Some(term) = subst_type_parts(table, memo, id, m, x, ty)? else {
        return Ok(None);
    };
    memo.keep(table, question, term, None)?;
    Ok(Some(term))
}

/// Substitutes in the type, by its parts.
#[cycle(typed)]
#[tactic(auto, using(crate::proofs::Rows::rows))]
fn subst_type_parts(
    table: &mut Table,
    memo: &mut Memo,
    id: Id,
    m: Id,
    x: u64,
    ty: Id,
) -> Result<Option<Id>, Exhausted>
    requires known { IsKnown table.old id }
    requires room { x + id < 2 ^ 64 }
    requires known_m { IsKnown table.old m }
    requires known_ty { IsKnown table.old ty }
    requires memo { IsMemo table.old memo.old }
    ensures tree { IfOk result (Stands table.new (put_type_of table.old ty m x id)) }
    ensures extends { Extends table.old table.new }
    ensures memo { IsMemo table.new memo.new }
    ensures spends { SpendsResults table.new memo.old memo.new result }
{
    match table.node(id) {
        Node::Fam(_) => Ok(Some(id)),
        Node::TApp(p, a) => {
            let Some(q) = subst_type_at(table, memo, p, m, x, ty)? else {
                return Ok(None);
            };
            let Some(b) = subst_at(table, memo, a, m, x, ty)? else {
                return Ok(None);
            };
            Ok(Some(table.intern(Node::TApp(q, b))?))
        }
        Node::Pi(a, b) => subst_product(table, memo, a, b, id, m, x, ty),
        _ => Ok(None),
    }
}

/// Substitutes in the product from `a` to `b`.
#[cycle(typed)]
#[tactic(auto, using(crate::proofs::Rows::rows))]
fn subst_product(
    table: &mut Table,
    memo: &mut Memo,
    a: Id,
    b: Id,
    id: Id,
    m: Id,
    x: u64,
    ty: Id,
) -> Result<Option<Id>, Exhausted>
    requires parts { (a < id) × (b < id) }
    requires known { IsKnown table.old id }
    requires is { Pi (tree_at table.old a) (tree_at table.old b) ≡ tree_at table.old id }
    requires room { x + id < 2 ^ 64 }
    requires known_m { IsKnown table.old m }
    requires known_ty { IsKnown table.old ty }
    requires memo { IsMemo table.old memo.old }
    ensures tree { IfOk result (Stands table.new (put_type_of table.old ty m x id)) }
    ensures extends { Extends table.old table.new }
    ensures memo { IsMemo table.new memo.new }
    ensures spends { SpendsResults table.new memo.old memo.new result }
{
    let Some(c) = subst_type_at(table, memo, a, m, x, ty)? else {
        return Ok(None);
    };
    let Some(raised) = shift_at(table, memo, m, 1, 0)? else {
        return Ok(None);
    };
    let Some(d) = subst_type_at(table, memo, b, raised, x + 1, ty)? else {
        return Ok(None);
    };
    Ok(Some(table.intern(Node::Pi(c, d))?))
}
