//! The variables that a tree uses, as sets that are ids of the table.
//!
//! The empty set is a family; any other is an application of its nearest variable to the set of the
//! others, counted from the binder outside that variable. So a set is as long as it has variables,
//! whatever their numbers are. It may have more variables than the tree uses, which only costs
//! time.

ghost use Rattle.std.specs.Prelude.{◌≡◌, true, false, ℕ, ◌<◌, ◌+◌, suc, IfOk};
ghost use Rattle.term_table.specs.Tree.{App, Lam, Pi, TApp, Var};
ghost use Rattle.term_table.specs.Table.{IsKnown, tree_at, Extends};
ghost use Rattle.lf_check.specs.Uses.{is_variable, is_set, member, past, empty};
ghost use Rattle.lf_check.specs.Uses.{IsUnion, Covers};
ghost use Rattle.hereditary_subst.specs.Limits.{SpendsResults};
ghost use Rattle.lf_check.specs.Kept.{AreKept};

use crate::judgements::{Kept, Question, number};
use crate::steps::intern_on;
use hereditary_subst::Exhausted;
use lf_signature::Signature;
use term_table::{Id, Node, Table};

/// Whether the tree is a variable.
fn is_variable(table: &Table, id: Id) -> bool
    requires { IsKnown table.now id }
    ensures { result ≡ is_variable (tree_at table.now id) }
{
    match table.node(id) {
        Node::Var(_) => true,
        _ => false,
    }
}

/// Whether the tree represents a set with variables.
pub(crate) fn is_set(table: &Table, id: Id) -> bool
    requires { IsKnown table.now id }
    ensures { result ≡ is_set (tree_at table.now id) }
{
    match table.node(id) {
        Node::App(first, _) => is_variable(table, first),
        _ => false,
    }
}

/// The nearest variable of a set, and the set of the others.
pub(crate) fn set_parts(table: &Table, id: Id) -> (u32, Id)
    requires known { IsKnown table.now id }
    requires set { is_set (tree_at table.now id) ≡ true }
    ensures known { result.1 < id }
    ensures is { tree_at table.now id ≡ App (Var result.0) (tree_at table.now result.1) }
{
    match table.node(id) {
        Node::App(first, rest) => match table.node(first) {
            Node::Var(gap) => (gap, rest),
            _ => unreachable!(),
        },
        _ => unreachable!(),
    }
}

/// The set of the variable `gap` and of those of `rest`, counted from the binder outside it.
fn with_first<S: Signature>(
    table: &mut Table,
    kept: &mut Kept,
    sig: &S,
    gap: u32,
    rest: Id,
) -> Result<Id, Exhausted>
    requires holds { S.holds sig.now table.old }
    requires rest { IsKnown table.old rest }
    requires kept { AreKept (S.declares sig.now table.old) table.old kept.old }
    ensures set { IfOk result (λ u. IsKnown table.new u
        × (tree_at table.new u ≡ App (Var gap) (tree_at table.old rest))) }
    ensures extends { Extends table.old table.new }
    ensures kept { AreKept (S.declares sig.now table.new) table.new kept.new }
    ensures spends { SpendsResults table.new kept.old.memo kept.new.memo result }
{
    kept.spend(table, sig)?;
    let first = intern_on(table, kept, sig, Node::Var(gap))?;
    Ok(intern_on(table, kept, sig, Node::App(first, rest))?)
}

/// A set with all variables of both.
#[cycle(joining)]
fn joined<S: Signature>(
    table: &mut Table,
    kept: &mut Kept,
    sig: &S,
    s: Id,
    r: Id,
) -> Result<Id, Exhausted>
    requires holds { S.holds sig.now table.old }
    requires s { IsKnown table.old s }
    requires r { IsKnown table.old r }
    requires kept { AreKept (S.declares sig.now table.old) table.old kept.old }
    ensures union { let one = member (tree_at table.old s) in
        let other = member (tree_at table.old r) in
        IfOk result (IsUnion table.new one other) }
    ensures extends { Extends table.old table.new }
    ensures kept { AreKept (S.declares sig.now table.new) table.new kept.new }
    ensures spends { SpendsResults table.new kept.old.memo kept.new.memo result }
{
    if table.same(s, r) {
        return Ok(r);
    }
    if !is_set(table, s) {
        return Ok(r);
    }
    let (gap, rest) = set_parts(table, s);
    joined_past(table, kept, sig, gap, rest, r)
}

/// A set with the variable `gap`, those of `s` past it, and those of `r`.
#[cycle(joining)]
fn joined_past<S: Signature>(
    table: &mut Table,
    kept: &mut Kept,
    sig: &S,
    gap: u32,
    s: Id,
    r: Id,
) -> Result<Id, Exhausted>
    requires holds { S.holds sig.now table.old }
    requires s { IsKnown table.old s }
    requires r { IsKnown table.old r }
    requires kept { AreKept (S.declares sig.now table.old) table.old kept.old }
    ensures union { let one = past gap (member (tree_at table.old s)) in
        let other = member (tree_at table.old r) in
        IfOk result (IsUnion table.new one other) }
    ensures extends { Extends table.old table.new }
    ensures kept { AreKept (S.declares sig.now table.new) table.new kept.new }
    ensures spends { SpendsResults table.new kept.old.memo kept.new.memo result }
{
    if !is_set(table, r) {
        return with_first(table, kept, sig, gap, s);
    }
    let (other, rest) = set_parts(table, r);
    joined_both(table, kept, sig, gap, s, other, rest)
}

/// A set with the variables `g` and `h`, those of `s` past `g`, and those of `r` past `h`.
#[cycle(joining)]
fn joined_both<S: Signature>(
    table: &mut Table,
    kept: &mut Kept,
    sig: &S,
    g: u32,
    s: Id,
    h: u32,
    r: Id,
) -> Result<Id, Exhausted>
    requires holds { S.holds sig.now table.old }
    requires s { IsKnown table.old s }
    requires r { IsKnown table.old r }
    requires kept { AreKept (S.declares sig.now table.old) table.old kept.old }
    ensures union { let one = past g (member (tree_at table.old s)) in
        let other = past h (member (tree_at table.old r)) in
        IfOk result (IsUnion table.new one other) }
    ensures extends { Extends table.old table.new }
    ensures kept { AreKept (S.declares sig.now table.new) table.new kept.new }
    ensures spends { SpendsResults table.new kept.old.memo kept.new.memo result }
{
    if g < h {
        let rest = joined_past(table, kept, sig, h - g - 1, r, s)?;
        return with_first(table, kept, sig, g, rest);
    }
    if h < g {
        let rest = joined_past(table, kept, sig, g - h - 1, s, r)?;
        return with_first(table, kept, sig, h, rest);
    }
    let rest = joined(table, kept, sig, s, r)?;
    with_first(table, kept, sig, g, rest)
}

/// The set of what a body uses, as it is outside of the binder.
fn outside<S: Signature>(
    table: &mut Table,
    kept: &mut Kept,
    sig: &S,
    s: Id,
) -> Result<Id, Exhausted>
    requires holds { S.holds sig.now table.old }
    requires s { IsKnown table.old s }
    requires kept { AreKept (S.declares sig.now table.old) table.old kept.old }
    ensures known { IfOk result (IsKnown table.new) }
    ensures set { let inside = member (tree_at table.old s) in
        IfOk result (λ u. (i : ℕ) →
        inside (suc i) ≡ true → member (tree_at table.new u) i ≡ true) }
    ensures extends { Extends table.old table.new }
    ensures kept { AreKept (S.declares sig.now table.new) table.new kept.new }
    ensures spends { SpendsResults table.new kept.old.memo kept.new.memo result }
{
    if !is_set(table, s) {
        return Ok(s);
    }
    let (gap, rest) = set_parts(table, s);
    if gap == 0 {
        return Ok(rest);
    }
    with_first(table, kept, sig, gap - 1, rest)
}

/// A set with each variable that the tree uses.
#[cycle(using)]
pub(crate) fn uses_at<S: Signature>(
    table: &mut Table,
    kept: &mut Kept,
    sig: &S,
    m: Id,
) -> Result<Id, Exhausted>
    requires holds { S.holds sig.now table.old }
    requires m { IsKnown table.old m }
    requires kept { AreKept (S.declares sig.now table.old) table.old kept.old }
    ensures known { IfOk result (IsKnown table.new) }
    ensures covers { IfOk result
        (λ u. Covers (tree_at table.new u) (tree_at table.old m)) }
    ensures extends { Extends table.old table.new }
    ensures kept { AreKept (S.declares sig.now table.new) table.new kept.new }
    ensures spends { SpendsResults table.new kept.old.memo kept.new.memo result }
{
    let none = intern_on(table, kept, sig, Node::Fam(0))?;
    if table.reach(m) == 0 {
        return Ok(none);
    }
    if let Node::Var(n) = table.node(m) {
        return with_first(table, kept, sig, n, none);
    }
    let question = Question::Uses(number(m));
    if let Some(found) = kept.find(table, sig, &question) {
        return Ok(found.answer);
    }
    let set = uses_of_parts(table, kept, sig, m, none)?;
    kept.keep(table, sig, question, m, set)?;
    Ok(set)
}

/// A set with each variable that the parts of a tree use, which is no variable.
#[cycle(using)]
fn uses_of_parts<S: Signature>(
    table: &mut Table,
    kept: &mut Kept,
    sig: &S,
    m: Id,
    none: Id,
) -> Result<Id, Exhausted>
    requires holds { S.holds sig.now table.old }
    requires m { IsKnown table.old m }
    requires other { is_variable (tree_at table.old m) ≡ false }
    requires none { IsKnown table.old none }
    requires kept { AreKept (S.declares sig.now table.old) table.old kept.old }
    ensures known { IfOk result (IsKnown table.new) }
    ensures covers { IfOk result
        (λ u. Covers (tree_at table.new u) (tree_at table.old m)) }
    ensures extends { Extends table.old table.new }
    ensures kept { AreKept (S.declares sig.now table.new) table.new kept.new }
    ensures spends { SpendsResults table.new kept.old.memo kept.new.memo result }
{
    match table.node(m) {
        Node::App(f, a) => uses_of_both(table, kept, sig, m, f, a),
        Node::TApp(p, a) => uses_of_both(table, kept, sig, m, p, a),
        Node::Lam(b) => uses_under(table, kept, sig, m, b),
        Node::Pi(a, b) => uses_of_product(table, kept, sig, m, a, b),
        _ => Ok(none),
    }
}

/// A set with each variable that one of two parts of m uses.
#[cycle(using)]
fn uses_of_both<S: Signature>(
    table: &mut Table,
    kept: &mut Kept,
    sig: &S,
    m: Id,
    f: Id,
    a: Id,
) -> Result<Id, Exhausted>
    requires holds { S.holds sig.now table.old }
    requires m { IsKnown table.old m }
    requires parts { (f < m) × (a < m) }
    requires kept { AreKept (S.declares sig.now table.old) table.old kept.old }
    ensures known { IfOk result (IsKnown table.new) }
    ensures one { IfOk result
        (λ u. Covers (tree_at table.new u) (tree_at table.old f)) }
    ensures other { IfOk result
        (λ u. Covers (tree_at table.new u) (tree_at table.old a)) }
    ensures extends { Extends table.old table.new }
    ensures kept { AreKept (S.declares sig.now table.new) table.new kept.new }
    ensures spends { SpendsResults table.new kept.old.memo kept.new.memo result }
{
    let one = uses_at(table, kept, sig, f)?;
    let other = uses_at(table, kept, sig, a)?;
    joined(table, kept, sig, one, other)
}

/// A set with each variable that an abstraction of the part b of m uses.
#[cycle(using)]
fn uses_under<S: Signature>(
    table: &mut Table,
    kept: &mut Kept,
    sig: &S,
    m: Id,
    b: Id,
) -> Result<Id, Exhausted>
    requires holds { S.holds sig.now table.old }
    requires m { IsKnown table.old m }
    requires part { b < m }
    requires kept { AreKept (S.declares sig.now table.old) table.old kept.old }
    ensures known { IfOk result (IsKnown table.new) }
    ensures covers { let lam = Lam (tree_at table.old b) in
        IfOk result (λ u. Covers (tree_at table.new u) lam) }
    ensures extends { Extends table.old table.new }
    ensures kept { AreKept (S.declares sig.now table.new) table.new kept.new }
    ensures spends { SpendsResults table.new kept.old.memo kept.new.memo result }
{
    let inside = uses_at(table, kept, sig, b)?;
    outside(table, kept, sig, inside)
}

/// A set with each variable that a product of two parts of m uses.
#[cycle(using)]
fn uses_of_product<S: Signature>(
    table: &mut Table,
    kept: &mut Kept,
    sig: &S,
    m: Id,
    a: Id,
    b: Id,
) -> Result<Id, Exhausted>
    requires holds { S.holds sig.now table.old }
    requires m { IsKnown table.old m }
    requires parts { (a < m) × (b < m) }
    requires kept { AreKept (S.declares sig.now table.old) table.old kept.old }
    ensures known { IfOk result (IsKnown table.new) }
    ensures covers { let product = Pi (tree_at table.old a) (tree_at table.old b) in
        IfOk result (λ u. Covers (tree_at table.new u) product) }
    ensures extends { Extends table.old table.new }
    ensures kept { AreKept (S.declares sig.now table.new) table.new kept.new }
    ensures spends { SpendsResults table.new kept.old.memo kept.new.memo result }
{
    let domain = uses_at(table, kept, sig, a)?;
    let body = uses_under(table, kept, sig, m, b)?;
    joined(table, kept, sig, domain, body)
}
