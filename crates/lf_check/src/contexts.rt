//! Contexts as ids of the table: a list of types is a tree with a node for each type.

ghost use Rattle.std.specs.Prelude.{◌≡◌, ◌<◌, ◌≤◌, ◌+◌, ◌^◌, IfOk, IfSome, IsTrue};
ghost use Rattle.term_table.specs.Tree.{at};
ghost use Rattle.term_table.specs.Table.{IsKnown, AllKnown, tree_at, ctx_of, Extends, Stands};
ghost use Rattle.lf_check.specs.Lists.{types_of, IsPart, IsContextId};
ghost use Rattle.lf_check.specs.Uses.{member, past, AgreeOn};
ghost use Rattle.hereditary_subst.specs.Limits.{SpendsResults};
ghost use Rattle.lf_check.specs.Kept.{AreKept, IsJudgement, subject};

use crate::judgements::{Kept, Question};
use crate::uses::{is_set, set_parts, uses_at};
use hereditary_subst::Exhausted;
use lf_signature::Signature;
use std::alloc::AllocError;
use term_table::{Id, Node, Table};

/// The context of a list whose nearest type is last.
fn context_at(table: &mut Table, ctx: &[Id]) -> Result<Id, AllocError>
    requires { AllKnown table.old ctx.now }
    ensures types { IfOk result (IsContextId table.new (ctx_of table.old ctx.now)) }
    ensures extends { Extends table.old table.new }
{
    let mut c = table.intern(Node::Fam(0))?;
    for id in ctx {
        c = table.intern(Node::TApp(c, *id))?;
    }
    Ok(c)
}

/// The context of a list whose nearest type is last, with the cached results.
pub(crate) fn context_on<S: Signature>(
    table: &mut Table,
    kept: &Kept,
    sig: &S,
    ctx: &[Id],
) -> Result<Id, AllocError>
    requires holds { S.holds sig.now table.old }
    requires ctx { AllKnown table.old ctx.now }
    requires kept { AreKept (S.declares sig.now table.old) table.old kept.now }
    ensures types { IfOk result (IsContextId table.new (ctx_of table.old ctx.now)) }
    ensures extends { Extends table.old table.new }
    ensures kept { AreKept (S.declares sig.now table.new) table.new kept.now }
{
    let _ = kept; // only the clauses speak of it
    let _ = sig; // only the clauses speak of it
    context_at(table, ctx)
}

/// The type of the variable n. Each step along the context is counted, so that the charge is for
/// what is walked, whatever number a variable has.
pub(crate) fn type_at<S: Signature>(
    table: &Table,
    kept: &mut Kept,
    sig: &S,
    c: Id,
    n: u64,
) -> Result<Option<Id>, Exhausted>
    requires known { IsKnown table.now c }
    requires kept { AreKept (S.declares sig.now table.now) table.now kept.old }
    ensures tree { IfOk result (Stands table.now (at (types_of (tree_at table.now c)) n)) }
    ensures kept { AreKept (S.declares sig.now table.now) table.now kept.new }
    ensures spends { SpendsResults table.now kept.old.memo kept.new.memo result }
{
    match table.node(c) {
        Node::TApp(p, a) => {
            if n == 0 {
                return Ok(Some(a));
            }
            kept.step(table, sig)?;
            type_at(table, kept, sig, p, n - 1)
        }
        _ => Ok(None),
    }
}

/// Whether the two contexts give each variable of the set equal types.
#[cycle(agreeing)]
fn agree_on<S: Signature>(
    table: &Table,
    kept: &mut Kept,
    sig: &S,
    c: Id,
    d: Id,
    s: Id,
) -> Result<bool, Exhausted>
    requires c { IsKnown table.now c }
    requires d { IsKnown table.now d }
    requires s { IsKnown table.now s }
    requires kept { AreKept (S.declares sig.now table.now) table.now kept.old }
    ensures agree { let types = types_of (tree_at table.now c) in
        let other = types_of (tree_at table.now d) in
        let set = member (tree_at table.now s) in
        IfOk result (λ b. IsTrue b → AgreeOn set types other) }
    ensures kept { AreKept (S.declares sig.now table.now) table.now kept.new }
    ensures spends { SpendsResults table.now kept.old.memo kept.new.memo result }
{
    if !is_set(table, s) {
        return Ok(true);
    }
    let (gap, rest) = set_parts(table, s);
    agree_past(table, kept, sig, c, d, gap, rest)
}

/// Whether the two contexts give the variable `gap`, and those past it that are in `rest`, equal
/// types. Each step along the contexts is counted.
#[cycle(agreeing)]
fn agree_past<S: Signature>(
    table: &Table,
    kept: &mut Kept,
    sig: &S,
    c: Id,
    d: Id,
    gap: u32,
    rest: Id,
) -> Result<bool, Exhausted>
    requires c { IsKnown table.now c }
    requires d { IsKnown table.now d }
    requires rest { IsKnown table.now rest }
    requires kept { AreKept (S.declares sig.now table.now) table.now kept.old }
    ensures agree { let types = types_of (tree_at table.now c) in
        let other = types_of (tree_at table.now d) in
        let set = past gap (member (tree_at table.now rest)) in
        IfOk result (λ b. IsTrue b → AgreeOn set types other) }
    ensures kept { AreKept (S.declares sig.now table.now) table.now kept.new }
    ensures spends { SpendsResults table.now kept.old.memo kept.new.memo result }
{
    if table.same(c, d) {
        return Ok(true);
    }
    let Node::TApp(p, a) = table.node(c) else {
        return Ok(false);
    };
    let Node::TApp(q, b) = table.node(d) else {
        return Ok(false);
    };
    kept.step(table, sig)?;
    if gap > 0 {
        return agree_past(table, kept, sig, p, q, gap - 1, rest);
    }
    if !table.same(a, b) {
        return Ok(false);
    }
    agree_on(table, kept, sig, p, q, rest)
}

/// Whether it is found that the two contexts give each variable that the tree uses equal types.
fn is_alike<S: Signature>(
    table: &mut Table,
    kept: &mut Kept,
    sig: &S,
    c: Id,
    d: Id,
    m: Id,
) -> Result<bool, Exhausted>
    requires holds { S.holds sig.now table.old }
    requires c { IsKnown table.old c }
    requires d { IsKnown table.old d }
    requires m { IsKnown table.old m }
    requires kept { AreKept (S.declares sig.now table.old) table.old kept.old }
    ensures part { let types = types_of (tree_at table.old c) in
        let other = types_of (tree_at table.old d) in
        IfOk result (λ b. IsTrue b → IsPart (tree_at table.old m) types other) }
    ensures extends { Extends table.old table.new }
    ensures kept { AreKept (S.declares sig.now table.new) table.new kept.new }
    ensures spends { SpendsResults table.new kept.old.memo kept.new.memo result }
{
    if table.same(c, d) {
        return Ok(true);
    }
    let uses = uses_at(table, kept, sig, m)?;
    agree_on(table, kept, sig, c, d, uses)
}

/// The cached answer to the question on the tree `m`, if it was found in a context that gives each
/// variable that `m` uses the type that `c` does.
pub(crate) fn answer_on<S: Signature>(
    table: &mut Table,
    kept: &mut Kept,
    sig: &S,
    question: &Question,
    c: Id,
    m: Id,
) -> Result<Option<Id>, Exhausted>
    requires holds { S.holds sig.now table.old }
    requires about { subject question.now ≡ m }
    requires c { IsKnown table.old c }
    requires m { IsKnown table.old m }
    requires kept { AreKept (S.declares sig.now table.old) table.old kept.old }
    ensures answer { let declared = S.declares sig.now table.old in
        IfOk result (λ o. IfSome o (IsJudgement declared table.new question.now c)) }
    ensures extends { Extends table.old table.new }
    ensures kept { AreKept (S.declares sig.now table.new) table.new kept.new }
    ensures spends { SpendsResults table.new kept.old.memo kept.new.memo result }
{
    let Some(found) = kept.find(table, sig, question) else {
        return Ok(None);
    };
    if is_alike(table, kept, sig, c, found.context, m)? {
        return Ok(Some(found.answer));
    }
    Ok(None)
}
