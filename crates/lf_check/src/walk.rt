//! Checks terms against types and synthesises types. A judgement found in one context also holds in
//! each context that gives the variables that the term uses equal types.

ghost use Rattle.std.specs.Prelude.{◌≡◌, true, false, ◌<◌, ◌≤◌, ◌+◌, ◌^◌, IfOk, IsTrue};
ghost use Rattle.term_table.specs.Tree.{at, App, Lam, Pi};
ghost use Rattle.term_table.specs.Table.{IsKnown, AllKnown, tree_at, Extends, Stands};
ghost use Rattle.lf_signature.specs.Decide.{is_atomic, var_rule};
ghost use Rattle.lf_check.specs.Inside.Introductions.{IsIntroduction};
ghost use Rattle.lf_check.specs.Lists.{types_of};
ghost use Rattle.hereditary_subst.specs.Limits.{SpendsResults};
ghost use Rattle.lf_check.specs.Kept.{AreKept, synth_in, checks_in};

use crate::contexts::{answer_on, type_at};
use crate::introductions::{Introduction, introduction_on};
use crate::judgements::{Kept, Question, number};
use crate::steps::{declared_on, intern_on, subst_on, weaken_on};
use hereditary_subst::Exhausted;
use lf_signature::Signature;
use term_table::{Id, Node, Table};

/// Whether a type is a family with arguments.
fn is_atomic_type(table: &Table, a: Id) -> bool
    requires { IsKnown table.now a }
    ensures { result ≡ is_atomic (tree_at table.now a) }
{
    match table.node(a) {
        Node::Fam(_) => true,
        Node::TApp(p, _) => is_atomic_type(table, p),
        _ => false,
    }
}

/// A variable's type, shifted into the whole context.
fn var_type<S: Signature>(
    table: &mut Table,
    kept: &mut Kept,
    sig: &S,
    c: Id,
    n: u32,
) -> Result<Option<Id>, Exhausted>
    requires holds { S.holds sig.now table.old }
    requires known { IsKnown table.old c }
    requires kept { AreKept (S.declares sig.now table.old) table.old kept.old }
    ensures tree { IfOk result
        (Stands table.new (var_rule n (at (types_of (tree_at table.old c)) n))) }
    ensures extends { Extends table.old table.new }
    ensures kept { AreKept (S.declares sig.now table.new) table.new kept.new }
    ensures spends { SpendsResults table.new kept.old.memo kept.new.memo result }
{
    match type_at(table, kept, sig, c, u64::from(n))? {
        None => Ok(None),
        Some(a) => weaken_on(table, kept, sig, a, u64::from(n) + 1),
    }
}

/// Whether the term m checks at the type a.
#[cycle(check)]
pub(crate) fn check_at<S: Signature>(
    table: &mut Table,
    kept: &mut Kept,
    sig: &S,
    c: Id,
    m: Id,
    a: Id,
) -> Result<bool, Exhausted>
    requires holds { S.holds sig.now table.old }
    requires c { IsKnown table.old c }
    requires m { IsKnown table.old m }
    requires a { IsKnown table.old a }
    requires kept { AreKept (S.declares sig.now table.old) table.old kept.old }
    ensures answer { IfOk result
        (λ b. b ≡ checks_in (S.declares sig.now table.old) table.old c m a) }
    ensures extends { Extends table.old table.new }
    ensures kept { AreKept (S.declares sig.now table.new) table.new kept.new }
    ensures spends { SpendsResults table.new kept.old.memo kept.new.memo result }
{
    if let Node::Lam(body) = table.node(m) {
        let Node::Pi(from, to) = table.node(a) else {
            return Ok(false);
        };
        return under_at(table, kept, sig, c, m, a, body, from, to);
    }
    match synth_at(table, kept, sig, c, m)? {
        None => Ok(false),
        Some(p) => Ok(is_atomic_type(table, a) && table.same(p, a)),
    }
}

/// Whether the abstraction m of the body checks at the product a.
#[cycle(check)]
fn under_at<S: Signature>(
    table: &mut Table,
    kept: &mut Kept,
    sig: &S,
    c: Id,
    m: Id,
    a: Id,
    body: Id,
    from: Id,
    to: Id,
) -> Result<bool, Exhausted>
    requires holds { S.holds sig.now table.old }
    requires c { IsKnown table.old c }
    requires m { IsKnown table.old m }
    requires a { IsKnown table.old a }
    requires parts { (body < m) × (from < a) × (to < a) }
    requires lam { Lam (tree_at table.old body) ≡ tree_at table.old m }
    requires pi { Pi (tree_at table.old from) (tree_at table.old to) ≡ tree_at table.old a }
    requires kept { AreKept (S.declares sig.now table.old) table.old kept.old }
    ensures answer { IfOk result
        (λ b. b ≡ checks_in (S.declares sig.now table.old) table.old c m a) }
    ensures extends { Extends table.old table.new }
    ensures kept { AreKept (S.declares sig.now table.new) table.new kept.new }
    ensures spends { SpendsResults table.new kept.old.memo kept.new.memo result }
{
    let question = Question::Under(number(m), number(a));
    if let Some(_) = answer_on(table, kept, sig, &question, c, m)? {
        return Ok(true);
    }
    let inner = intern_on(table, kept, sig, Node::TApp(c, from))?;
    let answer = check_at(table, kept, sig, inner, body, to)?;
    if answer {
        kept.keep(table, sig, question, c, m)?;
    }
    Ok(answer)
}

/// The type that the atomic term r synthesises.
#[cycle(check)]
pub(crate) fn synth_at<S: Signature>(
    table: &mut Table,
    kept: &mut Kept,
    sig: &S,
    c: Id,
    r: Id,
) -> Result<Option<Id>, Exhausted>
    requires holds { S.holds sig.now table.old }
    requires c { IsKnown table.old c }
    requires r { IsKnown table.old r }
    requires kept { AreKept (S.declares sig.now table.old) table.old kept.old }
    ensures tree { IfOk result
        (Stands table.new (synth_in (S.declares sig.now table.old) table.old c r)) }
    ensures extends { Extends table.old table.new }
    ensures kept { AreKept (S.declares sig.now table.new) table.new kept.new }
    ensures spends { SpendsResults table.new kept.old.memo kept.new.memo result }
{
    match table.node(r) {
        Node::Var(n) => var_type(table, kept, sig, c, n),
        Node::App(f, m) => {
            let question = Question::Synth(number(r));
            if let Some(p) = answer_on(table, kept, sig, &question, c, r)? {
                return Ok(Some(p));
            }
            let Some(p) = application_at(table, kept, sig, c, r, f, m)? else {
                return Ok(None);
            };
            kept.keep(table, sig, question, c, p)?;
            Ok(Some(p))
        }
        Node::Const(n) => {
            let question = Question::Synth(number(r));
            if let Some(p) = answer_on(table, kept, sig, &question, c, r)? {
                return Ok(Some(p));
            }
            let Some(p) = declared_on(table, kept, sig, Node::Const(n))? else {
                return Ok(None);
            };
            kept.keep(table, sig, question, c, p)?;
            Ok(Some(p))
        }
        _ => {
            let node = table.node(r);
            Ok(declared_on(table, kept, sig, node)?)
        }
    }
}

/// The type that the application r of f to m synthesises.
#[cycle(check)]
fn application_at<S: Signature>(
    table: &mut Table,
    kept: &mut Kept,
    sig: &S,
    c: Id,
    r: Id,
    f: Id,
    m: Id,
) -> Result<Option<Id>, Exhausted>
    requires holds { S.holds sig.now table.old }
    requires c { IsKnown table.old c }
    requires r { IsKnown table.old r }
    requires parts { (f < r) × (m < r) }
    requires is { App (tree_at table.old f) (tree_at table.old m) ≡ tree_at table.old r }
    requires kept { AreKept (S.declares sig.now table.old) table.old kept.old }
    ensures tree { IfOk result
        (Stands table.new (synth_in (S.declares sig.now table.old) table.old c r)) }
    ensures extends { Extends table.old table.new }
    ensures kept { AreKept (S.declares sig.now table.new) table.new kept.new }
    ensures spends { SpendsResults table.new kept.old.memo kept.new.memo result }
{
    match introduction_on(table, kept, sig, f, m)? {
        Some(i) => introduced_at(table, kept, sig, c, r, f, m, &i),
        None => applied_at(table, kept, sig, c, r, f, m),
    }
}

/// Synthesises the type of an application, by the type that `f` synthesises.
#[cycle(check)]
fn applied_at<S: Signature>(
    table: &mut Table,
    kept: &mut Kept,
    sig: &S,
    c: Id,
    r: Id,
    f: Id,
    m: Id,
) -> Result<Option<Id>, Exhausted>
    requires holds { S.holds sig.now table.old }
    requires c { IsKnown table.old c }
    requires r { IsKnown table.old r }
    requires parts { (f < r) × (m < r) }
    requires is { App (tree_at table.old f) (tree_at table.old m) ≡ tree_at table.old r }
    requires kept { AreKept (S.declares sig.now table.old) table.old kept.old }
    ensures tree { IfOk result
        (Stands table.new (synth_in (S.declares sig.now table.old) table.old c r)) }
    ensures extends { Extends table.old table.new }
    ensures kept { AreKept (S.declares sig.now table.new) table.new kept.new }
    ensures spends { SpendsResults table.new kept.old.memo kept.new.memo result }
{
    let Some(p) = synth_at(table, kept, sig, c, f)? else {
        return Ok(None);
    };
    let Node::Pi(from, to) = table.node(p) else {
        return Ok(None);
    };
    if !check_at(table, kept, sig, c, m, from)? {
        return Ok(None);
    }
    subst_on(table, kept, sig, to, m, from)
}

/// Synthesises the type of an application whose `f` is a rule that introduces a quantifier.
#[cycle(check)]
fn introduced_at<S: Signature>(
    table: &mut Table,
    kept: &mut Kept,
    sig: &S,
    c: Id,
    r: Id,
    f: Id,
    m: Id,
    i: &Introduction,
) -> Result<Option<Id>, Exhausted>
    requires holds { S.holds sig.now table.old }
    requires c { IsKnown table.old c }
    requires r { IsKnown table.old r }
    requires parts { (f < r) × (m < r) }
    requires is { App (tree_at table.old f) (tree_at table.old m) ≡ tree_at table.old r }
    requires introduces { IsIntroduction (S.declares sig.now table.old) table.old f m i.now }
    requires kept { AreKept (S.declares sig.now table.old) table.old kept.old }
    ensures tree { IfOk result
        (Stands table.new (synth_in (S.declares sig.now table.old) table.old c r)) }
    ensures extends { Extends table.old table.new }
    ensures kept { AreKept (S.declares sig.now table.new) table.new kept.new }
    ensures spends { SpendsResults table.new kept.old.memo kept.new.memo result }
{
    if !check_at(table, kept, sig, c, i.predicate, i.domain)? {
        return Ok(None);
    }
    if !check_at(table, kept, sig, c, m, i.premise)? {
        return Ok(None);
    }
    Ok(Some(i.conclusion))
}
