//! Applications of a rule that introduces a quantifier, as `all_i`: to an abstraction, and to a
//! proof of its body.
//!
//! What such an application synthesises is made of the ids of the abstraction and of its body. By
//! the rule of applications alone the body would be raised past the later parameters of the rule's
//! type, put in twice and lowered again, and that for each quantifier of a formula.

ghost use Rattle.std.specs.Prelude.{◌≡◌, true, IfSome, IfOk, IsTrue};
ghost use Rattle.term_table.specs.Tree.{Var};
ghost use Rattle.term_table.specs.Table.{IsKnown, tree_at, Extends};
ghost use Rattle.lf_check.specs.Inside.Introductions.{
  is_family,
  is_constant,
  is_on_family,
  premise_type,
  conclusion_type,
  IsIntroductionRule,
  IsRaisable,
  IsRuleApplied,
  IsFitted,
  IsIntroduction,
};
ghost use Rattle.lf_check.specs.Kept.{AreKept};

use crate::judgements::Kept;
use crate::steps::{declared_on, intern_on};
use lf_signature::Signature;
use std::alloc::AllocError;
use term_table::{Id, Node, Table};

/// The parts of the type of a rule: the type of the predicate, the values that it speaks of, the
/// families of the proofs that the rule takes and gives, and the quantifier.
#[derive(Clone, Copy)]
pub(crate) struct Rule {
    domain: Id,
    values: Id,
    taken: Id,
    given: Id,
    quantifier: Id,
}

/// The types that an application requires of its arguments, and the type that it then has.
#[derive(Clone, Copy)]
pub(crate) struct Introduction {
    pub(crate) predicate: Id,
    pub(crate) domain: Id,
    pub(crate) premise: Id,
    pub(crate) conclusion: Id,
}

/// Whether the tree is a family.
fn is_family(table: &Table, id: Id) -> bool
    requires { IsKnown table.now id }
    ensures { result ≡ is_family (tree_at table.now id) }
{
    match table.node(id) {
        Node::Fam(_) => true,
        _ => false,
    }
}

/// Whether the tree is a numbered constant.
fn is_constant(table: &Table, id: Id) -> bool
    requires { IsKnown table.now id }
    ensures { IsTrue result → is_constant (tree_at table.now id) ≡ true }
{
    match table.node(id) {
        Node::Const(_) => true,
        _ => false,
    }
}

/// Whether the tree is the type of functions on a family.
fn is_on_family(table: &Table, id: Id) -> bool
    requires { IsKnown table.now id }
    ensures { result ≡ is_on_family (tree_at table.now id) }
{
    match table.node(id) {
        Node::Pi(from, _) => is_family(table, from),
        _ => false,
    }
}

/// Whether the tree is this variable.
fn is_var(table: &Table, id: Id, n: u32) -> bool
    requires { IsKnown table.now id }
    ensures { IsTrue result → tree_at table.now id ≡ Var n }
{
    match table.node(id) {
        Node::Var(k) => k == n,
        _ => false,
    }
}

/// The type of the values, and the family of the proofs.
fn premise_of(table: &Table, id: Id) -> Option<(Id, Id)>
    requires { IsKnown table.now id }
    ensures { IfSome result (λ r. let t = table.now in IsKnown t r.0 × IsKnown t r.1
        × (tree_at t id ≡ premise_type (tree_at t r.0) (tree_at t r.1))) }
{
    let Node::Pi(values, proofs) = table.node(id) else {
        return None;
    };
    let Node::TApp(family, formula) = table.node(proofs) else {
        return None;
    };
    let Node::App(predicate, value) = table.node(formula) else {
        return None;
    };
    if is_var(table, predicate, 1) && is_var(table, value, 0) {
        return Some((values, family));
    }
    None
}

/// The family of the proofs, and the quantifier.
fn conclusion_of(table: &Table, id: Id) -> Option<(Id, Id)>
    requires { IsKnown table.now id }
    ensures { IfSome result (λ r. let t = table.now in IsKnown t r.0 × IsKnown t r.1
        × (tree_at t id ≡ conclusion_type (tree_at t r.0) (tree_at t r.1))) }
{
    let Node::TApp(family, formula) = table.node(id) else {
        return None;
    };
    let Node::App(quantifier, abstraction) = table.node(formula) else {
        return None;
    };
    let Node::Lam(applied) = table.node(abstraction) else {
        return None;
    };
    let Node::App(predicate, value) = table.node(applied) else {
        return None;
    };
    if is_var(table, predicate, 2) && is_var(table, value, 0) {
        return Some((family, quantifier));
    }
    None
}

/// The parts of the type, if it is that of a rule that introduces a quantifier.
fn rule_of(table: &Table, declared: Id) -> Option<Rule>
    requires { IsKnown table.now declared }
    ensures { IfSome result (IsIntroductionRule table.now (tree_at table.now declared)) }
{
    let Node::Pi(domain, rest) = table.node(declared) else {
        return None;
    };
    let Node::Pi(premise, conclusion) = table.node(rest) else {
        return None;
    };
    let (values, taken) = premise_of(table, premise)?;
    let (given, quantifier) = conclusion_of(table, conclusion)?;
    let are_families = is_family(table, values)
        && is_family(table, taken)
        && is_family(table, given);
    if !are_families || !is_on_family(table, domain) || !is_constant(table, quantifier) {
        return None;
    }
    Some(Rule {
        domain,
        values,
        taken,
        given,
        quantifier,
    })
}

/// Whether the predicate is canonical, and the variables' numbers in both have room.
fn is_ready(table: &Table, m: Id, predicate: Id) -> bool
    requires m { IsKnown table.now m }
    requires predicate { IsKnown table.now predicate }
    ensures { IsTrue result → IsRaisable (tree_at table.now m) (tree_at table.now predicate) }
{
    let reach = table.reach(predicate);
    let high = table.height(predicate);
    let outer = table.reach(m);
    let deep = table.height(m);
    if reach == u32::MAX {
        return false;
    }
    if u64::from(reach) + u64::from(high) + u64::from(high) >= 4_294_967_295 {
        return false;
    }
    if u64::from(outer) + u64::from(deep) + u64::from(high) >= 4_294_967_295 {
        return false;
    }
    true
}

/// The rule that `f` applies to an abstraction, the abstraction, and its body. None if it isn't a
/// rule that introduces a quantifier, or is applied to another term.
fn rule_on<S: Signature>(
    table: &mut Table,
    kept: &Kept,
    sig: &S,
    f: Id,
) -> Result<Option<(Rule, Id, Id)>, AllocError>
    requires holds { S.holds sig.now table.old }
    requires f { IsKnown table.old f }
    requires kept { AreKept (S.declares sig.now table.old) table.old kept.now }
    ensures rule { IfOk result (λ o. IfSome o
        (λ r. IsRuleApplied (S.declares sig.now table.old) table.new f r.0 r.1 r.2)) }
    ensures extends { Extends table.old table.new }
    ensures kept { AreKept (S.declares sig.now table.new) table.new kept.now }
{
    let Node::App(head, predicate) = table.node(f) else {
        return Ok(None);
    };
    let Node::Lam(body) = table.node(predicate) else {
        return Ok(None);
    };
    let Node::Const(constant) = table.node(head) else {
        return Ok(None);
    };
    let Some(declared) = declared_on(table, kept, sig, Node::Const(constant))? else {
        return Ok(None);
    };
    match rule_of(table, declared) {
        None => Ok(None),
        Some(rule) => Ok(Some((rule, predicate, body))),
    }
}

/// The types that the rule requires and gives, with the predicate of that body in it.
fn fitted_on<S: Signature>(
    table: &mut Table,
    kept: &Kept,
    sig: &S,
    rule: &Rule,
    predicate: Id,
    body: Id,
) -> Result<Introduction, AllocError>
    requires holds { S.holds sig.now table.old }
    requires predicate { IsKnown table.old predicate }
    requires body { IsKnown table.old body }
    requires rule { (IsKnown table.old rule.now.values) × (IsKnown table.old rule.now.taken)
        × (IsKnown table.old rule.now.given) × (IsKnown table.old rule.now.quantifier) }
    requires kept { AreKept (S.declares sig.now table.old) table.old kept.now }
    ensures fits { IfOk result (IsFitted table.old table.new rule.now predicate body) }
    ensures extends { Extends table.old table.new }
    ensures kept { AreKept (S.declares sig.now table.new) table.new kept.now }
{
    let shown = intern_on(table, kept, sig, Node::TApp(rule.taken, body))?;
    let premise = intern_on(table, kept, sig, Node::Pi(rule.values, shown))?;
    let said = intern_on(table, kept, sig, Node::App(rule.quantifier, predicate))?;
    let conclusion = intern_on(table, kept, sig, Node::TApp(rule.given, said))?;
    Ok(Introduction {
        predicate,
        domain: rule.domain,
        premise,
        conclusion,
    })
}

/// What the application of `f` to `m` requires and gives, if `f` is a rule that introduces a
/// quantifier, applied to an abstraction.
pub(crate) fn introduction_on<S: Signature>(
    table: &mut Table,
    kept: &Kept,
    sig: &S,
    f: Id,
    m: Id,
) -> Result<Option<Introduction>, AllocError>
    requires holds { S.holds sig.now table.old }
    requires f { IsKnown table.old f }
    requires m { IsKnown table.old m }
    requires kept { AreKept (S.declares sig.now table.old) table.old kept.now }
    ensures introduces { IfOk result (λ o. IfSome o
        (IsIntroduction (S.declares sig.now table.old) table.new f m)) }
    ensures extends { Extends table.old table.new }
    ensures kept { AreKept (S.declares sig.now table.new) table.new kept.now }
{
    let Some((rule, predicate, body)) = rule_on(table, kept, sig, f)? else {
        return Ok(None);
    };
    if !is_ready(table, m, predicate) {
        return Ok(None);
    }
    Ok(Some(fitted_on(table, kept, sig, &rule, predicate, body)?))
}
