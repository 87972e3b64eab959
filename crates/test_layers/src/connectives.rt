//! Proofs of formulas by the kit's rules: of connectives and quantifiers here, of the rest by a
//! lemma or, where there is none, as a relation of words.

use crate::answers::{Made, made};
use crate::nodes::{known, node_of, pair_of, raised};
use crate::relations;
use crate::rules::{Rule, Step, Under};
use lf_sequents::Sequent;
use lf_signature::numbers::{ALL, ALLM, AND, EXP, IMP, MEM, TT};
use lf_signature::pf;
use term_table::{Id, Node, Table};

/// How a formula is proved.
enum Way {
    /// By a rule from a proof of the body, under one more hypothesis of the type.
    Binding(Step, Id, Id),
    /// By a rule from proofs of its parameters.
    Both(Step),
    /// Without a part that is a formula.
    Leaf,
}

/// A quantifier's rule at its function, from a proof of the function's body.
fn quantified(table: &mut Table, rule: Rule, family: u32, function: Id) -> Made<Way> {
    let Node::Lam(body) = node_of(table, function)? else {
        return Err("no function");
    };
    let kind = made(table.intern(Node::Fam(family)))?;
    Ok(Way::Binding(Step::at(rule, function), kind, body))
}

/// The rule of an implication, from a proof of its conclusion.
fn implied(table: &mut Table, a: Id, b: Id) -> Made<Way> {
    known(table, a)?;
    let kind = made(pf(table, a))?;
    let body = raised(table, b, 1)?;
    Ok(Way::Binding(Step::at_both(Rule::ImpI, a, b), kind, body))
}

/// How a formula that joins two is proved.
fn way_of_pair(table: &mut Table, formula: Id) -> Made<Way> {
    let Ok(parts) = pair_of(table, formula) else {
        return Ok(Way::Leaf);
    };
    match parts.constant {
        IMP => implied(table, parts.a, parts.b),
        AND => Ok(Way::Both(Step::at_both(Rule::AndI, parts.a, parts.b))),
        _ => Ok(Way::Leaf),
    }
}

/// How a formula that begins with a constant at a function is proved.
fn way_of_quantifier(table: &mut Table, constant: u32, function: Id) -> Made<Way> {
    match constant {
        ALL => quantified(table, Rule::AllI, EXP, function),
        ALLM => quantified(table, Rule::AllmI, MEM, function),
        _ => Ok(Way::Leaf),
    }
}

/// How the formula is proved.
fn way_of(table: &mut Table, formula: Id) -> Made<Way> {
    let Node::App(head, function) = node_of(table, formula)? else {
        return Ok(Way::Leaf);
    };
    match node_of(table, head)? {
        Node::Const(constant) => way_of_quantifier(table, constant, function),
        _ => way_of_pair(table, formula),
    }
}

/// The formula, which is no connective or quantifier, by lemma 0, or without lemmas as a relation.
fn leaf(table: &mut Table, under: Under<'_>, formula: Id) -> Made<Sequent> {
    if !under.lemmas.is_empty() {
        return under.cited(table, 0, formula);
    }
    if node_of(table, formula)? == Node::Const(TT) {
        return under.by(table, Step::at(Rule::TtI, formula));
    }
    relations::proved(table, under, formula)
}

/// The hypotheses and one more.
fn more(table: &Table, hyps: &[Id], kind: Id) -> Made<Vec<Id>> {
    let mut more = made(hyps.to_vec(table.allocator()))?;
    made(more.push(kind))?;
    Ok(more)
}

/// Proves the formula by the kit's rules.
pub fn proved(table: &mut Table, under: Under<'_>, formula: Id, fuel: u32) -> Made<Sequent> {
    if fuel == 0 {
        return Err("a deep formula");
    }
    match way_of(table, formula)? {
        Way::Binding(step, kind, body) => {
            let hyps = more(table, under.hyps, kind)?;
            let inner = Under {
                lemmas: under.lemmas,
                hyps: hyps.as_slice(),
            };
            let p = proved(table, inner, body, fuel - 1)?;
            under.binding(table, step, &p)
        }
        Way::Both(step) => {
            let p = proved(table, under, step.a, fuel - 1)?;
            let q = proved(table, under, step.b, fuel - 1)?;
            under.from_both(table, step, &p, &q)
        }
        Way::Leaf => leaf(table, under, formula),
    }
}
