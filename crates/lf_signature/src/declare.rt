//! The declared types of the signature of word arithmetic.

ghost use Rattle.std.specs.Prelude.{◌≡◌, IfOk};
ghost use Rattle.term_table.specs.Table.{Extends, Stands};
ghost use Rattle.term_table.specs.Tree.{Num, Lit, Calc, Fact, Deny};
ghost use Rattle.lf_signature.specs.Terms.{lit, rel_term, form};
ghost use Rattle.lf_signature.specs.Nodes.{IsIdOf, type_at};
ghost use Rattle.lf_signature.specs.Constants.{Longest, type_in, declared};

use crate::WordSignature;
use crate::build::{constant_id, rule_id};
use crate::numbers::{EXP, FF, IMP, rel_constant, rel_of};
use crate::tables::{Place, constant_in, place_of, rule_in};
use crate::terms::{app2, pf};
use std::alloc::AllocError;
use term_table::{Id, Node, Table};
use word_ops::{Rel, apply, holds, op_constant};

/// The type of the constant at a place.
fn placed(table: &mut Table, place: Place) -> Result<Option<Id>, AllocError>
    ensures tree { IfOk result (Stands table.new (type_in place)) }
    ensures extends { Extends table.old table.new }
{
    match place {
        Place::Made(index) => match constant_in(index) {
            Some(constant) => Ok(Some(constant_id(table, constant)?)),
            None => Ok(None),
        },
        Place::ByRule(index) => match rule_in(index) {
            Some(rule) => Ok(Some(rule_id(table, rule)?)),
            None => Ok(None),
        },
    }
}

/// The type of a numbered constant.
fn numbered(
    table: &mut Table,
    signature: WordSignature,
    number: u32,
) -> Result<Option<Id>, AllocError>
    ensures tree { IfOk result (Stands table.new (declared signature (Num number))) }
    ensures extends { Extends table.old table.new }
{
    if number >= signature.count() {
        return Ok(None);
    }
    placed(table, place_of(number))
}

/// A relation of two words.
fn relation(table: &mut Table, rel: Rel, a: u64, b: u64) -> Result<Id, AllocError>
    ensures id { IfOk result (IsIdOf table.new (rel_term rel (lit a) (lit b))) }
    ensures extends { Extends table.old table.new }
{
    let left = table.intern(Node::Lit(a))?;
    let right = table.intern(Node::Lit(b))?;
    app2(table, rel_constant(rel), left, right)
}

/// The type of the evaluation of an operator at two words.
fn evaluation(
    table: &mut Table,
    signature: WordSignature,
    op: u32,
    a: u64,
    b: u64,
) -> Result<Option<Id>, AllocError>
    ensures tree { IfOk result (Stands table.new (declared signature (Calc op a b))) }
    ensures extends { Extends table.old table.new }
{
    let Some(op) = signature.op(op) else {
        return Ok(None);
    };
    let left = table.intern(Node::Lit(a))?;
    let right = table.intern(Node::Lit(b))?;
    let applied = app2(table, op_constant(op), left, right)?;
    let value = table.intern(Node::Lit(apply(op, a, b)))?;
    let equation = app2(table, rel_constant(Rel::Eq), applied, value)?;
    Ok(Some(pf(table, equation)?))
}

/// The type of the fact that a relation of two words holds.
fn fact(table: &mut Table, rel: u32, a: u64, b: u64) -> Result<Option<Id>, AllocError>
    ensures tree { IfOk result (Stands table.new (declared Longest (Fact rel a b))) }
    ensures extends { Extends table.old table.new }
{
    let Some(rel) = rel_of(rel) else {
        return Ok(None);
    };
    if !holds(rel, a, b) {
        return Ok(None);
    }
    let formula = relation(table, rel, a, b)?;
    Ok(Some(pf(table, formula)?))
}

/// The type of the denial of a relation of two words, which doesn't hold.
fn denial(table: &mut Table, rel: u32, a: u64, b: u64) -> Result<Option<Id>, AllocError>
    ensures tree { IfOk result (Stands table.new (declared Longest (Deny rel a b))) }
    ensures extends { Extends table.old table.new }
{
    let Some(rel) = rel_of(rel) else {
        return Ok(None);
    };
    if holds(rel, a, b) {
        return Ok(None);
    }
    let formula = relation(table, rel, a, b)?;
    let falsity = table.intern(Node::Const(FF))?;
    let denied = app2(table, IMP, formula, falsity)?;
    Ok(Some(pf(table, denied)?))
}

/// Returns the type of `constant` in the signature: None exactly if it has none or the node is no
/// constant.
///
/// Errors: out of memory alone; each id keeps its tree.
pub(crate) fn word_type(
    table: &mut Table,
    signature: WordSignature,
    constant: Node,
) -> Result<Option<Id>, AllocError>
    ensures tree { IfOk result (Stands table.new (type_at (declared signature) constant)) }
    ensures extends { Extends table.old table.new }
{
    match constant {
        Node::Const(number) => numbered(table, signature, number),
        Node::Lit(_) => Ok(Some(table.intern(Node::Fam(EXP))?)),
        Node::Calc(op, a, b) => evaluation(table, signature, op, a, b),
        Node::Fact(rel, a, b) => fact(table, rel, a, b),
        Node::Deny(rel, a, b) => denial(table, rel, a, b),
        _ => Ok(None),
    }
}
