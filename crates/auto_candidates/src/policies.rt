//! The formulas of a policy, split into those that invariants may repeat.

ghost use Rattle.std.specs.Prelude.{IfSome};
ghost use Rattle.term_table.specs.Table.{IsKnown, Extends};

use crate::bits::bit;
use lf_encode::{encode_form, machine_context};
use lf_signature::numbers::{RD, WR};
use policy_set::Policy;
use prover_ids::{FormNode, form_node};
use std::alloc::AllocError;
use term_table::{Id, Node, Table};

/// The most parts that a formula is split into.
const MOST_PARTS: usize = 64;

/// What a policy gives to invariants.
#[derive(Drop)]
pub struct PolicyParts {
    /// The conjuncts of precondition and postcondition, and the conclusions of implications.
    pub forms: Vec<Id>,
    // the registers that addresses of rights have
    pub(crate) bases: u32,
    // the registers that the precondition names
    pub(crate) named: u32,
}

/// Returns the id if it is one of the table's.
pub fn known(table: &Table, id: Id) -> Option<Id>
    ensures { IfSome result (IsKnown table.now) }
{
    let index = id.index() as u64;
    if index < table.count() {
        Some(table.id(index))
    } else {
        None
    }
}

/// Adds the conjuncts of a formula to the list, as long as it has at most `MOST_PARTS`.
///
/// Errors: out of memory.
pub fn split(table: &Table, form: Id, parts: &mut Vec<Id>) -> Result<(), AllocError>
    requires { IsKnown table.now form }
{
    match form_node(table, form) {
        FormNode::And(a, b) => {
            split(table, a, parts)?;
            split(table, b, parts)
        }
        _ => {
            if parts.len() < MOST_PARTS {
                parts.push(form)?;
            }
            Ok(())
        }
    }
}

/// The conclusion of the formula, if it is an implication.
fn conclusion_of(table: &Table, form: Id) -> Option<Id>
    ensures { IfSome result (IsKnown table.now) }
{
    match form_node(table, known(table, form)?) {
        FormNode::Imp(_, conclusion) => Some(conclusion),
        _ => None,
    }
}

/// Adds the conclusions of the implications among the first `count` parts.
fn add_conclusions(table: &Table, count: usize, parts: &mut Vec<Id>) -> Result<(), AllocError> {
    for i in 0..count {
        if i < parts.len() {
            if let Some(conclusion) = conclusion_of(table, parts[i]) {
                split(table, conclusion, parts)?;
            }
        }
    }
    Ok(())
}

/// The registers that a term names, under so many binders.
fn registers_in(table: &Table, id: Id, depth: u32) -> u32
    requires { IsKnown table.now id }
{
    match table.node(id) {
        Node::Var(n) => {
            if n >= depth && n - depth < 31 {
                bit(30 - (n - depth))
            } else {
                0
            }
        }
        Node::App(f, a) => registers_in(table, f, depth) | registers_in(table, a, depth),
        Node::Lam(body) => registers_in(table, body, depth.saturating_add(1)),
        _ => 0,
    }
}

/// Whether the term is the constant of a right.
fn is_right(table: &Table, id: Id) -> bool
    requires { IsKnown table.now id }
{
    match table.node(id) {
        Node::Const(constant) => constant == RD || constant == WR,
        _ => false,
    }
}

/// The registers that the addresses of rights in the term name, under so many binders.
fn bases_in(table: &Table, id: Id, depth: u32) -> u32
    requires { IsKnown table.now id }
{
    match table.node(id) {
        Node::App(f, a) => {
            if is_right(table, f) {
                registers_in(table, a, depth)
            } else {
                bases_in(table, f, depth) | bases_in(table, a, depth)
            }
        }
        Node::Lam(body) => bases_in(table, body, depth.saturating_add(1)),
        _ => 0,
    }
}

/// Splits the formulas of the policy, whose terms come to the table.
///
/// Errors: out of memory; each id keeps its tree.
pub fn policy_parts(table: &mut Table, policy: &Policy) -> Result<PolicyParts, AllocError>
    ensures { Extends table.old table.new }
{
    policy.laws(); // tells the prover what the formulas name, and that they aren't high
    let context = machine_context();
    let pre = encode_form(table, policy.pre(), &context)?;
    let post = encode_form(table, policy.post(), &context)?;
    let mut forms = Vec::new(table.allocator());
    split(table, pre, &mut forms)?;
    let count = forms.len();
    add_conclusions(table, count, &mut forms)?;
    split(table, post, &mut forms)?;
    Ok(PolicyParts {
        forms,
        bases: bases_in(table, pre, 0),
        named: registers_in(table, pre, 0),
    })
}
