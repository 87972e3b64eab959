//! The head of a formula.

ghost use Rattle.std.specs.Prelude.{◌≡◌};
ghost use Rattle.term_table.specs.Table.{IsKnown, tree_at};
ghost use Rattle.formula_tree.specs.Formulas.{Form};
ghost use Rattle.lf_terms.specs.Encoding.{form_encoding};
ghost use Rattle.prover_ids.specs.Nodes.{IsFormNode, AreFormPartsBelow, AreFormPartsLower};
ghost use Rattle.prover_ids.specs.Inside.Heads.{unary_node, binary_node, IsBody};

use lf_signature::numbers::{ALL, AND, OR, RD, TT, WR};
use lf_signature::rel_of_constant;
use term_table::{Id, Node, Table};
use word_ops::Rel;

/// The kind of a memory access.
#[derive(Clone, Copy)]
pub enum Access {
    /// A load from the address.
    Load,
    /// A store to the address.
    Store,
}

/// A formula's head, with its parts as ids.
#[derive(Clone, Copy)]
pub enum FormNode {
    /// Truth.
    True,
    /// Falsity.
    False,
    /// A relation between two expressions.
    Relation(Rel, Id, Id),
    /// The right to an access at an address: the address is readable or writable.
    Right(Access, Id),
    /// A conjunction of two formulas.
    And(Id, Id),
    /// A disjunction of two formulas.
    Or(Id, Id),
    /// An implication: hypothesis, conclusion.
    Imp(Id, Id),
    /// A universal quantifier over words: the formula under the binder.
    All(Id),
    /// A universal quantifier over memories: the formula under the binder.
    AllMem(Id),
}

/// A constant applied to one argument; `body` is the term under the argument's binder.
fn unary(constant: u32, argument: Id, body: Option<Id>) -> FormNode
    ensures { result ≡ unary_node constant argument body }
{
    if constant == RD {
        return FormNode::Right(Access::Load, argument);
    }
    if constant == WR {
        return FormNode::Right(Access::Store, argument);
    }
    match body {
        None => FormNode::True,
        Some(body) => {
            if constant == ALL {
                FormNode::All(body)
            } else {
                FormNode::AllMem(body)
            }
        }
    }
}

/// A constant at two arguments.
fn binary(constant: u32, a: Id, b: Id) -> FormNode
    ensures { result ≡ binary_node constant a b }
{
    match rel_of_constant(constant) {
        Some(rel) => FormNode::Relation(rel, a, b),
        None => {
            if constant == AND {
                FormNode::And(a, b)
            } else if constant == OR {
                FormNode::Or(a, b)
            } else {
                FormNode::Imp(a, b)
            }
        }
    }
}

/// The term under a binder.
fn body_of(table: &Table, id: Id) -> Option<Id>
    requires { IsKnown table.now id }
    ensures { IsBody table.now id result }
{
    match table.node(id) {
        Node::Lam(body) => Some(body),
        _ => None,
    }
}

/// Returns the head of the formula that `id` encodes. If `id` encodes no formula, the result says
/// only that the parts' ids and heights are lower.
pub fn form_node(table: &Table, id: Id) -> FormNode
    requires { IsKnown table.now id }
    ensures is { (A : Form) → tree_at table.now id ≡ form_encoding A
        → IsFormNode table.now A result }
    ensures below { AreFormPartsBelow id result }
    ensures lower { AreFormPartsLower table.now id result }
{
    match table.node(id) {
        Node::Const(constant) => {
            if constant == TT {
                FormNode::True
            } else {
                FormNode::False
            }
        }
        Node::App(f, b) => match table.node(f) {
            Node::Const(constant) => unary(constant, b, body_of(table, b)),
            Node::App(g, a) => match table.node(g) {
                Node::Const(constant) => binary(constant, a, b),
                _ => FormNode::True,
            },
            _ => FormNode::True,
        },
        _ => FormNode::True,
    }
}
