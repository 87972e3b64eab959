//! The head of an expression or a memory.

ghost use Rattle.std.specs.Prelude.{◌≡◌, ◌<◌, IfSome};
ghost use Rattle.term_table.specs.Table.{IsKnown, tree_at};
ghost use Rattle.formula_tree.specs.Formulas.{Exp, MemExp};
ghost use Rattle.lf_terms.specs.Encoding.{exp_encoding, mem_encoding};
ghost use Rattle.prover_ids.specs.Nodes.{IsExpNode, AreExpPartsBelow, IsMemNode, AreMemPartsBelow};
ghost use Rattle.prover_ids.specs.Operands.{AreOperands, IsLiteral};
ghost use Rattle.prover_ids.specs.Inside.Heads.{applied_node};

use term_table::{Id, Node, Table};
use word_ops::{Op, op_of_constant};

/// An expression's head, with its parts as ids.
#[derive(Clone, Copy)]
pub enum ExpNode {
    /// A variable; 0 is the nearest binder's.
    Var(u32),
    /// A word (literal).
    Word(u64),
    /// An operator applied to two expressions.
    Apply(Op, Id, Id),
    /// The word of a memory at an address: the memory, the address.
    Sel(Id, Id),
    /// A register, or the remaining steps, for which no variable is substituted yet.
    Unbound,
}

/// A memory's head, with its parts as ids.
#[derive(Clone, Copy)]
pub enum MemNode {
    /// A variable; 0 is the nearest binder's.
    Var(u32),
    /// A memory after a store of a word: the memory before, the address, the word.
    Upd(Id, Id, Id),
    /// The machine's memory, for which no variable is substituted yet.
    Unbound,
}

/// A constant at two expressions, or at a memory and an expression.
fn applied(constant: u32, a: Id, b: Id) -> ExpNode
    ensures { result ≡ applied_node constant a b }
{
    match op_of_constant(constant) {
        Some(op) => ExpNode::Apply(op, a, b),
        None => ExpNode::Sel(a, b),
    }
}

/// Returns the head of the expression that `id` encodes. If `id` encodes no expression, the result
/// says only that the parts' ids are lower.
pub fn exp_node(table: &Table, id: Id) -> ExpNode
    requires { IsKnown table.now id }
    ensures is { (e : Exp) → tree_at table.now id ≡ exp_encoding e → IsExpNode table.now e result }
    ensures below { AreExpPartsBelow id result }
{
    match table.node(id) {
        Node::Var(n) => ExpNode::Var(n),
        Node::Lit(word) => ExpNode::Word(word),
        Node::App(f, b) => match table.node(f) {
            Node::App(g, a) => match table.node(g) {
                Node::Const(constant) => applied(constant, a, b),
                _ => ExpNode::Unbound,
            },
            _ => ExpNode::Unbound,
        },
        _ => ExpNode::Unbound,
    }
}

/// Returns the head of the memory that `id` encodes. If `id` encodes no memory, the result says
/// only that the parts' ids are lower.
pub fn mem_node(table: &Table, id: Id) -> MemNode
    requires { IsKnown table.now id }
    ensures is { (m : MemExp) → tree_at table.now id ≡ mem_encoding m
        → IsMemNode table.now m result }
    ensures below { AreMemPartsBelow id result }
{
    match table.node(id) {
        Node::Var(n) => MemNode::Var(n),
        Node::App(f, v) => match table.node(f) {
            Node::App(g, a) => match table.node(g) {
                Node::App(_, m) => MemNode::Upd(m, a, v),
                _ => MemNode::Unbound,
            },
            _ => MemNode::Unbound,
        },
        _ => MemNode::Unbound,
    }
}

/// The two operands of an operator.
#[derive(Clone, Copy)]
pub struct Sides {
    /// The first operand.
    pub left: Id,
    /// The second operand.
    pub right: Id,
}

/// Returns the operands of the expression that `id` encodes if its head is the operator `op`, else
/// None. If `id` encodes no expression, the result says only that the operands' ids are lower.
pub fn operands(table: &Table, op: Op, id: Id) -> Option<Sides>
    requires { IsKnown table.now id }
    ensures is { (e : Exp) → tree_at table.now id ≡ exp_encoding e
        → AreOperands table.now e op result }
    ensures below { IfSome result (λ p. (p.left < id) × (p.right < id)) }
{
    match exp_node(table, id) {
        ExpNode::Apply(other, left, right) => {
            if other == op {
                Some(Sides { left, right })
            } else {
                None
            }
        }
        _ => None,
    }
}

/// Returns the word that the expression encoded by `id` is, else None.
pub fn literal(table: &Table, id: Id) -> Option<u64>
    requires { IsKnown table.now id }
    ensures { (e : Exp) → tree_at table.now id ≡ exp_encoding e → IsLiteral e result }
{
    match exp_node(table, id) {
        ExpNode::Word(word) => Some(word),
        _ => None,
    }
}
