//! Questions on the ids of formulas and expressions.

ghost use Rattle.term_table.specs.Table.{IsKnown};

use crate::answers::{constant_number, made};
use hereditary_subst::{MOST_RESULTS, Memo};
use lf_signature::numbers::{
    ALL, ALLM, AND, EQ, FF, IMP, OR, RD, SEL, SLE, SLT, TT, ULE, ULT, UPD, WR,
};
use prover_ids::{
    Access, ExpNode, FormNode, MemNode, Puts, Sides, exp_node, form_node, literal, mem_node, moved,
    operands, put_word, put_word_exp, raised, reflexive, swapped,
};
use term_table::{Id, Node, Table};
use test_inputs::faults::{Read, RowFault};
use test_inputs::rows::Answer;
use test_inputs::term_text::known;
use word_ops::{Rel, op_constant, op_of_constant};

/// The constant of a relation.
fn relation_constant(rel: Rel) -> u32 {
    match rel {
        Rel::Eq => EQ,
        Rel::Ult => ULT,
        Rel::Ule => ULE,
        Rel::Slt => SLT,
        Rel::Sle => SLE,
    }
}

/// The constant at the head of a formula.
fn form_constant(table: &Table, form: Id) -> u32
    requires { IsKnown table.now form }
{
    match form_node(table, form) {
        FormNode::True => TT,
        FormNode::False => FF,
        FormNode::Relation(rel, _, _) => relation_constant(rel),
        FormNode::Right(Access::Load, _) => RD,
        FormNode::Right(Access::Store, _) => WR,
        FormNode::And(_, _) => AND,
        FormNode::Or(_, _) => OR,
        FormNode::Imp(_, _) => IMP,
        FormNode::All(_) => ALL,
        FormNode::AllMem(_) => ALLM,
    }
}

/// The constant at the head of a formula, as a tree.
pub(crate) fn form_head(table: &mut Table, form: Id) -> Answer
    requires { IsKnown table.old form }
{
    let constant = form_constant(table, form);
    made(table.intern(Node::Const(constant)))
}

/// The head of an expression, as a tree without parts.
pub(crate) fn exp_head(table: &mut Table, exp: Id) -> Answer
    requires { IsKnown table.old exp }
{
    let node = match exp_node(table, exp) {
        ExpNode::Var(number) => Node::Var(number),
        ExpNode::Word(word) => Node::Lit(word),
        ExpNode::Apply(op, _, _) => Node::Const(op_constant(op)),
        ExpNode::Sel(_, _) => Node::Const(SEL),
        ExpNode::Unbound => return Answer::Nothing,
    };
    made(table.intern(node))
}

/// The head of a memory, as a tree without parts.
pub(crate) fn mem_head(table: &mut Table, mem: Id) -> Answer
    requires { IsKnown table.old mem }
{
    let node = match mem_node(table, mem) {
        MemNode::Var(number) => Node::Var(number),
        MemNode::Upd(_, _, _) => Node::Const(UPD),
        MemNode::Unbound => return Answer::Nothing,
    };
    made(table.intern(node))
}

/// The operands of the operator of a constant at an expression.
fn sides(table: &Table, constant: Id, exp: Id) -> Read<Option<Sides>>
    requires constant { IsKnown table.now constant }
    requires exp { IsKnown table.now exp }
{
    match op_of_constant(constant_number(table, constant)?) {
        Some(op) => Ok(operands(table, op, exp)),
        None => Err(RowFault::Word),
    }
}

/// The left operand of the operator of a constant at an expression.
pub(crate) fn left(table: &Table, constant: Id, exp: Id) -> Read<Answer>
    requires constant { IsKnown table.now constant }
    requires exp { IsKnown table.now exp }
{
    match sides(table, constant, exp)? {
        Some(sides) => Ok(Answer::Tree(sides.left)),
        None => Ok(Answer::Nothing),
    }
}

/// The right operand of the operator of a constant at an expression.
pub(crate) fn right(table: &Table, constant: Id, exp: Id) -> Read<Answer>
    requires constant { IsKnown table.now constant }
    requires exp { IsKnown table.now exp }
{
    match sides(table, constant, exp)? {
        Some(sides) => Ok(Answer::Tree(sides.right)),
        None => Ok(Answer::Nothing),
    }
}

/// The word that an expression is.
pub(crate) fn literal_word(table: &Table, exp: Id) -> Answer
    requires { IsKnown table.now exp }
{
    match literal(table, exp) {
        None => Answer::Nothing,
        Some(word) => Answer::Number(word),
    }
}

/// A formula with an expression for variable 0.
pub(crate) fn put(table: &mut Table, body: Id, argument: Id) -> Answer
    requires body { IsKnown table.old body }
    requires argument { IsKnown table.old argument }
{
    let mut memo = Memo::new(table.allocator(), MOST_RESULTS);
    let mut kept = Puts::new(table.allocator());
    made(put_word(table, &mut memo, &mut kept, body, argument))
}

/// An expression with an expression for variable 0.
pub(crate) fn put_exp(table: &mut Table, body: Id, argument: Id) -> Answer
    requires body { IsKnown table.old body }
    requires argument { IsKnown table.old argument }
{
    let mut memo = Memo::new(table.allocator(), MOST_RESULTS);
    let mut kept = Puts::new(table.allocator());
    made(put_word_exp(table, &mut memo, &mut kept, body, argument))
}

/// A tree under one binder more.
pub(crate) fn raise(table: &mut Table, tree: Id) -> Answer
    requires { IsKnown table.old tree }
{
    let mut memo = Memo::new(table.allocator(), MOST_RESULTS);
    made(raised(table, &mut memo, tree))
}

/// The proof of a formula at b, by those that a is b and of the formula at a.
pub(crate) fn move_proof(
    table: &mut Table,
    form: Id,
    a: Id,
    b: Id,
    equal: Id,
    proof: Id,
) -> Read<Answer> {
    known(table, form)?;
    known(table, a)?;
    known(table, b)?;
    known(table, equal)?;
    known(table, proof)?;
    Ok(made(moved(table, form, a, b, equal, proof)))
}

/// The proof that b is a, by one that a is b.
pub(crate) fn swap_proof(table: &mut Table, a: Id, b: Id, equal: Id) -> Answer
    requires a { IsKnown table.old a }
    requires b { IsKnown table.old b }
    requires equal { IsKnown table.old equal }
{
    let mut memo = Memo::new(table.allocator(), MOST_RESULTS);
    made(swapped(table, &mut memo, a, b, equal))
}

/// The proof that a term is itself.
pub(crate) fn reflexive_proof(table: &mut Table, a: Id) -> Answer
    requires { IsKnown table.old a }
{
    made(reflexive(table, a))
}
