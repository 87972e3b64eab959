//! Questions on the encodings of formulas.

ghost use Rattle.std.specs.Prelude.{◌<◌, ◌^◌, OnOk};
ghost use Rattle.term_table.specs.Table.{IsKnown, tree_at};
ghost use Rattle.term_table.specs.Measures.{height_of};
ghost use Rattle.lf_signature.specs.Nodes.{IsIdOf};
ghost use Rattle.lf_signature.specs.Terms.{lit};

use crate::answers::{constant_number, decided, made};
use formula_tree::{Exp, Form};
use hereditary_subst::{Exhausted, Memo};
use lf_encode::{MachineIds, PutMemo, form_of, is_form, is_put_with, put, quantified};
use lf_signature::{Sigma1, rel_number};
use std::alloc::AllocError;
use term_table::{Id, Node, Table};
use test_inputs::faults::{Read, RowFault};
use test_inputs::rows::Answer;
use test_inputs::term_text::known;
use word_ops::op_number;

/// The word that an expression is.
fn word_of(exp: &Exp) -> Option<u64> {
    match exp {
        Exp::Lit(word) => Some(*word),
        _ => None,
    }
}

/// What a question asks of a formula.
#[derive(Clone, Copy)]
pub(crate) enum Asked {
    Relation,
    Operator,
    Height,
}

/// What a formula shows, a relation or an operator by its number and two words.
#[derive(Clone, Copy)]
enum Part {
    Relation(u32, u64, u64),
    Operator(u32, u64, u64),
    Height(u32),
}

/// The relation of two words that a formula is.
fn relation(form: &Form) -> Option<Part> {
    match form {
        Form::Rel(rel, a, b) => Some(Part::Relation(rel_number(*rel), word_of(a)?, word_of(b)?)),
        _ => None,
    }
}

/// The operator at two words whose right to be loaded a formula is.
fn operator(form: &Form) -> Option<Part> {
    match form {
        Form::Rd(Exp::Oper(op, a, b)) => {
            Some(Part::Operator(op_number(*op), word_of(a)?, word_of(b)?))
        }
        _ => None,
    }
}

/// What a formula shows of what is asked.
fn part_of(form: &Form, asked: Asked) -> Option<Part> {
    match asked {
        Asked::Relation => relation(form),
        Asked::Operator => operator(form),
        Asked::Height => Some(Part::Height(form.height())),
    }
}

/// What the formula that a term encodes shows of what is asked.
fn formula_part(table: &mut Table, term: Id, asked: Asked) -> Read<Option<Part>>
    requires { IsKnown table.old term }
{
    match form_of(table, &Sigma1, term, &[])? {
        Some(form) => Ok(part_of(&form, asked)),
        None => Ok(None),
    }
}

/// What is asked of the formula that a term encodes: a relation is answered as a fact, an operator as
/// an evaluation.
pub(crate) fn about_formula(table: &mut Table, term: Id, asked: Asked) -> Read<Answer>
    requires { IsKnown table.old term }
{
    match formula_part(table, term, asked)? {
        None => Ok(Answer::Nothing),
        Some(Part::Height(height)) => Ok(Answer::Number(u64::from(height))),
        Some(Part::Relation(rel, a, b)) => Ok(made(table.intern(Node::Fact(rel, a, b)))),
        Some(Part::Operator(op, a, b)) => Ok(made(table.intern(Node::Calc(op, a, b)))),
    }
}

/// Whether a term encodes a formula.
pub(crate) fn encodes(table: &mut Table, term: Id) -> Answer
    requires { IsKnown table.old term }
{
    decided(is_form(table, &Sigma1, term, &[]))
}

/// The quantifier of a constant over a term.
pub(crate) fn bound(table: &mut Table, constant: Id, body: Id) -> Read<Answer>
    requires constant { IsKnown table.old constant }
    requires body { IsKnown table.old body }
{
    let number = constant_number(table, constant)?;
    Ok(made(quantified(table, number, body)))
}

/// Tests that a tree is one of the table, and less than 1,000 high.
fn low(table: &Table, id: Id) -> Read<()>
    ensures known { OnOk result (IsKnown table.now id) }
    ensures low { OnOk result (height_of (tree_at table.now id) < 2 ^ 31) }
{
    known(table, id)?;
    if table.height(id) < 1_000 {
        Ok(())
    } else {
        Err(RowFault::Number)
    }
}

/// The term with the word for each of the machine's variables.
fn put_word(table: &mut Table, id: Id, word: Id) -> Result<Id, AllocError>
    requires known { IsKnown table.old id }
    requires word { IsIdOf table.old (lit 5) word }
    requires low { height_of (tree_at table.old id) < 2 ^ 31 }
{
    let ids = MachineIds {
        regs: [word; 31],
        memory: word,
        left: word,
    };
    put(table, id, &ids)
}

/// A term with 5 for each of the machine's variables.
pub(crate) fn put_five(table: &mut Table, id: Id) -> Read<Answer> {
    let five = table.intern(Node::Lit(5))?;
    low(table, id)?;
    Ok(made(put_word(table, id, five)))
}

/// Whether `goal` is the term of `id` with the word for each of the machine's variables.
fn is_put_word(table: &mut Table, id: Id, word: Id, goal: Id) -> Result<bool, Exhausted>
    requires known { IsKnown table.old id }
    requires word { IsIdOf table.old (lit 5) word }
    requires goal { IsKnown table.old goal }
    requires low { height_of (tree_at table.old id) < 2 ^ 31 }
{
    let ids = MachineIds {
        regs: [word; 31],
        memory: word,
        left: word,
    };
    let mut shifts = Memo::new(table.allocator(), 1_000);
    let mut kept = PutMemo::new(table.allocator());
    is_put_with(table, &mut shifts, &mut kept, id, &ids, goal)
}

/// Whether the second term is the first with 5 for each of the machine's variables.
pub(crate) fn is_five_put(table: &mut Table, id: Id, goal: Id) -> Read<Answer> {
    let five = table.intern(Node::Lit(5))?;
    low(table, id)?;
    known(table, goal)?;
    Ok(decided(is_put_word(table, id, five, goal)))
}
