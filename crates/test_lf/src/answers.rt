//! Answers that calls come to, of which one is want of memory, and numbers among the terms of a
//! question.

ghost use Rattle.term_table.specs.Table.{IsKnown};

use std::alloc::AllocError;
use term_table::{Id, Node, Table};
use test_inputs::faults::{Read, RowFault};
use test_inputs::rows::Answer;

/// The tree that a call makes.
pub(crate) fn made<E: Drop>(answer: Result<Id, E>) -> Answer {
    match answer {
        Ok(tree) => Answer::Tree(tree),
        Err(_) => Answer::Memory,
    }
}

/// The tree that a call finds, if there is one.
pub(crate) fn found(answer: Result<Option<Id>, AllocError>) -> Answer {
    match answer {
        Ok(tree) => Answer::tree(tree),
        Err(_) => Answer::Memory,
    }
}

/// What a call decides.
pub(crate) fn decided<E: Drop>(answer: Result<bool, E>) -> Answer {
    match answer {
        Ok(holds) => Answer::holds(holds),
        Err(_) => Answer::Memory,
    }
}

/// The number of the constant that a term is.
pub(crate) fn constant_number(table: &Table, term: Id) -> Read<u32>
    requires { IsKnown table.now term }
{
    match table.node(term) {
        Node::Const(number) => Ok(number),
        _ => Err(RowFault::Word),
    }
}

/// The word that a term is.
pub(crate) fn word(table: &Table, term: Id) -> Read<u64>
    requires { IsKnown table.now term }
{
    match table.node(term) {
        Node::Lit(word) => Ok(word),
        _ => Err(RowFault::Number),
    }
}

/// The number below 2^32 that a term is.
pub(crate) fn small(table: &Table, term: Id) -> Read<u32>
    requires { IsKnown table.now term }
{
    let number = word(table, term)?;
    match u32::try_from(number) {
        Ok(small) => Ok(small),
        Err(_) => Err(RowFault::Number),
    }
}
