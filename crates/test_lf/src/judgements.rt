//! Questions on what checks at which type.

ghost use Rattle.term_table.specs.Table.{IsKnown};

use crate::answers::{decided, found};
use lf_check::{Kept, check_term, check_term_with, check_type, check_type_with, synth, synth_with};
use lf_signature::{Sigma1, Signature};
use std::alloc::Global;
use term_table::{Id, Table};
use test_inputs::cursors::Cursor;
use test_inputs::faults::{Read, RowFault};
use test_inputs::names::Names;
use test_inputs::rows::Answer;
use test_inputs::term_text::{all_known, known, read_tree, read_trees, small_number};

/// The types before the next `|-`.
pub(crate) fn context(table: &mut Table, names: &Names, cursor: &mut Cursor<'_>) -> Read<Vec<Id>> {
    let types = read_trees(table, names, cursor)?;
    if cursor.passes(b"|-") {
        Ok(types)
    } else {
        Err(RowFault::Word)
    }
}

/// A term, `:` and a type.
fn term_and_type(table: &mut Table, names: &Names, cursor: &mut Cursor<'_>) -> Read<(Id, Id)> {
    let term = read_tree(table, names, cursor)?;
    if !cursor.passes(b":") {
        return Err(RowFault::Word);
    }
    let ty = read_tree(table, names, cursor)?;
    Ok((term, ty))
}

/// Whether a term checks at a type in a context.
fn checked(table: &mut Table, types: &[Id], claim: (Id, Id)) -> Read<Answer> {
    let (term, ty) = claim;
    known(table, term)?;
    known(table, ty)?;
    all_known(table, types)?;
    let alloc = table.allocator();
    Ok(decided(check_term(alloc, table, &Sigma1, types, term, ty)))
}

/// Whether the term that the cursor stands before checks at the type behind it, in the context in
/// front of it.
pub(crate) fn checks(table: &mut Table, names: &Names, cursor: &mut Cursor<'_>) -> Read<Answer> {
    let types = context(table, names, cursor)?;
    let claim = term_and_type(table, names, cursor)?;
    checked(table, types.as_slice(), claim)
}

/// What a term synthesises in a context.
fn synthesised(table: &mut Table, types: &[Id], term: Id) -> Read<Answer> {
    known(table, term)?;
    all_known(table, types)?;
    let alloc = table.allocator();
    Ok(found(synth(alloc, table, &Sigma1, types, term)))
}

/// What the term behind a context synthesises in it.
pub(crate) fn synthesises(
    table: &mut Table,
    names: &Names,
    cursor: &mut Cursor<'_>,
) -> Read<Answer> {
    let types = context(table, names, cursor)?;
    let term = read_tree(table, names, cursor)?;
    synthesised(table, types.as_slice(), term)
}

/// Whether a type is one in a context.
fn formed_in(table: &mut Table, types: &[Id], ty: Id) -> Read<Answer> {
    known(table, ty)?;
    all_known(table, types)?;
    let alloc = table.allocator();
    Ok(decided(check_type(alloc, table, &Sigma1, types, ty)))
}

/// Whether the type behind a context is one in it.
pub(crate) fn is_type(table: &mut Table, names: &Names, cursor: &mut Cursor<'_>) -> Read<Answer> {
    let types = context(table, names, cursor)?;
    let ty = read_tree(table, names, cursor)?;
    formed_in(table, types.as_slice(), ty)
}

/// Whether the type that the signature gives a constant is one.
pub(crate) fn formed(table: &mut Table, constant: Id) -> Answer
    requires { IsKnown table.old constant }
{
    let node = table.node(constant);
    let alloc = table.allocator();
    match Sigma1.type_of(table, node) {
        Err(_) => Answer::Memory,
        Ok(None) => Answer::Nothing,
        Ok(Some(ty)) => decided(check_type(alloc, table, &Sigma1, &[], ty)),
    }
}

/// Whether a type is one, and a term synthesises it and checks at it, keeping up to so many results.
fn judged(
    alloc: Global,
    table: &mut Table,
    limit: usize,
    types: &[Id],
    claim: (Id, Id),
) -> Read<Answer> {
    let (term, ty) = claim;
    known(table, term)?;
    known(table, ty)?;
    all_known(table, types)?;
    let mut kept = Kept::new(alloc, limit);
    let Ok(formed) = check_type_with(table, &mut kept, &Sigma1, types, ty) else {
        return Ok(Answer::Memory);
    };
    all_known(table, types)?;
    let Ok(found) = synth_with(table, &mut kept, &Sigma1, types, term) else {
        return Ok(Answer::Memory);
    };
    all_known(table, types)?;
    let Ok(checked) = check_term_with(table, &mut kept, &Sigma1, types, term, ty) else {
        return Ok(Answer::Memory);
    };
    match found {
        None => Ok(Answer::No),
        Some(found) => Ok(Answer::holds(formed && checked && found.index() == ty.index())),
    }
}

/// Whether the type behind a limit, a context and a term is one, and the term synthesises it and
/// checks at it.
pub(crate) fn judges(table: &mut Table, names: &Names, cursor: &mut Cursor<'_>) -> Read<Answer> {
    let limit = small_number(cursor)?;
    let types = context(table, names, cursor)?;
    let claim = term_and_type(table, names, cursor)?;
    judged(
        table.allocator(),
        table,
        limit as usize,
        types.as_slice(),
        claim,
    )
}
