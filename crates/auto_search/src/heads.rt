//! Heads: the indices that have an invariant, each with the formulas that it joins.

ghost use Rattle.std.specs.Prelude.{IfOk};
ghost use Rattle.term_table.specs.Table.{IsKnown, Extends};

use auto_candidates::known;
use lf_signature::app2;
use lf_signature::numbers::{AND, TT};
use std::alloc::{AllocError, Global};
use term_table::{Id, Node, Table};

/// An index with the formulas that its invariant joins.
#[derive(Drop)]
pub(crate) struct Head {
    pub(crate) index: u32,
    pub(crate) forms: Vec<Id>,
}

/// The term of truth.
fn truth(table: &mut Table) -> Result<Id, AllocError>
    ensures known { IfOk result (IsKnown table.new) }
    ensures extends { Extends table.old table.new }
{
    table.intern(Node::Const(TT))
}

/// Returns the conjunction of the formulas, the first outermost, leaving out those that the table
/// hasn't; `tt` if there are none.
fn joined(table: &mut Table, forms: &[Id]) -> Result<Id, AllocError>
    ensures known { IfOk result (IsKnown table.new) }
    ensures extends { Extends table.old table.new }
{
    match forms {
        [] => truth(table),
        [only] => match known(table, *only) {
            Some(form) => Ok(form),
            None => truth(table),
        },
        [first, rest @ ..] => {
            let others = joined(table, rest)?;
            match known(table, *first) {
                Some(form) => app2(table, AND, form, others),
                None => Ok(others),
            }
        }
    }
}

/// Returns the invariants of the heads.
pub(crate) fn invariants(
    alloc: Global,
    table: &mut Table,
    heads: &[Head],
) -> Result<Vec<(u32, Id)>, AllocError> {
    let mut invs = Vec::new(alloc);
    for head in heads {
        let form = joined(table, &head.forms)?;
        invs.push((head.index, form))?;
    }
    Ok(invs)
}

/// Whether the formula is among these.
fn has_form(forms: &[Id], form: Id) -> bool {
    for i in 0..forms.len() {
        if forms[i] == form {
            return true;
        }
    }
    false
}

/// Adds the formulas to those of a head, but for those that are there.
fn add_forms(forms: &mut Vec<Id>, more: &[Id]) -> Result<(), AllocError> {
    for i in 0..more.len() {
        if !has_form(forms, more[i]) {
            forms.push(more[i])?;
        }
    }
    Ok(())
}

/// Where a head at the index goes among those that are there; None if there is one.
fn place_of(heads: &[Head], index: u32) -> Option<usize> {
    for i in 0..heads.len() {
        if heads[i].index == index {
            return None;
        }
        if heads[i].index > index {
            return Some(i);
        }
    }
    Some(heads.len())
}

/// Adds a head without formulas in its place, unless there is one at the index.
pub(crate) fn add_head(alloc: Global, heads: &mut Vec<Head>, index: u32) -> Result<(), AllocError> {
    if let Some(place) = place_of(heads, index) {
        if place <= heads.len() {
            let head = Head {
                index,
                forms: Vec::new(alloc),
            };
            heads.insert(place, head)?;
        }
    }
    Ok(())
}

/// Copies formulas.
fn forms_copied(alloc: Global, forms: &[Id]) -> Result<Vec<Id>, AllocError> {
    let mut copies = Vec::new(alloc);
    copies.extend_from_slice(forms)?;
    Ok(copies)
}

/// Copies heads.
pub(crate) fn copied_heads(alloc: Global, heads: &[Head]) -> Result<Vec<Head>, AllocError> {
    with_groups(alloc, heads, &[], 0)
}

/// Copies heads, and adds to each the formulas of its group with this number.
pub(crate) fn with_groups(
    alloc: Global,
    heads: &[Head],
    groups: &[Vec<Vec<Id>>],
    number: usize,
) -> Result<Vec<Head>, AllocError> {
    let mut more = Vec::new(alloc);
    for i in 0..heads.len() {
        let mut forms = forms_copied(alloc, &heads[i].forms)?;
        if i < groups.len() && number < groups[i].len() {
            add_forms(&mut forms, &groups[i][number])?;
        }
        more.push(Head {
            index: heads[i].index,
            forms,
        })?;
    }
    Ok(more)
}

/// Copies the heads but the one at this place.
pub(crate) fn without_head(
    alloc: Global,
    heads: &[Head],
    place: usize,
) -> Result<Vec<Head>, AllocError> {
    let mut kept = Vec::new(alloc);
    for i in 0..heads.len() {
        if i != place {
            kept.push(Head {
                index: heads[i].index,
                forms: forms_copied(alloc, &heads[i].forms)?,
            })?;
        }
    }
    Ok(kept)
}
