//! A source beside whose lines a container is listed.

ghost use Rattle.std.specs.Prelude.{◌≡◌, ◌≤◌, ◌++◌, length, map, option_and_then};
ghost use Rattle.std.specs.Prelude.{IfOk, OnOk, Some, ◌∷◌, []};
ghost use Rattle.view_container.specs.Beside.{common_front, first_other, difference_notes};
ghost use Rattle.view_container.specs.Beside.{notes_beside};
ghost use Rattle.view_container.specs.Notes.{notes_of};
ghost use Rattle.view_container.specs.Views.{beside_view};
ghost use Rattle.proof_container.specs.Views.{IsCanonical, contents_of};

use crate::summary::notes;
use proof_container::Container;
use std::alloc::{AllocError, Global};
use view_entries::{push_number, push_source_line};

/// A source beside whose lines a container is listed, if there is one.
#[derive(Clone, Copy, Debug, PartialEq, Eq)]
pub struct Beside<'a> {
    /// The line of each of its instructions, from 1.
    pub lines: &'a [u32],
    /// The bytes of the code that it is assembled to.
    pub code: Option<&'a [u8]>,
}

/// How many bytes both have in common at their front.
fn common_front(code: &[u8], other: &[u8]) -> usize
    ensures exact { result ≡ common_front code.now other.now }
    ensures within { result ≤ length code.now }
{
    for i in 0..code.len() {
        if i >= other.len() {
            return i;
        }
        if code[i] != other[i] {
            return i;
        }
    }
    code.len()
}

/// The index of the first word in which other code differs, unless it is this code.
fn first_other(code: &[u8], other: &[u8]) -> Option<usize>
    ensures { result ≡ first_other code.now other.now }
{
    if code == other {
        return None;
    }
    Some(common_front(code, other) / 4)
}

/// The index from which a source's code differs, if there is a source and it does.
fn difference(code: &[u8], beside: Beside<'_>) -> Option<usize>
    ensures { result ≡ option_and_then (first_other code.now) (beside_view beside.entry).code }
{
    match beside.code {
        None => None,
        Some(other) => first_other(code, other),
    }
}

/// The note that a source's code differs from an index on.
fn difference_note(alloc: Global, lines: &[u32], i: usize) -> Result<Vec<u8>, AllocError>
    ensures { IfOk result (λ v. v.items ∷ [] ≡ difference_notes lines.now (Some i)) }
{
    let mut out = Vec::new(alloc);
    out.extend_from_slice(b"SOURCE differs from index ")?;
    push_number(&mut out, i as u64)?;
    push_source_line(&mut out, lines, i)?;
    Ok(out)
}

/// Appends what is noted of a source beside code.
fn push_notes_beside(
    alloc: Global,
    notes: &mut Vec<Vec<u8>>,
    code: &[u8],
    beside: Beside<'_>,
) -> Result<(), AllocError>
    ensures { OnOk result (map (λ v. v.items) notes.new.items
        ≡ map (λ v. v.items) notes.old.items ++ notes_beside code.now (beside_view beside.entry)) }
{
    match difference(code, beside) {
        None => Ok(()),
        Some(i) => {
            let note = difference_note(alloc, beside.lines, i)?;
            notes.push(note)?;
            Ok(())
        }
    }
}

/// Returns the notes on what a container holds, and on a source beside it.
pub fn all_notes(
    alloc: Global,
    container: &Container<'_>,
    beside: Beside<'_>,
) -> Result<Vec<Vec<u8>>, AllocError>
    requires canonical { IsCanonical container.now }
    ensures { let c = contents_of container.now in
        IfOk result (λ v. map (λ n. n.items) v.items
        ≡ notes_of c ++ notes_beside c.code (beside_view beside.entry)) }
{
    let mut notes = notes(alloc, container)?;
    push_notes_beside(alloc, &mut notes, container.code, beside)?;
    Ok(notes)
}
