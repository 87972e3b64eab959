//! Rows on what is read of containers.

ghost use Rattle.proof_container.specs.Views.{IsWritable};

use crate::bytes::question;
use crate::pieces::piece_bytes;
use proof_container::{Malformed, View, extent, read, write};
use std::alloc::{AllocError, Global};

/// What is asked of a container.
#[derive(Clone, Copy)]
enum Asked {
    /// How many terms there are and what the proof weighs, and that it is written again.
    Size,
    /// Its fields but for the terms.
    Fields,
    /// The term of this id.
    Term(u32),
}

/// Why there is no container.
fn fault_text(alloc: Global, fault: Malformed) -> Result<String, AllocError> {
    match fault {
        Malformed::At(offset, flaw) => {
            let name = flaw.name();
            format!(in alloc; "{offset} {name}")
        }
        Malformed::Memory => format!(in alloc; "no memory"),
    }
}

/// What the proof weighs, 0 where there is none.
fn weight(view: &View<'_>) -> u32 {
    match view.proof {
        Some(id) if (id.index() as u64) < view.table.count() => view.table.weight(id),
        _ => 0,
    }
}

/// Whether the container is written as these bytes.
fn is_written_as(alloc: Global, view: &View<'_>, bytes: &[u8]) -> Result<bool, AllocError>
    requires { IsWritable view.now }
{
    let written = write(alloc, view)?;
    Ok(written.as_slice() == bytes)
}

/// Whether the extent of the container is its count of terms and so many bytes.
fn has_extent(alloc: Global, view: &View<'_>, bytes: u64) -> Result<bool, AllocError>
    requires { IsWritable view.now }
{
    let (terms, length) = extent(alloc, view)?;
    Ok(terms == view.table.count() && length == bytes)
}

/// How many terms there are and what the proof weighs.
fn counts_text(alloc: Global, view: &View<'_>) -> Result<String, AllocError> {
    let terms = view.table.count();
    let weight = weight(view);
    format!(in alloc; "{terms} terms, weight {weight}")
}

/// How many terms there are and what the proof weighs, where the container is written as it was.
fn size_text(alloc: Global, view: &View<'_>, bytes: &[u8]) -> Result<String, AllocError>
    requires { IsWritable view.now }
{
    if !is_written_as(alloc, view, bytes)? {
        return format!(in alloc; "written otherwise");
    }
    match has_extent(alloc, view, bytes.len() as u64)? {
        true => counts_text(alloc, view),
        false => format!(in alloc; "another extent"),
    }
}

/// The fields of a container but for the terms.
fn fields_text(alloc: Global, view: &View<'_>) -> Result<String, AllocError> {
    let version = view.version;
    let head = view.head;
    let bound = view.bound;
    let code = hex::encode(alloc, view.code)?;
    let invs = view.invs;
    let lemmas = view.lemmas;
    let proof = view.proof;
    format!(in alloc; "{version} {head:?} {bound:?} {code} {invs:?} {lemmas:?} {proof:?}")
}

/// The term of an id.
fn term_text(alloc: Global, view: &View<'_>, index: u32) -> Result<String, AllocError> {
    let index = u64::from(index);
    if index >= view.table.count() {
        return format!(in alloc; "no term");
    }
    let node = view.table.node(view.table.id(index));
    format!(in alloc; "{node:?}")
}

/// What is asked of a view of the container that bytes are.
fn view_text(
    alloc: Global,
    asked: Asked,
    view: &View<'_>,
    bytes: &[u8],
) -> Result<String, AllocError>
    requires { IsWritable view.now }
{
    match asked {
        Asked::Size => size_text(alloc, view, bytes),
        Asked::Fields => fields_text(alloc, view),
        Asked::Term(index) => term_text(alloc, view, index),
    }
}

/// What is asked of the container that bytes are, or why they are none.
fn container_text(alloc: Global, asked: Asked, bytes: &[u8]) -> Result<String, AllocError> {
    match read(alloc, bytes) {
        Err(fault) => fault_text(alloc, fault),
        Ok(container) => {
            let view = container.view();
            view_text(alloc, asked, &view, bytes)
        }
    }
}

/// Whether the first `n` bytes are cut at the field that isn't whole.
fn is_cut(alloc: Global, bytes: &[u8], n: usize) -> bool {
    match read(alloc, bytes.get(..n).unwrap_or(bytes)) {
        Err(Malformed::At(offset, flaw)) => offset as usize == 4 * (n / 4) && flaw.name() == "Cut",
        _ => false,
    }
}

/// How many bytes there are, where fewer of them are always cut at the field that isn't whole.
fn cuts_text(alloc: Global, bytes: &[u8]) -> Result<String, AllocError> {
    let count = bytes.len();
    for n in 0..count {
        if !is_cut(alloc, bytes, n) {
            return format!(in alloc; "otherwise at {n}");
        }
    }
    format!(in alloc; "{count}")
}

/// A question on containers.
#[derive(Clone, Copy)]
enum Question {
    /// What is read of one.
    Read(Asked),
    /// How many bytes it has, each shorter part of it being cut.
    Cuts,
}

/// The question that a text begins with, and the pieces behind it; None where there is none.
fn question_of(text: &str) -> Option<(Question, &str)> {
    let (word, rest) = text.split_once(' ')?;
    match word {
        "read" => Some((Question::Read(Asked::Size), rest)),
        "fields" => Some((Question::Read(Asked::Fields), rest)),
        "cuts" => Some((Question::Cuts, rest)),
        "term" => {
            let (index, pieces) = rest.split_once(' ')?;
            let index = index.parse::<u32>().ok()?;
            Some((Question::Read(Asked::Term(index)), pieces))
        }
        _ => None,
    }
}

/// Returns the answer to the question of a line.
pub fn answer(alloc: Global, line: &str) -> Result<String, AllocError> {
    let Some((question, pieces)) = question_of(question(line)) else {
        return format!(in alloc; "no question");
    };
    let Some(bytes) = piece_bytes(alloc, pieces)? else {
        return format!(in alloc; "no pieces");
    };
    match question {
        Question::Read(asked) => container_text(alloc, asked, bytes.as_slice()),
        Question::Cuts => cuts_text(alloc, bytes.as_slice()),
    }
}
