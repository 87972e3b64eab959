//! Lines as they are stored until all are there.
//!
//! Errors: out of memory; every id keeps its tree.

ghost use Rattle.std.specs.Prelude.{◌≡◌, ◌∷◌, [], ℕ, Option, IfOk, OnOk};
ghost use Rattle.term_table.specs.Table.{IsKnown, tree_at, Extends};
ghost use Rattle.view_lines.specs.Lines.{plain_line, before};
ghost use Rattle.view_lines.specs.Shown.{shown_line, line_view, HasKnownLong};
ghost use Rattle.view_lines.specs.Shown.{AreKnownLines, AreAdded};

use crate::formulas::short_text;
use std::alloc::AllocError;
use term_table::{Id, Table};

/// A line: its text up to a term that has no short text, and that term.
#[derive(Drop)]
pub struct ShownLine {
    /// What it begins with.
    pub text: Vec<u8>,
    /// The term, if there is one without a short text.
    pub long: Option<Id>,
}

/// Returns the line of a label and the formula after it.
fn shown_line(
    table: &mut Table,
    bound: Option<u32>,
    label: Vec<u8>,
    id: Id,
) -> Result<ShownLine, AllocError>
    requires { IsKnown table.old id }
    ensures exact { let line = before label.items (tree_at table.old id) in
        IfOk result (λ l. line_view table.new l ≡ shown_line bound line) }
    ensures known { IfOk result (HasKnownLong table.new) }
    ensures extends { Extends table.old table.new }
{
    let mut text = label;
    match short_text(table, bound, id)? {
        Some(formula) => {
            text.extend_from_slice(formula.as_slice())?;
            Ok(ShownLine { text, long: None })
        }
        None => Ok(ShownLine {
            text,
            long: Some(id),
        }),
    }
}

/// Adds a line of text alone.
pub fn push_words(
    table: &Table,
    lines: &mut Vec<ShownLine>,
    label: Vec<u8>,
) -> Result<(), AllocError>
    requires { AreKnownLines table.now lines.old.items }
    ensures exact { (bound : Option ℕ) → OnOk result
        (AreAdded bound table.now table.now lines.old.items (plain_line label.items ∷ [])
        lines.new.items) }
    ensures known { OnOk result (AreKnownLines table.now lines.new.items) }
{
    let _ = table; // only the clauses speak of it
    lines.push(ShownLine {
        text: label,
        long: None,
    })?;
    Ok(())
}

/// Adds a line that ends with a formula.
pub fn push_formula(
    table: &mut Table,
    bound: Option<u32>,
    lines: &mut Vec<ShownLine>,
    label: Vec<u8>,
    id: Id,
) -> Result<(), AllocError>
    requires lines { AreKnownLines table.old lines.old.items }
    requires id { IsKnown table.old id }
    ensures exact { let line = before label.items (tree_at table.old id) in OnOk result
        (AreAdded bound table.old table.new lines.old.items (line ∷ []) lines.new.items) }
    ensures known { OnOk result (AreKnownLines table.new lines.new.items) }
    ensures extends { Extends table.old table.new }
{
    let line = shown_line(table, bound, label, id)?;
    lines.push(line)?;
    Ok(())
}
