//! The text of lines, and of the entries that they name.
//!
//! Errors: out of memory.

ghost use Rattle.std.specs.Prelude.{◌≡◌, ◌++◌, [], true, map, IfOk, IfSome, OnOk};
ghost use Rattle.std.specs.List.{AllByRecursion, flat_map};
ghost use Rattle.std.specs.Option.{option_map, option_to_list};
ghost use Rattle.term_table.specs.Table.{IsKnown, tree_at, id_trees};
ghost use Rattle.proof_container.specs.Postorder.{is_emitted, AreEmitted};
ghost use Rattle.proof_container.specs.Walks.{IsLeft};
ghost use Rattle.proof_container.specs.Inside.Walked.{left_trees};
ghost use Rattle.view_entries.specs.Entries.{entry_line};
ghost use Rattle.view_lines.specs.Texts.{with_lf, entries_text};
ghost use Rattle.view_lines.specs.Shown.{line_view, HasKnownLong, AreKnownLines};
ghost use Rattle.view_lines.specs.Shown.{name_part, shown_text, shown_longs};
ghost use Rattle.view_lines.specs.Shown.{shown_lines_text};

use crate::copies::{copy_of, number};
use crate::lines::ShownLine;
use proof_container::{Walk, walk_from};
use std::alloc::{AllocError, Global};
use term_table::{Id, Table};
use view_entries::{push_entry, push_name};

/// Adds the id of a line's term that has no short text, if there is one.
fn push_long(ids: &mut Vec<(u32, Id)>, table: &Table, line: &ShownLine) -> Result<(), AllocError>
    requires ids { AllByRecursion (λ p. IsKnown table.now p.1) ids.old.items }
    requires line { HasKnownLong table.now line.now }
    ensures known { OnOk result (AllByRecursion (λ p. IsKnown table.now p.1) ids.new.items) }
    ensures exact { let trees = map (λ p. p.1) (id_trees table.now ids.old.items) in
        OnOk result (map (λ p. p.1) (id_trees table.now ids.new.items)
        ≡ trees ++ option_to_list (option_map (tree_at table.now) line.now.long)) }
{
    let _ = table; // only the clauses speak of it
    match line.long {
        None => Ok(()),
        Some(id) => {
            ids.push((0, id))?;
            Ok(())
        }
    }
}

/// The ids of the terms of lines that have no short text, in order, each with the number 0.
fn long_ids(alloc: Global, table: &Table, lines: &[ShownLine]) -> Result<Vec<(u32, Id)>, AllocError>
    requires { AreKnownLines table.now lines.now }
    ensures known { IfOk result (λ v. AllByRecursion (λ p. IsKnown table.now p.1) v.items) }
    ensures exact { IfOk result (λ v. map (λ p. p.1) (id_trees table.now v.items)
        ≡ shown_longs (map (line_view table.now) lines.now)) }
{
    let mut ids = Vec::new(alloc);
    for index in 0..lines.len() {
        push_long(&mut ids, table, &lines[index])?;
    }
    Ok(ids)
}

/// The name of the entry of a line's term, if there is one.
fn push_long_name(
    out: &mut Vec<u8>,
    table: &Table,
    walk: &Walk,
    long: Option<Id>,
) -> Result<(), AllocError>
    requires left { IsLeft table.now (left_trees table.now walk.now) walk.now }
    requires known { IfSome long (IsKnown table.now) }
    requires listed { IfSome long (λ id.
        is_emitted (tree_at table.now id) (left_trees table.now walk.now) ≡ true) }
    ensures { let es = left_trees table.now walk.now in OnOk result
        (out.new.items ≡ out.old.items ++ name_part es (option_map (tree_at table.now) long)) }
{
    match long {
        None => Ok(()),
        Some(id) => push_name(out, number(table, walk, id)),
    }
}

/// A line with its end.
fn push_line(
    out: &mut Vec<u8>,
    table: &Table,
    walk: &Walk,
    line: &ShownLine,
) -> Result<(), AllocError>
    requires left { IsLeft table.now (left_trees table.now walk.now) walk.now }
    requires known { HasKnownLong table.now line.now }
    requires listed { IfSome line.now.long (λ id.
        is_emitted (tree_at table.now id) (left_trees table.now walk.now) ≡ true) }
    ensures { let es = left_trees table.now walk.now in OnOk result
        (out.new.items ≡ out.old.items ++ shown_text es (line_view table.now line.now)) }
{
    out.extend_from_slice(line.text.as_slice())?;
    push_long_name(out, table, walk, line.long)?;
    out.push(b'\n')?;
    Ok(())
}

/// Lines, each with its end.
fn push_lines(
    out: &mut Vec<u8>,
    table: &Table,
    walk: &Walk,
    lines: &[ShownLine],
) -> Result<(), AllocError>
    requires left { IsLeft table.now (left_trees table.now walk.now) walk.now }
    requires known { AreKnownLines table.now lines.now }
    requires listed { let longs = shown_longs (map (line_view table.now) lines.now) in
        AreEmitted (left_trees table.now walk.now) longs }
    ensures { let es = left_trees table.now walk.now in OnOk result (out.new.items
        ≡ out.old.items ++ flat_map (shown_text es) (map (line_view table.now) lines.now)) }
{
    for index in 0..lines.len() {
        push_line(out, table, walk, &lines[index])?;
    }
    Ok(())
}

/// The line of an entry.
fn push_entry_line(out: &mut Vec<u8>, table: &Table, id: Id) -> Result<(), AllocError>
    requires { IsKnown table.now id }
    ensures { OnOk result (out.new.items
        ≡ out.old.items ++ with_lf (entry_line table.now.trees id)) }
{
    push_entry(out, table, id)?;
    out.push(b'\n')?;
    Ok(())
}

/// The lines of a table's entries.
fn push_entries(out: &mut Vec<u8>, table: &Table) -> Result<(), AllocError>
    ensures { OnOk result (out.new.items ≡ out.old.items ++ entries_text table.now.trees) }
{
    for k in 0..table.count() {
        push_entry_line(out, table, table.id(k))?;
    }
    Ok(())
}

/// Returns the text of the lines, followed by the lines of the entries that they name.
pub fn lines_text(table: &Table, lines: &[ShownLine]) -> Result<Vec<u8>, AllocError>
    requires { AreKnownLines table.now lines.now }
    ensures { IfOk result (λ v.
        v.items ≡ shown_lines_text (map (line_view table.now) lines.now)) }
{
    let alloc = table.allocator();
    let ids = long_ids(alloc, table, lines)?;
    let walk = walk_from(alloc, table, &ids, &[], None)?;
    let mut out = Vec::new(alloc);
    push_lines(&mut out, table, &walk, lines)?;
    let entries = copy_of(alloc, table, &walk)?;
    push_entries(&mut out, &entries)?;
    Ok(out)
}
