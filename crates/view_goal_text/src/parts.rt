//! The lines of the parts of a condition.
//!
//! Errors: out of memory, and `Results` if the search would cache more than it may; every id keeps
//! its tree.

ghost use Rattle.std.specs.Prelude.{◌≡◌, ◌≤◌, ◌&&◌, IfOk, OnOk, All, drop, length};
ghost use Rattle.std.specs.Prelude.{if◌then◌else◌};
ghost use Rattle.term_table.specs.Table.{Extends};
ghost use Rattle.prover_goals.specs.Search.{IsSearch};
ghost use Rattle.view_goals.specs.Rows.{part_view, HasKnownIds};
ghost use Rattle.view_marks.specs.Marks.{all_true};
ghost use Rattle.view_goal_text.specs.Listing.{whole_lines, view_lines};
ghost use Rattle.view_goal_text.specs.Styles.{style_view};
ghost use Rattle.view_goal_text.specs.Inside.FormTerms.{IsFormTerm, AreFormRows};
ghost use Rattle.view_lines.specs.Shown.{AreKnownLines, AreAdded};
ghost use Rattle.view_goal_text.specs.Inside.Printed.{IsPartPrinted, ArePartsPrinted};

use crate::rows::push_rows;
use crate::style::Manner;
use hereditary_subst::Exhausted;
use prover_goals::Search;
use term_table::Table;
use view_goals::PartRows;
use view_labels::{label_of, title_label};
use view_lines::{ShownLine, push_formula, push_words};
use view_marks::{mark_at, marks_of};

/// Whether all marks are true.
fn all_true(marks: &[bool]) -> bool
    ensures { result ≡ all_true marks.now }
{
    for index in 0..marks.len() {
        let easy = mark_at(marks, index);
        if !easy {
            return false;
        }
    }
    true
}

/// Whether a part whose goals have these marks is left out.
fn is_left_out(manner: &Manner, marks: &[bool]) -> bool
    ensures { result ≡ (manner.now.style.now.only_missing && all_true marks.now) }
{
    manner.style.only_missing && all_true(marks)
}

/// All lines of a part, whose goals have these marks.
#[tactic(auto, using(prover_goals::proofs::Kept::rows))]
fn push_whole(
    table: &mut Table,
    search: &mut Search,
    manner: &Manner,
    lines: &mut Vec<ShownLine>,
    number: usize,
    part: &PartRows,
    marks: &[bool],
) -> Result<(), Exhausted>
    requires lines { AreKnownLines table.old lines.old.items }
    requires part { HasKnownIds table.old part.now }
    requires search { IsSearch table.old search.old }
    ensures exact { let m = manner.now in
        let view = part_view table.old part.now in
        let added = whole_lines (style_view m.style.now) m.bound number view marks.now in
        IsFormTerm view.known → AreFormRows view.rows → OnOk result
        (AreAdded m.bound table.old table.new lines.old.items added lines.new.items) }
    ensures known { OnOk result (AreKnownLines table.new lines.new.items) }
    ensures extends { Extends table.old table.new }
    ensures search { OnOk result (IsSearch table.new search.new) }
{
    let alloc = table.allocator();
    let title = title_label(alloc, manner.style.lines.as_slice(), number, part.at)?;
    push_words(table, lines, title)?;
    let label = label_of(alloc, "known 0: ")?;
    push_formula(table, manner.bound, lines, label, part.known)?;
    let rows = part.rows.as_slice();
    push_rows(table, search, manner, lines, part.known, rows, marks)?;
    Ok(())
}

/// The lines of a part, whose goals have these marks, unless it has none that isn't easy and what is
/// easy is left out.
#[tactic(auto, using(prover_goals::proofs::Kept::rows))]
fn push_view(
    table: &mut Table,
    search: &mut Search,
    manner: &Manner,
    lines: &mut Vec<ShownLine>,
    number: usize,
    part: &PartRows,
    marks: &[bool],
) -> Result<(), Exhausted>
    requires lines { AreKnownLines table.old lines.old.items }
    requires part { HasKnownIds table.old part.now }
    requires search { IsSearch table.old search.old }
    ensures exact { let m = manner.now in
        let view = part_view table.old part.now in
        let added = view_lines (style_view m.style.now) m.bound number view marks.now in
        IsFormTerm view.known → AreFormRows view.rows → OnOk result
        (AreAdded m.bound table.old table.new lines.old.items added lines.new.items) }
    ensures known { OnOk result (AreKnownLines table.new lines.new.items) }
    ensures extends { Extends table.old table.new }
    ensures search { OnOk result (IsSearch table.new search.new) }
{
    let none = is_left_out(manner, marks);
    if none {
        return Ok(());
    }
    push_whole(table, search, manner, lines, number, part, marks)?;
    Ok(())
}

/// The lines of the part of a number, and whether each of its goals is easy.
fn push_part(
    table: &mut Table,
    search: &mut Search,
    manner: &Manner,
    lines: &mut Vec<ShownLine>,
    number: usize,
    part: &PartRows,
) -> Result<bool, Exhausted>
    requires lines { AreKnownLines table.old lines.old.items }
    requires part { HasKnownIds table.old part.now }
    requires search { IsSearch table.old search.old }
    ensures exact { let m = manner.now in
        IfOk result (IsPartPrinted (style_view m.style.now) m.bound number table.old table.new
        part.now lines.old.items lines.new.items) }
    ensures known { OnOk result (AreKnownLines table.new lines.new.items) }
    ensures extends { Extends table.old table.new }
    ensures search { OnOk result (IsSearch table.new search.new) }
{
    let marks = marks_of(table, search, manner.bound.is_some(), part)?;
    push_view(table, search, manner, lines, number, part, marks.as_slice())?;
    Ok(all_true(marks.as_slice()))
}

/// Returns the number if its part isn't easy, else the number of a later part.
fn first_of(easy: bool, number: usize, later: Option<usize>) -> Option<usize>
    ensures { result ≡ (if easy then later else Some number) }
{
    if easy { later } else { Some(number) }
}

/// Adds the lines of the parts from index `from` on, which is the number of the first of them, and
/// returns the number of the first part with a goal that isn't easy.
pub(crate) fn push_parts(
    table: &mut Table,
    search: &mut Search,
    manner: &Manner,
    lines: &mut Vec<ShownLine>,
    parts: &[PartRows],
    from: usize,
) -> Result<Option<usize>, Exhausted>
    requires lines { AreKnownLines table.old lines.old.items }
    requires parts { All (HasKnownIds table.old) parts.now }
    requires from { from ≤ length parts.now }
    requires search { IsSearch table.old search.old }
    ensures exact { let m = manner.now in
        IfOk result (ArePartsPrinted (style_view m.style.now) m.bound from table.old table.new
        (drop from parts.now) lines.old.items lines.new.items) }
    ensures known { OnOk result (AreKnownLines table.new lines.new.items) }
    ensures extends { Extends table.old table.new }
{
    if from == parts.len() {
        return Ok(None);
    }
    let part = &parts[from];
    let easy = push_part(table, search, manner, lines, from, part)?;
    let later = push_parts(table, search, manner, lines, parts, from + 1)?;
    Ok(first_of(easy, from, later))
}
