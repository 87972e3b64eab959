//! The lines of rows.
//!
//! Errors: out of memory, and `Results` if the search would cache more than it may; every id keeps
//! its tree.

ghost use Rattle.std.specs.Prelude.{◌≡◌, ◌<◌, ◌≤◌, ◌+◌, ◌&&◌, ◌||◌, ◌++◌, ◌∷◌, [], OnOk, All, map};
ghost use Rattle.std.specs.Prelude.{true, not, take, drop, length, Option, IfOk};
ghost use Rattle.term_table.specs.Table.{IsKnown, AllKnown, tree_at, Extends};
ghost use Rattle.prover_goals.specs.Search.{IsSearch};
ghost use Rattle.view_goals.specs.Rows.{row_view, HasKnownId};
ghost use Rattle.view_marks.specs.Looking.{is_hard};
ghost use Rattle.view_labels.specs.Labels.{goal_label, known_label};
ghost use Rattle.view_lines.specs.Formulas.{is_false_term};
ghost use Rattle.view_lines.specs.Lines.{before};
ghost use Rattle.view_goal_text.specs.Styles.{style_view, is_row_listed};
ghost use Rattle.view_goal_text.specs.Hints.{goal_hint};
ghost use Rattle.view_goal_text.specs.Listing.{hard_mark, mark_of};
ghost use Rattle.view_goal_text.specs.Listing.{row_line, listed_line, row_hint};
ghost use Rattle.view_goal_text.specs.Listing.{known_after, row_lines};
ghost use Rattle.view_goal_text.specs.Inside.FormTerms.{IsFormTerm, AreFormTerms};
ghost use Rattle.view_goal_text.specs.Inside.FormTerms.{IsFormRow, AreFormRows};
ghost use Rattle.view_lines.specs.Shown.{AreKnownLines, AreAdded};

use crate::hints::push_hint;
use crate::style::Manner;
use hereditary_subst::Exhausted;
use prover_goals::Search;
use std::alloc::AllocError;
use term_table::{Id, Table};
use view_goals::{Row, Why};
use view_labels::{GoalName, Mark, goal_label, known_label};
use view_lines::{ShownLine, is_false_term, push_formula};
use view_marks::{Place, goal_count, is_hard, is_row_left, mark_at};

/// What is printed of a row.
#[derive(Clone, Copy)]
struct Told {
    /// Whether its line is.
    line: bool,
    /// Whether its goal is easy.
    easy: bool,
    /// Whether hints are.
    hints: bool,
    /// Whether it is a goal that isn't easy.
    hard: bool,
}

/// The mark of a goal that isn't easy.
fn hard_mark(wrong: bool) -> Mark
    ensures { result ≡ hard_mark wrong }
{
    if wrong { Mark::False } else { Mark::Hard }
}

/// Returns how the goal that the term encodes is marked.
fn mark_of(table: &mut Table, bound: Option<u32>, easy: bool, id: Id) -> Result<Mark, AllocError>
    requires { IsKnown table.old id }
    ensures exact { IfOk result (λ m. m ≡ mark_of bound easy (tree_at table.old id)) }
    ensures extends { Extends table.old table.new }
{
    if easy {
        return Ok(Mark::Easy);
    }
    let wrong = is_false_term(table, bound, id)?;
    Ok(hard_mark(wrong))
}

/// The line of a goal.
fn push_goal(
    table: &mut Table,
    manner: &Manner,
    lines: &mut Vec<ShownLine>,
    at: u32,
    why: Why,
    formula: Id,
    depth: u32,
    easy: bool,
) -> Result<(), AllocError>
    requires lines { AreKnownLines table.old lines.old.items }
    requires formula { IsKnown table.old formula }
    ensures exact { let m = manner.now in
        let tree = tree_at table.old formula in
        let mark = mark_of m.bound easy tree in
        let line = before (goal_label m.style.now.lines.items at why depth mark) tree in
        OnOk result
        (AreAdded m.bound table.old table.new lines.old.items (line ∷ []) lines.new.items) }
    ensures known { OnOk result (AreKnownLines table.new lines.new.items) }
    ensures extends { Extends table.old table.new }
{
    let mark = mark_of(table, manner.bound, easy, formula)?;
    let name = GoalName {
        at,
        why,
        depth,
        mark,
    };
    let label = goal_label(table.allocator(), manner.style.lines.as_slice(), &name)?;
    push_formula(table, manner.bound, lines, label, formula)?;
    Ok(())
}

/// Adds the line of the hypothesis that a branch adds; the branch is under `depth` others.
fn push_known(
    table: &mut Table,
    manner: &Manner,
    lines: &mut Vec<ShownLine>,
    at: u32,
    taken: bool,
    known: Id,
    depth: u32,
) -> Result<(), AllocError>
    requires lines { AreKnownLines table.old lines.old.items }
    requires known { IsKnown table.old known }
    ensures exact { let m = manner.now in
        let label = known_label m.style.now.lines.items (depth + 1) at taken in
        let line = before label (tree_at table.old known) in OnOk result
        (AreAdded m.bound table.old table.new lines.old.items (line ∷ []) lines.new.items) }
    ensures known { OnOk result (AreKnownLines table.new lines.new.items) }
    ensures extends { Extends table.old table.new }
{
    let source = manner.style.lines.as_slice();
    let label = known_label(table.allocator(), source, u64::from(depth) + 1, at, taken)?;
    push_formula(table, manner.bound, lines, label, known)?;
    Ok(())
}

/// The line of a row; two that are both asked have none.
fn push_row(
    table: &mut Table,
    manner: &Manner,
    lines: &mut Vec<ShownLine>,
    row: Row,
    easy: bool,
) -> Result<(), AllocError>
    requires lines { AreKnownLines table.old lines.old.items }
    requires row { HasKnownId table.old row }
    ensures exact { let m = manner.now in
        let line = row_line m.bound m.style.now.lines.items (row_view table.old row) easy in
        OnOk result (AreAdded m.bound table.old table.new lines.old.items line lines.new.items) }
    ensures known { OnOk result (AreKnownLines table.new lines.new.items) }
    ensures extends { Extends table.old table.new }
{
    match row {
        Row::Goal {
            at,
            why,
            formula,
            depth,
        } => push_goal(table, manner, lines, at, why, formula, depth, easy),
        Row::Both => Ok(()),
        Row::Under {
            at,
            taken,
            known,
            depth,
        } => push_known(table, manner, lines, at, taken, known, depth),
    }
}

/// The line of a row, if it is listed.
fn push_listed(
    table: &mut Table,
    manner: &Manner,
    lines: &mut Vec<ShownLine>,
    row: Row,
    told: Told,
) -> Result<(), AllocError>
    requires lines { AreKnownLines table.old lines.old.items }
    requires row { HasKnownId table.old row }
    ensures exact { let m = manner.now in
        let source = m.style.now.lines.items in
        let line = listed_line m.bound source told.line (row_view table.old row) told.easy in
        OnOk result (AreAdded m.bound table.old table.new lines.old.items line lines.new.items) }
    ensures known { OnOk result (AreKnownLines table.new lines.new.items) }
    ensures extends { Extends table.old table.new }
{
    let line = told.line;
    if !line {
        return Ok(());
    }
    push_row(table, manner, lines, row, told.easy)?;
    Ok(())
}

/// Whether a hint is due, and the goal hard.
fn is_wanted(due: bool, hard: bool) -> bool
    ensures { result ≡ (due && hard) }
{
    due && hard
}

/// What is printed of a row, which is listed or not and easy or not, if hints are due or not.
fn told_of(table: &Table, row: &Row, line: bool, easy: bool, due: bool) -> Told
    ensures line { result.line ≡ line }
    ensures easy { result.easy ≡ easy }
    ensures hints { result.hints ≡ (due && is_hard (row_view table.now row.now) easy) }
    ensures hard { result.hard ≡ is_hard (row_view table.now row.now) easy }
{
    let hard = is_hard(table, row, easy);
    let hints = is_wanted(due, hard);
    Told {
        line,
        easy,
        hints,
        hard,
    }
}

/// Whether hints are due still: if all that is missing is told, always.
fn stays_due(all: bool, due: bool, hard: bool) -> bool
    ensures { result ≡ (due && (all || not hard)) }
{
    due && (all || !hard)
}

/// Whether the row at a place is listed.
fn is_listed(table: &Table, manner: &Manner, rows: &[Row], marks: &[bool], at: Place) -> bool
    requires within { at.row < length rows.now }
    requires fewer { at.goal ≤ at.row }
    ensures { let views = map (row_view table.now) (drop at.row rows.now) in
        let only_missing = manner.now.style.now.only_missing in
        result ≡ is_row_listed only_missing views (drop at.goal marks.now) }
{
    !manner.style.only_missing || is_row_left(table, rows, marks, at)
}

/// The first so many ids, or all.
fn first(ids: &[Id], count: usize) -> &[Id]
    ensures { result.now ≡ take count ids.now }
{
    if count < ids.len() {
        &ids[..count]
    } else {
        ids
    }
}

/// Adds the hint for a goal under `depth` branches and the hypotheses `known`.
#[tactic(auto, using(prover_goals::proofs::Kept::rows))]
fn push_goal_hint(
    table: &mut Table,
    search: &mut Search,
    manner: &Manner,
    lines: &mut Vec<ShownLine>,
    known: &[Id],
    goal: Id,
    depth: u32,
) -> Result<(), Exhausted>
    requires lines { AreKnownLines table.old lines.old.items }
    requires known { AllKnown table.old known.now }
    requires goal { IsKnown table.old goal }
    requires search { IsSearch table.old search.old }
    ensures exact { let m = manner.now in
        let trees = map (tree_at table.old) known.now in
        let here = take (depth + 1) trees in
        let added = goal_hint m.style.now.all m.bound here (tree_at table.old goal) in
        AreFormTerms trees → IsFormTerm (tree_at table.old goal) → OnOk result
        (AreAdded m.bound table.old table.new lines.old.items added lines.new.items) }
    ensures known { OnOk result (AreKnownLines table.new lines.new.items) }
    ensures extends { Extends table.old table.new }
    ensures search { OnOk result (IsSearch table.new search.new) }
{
    let here = first(known, depth as usize + 1);
    push_hint(table, search, manner, lines, here, goal)?;
    Ok(())
}

/// Adds the hint for the goal of a row if it is wanted.
#[tactic(auto, using(prover_goals::proofs::Kept::rows))]
fn push_row_hint(
    table: &mut Table,
    search: &mut Search,
    manner: &Manner,
    lines: &mut Vec<ShownLine>,
    wanted: bool,
    known: &[Id],
    row: &Row,
) -> Result<(), Exhausted>
    requires lines { AreKnownLines table.old lines.old.items }
    requires known { AllKnown table.old known.now }
    requires row { HasKnownId table.old row.now }
    requires search { IsSearch table.old search.old }
    ensures exact { let m = manner.now in
        let trees = map (tree_at table.old) known.now in
        let view = row_view table.old row.now in
        let added = row_hint m.style.now.all m.bound wanted trees view in
        AreFormTerms trees → IsFormRow view → OnOk result
        (AreAdded m.bound table.old table.new lines.old.items added lines.new.items) }
    ensures known { OnOk result (AreKnownLines table.new lines.new.items) }
    ensures extends { Extends table.old table.new }
    ensures search { OnOk result (IsSearch table.new search.new) }
{
    if !wanted {
        return Ok(());
    }
    match row {
        Row::Goal { formula, depth, .. } => {
            push_goal_hint(table, search, manner, lines, known, *formula, *depth)
        }
        Row::Both => Ok(()),
        Row::Under { .. } => Ok(()),
    }
}

/// Adds the line of a row and its hints, as `told` says.
#[tactic(auto, using(prover_goals::proofs::Kept::rows))]
fn push_row_lines(
    table: &mut Table,
    search: &mut Search,
    manner: &Manner,
    lines: &mut Vec<ShownLine>,
    told: Told,
    known: &[Id],
    row: &Row,
) -> Result<(), Exhausted>
    requires lines { AreKnownLines table.old lines.old.items }
    requires known { AllKnown table.old known.now }
    requires row { HasKnownId table.old row.now }
    requires search { IsSearch table.old search.old }
    ensures exact { let m = manner.now in
        let s = m.style.now in
        let trees = map (tree_at table.old) known.now in
        let view = row_view table.old row.now in
        let line = listed_line m.bound s.lines.items told.line view told.easy in
        AreFormTerms trees → IsFormRow view → OnOk result
        (AreAdded m.bound table.old table.new lines.old.items
        (line ++ row_hint s.all m.bound told.hints trees view) lines.new.items) }
    ensures known { OnOk result (AreKnownLines table.new lines.new.items) }
    ensures extends { Extends table.old table.new }
    ensures search { OnOk result (IsSearch table.new search.new) }
{
    push_listed(table, manner, lines, *row, told)?;
    push_row_hint(table, search, manner, lines, told.hints, known, row)?;
    Ok(())
}

/// Adds the hypothesis that holds after a row, and removes the ones that don't hold there.
fn learn(known: &mut Vec<Id>, table: &Table, row: &Row) -> Result<(), AllocError>
    requires known { AllKnown table.now known.old.items }
    requires row { HasKnownId table.now row.now }
    ensures known { OnOk result (AllKnown table.now known.new.items) }
    ensures exact { let trees = map (tree_at table.now) known.old.items in OnOk result
        (map (tree_at table.now) known.new.items
        ≡ known_after trees (row_view table.now row.now)) }
{
    let _ = table; // only the clauses speak of it
    match row {
        Row::Goal { .. } => Ok(()),
        Row::Both => Ok(()),
        Row::Under {
            known: id,
            depth,
            ..
        } => learn_at(known, table, *id, *depth),
    }
}

/// Adds the hypothesis of a branch under `depth` others. The hypotheses of the start and of the
/// `depth` branches stay; later ones are removed.
fn learn_at(known: &mut Vec<Id>, table: &Table, id: Id, depth: u32) -> Result<(), AllocError>
    requires known { AllKnown table.now known.old.items }
    requires id { IsKnown table.now id }
    ensures known { OnOk result (AllKnown table.now known.new.items) }
    ensures exact { let trees = map (tree_at table.now) known.old.items in OnOk result
        (map (tree_at table.now) known.new.items
        ≡ take (depth + 1) trees ++ tree_at table.now id ∷ []) }
{
    let _ = table; // only the clauses speak of it
    known.truncate(depth as usize + 1);
    known.push(id)?;
    Ok(())
}

/// Adds the lines of rows, whose goals have these marks in order, under the hypothesis `start`. Hints
/// follow the first goal that isn't easy, or each, as the style says.
pub(crate) fn push_rows(
    table: &mut Table,
    search: &mut Search,
    manner: &Manner,
    lines: &mut Vec<ShownLine>,
    start: Id,
    rows: &[Row],
    marks: &[bool],
) -> Result<(), Exhausted>
    requires lines { AreKnownLines table.old lines.old.items }
    requires start { IsKnown table.old start }
    requires rows { All (HasKnownId table.old) rows.now }
    requires search { IsSearch table.old search.old }
    ensures exact { let m = manner.now in
        let views = map (row_view table.old) rows.now in
        let known = tree_at table.old start ∷ [] in
        let added = row_lines (style_view m.style.now) m.bound true known views marks.now in
        AreFormTerms known → AreFormRows views → OnOk result
        (AreAdded m.bound table.old table.new lines.old.items added lines.new.items) }
    ensures known { OnOk result (AreKnownLines table.new lines.new.items) }
    ensures extends { Extends table.old table.new }
    ensures search { OnOk result (IsSearch table.new search.new) }
{
    let mut known = Vec::new(table.allocator());
    known.push(start)?;
    let mut due = true;
    let mut goal: usize = 0;
    for index in 0..rows.len() {
        let row = rows[index];
        let at = Place { row: index, goal };
        let line = is_listed(table, manner, rows, marks, at);
        let easy = mark_at(marks, goal);
        let told = told_of(table, &row, line, easy, due);
        push_row_lines(table, search, manner, lines, told, known.as_slice(), &row)?;
        learn(&mut known, table, &row)?;
        due = stays_due(manner.style.all, due, told.hard);
        goal += goal_count(table, &row);
    }
    Ok(())
}
