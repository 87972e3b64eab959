//! Looking ahead in rows for goals that aren't easy.

ghost use Rattle.std.specs.Prelude.{◌≡◌, ◌<◌, ◌≤◌, ◌+◌, drop, map, length, slice_index_or, false};
ghost use Rattle.view_goals.specs.Rows.{row_view};
ghost use Rattle.view_marks.specs.Looking.{goal_count, is_hard, is_past, has_hard, is_row_left};

use term_table::Table;
use view_goals::Row;

/// A place in rows and in the marks of their goals.
#[derive(Clone, Copy)]
pub struct Place {
    /// How many rows are before it.
    pub row: usize,
    /// How many goals are before it.
    pub goal: usize,
}

/// Returns how many goals a row is.
pub fn goal_count(table: &Table, row: &Row) -> usize
    ensures exact { result ≡ goal_count (row_view table.now row.now) }
    ensures one { result ≤ 1 }
{
    let _ = table; // only the clause speaks of it
    match row {
        Row::Goal { .. } => 1,
        Row::Both => 0,
        Row::Under { .. } => 0,
    }
}

/// Returns the mark at an index, or false past the last.
pub fn mark_at(marks: &[bool], place: usize) -> bool
    ensures { result ≡ slice_index_or marks.now place false }
{
    place < marks.len() && marks[place]
}

/// Whether a row is a goal that isn't easy.
pub fn is_hard(table: &Table, row: &Row, easy: bool) -> bool
    ensures { result ≡ is_hard (row_view table.now row.now) easy }
{
    let _ = table; // only the clause speaks of it
    match row {
        Row::Goal { .. } => !easy,
        Row::Both => false,
        Row::Under { .. } => false,
    }
}

/// Whether a row is under at most `depth` branches.
fn is_past(table: &Table, row: &Row, depth: u32) -> bool
    ensures { result ≡ is_past depth (row_view table.now row.now) }
{
    let _ = table; // only the clause speaks of it
    match row {
        Row::Goal { depth: own, .. } => *own <= depth,
        Row::Both => false,
        Row::Under { depth: own, .. } => *own <= depth,
    }
}

/// Whether a goal that isn't easy is among the rows from `at` on, up to the first that is under at
/// most `depth` branches.
fn has_hard(table: &Table, rows: &[Row], marks: &[bool], at: Place, depth: u32) -> bool
    requires within { at.row ≤ length rows.now }
    requires fewer { at.goal ≤ at.row }
    ensures { let t = table.now in
        let views = map (row_view t) (drop at.row rows.now) in
        result ≡ has_hard depth views (drop at.goal marks.now) }
{
    let mut place = at.goal;
    for index in at.row..rows.len() {
        let row = rows[index];
        let easy = mark_at(marks, place);
        let past = is_past(table, &row, depth);
        if past {
            return false;
        }
        let hard = is_hard(table, &row, easy);
        if hard {
            return true;
        }
        place += goal_count(table, &row);
    }
    false
}

/// Checks whether the row at `at` is left if goals that are easy are left out: a goal that isn't
/// easy, or a branch with such a goal under it.
pub fn is_row_left(table: &Table, rows: &[Row], marks: &[bool], at: Place) -> bool
    requires within { at.row < length rows.now }
    requires fewer { at.goal ≤ at.row }
    ensures exact { let views = map (row_view table.now) (drop at.row rows.now) in
        result ≡ is_row_left views (drop at.goal marks.now) }
{
    let row = rows[at.row];
    let easy = mark_at(marks, at.goal);
    match row {
        Row::Goal { .. } => !easy,
        Row::Both => false,
        Row::Under { depth, .. } => {
            let next = Place {
                row: at.row + 1,
                goal: at.goal,
            };
            has_hard(table, rows, marks, next, depth)
        }
    }
}
