//! The walk along code and the term of its condition, which lists the goals.
//!
//! A walk follows the code as `vcgen` does when it makes the condition, and the term in step with
//! it: it takes the term apart if the code asks for two things, and makes no term. On code that is
//! cut it meets no index twice on its way, so it recurses at most once for each instruction, of
//! which there are at most 1,024, through six functions. The rows are at most seven for each index
//! of the unfolded length.

ghost use Rattle.std.specs.Prelude.{◌≡◌, ℕ, ◌+◌, ◌<◌, [], ◌∷◌, true, false, IfOk};
ghost use Rattle.std.specs.Prelude.{length, slice_get};
ghost use Rattle.term_table.specs.Table.{IsKnown, tree_at};
ghost use Rattle.view_goals.specs.Rows.{row_view, HasKnownId};
ghost use Rattle.view_goals.specs.declared.rows.Why.TheVariants.{Step};
ghost use Rattle.view_goals.specs.Inside.Outlines.{Outline, One, Two, Behind, outline_of};
ghost use Rattle.view_goals.specs.Inside.Outlines.{outline_within, rows_by};
ghost use Rattle.view_goals.specs.Inside.Appended.{IsAppended};

use crate::reading::{left, right};
use crate::rows::{Row, Why};
use alpha_cfg::Cut;
use alpha_words::{Format, MemoryKind, memory_kind};
use std::alloc::AllocError;
use term_table::{Id, Table};

/// What a walk reads: the term's table, the code with its annotated indices, and whether steps are
/// counted.
#[derive(Clone, Copy)]
pub(crate) struct Program<'a> {
    pub(crate) table: &'a Table,
    pub(crate) cut: &'a Cut,
    pub(crate) counted: bool,
}

/// Appends a row to the list.
fn push(table: &Table, out: &mut Vec<Row>, row: Row) -> Result<(), AllocError>
    requires { HasKnownId table.now row }
    ensures { let added = row_view table.now row ∷ [] in
        IfOk result (λ _. IsAppended table.now out.old.items added out.new.items) }
{
    let _ = table; // only the clauses speak of it
    out.push(row)?;
    Ok(())
}

/// Writes the row of a goal that `index` asks, under so many branches.
fn push_goal(
    table: &Table,
    out: &mut Vec<Row>,
    index: u32,
    why: Why,
    depth: u32,
    id: Id,
) -> Result<(), AllocError>
    requires { IsKnown table.now id }
    ensures { let added = rows_by depth (One index why) (tree_at table.now id) in
        IfOk result (λ _. IsAppended table.now out.old.items added out.new.items) }
{
    let row = Row::Goal {
        at: index,
        why,
        formula: id,
        depth,
    };
    push(table, out, row)
}

/// Lists what `index` asks for if the code goes on to index `to`, following at most `fuel` more:
/// the invariant of an annotated index, else what the instruction there asks for. `id` is the term
/// of it, and it is under `depth` branches.
#[cycle(walking)]
pub(crate) fn walk(
    program: &Program,
    out: &mut Vec<Row>,
    fuel: u32,
    index: u32,
    to: u32,
    depth: u32,
    id: Id,
) -> Result<(), AllocError>
    requires within { to < length program.now.cut.now.code }
    requires known { IsKnown program.now.table.now id }
    requires room { depth + fuel < 65536 }
    ensures { let t = program.now.table.now in
        let c = program.now.cut.now in
        let o = outline_within c.code c.marks program.now.counted fuel index to in
        let added = rows_by depth o (tree_at t id) in
        IfOk result (λ _. IsAppended t out.old.items added out.new.items) }
{
    if program.cut.marked(to) {
        return push_goal(program.table, out, index, Why::Reach(to), depth, id);
    }
    if fuel == 0 {
        return push_goal(program.table, out, index, Why::Leave, depth, id);
    }
    walk_from(program, out, fuel - 1, to, depth, id)
}

/// Lists a goal that `index` asks for, and then what it asks for if the code goes on to the next
/// index.
#[cycle(walking)]
fn walk_behind(
    program: &Program,
    out: &mut Vec<Row>,
    fuel: u32,
    index: u32,
    why: Why,
    depth: u32,
    id: Id,
) -> Result<(), AllocError>
    requires within { index + 1 < length program.now.cut.now.code }
    requires short { index < 65536 }
    requires known { IsKnown program.now.table.now id }
    requires room { depth + fuel + 1 < 65536 }
    ensures { let t = program.now.table.now in
        let c = program.now.cut.now in
        let rest = outline_within c.code c.marks program.now.counted fuel index (index + 1) in
        let added = rows_by depth (Two (One index why) rest) (tree_at t id) in
        IfOk result (λ _. IsAppended t out.old.items added out.new.items) }
{
    let first = left(program.table, id);
    let rest = right(program.table, id);
    push(program.table, out, Row::Both)?;
    push_goal(program.table, out, index, why, depth, first)?;
    walk(program, out, fuel, index, index + 1, depth, rest)
}

/// Lists what `index` asks for if its branch is taken, or isn't, and the code goes on to index
/// `to`.
#[cycle(walking)]
fn walk_side(
    program: &Program,
    out: &mut Vec<Row>,
    fuel: u32,
    index: u32,
    taken: bool,
    to: u32,
    depth: u32,
    id: Id,
) -> Result<(), AllocError>
    requires within { to < length program.now.cut.now.code }
    requires known { IsKnown program.now.table.now id }
    requires room { depth + fuel + 1 < 65536 }
    ensures { let t = program.now.table.now in
        let c = program.now.cut.now in
        let rest = outline_within c.code c.marks program.now.counted fuel index to in
        let added = rows_by depth (Behind index taken rest) (tree_at t id) in
        IfOk result (λ _. IsAppended t out.old.items added out.new.items) }
{
    let known = left(program.table, id);
    let rest = right(program.table, id);
    let row = Row::Under {
        at: index,
        taken,
        known,
        depth,
    };
    push(program.table, out, row)?;
    walk(program, out, fuel, index, to, depth + 1, rest)
}

/// Lists what `index` asks for if its branch to index `to` is taken, and if it isn't.
#[cycle(walking)]
fn walk_both(
    program: &Program,
    out: &mut Vec<Row>,
    fuel: u32,
    index: u32,
    to: u32,
    depth: u32,
    id: Id,
) -> Result<(), AllocError>
    requires within { to < length program.now.cut.now.code }
    requires next { index + 1 < length program.now.cut.now.code }
    requires short { index < 65536 }
    requires known { IsKnown program.now.table.now id }
    requires room { depth + fuel + 1 < 65536 }
    ensures { let t = program.now.table.now in
        let c = program.now.cut.now in
        let next : ℕ → Outline = outline_within c.code c.marks program.now.counted fuel index in
        let o = Two (Behind index true (next to)) (Behind index false (next (index + 1))) in
        let added = rows_by depth o (tree_at t id) in
        IfOk result (λ _. IsAppended t out.old.items added out.new.items) }
{
    let first = left(program.table, id);
    let rest = right(program.table, id);
    push(program.table, out, Row::Both)?;
    walk_side(program, out, fuel, index, true, to, depth, first)?;
    walk_side(program, out, fuel, index, false, index + 1, depth, rest)
}

/// Lists what the instruction at `index` asks, whether that is annotated or not; its own step isn't
/// counted.
#[cycle(walking)]
fn walk_insn(
    program: &Program,
    out: &mut Vec<Row>,
    fuel: u32,
    index: u32,
    depth: u32,
    id: Id,
) -> Result<(), AllocError>
    requires within { index < length program.now.cut.now.code }
    requires known { IsKnown program.now.table.now id }
    requires room { depth + fuel + 1 < 65536 }
    ensures { let t = program.now.table.now in
        let c = program.now.cut.now in
        let next : ℕ → Outline = outline_within c.code c.marks program.now.counted fuel index in
        let o = outline_of false next index (slice_get c.code index) in
        let added = rows_by depth o (tree_at t id) in
        IfOk result (λ _. IsAppended t out.old.items added out.new.items) }
{
    let code = program.cut.code();
    let insn = code.insn(index);
    match insn.format() {
        Format::Memory { op, .. } => match memory_kind(op) {
            MemoryKind::Address => walk(program, out, fuel, index, index + 1, depth, id),
            MemoryKind::Load => walk_behind(program, out, fuel, index, Why::Load, depth, id),
            MemoryKind::Store => walk_behind(program, out, fuel, index, Why::Store, depth, id),
        },
        Format::Operate { .. } => walk(program, out, fuel, index, index + 1, depth, id),
        Format::Branch { .. } => {
            let to = code.jump(index, &insn);
            walk_both(program, out, fuel, index, to, depth, id)
        }
        Format::Br { .. } => {
            let to = code.jump(index, &insn);
            walk(program, out, fuel, index, to, depth, id)
        }
        Format::Ret => push_goal(program.table, out, index, Why::Return, depth, id),
    }
}

/// Lists what `index` asks for if steps are counted: that one is left, and then what its
/// instruction asks for.
#[cycle(walking)]
fn walk_counted(
    program: &Program,
    out: &mut Vec<Row>,
    fuel: u32,
    index: u32,
    depth: u32,
    id: Id,
) -> Result<(), AllocError>
    requires within { index < length program.now.cut.now.code }
    requires known { IsKnown program.now.table.now id }
    requires room { depth + fuel + 1 < 65536 }
    ensures { let t = program.now.table.now in
        let c = program.now.cut.now in
        let next : ℕ → Outline = outline_within c.code c.marks program.now.counted fuel index in
        let rest = outline_of false next index (slice_get c.code index) in
        let added = rows_by depth (Two (One index Step) rest) (tree_at t id) in
        IfOk result (λ _. IsAppended t out.old.items added out.new.items) }
{
    let first = left(program.table, id);
    let rest = right(program.table, id);
    push(program.table, out, Row::Both)?;
    push_goal(program.table, out, index, Why::Step, depth, first)?;
    walk_insn(program, out, fuel, index, depth, rest)
}

/// Lists what `index` asks for, whether it is annotated or not, following at most `fuel` indices
/// more.
#[cycle(walking)]
pub(crate) fn walk_from(
    program: &Program,
    out: &mut Vec<Row>,
    fuel: u32,
    index: u32,
    depth: u32,
    id: Id,
) -> Result<(), AllocError>
    requires within { index < length program.now.cut.now.code }
    requires known { IsKnown program.now.table.now id }
    requires room { depth + fuel + 1 < 65536 }
    ensures { let t = program.now.table.now in
        let c = program.now.cut.now in
        let next : ℕ → Outline = outline_within c.code c.marks program.now.counted fuel index in
        let o = outline_of program.now.counted next index (slice_get c.code index) in
        let added = rows_by depth o (tree_at t id) in
        IfOk result (λ _. IsAppended t out.old.items added out.new.items) }
{
    if program.counted {
        walk_counted(program, out, fuel, index, depth, id)
    } else {
        walk_insn(program, out, fuel, index, depth, id)
    }
}
