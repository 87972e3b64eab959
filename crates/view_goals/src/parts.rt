//! Listing the goals of each part of a verification condition.
//!
//! Errors: out of memory.

ghost use Rattle.std.specs.Prelude.{◌≡◌, ◌<◌, ◌≤◌, [], ◌∷◌, All, IfOk, length, map, drop, is_some};
ghost use Rattle.alpha_cfg.specs.Cuts.{AreFlags};
ghost use Rattle.term_table.specs.Table.{IsKnown, tree_at};
ghost use Rattle.lf_terms.specs.Encoding.{form_encoding};
ghost use Rattle.prover_class.specs.Parts.{conjoined};
ghost use Rattle.vcgen.specs.Conditions.{AnnotatedCode, entry_part, inv_part};
ghost use Rattle.view_goals.specs.Rows.{row_view, HasKnownId, part_view, HasKnownIds};
ghost use Rattle.view_goals.specs.Rows.{shown_parts, IsCodeOf};
ghost use Rattle.view_goals.specs.Inside.Outlines.{outline_within, rows_by};
ghost use Rattle.view_goals.specs.Inside.Parts.{quantifiers, implication, part_by, inv_outline};
ghost use Rattle.view_goals.specs.Inside.Parts.{inv_parts_by, parts_by, ArePartsAppended};

use crate::reading::{left, right, under};
use crate::rows::{PartRows, Row};
use crate::walk::{Program, walk, walk_from};
use alpha_cfg::Cut;
use std::alloc::AllocError;
use term_table::{Id, Table};

/// Returns how many quantifiers a part has: for m and r0 to r30, and for the remaining steps if
/// they are counted.
fn quantifiers(counted: bool) -> u32
    ensures { result ≡ quantifiers counted }
{
    if counted { 33 } else { 32 }
}

/// Returns the implication below a part's quantifiers.
#[tactic(auto, unfolding(crate::specs::Inside::Parts::implication))]
fn implication(program: &Program, part: Id) -> Id
    requires { IsKnown program.now.table.now part }
    ensures is { let t = program.now.table.now in
        tree_at t result ≡ implication program.now.counted (tree_at t part) }
    ensures known { IsKnown program.now.table.now result }
{
    under(program.table, quantifiers(program.counted), part)
}

/// The rows of what is asked at the start.
fn entry_rows(program: &Program, asked: Id) -> Result<Vec<Row>, AllocError>
    requires { IsKnown program.now.table.now asked }
    ensures exact { let t = program.now.table.now in
        let c = program.now.cut.now in
        let o = outline_within c.code c.marks program.now.counted (length c.code) 0 0 in
        IfOk result (λ v. map (row_view t) v.items ≡ rows_by 0 o (tree_at t asked)) }
    ensures known { IfOk result (λ v. All (HasKnownId program.now.table.now) v.items) }
{
    let count = program.cut.code().count();
    let mut rows = Vec::new(program.table.allocator());
    walk(program, &mut rows, count, 0, 0, 0, asked)?;
    Ok(rows)
}

/// The rows of what the annotated index asks.
fn inv_rows(program: &Program, index: u32, asked: Id) -> Result<Vec<Row>, AllocError>
    requires within { index < length program.now.cut.now.code }
    requires asked { IsKnown program.now.table.now asked }
    ensures exact { let t = program.now.table.now in
        let c = program.now.cut.now in
        let o = inv_outline c.code c.marks program.now.counted index in
        IfOk result (λ v. map (row_view t) v.items ≡ rows_by 0 o (tree_at t asked)) }
    ensures known { IfOk result (λ v. All (HasKnownId program.now.table.now) v.items) }
{
    let count = program.cut.code().count();
    let mut rows = Vec::new(program.table.allocator());
    walk_from(program, &mut rows, count, index, 0, asked)?;
    Ok(rows)
}

/// The part of the start.
fn entry_part(program: &Program, part: Id) -> Result<PartRows, AllocError>
    requires { IsKnown program.now.table.now part }
    ensures exact { let t = program.now.table.now in
        let c = program.now.cut.now in
        let o = outline_within c.code c.marks program.now.counted (length c.code) 0 0 in
        let made = part_by program.now.counted 0 o (tree_at t part) in
        IfOk result (λ p. part_view t p ≡ made) }
    ensures known { IfOk result (HasKnownIds program.now.table.now) }
{
    let implied = implication(program, part);
    let known = left(program.table, implied);
    let rows = entry_rows(program, right(program.table, implied))?;
    Ok(PartRows {
        at: 0,
        formula: part,
        known,
        rows,
    })
}

/// The part of an annotated index.
fn inv_part(program: &Program, index: u32, part: Id) -> Result<PartRows, AllocError>
    requires within { index < length program.now.cut.now.code }
    requires part { IsKnown program.now.table.now part }
    ensures exact { let t = program.now.table.now in
        let c = program.now.cut.now in
        let o = inv_outline c.code c.marks program.now.counted index in
        let made = part_by program.now.counted index o (tree_at t part) in
        IfOk result (λ p. part_view t p ≡ made) }
    ensures known { IfOk result (HasKnownIds program.now.table.now) }
{
    let implied = implication(program, part);
    let known = left(program.table, implied);
    let rows = inv_rows(program, index, right(program.table, implied))?;
    Ok(PartRows {
        at: index,
        formula: part,
        known,
        rows,
    })
}

/// Appends a part to the list.
fn push(table: &Table, out: &mut Vec<PartRows>, part: PartRows) -> Result<(), AllocError>
    requires { HasKnownIds table.now part }
    ensures { let added = part_view table.now part ∷ [] in
        IfOk result (λ _. ArePartsAppended table.now out.old.items added out.new.items) }
{
    let _ = table; // only the clauses speak of it
    out.push(part)?;
    Ok(())
}

/// Lists the parts of the annotated indices from place `from` on; `rest` is their conjunction.
fn push_inv_parts(
    program: &Program,
    out: &mut Vec<PartRows>,
    invs: &[(u32, Id)],
    from: usize,
    rest: Id,
) -> Result<(), AllocError>
    requires inside { All (λ p. p.0 < length program.now.cut.now.code) invs.now }
    requires from { from ≤ length invs.now }
    requires rest { IsKnown program.now.table.now rest }
    ensures { let t = program.now.table.now in
        let c = program.now.cut.now in
        let indices = map (λ p. p.0) (drop from invs.now) in
        let added = inv_parts_by c.code c.marks program.now.counted indices (tree_at t rest) in
        IfOk result (λ _. ArePartsAppended t out.old.items added out.new.items) }
{
    if from == invs.len() {
        return Ok(());
    }
    let pair = invs[from];
    let (index, _) = pair;
    let here = left(program.table, rest);
    let others = right(program.table, rest);
    let part = inv_part(program, index, here)?;
    push(program.table, out, part)?;
    push_inv_parts(program, out, invs, from + 1, others)
}

/// The parts of the condition.
fn parts_of(
    program: &Program,
    invs: &[(u32, Id)],
    condition: Id,
) -> Result<Vec<PartRows>, AllocError>
    requires inside { All (λ p. p.0 < length program.now.cut.now.code) invs.now }
    requires condition { IsKnown program.now.table.now condition }
    ensures exact { let t = program.now.table.now in
        let c = program.now.cut.now in
        let indices = map (λ p. p.0) invs.now in
        let made = parts_by c.code c.marks program.now.counted indices (tree_at t condition) in
        IfOk result (λ v. map (part_view t) v.items ≡ made) }
    ensures known { IfOk result (λ v. All (HasKnownIds program.now.table.now) v.items) }
{
    let first = left(program.table, condition);
    let rest = right(program.table, condition);
    let mut parts = Vec::new(program.table.allocator());
    let start = entry_part(program, first)?;
    push(program.table, &mut parts, start)?;
    push_inv_parts(program, &mut parts, invs, 0, rest)?;
    Ok(parts)
}

/// Lists the goals of each part of a verification condition, in the order of the code: the part of
/// the start, then the part of each annotated index. Adds nothing to the table, since each formula
/// occurs in the condition's own term.
///
/// `invs` are the annotated indices, in the order of the condition's parts; their ids aren't used.
/// `bound` is the maximal number of steps of the code, if steps are bounded. `condition` is the
/// condition's id, as `prover_conditions::condition_in` makes it. The rows are right for all code
/// with these indices and this bound whose condition the id encodes; for any other id they say
/// nothing.
///
/// Time and number of rows depend on the unfolded length of `cut`, whose limit is tested before a
/// condition is made (`vcgen::MAX_UNFOLDED`).
///
/// Errors: out of memory.
pub fn condition_goals(
    table: &Table,
    cut: &Cut,
    invs: &[(u32, Id)],
    bound: Option<u32>,
    condition: Id,
) -> Result<Vec<PartRows>, AllocError>
    requires marks { AreFlags (map (λ p. p.0) invs.now) (length cut.now.code) cut.now.marks }
    requires condition { IsKnown table.now condition }
    ensures exact { let t = table.now in
        (c : AnnotatedCode) → IsCodeOf c cut.now.code (map (λ p. p.0) invs.now) bound
        → tree_at t condition ≡ form_encoding (conjoined (entry_part c ∷ map (inv_part c) c.invs))
        → IfOk result (λ v. map (part_view t) v.items ≡ shown_parts c) }
    ensures known { IfOk result (λ v. All (HasKnownIds table.now) v.items) }
{
    let program = Program {
        table,
        cut,
        counted: bound.is_some(),
    };
    parts_of(&program, invs, condition)
}
