//! Marking the goals of a part.
//!
//! Errors: out of memory, and `Results` if the search would cache more results than it may; every
//! id keeps its tree.

ghost use Rattle.std.specs.Prelude.{◌≡◌, ◌≤◌, ℕ, Option, IfOk, OnOk, length};
ghost use Rattle.term_table.specs.Table.{IsKnown, tree_at, Extends};
ghost use Rattle.formula_tree.specs.Formulas.{Form};
ghost use Rattle.lf_terms.specs.Encoding.{form_encoding};
ghost use Rattle.prover_goals.specs.Search.{IsSearch, IsContext, IsAfter};
ghost use Rattle.view_goals.specs.Goals.{PartGoals};
ghost use Rattle.view_goals.specs.Rows.{part_view, shown_part};
ghost use Rattle.view_marks.specs.Marks.{part_form, part_marks};
ghost use Rattle.view_marks.specs.Inside.Marking.{AreAllEasy, AreMarked, ArePartsMarked};
ghost use Rattle.view_marks.specs.Inside.Marking.{AreBothMarked, AreUnderMarked, IsPartMarked};
ghost use Rattle.view_marks.specs.Inside.Marking.{unquantified};

use hereditary_subst::Exhausted;
use prover_conditions::proof_by_all_means;
use prover_goals::{Context, Search, under_hypothesis};
use prover_hyps::Hypotheses;
use prover_ids::{FormNode, form_node, raised};
use std::alloc::AllocError;
use term_table::{Id, Table};
use view_goals::{PartRows, Row};

/// How many binders are outside of what is below a part's quantifiers: those of the memory and of
/// registers 0 to 30, and that of the remaining steps, which counts even if it is absent.
pub const PART_BINDERS: u32 = 33;

/// Marks the goals that the rows begin with as easy, and returns the remaining rows.
fn push_easy<'a>(rows: &'a [Row], marks: &mut Vec<bool>) -> Result<&'a [Row], AllocError>
    ensures exact { IfOk result (λ rest.
        AreAllEasy rows.now marks.old.items marks.new.items rest.now) }
    ensures short { IfOk result (λ rest. length rest.now ≤ length rows.now) }
{
    match rows {
        [] => Ok(rows),
        [first, rest @ ..] => match first {
            Row::Goal { .. } => {
                marks.push(true)?;
                Ok(rest)
            }
            Row::Both => {
                let others = push_easy(rest, marks)?;
                push_easy(others, marks)
            }
            Row::Under { .. } => push_easy(rest, marks),
        },
    }
}

/// Marks the goals that the rows begin with, which together are `goal`, under the hypotheses of
/// `context`, and returns the remaining rows.
#[cycle(marking)]
#[tactic(auto, using(prover_goals::proofs::Kept::rows))]
fn push_marks<'a>(
    table: &mut Table,
    search: &mut Search,
    context: &mut Context,
    counted: bool,
    goal: Id,
    rows: &'a [Row],
    marks: &mut Vec<bool>,
) -> Result<&'a [Row], Exhausted>
    requires goal { IsKnown table.old goal }
    requires search { IsSearch table.old search.old }
    requires context { IsContext table.old context.old }
    ensures exact { let c = context.old in IfOk result (λ rest.
        AreMarked counted table.old c.hyps c.outside goal
        rows.now marks.old.items marks.new.items rest.now) }
    ensures extends { Extends table.old table.new }
    ensures after { OnOk result (IsAfter table.new search.new context.old context.new) }
{
    let proof = proof_by_all_means(table, search, context, counted, goal)?;
    if proof.is_some() {
        let rest = push_easy(rows, marks)?;
        return Ok(rest);
    }
    push_parts(table, search, context, counted, goal, rows, marks)
}

/// Marks the goals that the rows begin with, which together are `goal`, if `goal` isn't easy as a
/// whole; returns the remaining rows.
#[cycle(marking)]
#[tactic(auto, using(prover_goals::proofs::Kept::rows))]
fn push_parts<'a>(
    table: &mut Table,
    search: &mut Search,
    context: &mut Context,
    counted: bool,
    goal: Id,
    rows: &'a [Row],
    marks: &mut Vec<bool>,
) -> Result<&'a [Row], Exhausted>
    requires goal { IsKnown table.old goal }
    requires search { IsSearch table.old search.old }
    requires context { IsContext table.old context.old }
    ensures exact { let c = context.old in IfOk result (λ rest.
        ArePartsMarked counted table.old c.hyps c.outside goal
        rows.now marks.old.items marks.new.items rest.now) }
    ensures extends { Extends table.old table.new }
    ensures after { OnOk result (IsAfter table.new search.new context.old context.new) }
{
    match rows {
        [] => Ok(rows),
        [first, rest @ ..] => match first {
            Row::Goal { .. } => {
                marks.push(false)?;
                Ok(rest)
            }
            Row::Both => push_both(table, search, context, counted, goal, rest, marks),
            Row::Under { .. } => push_under(table, search, context, counted, goal, rest, marks),
        },
    }
}

/// Marks the goals of the two that `goal` conjoins, whose rows come one after the other.
#[cycle(marking)]
#[tactic(auto, using(prover_goals::proofs::Kept::rows))]
fn push_both<'a>(
    table: &mut Table,
    search: &mut Search,
    context: &mut Context,
    counted: bool,
    goal: Id,
    rows: &'a [Row],
    marks: &mut Vec<bool>,
) -> Result<&'a [Row], Exhausted>
    requires goal { IsKnown table.old goal }
    requires search { IsSearch table.old search.old }
    requires context { IsContext table.old context.old }
    ensures exact { let c = context.old in IfOk result (λ rest.
        AreBothMarked counted table.old c.hyps c.outside goal
        rows.now marks.old.items marks.new.items rest.now) }
    ensures extends { Extends table.old table.new }
    ensures after { OnOk result (IsAfter table.new search.new context.old context.new) }
{
    match form_node(table, goal) {
        FormNode::And(a, b) => {
            let rest = push_marks(table, search, context, counted, a, rows, marks)?;
            push_marks(table, search, context, counted, b, rest, marks)
        }
        _ => Ok(rows),
    }
}

/// Marks the goals that `goal` asks for under its hypothesis.
#[cycle(marking)]
#[tactic(auto, using(prover_goals::proofs::Kept::rows))]
fn push_under<'a>(
    table: &mut Table,
    search: &mut Search,
    context: &mut Context,
    counted: bool,
    goal: Id,
    rows: &'a [Row],
    marks: &mut Vec<bool>,
) -> Result<&'a [Row], Exhausted>
    requires goal { IsKnown table.old goal }
    requires search { IsSearch table.old search.old }
    requires context { IsContext table.old context.old }
    ensures exact { let c = context.old in IfOk result (λ rest.
        AreUnderMarked counted table.old c.hyps c.outside goal
        rows.now marks.old.items marks.new.items rest.now) }
    ensures extends { Extends table.old table.new }
    ensures after { OnOk result (IsAfter table.new search.new context.old context.new) }
{
    match form_node(table, goal) {
        FormNode::Imp(a, b) => {
            let mut under = under_hypothesis(table, search, context, a)?;
            let inner = raised(table, &mut search.memo, b)?;
            push_marks(table, search, &mut under, counted, inner, rows, marks)
        }
        _ => Ok(rows),
    }
}

/// Returns what is below all the quantifiers at a formula's head.
fn under_quantifiers(table: &Table, id: Id) -> Id
    requires { IsKnown table.now id }
    ensures known { IsKnown table.now result }
    ensures exact { (A : Form) → tree_at table.now id ≡ form_encoding A
        → tree_at table.now result ≡ form_encoding (unquantified A) }
{
    match form_node(table, id) {
        FormNode::All(body) => under_quantifiers(table, body),
        FormNode::AllMem(body) => under_quantifiers(table, body),
        _ => id,
    }
}

/// Marks the goals of a part; `inner` is what is below its quantifiers.
#[tactic(auto, using(prover_goals::proofs::Kept::rows))]
fn push_part(
    table: &mut Table,
    search: &mut Search,
    counted: bool,
    inner: Id,
    rows: &[Row],
    marks: &mut Vec<bool>,
) -> Result<(), Exhausted>
    requires inner { IsKnown table.old inner }
    requires search { IsSearch table.old search.old }
    ensures exact { OnOk result
        (IsPartMarked counted table.old inner rows.now marks.old.items marks.new.items) }
    ensures extends { Extends table.old table.new }
    ensures search { OnOk result (IsSearch table.new search.new) }
{
    let none = Hypotheses::new(table.allocator());
    let mut context = Context::new(table, PART_BINDERS, none)?;
    let proof = proof_by_all_means(table, search, &mut context, counted, inner)?;
    if proof.is_some() {
        push_easy(rows, marks)?;
        return Ok(());
    }
    push_under(table, search, &mut context, counted, inner, rows, marks)?;
    Ok(())
}

/// Returns one mark for each goal of a part, in order: true if the goal is easy, by itself or
/// because what it is part of is. The marks are right for every part that `part` shows. `counted`
/// says whether steps are counted.
///
/// Errors: out of memory, and `Results` if `search` would cache more than it may; every id keeps
/// its tree.
#[tactic(auto, using(prover_goals::proofs::Kept::rows))]
pub fn marks_of(
    table: &mut Table,
    search: &mut Search,
    counted: bool,
    part: &PartRows,
) -> Result<Vec<bool>, Exhausted>
    requires part { IsKnown table.old part.now.formula }
    requires search { IsSearch table.old search.old }
    ensures exact { (bound : Option ℕ) (p : PartGoals)
        → part_view table.old part.now ≡ shown_part bound (part_form bound p) p
        → IfOk result (λ v. v.items ≡ part_marks counted p) }
    ensures extends { Extends table.old table.new }
    ensures search { OnOk result (IsSearch table.new search.new) }
{
    let mut marks = Vec::new(table.allocator());
    let inner = under_quantifiers(table, part.formula);
    push_part(
        table,
        search,
        counted,
        inner,
        part.rows.as_slice(),
        &mut marks,
    )?;
    Ok(marks)
}
