//! The hints after a goal that isn't easy.
//!
//! Errors: out of memory, and `Results` if the search would cache more than it may; every id keeps
//! its tree.

ghost use Rattle.std.specs.Prelude.{◌≡◌, ◌<◌, ◌∷◌, [], ℕ, List, Option, is_some, map, length};
ghost use Rattle.std.specs.Prelude.{get_or, IfOk, OnOk};
ghost use Rattle.std.specs.List.{flat_map};
ghost use Rattle.term_table.specs.Table.{IsKnown, AllKnown, tree_at, Extends};
ghost use Rattle.formula_tree.specs.Formulas.{Form};
ghost use Rattle.lf_terms.specs.Encoding.{form_encoding};
ghost use Rattle.prover_goals.specs.Search.{IsSearch};
ghost use Rattle.view_labels.specs.Labels.{bounds_label};
ghost use Rattle.view_marks.specs.Hints.{HintView, known_hyps};
ghost use Rattle.view_marks.specs.Answers.{IsHint, IsKnownHint};
ghost use Rattle.view_lines.specs.Lines.{plain_line};
ghost use Rattle.view_goal_text.specs.Hints.{missing_label, missing_lines, half_text, half_lines};
ghost use Rattle.view_goal_text.specs.Hints.{like_line, like_lines, said_lines};
ghost use Rattle.view_goal_text.specs.Hints.{part_hint, part_hints, goal_hint};
ghost use Rattle.view_goal_text.specs.Inside.FormTerms.{IsFormTerm, AreFormTerms};
ghost use Rattle.view_lines.specs.Shown.{AreKnownLines, AreAdded};

use crate::style::Manner;
use hereditary_subst::Exhausted;
use prover_goals::Search;
use std::alloc::{AllocError, Global};
use term_table::{Id, Table};
use view_labels::{bounds_label, label_of};
use view_lines::{ShownLine, is_false_term, push_formula, push_words};
use view_marks::{Half, Hint, Wanted, half_of, hint_about, missing_parts};

/// A missing part of a goal, and the step bound.
#[derive(Clone, Copy)]
struct Missing {
    bound: Option<u32>,
    part: Id,
}

/// What is printed before a missing part, which is false by computing or not.
fn missing_label(alloc: Global, wrong: bool) -> Result<Vec<u8>, AllocError>
    ensures { IfOk result (λ v. v.items ≡ missing_label wrong) }
{
    if wrong {
        label_of(alloc, "  false: ")
    } else {
        label_of(alloc, "  missing: ")
    }
}

/// The line of the missing part of a goal, unless that is the goal itself.
fn push_missing(
    table: &mut Table,
    bound: Option<u32>,
    lines: &mut Vec<ShownLine>,
    part: Id,
    goal: Id,
) -> Result<(), AllocError>
    requires lines { AreKnownLines table.old lines.old.items }
    requires part { IsKnown table.old part }
    requires goal { IsKnown table.old goal }
    ensures exact { let t = table.old in
        let added = missing_lines bound (tree_at t part) (tree_at t goal) in
        OnOk result (AreAdded bound table.old table.new lines.old.items added lines.new.items) }
    ensures known { OnOk result (AreKnownLines table.new lines.new.items) }
    ensures extends { Extends table.old table.new }
{
    let same = table.same(part, goal);
    if same {
        return Ok(());
    }
    let wrong = is_false_term(table, bound, part)?;
    let label = missing_label(table.allocator(), wrong)?;
    push_formula(table, bound, lines, label, part)?;
    Ok(())
}

/// The id at a place.
fn id_at(table: &Table, ids: &[Id], index: usize) -> Id
    requires ids { AllKnown table.now ids.now }
    requires within { index < length ids.now }
    ensures known { IsKnown table.now result }
    ensures at { result ≡ get_or ids.now index result }
{
    let _ = table; // only the clauses speak of it
    ids[index]
}

/// What is said of a half that isn't easy.
fn half_label(alloc: Global, half: Half) -> Result<Vec<u8>, AllocError>
    ensures { IfOk result (λ v. v.items ≡ half_text half) }
{
    match half {
        Half::Premise => label_of(alloc, "    its premise isn't easy"),
        Half::Conclusion => label_of(alloc, "    its address is another"),
    }
}

/// The line of a half that isn't easy.
fn push_half_text(table: &Table, lines: &mut Vec<ShownLine>, half: Half) -> Result<(), AllocError>
    requires { AreKnownLines table.now lines.old.items }
    ensures exact { (bound : Option ℕ) → OnOk result
        (AreAdded bound table.now table.now lines.old.items (plain_line (half_text half) ∷ [])
        lines.new.items) }
    ensures known { OnOk result (AreKnownLines table.now lines.new.items) }
{
    let label = half_label(table.allocator(), half)?;
    push_words(table, lines, label)?;
    Ok(())
}

/// The line of the half of a hypothesis that isn't easy, if it is an implication.
fn push_half(
    table: &Table,
    lines: &mut Vec<ShownLine>,
    half: Option<Half>,
) -> Result<(), AllocError>
    requires { AreKnownLines table.now lines.old.items }
    ensures exact { (bound : Option ℕ) → OnOk result
        (AreAdded bound table.now table.now lines.old.items (half_lines half) lines.new.items) }
    ensures known { OnOk result (AreKnownLines table.now lines.new.items) }
{
    match half {
        None => Ok(()),
        Some(half) => push_half_text(table, lines, half),
    }
}

/// Adds the lines of a hypothesis that gives rights to addresses with equal summands.
#[tactic(auto, using(prover_goals::proofs::Kept::rows))]
fn push_like(
    table: &mut Table,
    search: &mut Search,
    lines: &mut Vec<ShownLine>,
    missing: &Missing,
    id: Id,
) -> Result<(), Exhausted>
    requires lines { AreKnownLines table.old lines.old.items }
    requires missing { IsKnown table.old missing.now.part }
    requires id { IsKnown table.old id }
    requires search { IsSearch table.old search.old }
    ensures exact { let m = missing.now in (M F : Form)
        → tree_at table.old m.part ≡ form_encoding M → tree_at table.old id ≡ form_encoding F
        → OnOk result (AreAdded m.bound table.old table.new lines.old.items
        (like_line (is_some m.bound) M F) lines.new.items) }
    ensures known { OnOk result (AreKnownLines table.new lines.new.items) }
    ensures extends { Extends table.old table.new }
    ensures search { OnOk result (IsSearch table.new search.new) }
{
    let bound = missing.bound;
    let half = half_of(table, search, bound.is_some(), id, missing.part)?;
    let label = label_of(table.allocator(), "  like it: ")?;
    push_formula(table, bound, lines, label, id)?;
    push_half(table, lines, half)?;
    Ok(())
}

/// Adds the lines of each hypothesis that gives rights to addresses with equal summands.
fn push_each_like(
    table: &mut Table,
    search: &mut Search,
    lines: &mut Vec<ShownLine>,
    missing: &Missing,
    ids: &[Id],
) -> Result<(), Exhausted>
    requires lines { AreKnownLines table.old lines.old.items }
    requires missing { IsKnown table.old missing.now.part }
    requires ids { AllKnown table.old ids.now }
    requires search { IsSearch table.old search.old }
    ensures exact { let m = missing.now in (M : Form) (Fs : List Form)
        → tree_at table.old m.part ≡ form_encoding M
        → map (tree_at table.old) ids.now ≡ map form_encoding Fs
        → OnOk result (AreAdded m.bound table.old table.new lines.old.items
        (flat_map (like_line (is_some m.bound) M) Fs) lines.new.items) }
    ensures known { OnOk result (AreKnownLines table.new lines.new.items) }
    ensures extends { Extends table.old table.new }
    ensures search { OnOk result (IsSearch table.new search.new) }
{
    for index in 0..ids.len() {
        let id = id_at(table, ids, index);
        push_like(table, search, lines, missing, id)?;
    }
    Ok(())
}

/// Adds the lines of each hypothesis that gives rights to addresses with equal summands, or a line
/// that there is none.
fn push_rights(
    table: &mut Table,
    search: &mut Search,
    lines: &mut Vec<ShownLine>,
    missing: &Missing,
    ids: &[Id],
) -> Result<(), Exhausted>
    requires lines { AreKnownLines table.old lines.old.items }
    requires missing { IsKnown table.old missing.now.part }
    requires ids { AllKnown table.old ids.now }
    requires search { IsSearch table.old search.old }
    ensures exact { let m = missing.now in (M : Form) (Fs : List Form)
        → tree_at table.old m.part ≡ form_encoding M
        → map (tree_at table.old) ids.now ≡ map form_encoding Fs
        → OnOk result (AreAdded m.bound table.old table.new lines.old.items
        (like_lines (is_some m.bound) M Fs) lines.new.items) }
    ensures known { OnOk result (AreKnownLines table.new lines.new.items) }
    ensures extends { Extends table.old table.new }
    ensures search { OnOk result (IsSearch table.new search.new) }
{
    let none = ids.is_empty();
    if none {
        let text = "  nothing known has this address's summands";
        let label = label_of(table.allocator(), text)?;
        push_words(table, lines, label)?;
        return Ok(());
    }
    push_each_like(table, search, lines, missing, ids)?;
    Ok(())
}

/// The line of what is known of both sides of a comparison.
fn push_bounds(
    table: &Table,
    lines: &mut Vec<ShownLine>,
    upper: u64,
    lower: u64,
) -> Result<(), AllocError>
    requires { AreKnownLines table.now lines.old.items }
    ensures exact { (bound : Option ℕ) → OnOk result
        (AreAdded bound table.now table.now lines.old.items
        (plain_line (bounds_label upper lower) ∷ []) lines.new.items) }
    ensures known { OnOk result (AreKnownLines table.now lines.new.items) }
{
    let label = bounds_label(table.allocator(), upper, lower)?;
    push_words(table, lines, label)?;
    Ok(())
}

/// What is said of the missing part.
fn push_said(
    table: &mut Table,
    search: &mut Search,
    lines: &mut Vec<ShownLine>,
    missing: &Missing,
    hint: &Hint,
) -> Result<(), Exhausted>
    requires lines { AreKnownLines table.old lines.old.items }
    requires missing { IsKnown table.old missing.now.part }
    requires hint { IsKnownHint table.old hint.now }
    requires search { IsSearch table.old search.old }
    ensures exact { let m = missing.now in (M : Form) (view : HintView)
        → tree_at table.old m.part ≡ form_encoding M → IsHint table.old view hint.now
        → OnOk result (AreAdded m.bound table.old table.new lines.old.items
        (said_lines (is_some m.bound) M view) lines.new.items) }
    ensures known { OnOk result (AreKnownLines table.new lines.new.items) }
    ensures extends { Extends table.old table.new }
    ensures search { OnOk result (IsSearch table.new search.new) }
{
    match hint {
        Hint::Plain => Ok(()),
        Hint::Bounds(upper, lower) => {
            push_bounds(table, lines, *upper, *lower)?;
            Ok(())
        }
        Hint::Rights(ids) => push_rights(table, search, lines, missing, ids.as_slice()),
    }
}

/// Adds the lines about a missing part of a goal under the hypotheses `known`.
#[tactic(auto, using(prover_goals::proofs::Kept::rows))]
fn push_part_hint(
    table: &mut Table,
    search: &mut Search,
    bound: Option<u32>,
    lines: &mut Vec<ShownLine>,
    known: &[Id],
    part: Id,
    goal: Id,
) -> Result<(), Exhausted>
    requires lines { AreKnownLines table.old lines.old.items }
    requires known { AllKnown table.old known.now }
    requires part { IsKnown table.old part }
    requires goal { IsKnown table.old goal }
    requires search { IsSearch table.old search.old }
    ensures exact { (Fs : List Form) (M : Form)
        → map (tree_at table.old) known.now ≡ map form_encoding Fs
        → tree_at table.old part ≡ form_encoding M → OnOk result
        (AreAdded bound table.old table.new lines.old.items
        (part_hint bound (known_hyps [] 0 Fs) M (tree_at table.old goal)) lines.new.items) }
    ensures known { OnOk result (AreKnownLines table.new lines.new.items) }
    ensures extends { Extends table.old table.new }
    ensures search { OnOk result (IsSearch table.new search.new) }
{
    let hint = hint_about(table, search, bound.is_some(), known, part)?;
    push_missing(table, bound, lines, part, goal)?;
    let missing = Missing { bound, part };
    push_said(table, search, lines, &missing, &hint)?;
    Ok(())
}

/// Adds the lines about each of the missing parts of a goal under the hypotheses `known`.
fn push_part_hints(
    table: &mut Table,
    search: &mut Search,
    bound: Option<u32>,
    lines: &mut Vec<ShownLine>,
    known: &[Id],
    parts: &[Id],
    goal: Id,
) -> Result<(), Exhausted>
    requires lines { AreKnownLines table.old lines.old.items }
    requires known { AllKnown table.old known.now }
    requires parts { AllKnown table.old parts.now }
    requires goal { IsKnown table.old goal }
    requires search { IsSearch table.old search.old }
    ensures exact { (Fs Ms : List Form)
        → map (tree_at table.old) known.now ≡ map form_encoding Fs
        → map (tree_at table.old) parts.now ≡ map form_encoding Ms → OnOk result
        (AreAdded bound table.old table.new lines.old.items
        (part_hints bound (known_hyps [] 0 Fs) Ms (tree_at table.old goal)) lines.new.items) }
    ensures known { OnOk result (AreKnownLines table.new lines.new.items) }
    ensures extends { Extends table.old table.new }
    ensures search { OnOk result (IsSearch table.new search.new) }
{
    for index in 0..parts.len() {
        let part = id_at(table, parts, index);
        push_part_hint(table, search, bound, lines, known, part, goal)?;
    }
    Ok(())
}

/// Adds the hints for a goal under the hypotheses `known`.
#[tactic(auto, using(prover_goals::proofs::Kept::rows))]
pub(crate) fn push_hint(
    table: &mut Table,
    search: &mut Search,
    manner: &Manner,
    lines: &mut Vec<ShownLine>,
    known: &[Id],
    goal: Id,
) -> Result<(), Exhausted>
    requires lines { AreKnownLines table.old lines.old.items }
    requires known { AllKnown table.old known.now }
    requires goal { IsKnown table.old goal }
    requires search { IsSearch table.old search.old }
    ensures exact { let m = manner.now in
        let trees = map (tree_at table.old) known.now in
        let added = goal_hint m.style.now.all m.bound trees (tree_at table.old goal) in
        AreFormTerms trees → IsFormTerm (tree_at table.old goal) → OnOk result
        (AreAdded m.bound table.old table.new lines.old.items added lines.new.items) }
    ensures known { OnOk result (AreKnownLines table.new lines.new.items) }
    ensures extends { Extends table.old table.new }
    ensures search { OnOk result (IsSearch table.new search.new) }
{
    let bound = manner.bound;
    let wanted = Wanted {
        counted: bound.is_some(),
        all: manner.style.all,
    };
    let parts = missing_parts(table, search, wanted, known, goal)?;
    push_part_hints(table, search, bound, lines, known, parts.as_slice(), goal)?;
    Ok(())
}
