//! The walk over code against a given formula: whether the walk would build that formula.
//!
//! It proceeds as the walk of `vcgen` that builds terms does. It holds the subformula that has to
//! be at the current place, and ends at the first difference. It substitutes into no invariant.

ghost use Rattle.std.specs.Prelude.{◌≡◌, ◌↔◌, ◌<◌, IfOk, IsTrue, None, length, slice_get};
ghost use Rattle.word_ops.specs.declared.Rel.TheVariants.{Ult};
ghost use Rattle.term_table.specs.Table.{IsKnown, tree_at, Extends, id_trees};
ghost use Rattle.lf_signature.specs.Terms.{lit, rel_term, imp_term, and_term};
ghost use Rattle.lf_encode.specs.PutTree.{machine_terms_at};
ghost use Rattle.lf_encode.specs.Kept.{AreMachineTerms};
ghost use Rattle.vcgen.specs.WalkTree.{walked, walked_at, one_less};
ghost use Rattle.vcgen.specs.WalkTree.{start_terms, entry_terms};
ghost use Rattle.vcgen.specs.Symbols.{ids_of};
ghost use Rattle.gate_match.specs.Inside.Comparisons.{Compares};
ghost use Rattle.hereditary_subst.specs.Limits.{SpendsResults};

use crate::comparisons::{Comparisons, is_put_by};
use crate::goals::sides;
use hereditary_subst::{Exhausted, Memo};
use lf_signature::numbers::{AND, FF, IMP};
use term_table::{Id, Node, Table};
use vcgen::{Effect, Program, Symbols, counted_step, effect_at, invariant};

/// Whether `goal` is the term of the walk from `index` over at most `fuel` instructions, with these
/// terms for the machine's variables.
#[cycle(comparing)]
pub(crate) fn is_walk(
    table: &mut Table,
    shifts: &mut Memo,
    kept: &mut Comparisons,
    program: &Program,
    fuel: u32,
    index: u32,
    symbols: &Symbols,
    goal: Id,
) -> Result<bool, Exhausted>
    requires walking { Compares table.old program.now symbols.now shifts.old kept.old }
    requires within { index < length program.now.code.now }
    requires goal { IsKnown table.old goal }
    ensures exact { let t = table.old in
        let terms = machine_terms_at t (ids_of symbols.now) in
        let p = program.now in
        let walk = walked p.bound p.code.now (id_trees t p.invs.now) (tree_at t p.post) fuel in
        IfOk result (λ b. IsTrue b ↔ (tree_at t goal ≡ walk index terms)) }
    ensures extends { Extends table.old table.new }
    ensures walking { Compares table.new program.now symbols.now shifts.new kept.new }
    ensures spends { SpendsResults table.new shifts.old shifts.new result }
{
    match invariant(program.invs, index) {
        Some(inv) => is_put_by(table, shifts, kept, inv, symbols, goal),
        None => {
            if fuel == 0 {
                let falsity = table.intern(Node::Const(FF))?;
                return Ok(table.same(goal, falsity));
            }
            is_walk_from(table, shifts, kept, program, fuel - 1, index, symbols, goal)
        }
    }
}

/// Whether `goal` is the term of the walk with the terms of `after`.
#[cycle(comparing)]
fn is_walk_with(
    table: &mut Table,
    shifts: &mut Memo,
    kept: &mut Comparisons,
    program: &Program,
    fuel: u32,
    index: u32,
    symbols: &Symbols,
    after: &Symbols,
    goal: Id,
) -> Result<bool, Exhausted>
    requires walking { Compares table.old program.now symbols.now shifts.old kept.old }
    requires within { index < length program.now.code.now }
    requires after { AreMachineTerms table.old (ids_of after.now) }
    requires goal { IsKnown table.old goal }
    ensures exact { let t = table.old in
        let terms = machine_terms_at t (ids_of after.now) in
        let p = program.now in
        let walk = walked p.bound p.code.now (id_trees t p.invs.now) (tree_at t p.post) fuel in
        IfOk result (λ b. IsTrue b ↔ (tree_at t goal ≡ walk index terms)) }
    ensures extends { Extends table.old table.new }
    ensures walking { Compares table.new program.now symbols.now shifts.new kept.new }
    ensures spends { SpendsResults table.new shifts.old shifts.new result }
{
    let mut inner = kept.inner(table, symbols, after);
    let equal = is_walk(table, shifts, &mut inner, program, fuel, index, after, goal)?;
    kept.resume(table, symbols, after, inner);
    Ok(equal)
}

/// Whether `goal` says that the walk from the index of `side` holds if its formula does.
#[cycle(comparing)]
fn is_side(
    table: &mut Table,
    shifts: &mut Memo,
    kept: &mut Comparisons,
    program: &Program,
    fuel: u32,
    symbols: &Symbols,
    side: (Id, u32),
    goal: Id,
) -> Result<bool, Exhausted>
    requires walking { Compares table.old program.now symbols.now shifts.old kept.old }
    requires within { side.1 < length program.now.code.now }
    requires side { IsKnown table.old side.0 }
    requires goal { IsKnown table.old goal }
    ensures exact { let t = table.old in
        let terms = machine_terms_at t (ids_of symbols.now) in
        let p = program.now in
        let walk = walked p.bound p.code.now (id_trees t p.invs.now) (tree_at t p.post) fuel in
        let made = imp_term (tree_at t side.0) (walk side.1 terms) in
        IfOk result (λ b. IsTrue b ↔ (tree_at t goal ≡ made)) }
    ensures extends { Extends table.old table.new }
    ensures walking { Compares table.new program.now symbols.now shifts.new kept.new }
    ensures spends { SpendsResults table.new shifts.old shifts.new result }
{
    let Some(parts) = sides(table, IMP, goal) else {
        return Ok(false);
    };
    if !table.same(parts.first, side.0) {
        return Ok(false);
    }
    let rest = parts.second;
    is_walk(table, shifts, kept, program, fuel, side.1, symbols, rest)
}

/// Whether `goal` is that both sides of a branch are, in this order.
#[cycle(comparing)]
fn is_both(
    table: &mut Table,
    shifts: &mut Memo,
    kept: &mut Comparisons,
    program: &Program,
    fuel: u32,
    symbols: &Symbols,
    taken: (Id, u32),
    passed: (Id, u32),
    goal: Id,
) -> Result<bool, Exhausted>
    requires walking { Compares table.old program.now symbols.now shifts.old kept.old }
    requires target { taken.1 < length program.now.code.now }
    requires next { passed.1 < length program.now.code.now }
    requires taken { IsKnown table.old taken.0 }
    requires passed { IsKnown table.old passed.0 }
    requires goal { IsKnown table.old goal }
    ensures exact { let t = table.old in
        let terms = machine_terms_at t (ids_of symbols.now) in
        let p = program.now in
        let walk = walked p.bound p.code.now (id_trees t p.invs.now) (tree_at t p.post) fuel in
        let made = and_term
        (imp_term (tree_at t taken.0) (walk taken.1 terms))
        (imp_term (tree_at t passed.0) (walk passed.1 terms)) in
        IfOk result (λ b. IsTrue b ↔ (tree_at t goal ≡ made)) }
    ensures extends { Extends table.old table.new }
    ensures walking { Compares table.new program.now symbols.now shifts.new kept.new }
    ensures spends { SpendsResults table.new shifts.old shifts.new result }
{
    let Some(parts) = sides(table, AND, goal) else {
        return Ok(false);
    };
    let (first, second) = (parts.first, parts.second);
    let there = is_side(table, shifts, kept, program, fuel, symbols, taken, first)?;
    if !there {
        return Ok(false);
    }
    is_side(table, shifts, kept, program, fuel, symbols, passed, second)
}

/// Whether `goal` is that the formula `allowed` holds, and the walk from `index` with the terms of
/// `after`.
#[cycle(comparing)]
fn is_behind(
    table: &mut Table,
    shifts: &mut Memo,
    kept: &mut Comparisons,
    program: &Program,
    fuel: u32,
    index: u32,
    symbols: &Symbols,
    allowed: Id,
    after: &Symbols,
    goal: Id,
) -> Result<bool, Exhausted>
    requires walking { Compares table.old program.now symbols.now shifts.old kept.old }
    requires within { index < length program.now.code.now }
    requires allowed { IsKnown table.old allowed }
    requires after { AreMachineTerms table.old (ids_of after.now) }
    requires goal { IsKnown table.old goal }
    ensures exact { let t = table.old in
        let terms = machine_terms_at t (ids_of after.now) in
        let p = program.now in
        let walk = walked p.bound p.code.now (id_trees t p.invs.now) (tree_at t p.post) fuel in
        let made = and_term (tree_at t allowed) (walk index terms) in
        IfOk result (λ b. IsTrue b ↔ (tree_at t goal ≡ made)) }
    ensures extends { Extends table.old table.new }
    ensures walking { Compares table.new program.now symbols.now shifts.new kept.new }
    ensures spends { SpendsResults table.new shifts.old shifts.new result }
{
    let Some(parts) = sides(table, AND, goal) else {
        return Ok(false);
    };
    if !table.same(parts.first, allowed) {
        return Ok(false);
    }
    let rest = parts.second;
    is_walk_with(
        table, shifts, kept, program, fuel, index, symbols, after, rest,
    )
}

/// Whether `goal` is the term of the walk from the instruction at `index`, whether that is
/// annotated or not; its own step isn't counted.
#[cycle(comparing)]
fn is_insn(
    table: &mut Table,
    shifts: &mut Memo,
    kept: &mut Comparisons,
    program: &Program,
    fuel: u32,
    index: u32,
    symbols: &Symbols,
    goal: Id,
) -> Result<bool, Exhausted>
    requires walking { Compares table.old program.now symbols.now shifts.old kept.old }
    requires within { index < length program.now.code.now }
    requires goal { IsKnown table.old goal }
    ensures exact { let t = table.old in
        let terms = machine_terms_at t (ids_of symbols.now) in
        let p = program.now in
        let post = tree_at t p.post in
        let walk = walked p.bound p.code.now (id_trees t p.invs.now) post fuel in
        let insn = slice_get p.code.now index in
        let made = walked_at None walk post index insn terms in
        IfOk result (λ b. IsTrue b ↔ (tree_at t goal ≡ made)) }
    ensures extends { Extends table.old table.new }
    ensures walking { Compares table.new program.now symbols.now shifts.new kept.new }
    ensures spends { SpendsResults table.new shifts.old shifts.new result }
{
    let insn = program.code.insn(index);
    let next = index + 1;
    match effect_at(table, program.code, index, insn, symbols)? {
        Effect::Computed(after) => is_walk_with(
            table, shifts, kept, program, fuel, next, symbols, &after, goal,
        ),
        Effect::Access(allowed, after) => is_behind(
            table, shifts, kept, program, fuel, next, symbols, allowed, &after, goal,
        ),
        Effect::Split(taken, passed, target) => {
            let (taken, passed) = ((taken, target), (passed, next));
            is_both(
                table, shifts, kept, program, fuel, symbols, taken, passed, goal,
            )
        }
        Effect::Jump(target) => {
            is_walk(table, shifts, kept, program, fuel, target, symbols, goal)
        }
        Effect::Return => is_put_by(table, shifts, kept, program.post, symbols, goal),
    }
}

/// Whether `goal` is the term of the walk over the instruction with the terms of `after`.
#[cycle(comparing)]
fn is_insn_with(
    table: &mut Table,
    shifts: &mut Memo,
    kept: &mut Comparisons,
    program: &Program,
    fuel: u32,
    index: u32,
    symbols: &Symbols,
    after: &Symbols,
    goal: Id,
) -> Result<bool, Exhausted>
    requires walking { Compares table.old program.now symbols.now shifts.old kept.old }
    requires within { index < length program.now.code.now }
    requires after { AreMachineTerms table.old (ids_of after.now) }
    requires goal { IsKnown table.old goal }
    ensures exact { let t = table.old in
        let terms = machine_terms_at t (ids_of after.now) in
        let p = program.now in
        let post = tree_at t p.post in
        let walk = walked p.bound p.code.now (id_trees t p.invs.now) post fuel in
        let insn = slice_get p.code.now index in
        let made = walked_at None walk post index insn terms in
        IfOk result (λ b. IsTrue b ↔ (tree_at t goal ≡ made)) }
    ensures extends { Extends table.old table.new }
    ensures walking { Compares table.new program.now symbols.now shifts.new kept.new }
    ensures spends { SpendsResults table.new shifts.old shifts.new result }
{
    let mut inner = kept.inner(table, symbols, after);
    let equal = is_insn(table, shifts, &mut inner, program, fuel, index, after, goal)?;
    kept.resume(table, symbols, after, inner);
    Ok(equal)
}

/// Whether `goal` is the term of the walk over the instruction if steps are counted: first that a
/// step is left, then the rest with one less.
#[cycle(comparing)]
fn is_counted(
    table: &mut Table,
    shifts: &mut Memo,
    kept: &mut Comparisons,
    program: &Program,
    fuel: u32,
    index: u32,
    symbols: &Symbols,
    goal: Id,
) -> Result<bool, Exhausted>
    requires walking { Compares table.old program.now symbols.now shifts.old kept.old }
    requires within { index < length program.now.code.now }
    requires goal { IsKnown table.old goal }
    ensures exact { let t = table.old in
        let terms = machine_terms_at t (ids_of symbols.now) in
        let p = program.now in
        let post = tree_at t p.post in
        let walk = walked p.bound p.code.now (id_trees t p.invs.now) post fuel in
        let insn = slice_get p.code.now index in
        let here = rel_term Ult (lit 0) terms.left in
        let rest = walked_at None walk post index insn (one_less terms) in
        IfOk result (λ b. IsTrue b ↔ (tree_at t goal ≡ and_term here rest)) }
    ensures extends { Extends table.old table.new }
    ensures walking { Compares table.new program.now symbols.now shifts.new kept.new }
    ensures spends { SpendsResults table.new shifts.old shifts.new result }
{
    let Some(parts) = sides(table, AND, goal) else {
        return Ok(false);
    };
    let (here, after) = counted_step(table, symbols)?;
    if !table.same(parts.first, here) {
        return Ok(false);
    }
    let rest = parts.second;
    is_insn_with(
        table, shifts, kept, program, fuel, index, symbols, &after, rest,
    )
}

/// Whether `goal` is the term of the walk from the instruction at `index`, whether that is
/// annotated or not.
#[cycle(comparing)]
pub(crate) fn is_walk_from(
    table: &mut Table,
    shifts: &mut Memo,
    kept: &mut Comparisons,
    program: &Program,
    fuel: u32,
    index: u32,
    symbols: &Symbols,
    goal: Id,
) -> Result<bool, Exhausted>
    requires walking { Compares table.old program.now symbols.now shifts.old kept.old }
    requires within { index < length program.now.code.now }
    requires goal { IsKnown table.old goal }
    ensures exact { let t = table.old in
        let terms = machine_terms_at t (ids_of symbols.now) in
        let p = program.now in
        let post = tree_at t p.post in
        let walk = walked p.bound p.code.now (id_trees t p.invs.now) post fuel in
        let insn = slice_get p.code.now index in
        let made = walked_at p.bound walk post index insn terms in
        IfOk result (λ b. IsTrue b ↔ (tree_at t goal ≡ made)) }
    ensures extends { Extends table.old table.new }
    ensures walking { Compares table.new program.now symbols.now shifts.new kept.new }
    ensures spends { SpendsResults table.new shifts.old shifts.new result }
{
    match program.bound {
        None => is_insn(table, shifts, kept, program, fuel, index, symbols, goal),
        Some(_) => is_counted(table, shifts, kept, program, fuel, index, symbols, goal),
    }
}

/// Whether `goal` is the term of the walk from index 0, with all steps left, if they are counted;
/// `start` has each of the machine's variables for itself.
pub(crate) fn is_walk_entry(
    table: &mut Table,
    shifts: &mut Memo,
    kept: &mut Comparisons,
    program: &Program,
    start: &Symbols,
    goal: Id,
) -> Result<bool, Exhausted>
    requires walking { Compares table.old program.now start.now shifts.old kept.old }
    requires start { machine_terms_at table.old (ids_of start.now) ≡ start_terms }
    requires goal { IsKnown table.old goal }
    ensures exact { let t = table.old in
        let p = program.now in
        let all = length p.code.now in
        let walk = walked p.bound p.code.now (id_trees t p.invs.now) (tree_at t p.post) all in
        IfOk result (λ b. IsTrue b ↔ (tree_at t goal ≡ walk 0 (entry_terms p.bound))) }
    ensures extends { Extends table.old table.new }
    ensures walking { Compares table.new program.now start.now shifts.new kept.new }
    ensures spends { SpendsResults table.new shifts.old shifts.new result }
{
    let count = program.code.count();
    match program.bound {
        None => is_walk(table, shifts, kept, program, count, 0, start, goal),
        Some(bound) => {
            let entry = start.bounded(table, bound)?;
            is_walk_with(table, shifts, kept, program, count, 0, start, &entry, goal)
        }
    }
}
