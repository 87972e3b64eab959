//! The forward walk over code, which builds the terms of conditions.
//!
//! A walk follows the code from an index to cut points and returns. If every cycle contains a cut
//! point, it meets no index twice on its way. So it recurses at most once for each instruction, of
//! which there are at most 1,024. It visits in all as many instructions as the paths between cut
//! points have.

ghost use Rattle.std.specs.Prelude.{◌≡◌, ◌<◌, IfOk, None, length, slice_get};
ghost use Rattle.word_ops.specs.declared.Rel.TheVariants.{Ult};
ghost use Rattle.term_table.specs.Table.{IsKnown, tree_at, Extends, id_trees};
ghost use Rattle.lf_signature.specs.Nodes.{IsIdOf};
ghost use Rattle.lf_signature.specs.Terms.{lit, rel_term, and_term, imp_term};
ghost use Rattle.lf_encode.specs.PutTree.{machine_terms_at};
ghost use Rattle.lf_encode.specs.Kept.{AreMachineTerms};
ghost use Rattle.vcgen.specs.WalkTree.{walked, walked_at, one_less};
ghost use Rattle.vcgen.specs.WalkTree.{start_terms, entry_terms};
ghost use Rattle.vcgen.specs.Symbols.{ids_of, inv_id};
ghost use Rattle.vcgen.specs.Inside.Walks.{Walks};
ghost use Rattle.hereditary_subst.specs.Limits.{SpendsResults};

use crate::effects::{Effect, counted_step, effect_at};
use crate::symbols::Symbols;
use alpha_cfg::Code;
use hereditary_subst::{Exhausted, Memo};
use lf_encode::PutMemo;
use lf_signature::app2;
use lf_signature::numbers::{AND, FF, IMP};
use term_table::{Id, Node, Table};

/// The input of a walk: the code, its invariants by their indices, the formula that has to hold at
/// its end, and the step bound.
#[derive(Clone, Copy)]
pub struct Program<'a> {
    /// The code.
    pub code: &'a Code,
    /// Each cut point, as an instruction index, with the term of its invariant.
    pub invs: &'a [(u32, Id)],
    /// The term of the formula that has to hold at a return.
    pub post: Id,
    /// The most steps that the code may make, if steps are counted.
    pub bound: Option<u32>,
}

/// Returns the term of the invariant of an index, from the first pair that has the index: None if
/// the index isn't a cut point.
pub fn invariant(invs: &[(u32, Id)], index: u32) -> Option<Id>
    ensures { result ≡ inv_id invs.now index }
{
    invs.iter().find(|pair| pair.0 == index).map(|pair| pair.1)
}

/// The term of the walk from `index` over at most `fuel` instructions, with these terms for the
/// machine's variables.
#[cycle(walking)]
pub(crate) fn walk(
    table: &mut Table,
    shifts: &mut Memo,
    kept: &mut PutMemo,
    program: &Program,
    fuel: u32,
    index: u32,
    symbols: &Symbols,
) -> Result<Id, Exhausted>
    requires walking { Walks table.old program.now symbols.now shifts.old kept.old }
    requires within { index < length program.now.code.now }
    ensures id { let t = table.old in
        let terms = machine_terms_at t (ids_of symbols.now) in
        let p = program.now in
        let walk = walked p.bound p.code.now (id_trees t p.invs.now) (tree_at t p.post) fuel in
        IfOk result (IsIdOf table.new (walk index terms)) }
    ensures extends { Extends table.old table.new }
    ensures walking { Walks table.new program.now symbols.now shifts.new kept.new }
    ensures spends { SpendsResults table.new shifts.old shifts.new result }
{
    match invariant(program.invs, index) {
        Some(inv) => symbols.put(table, shifts, kept, inv),
        None => {
            if fuel == 0 {
                return Ok(table.intern(Node::Const(FF))?);
            }
            walk_from(table, shifts, kept, program, fuel - 1, index, symbols)
        }
    }
}

/// Walks with the terms of `after`, for which nothing stays cached beyond the walk. What it caches
/// meanwhile still counts in the limit of `shifts`.
#[cycle(walking)]
pub(crate) fn walk_with(
    table: &mut Table,
    shifts: &mut Memo,
    kept: &mut PutMemo,
    program: &Program,
    fuel: u32,
    index: u32,
    symbols: &Symbols,
    after: &Symbols,
) -> Result<Id, Exhausted>
    requires walking { Walks table.old program.now symbols.now shifts.old kept.old }
    requires within { index < length program.now.code.now }
    requires after { AreMachineTerms table.old (ids_of after.now) }
    ensures id { let t = table.old in
        let terms = machine_terms_at t (ids_of after.now) in
        let p = program.now in
        let walk = walked p.bound p.code.now (id_trees t p.invs.now) (tree_at t p.post) fuel in
        IfOk result (IsIdOf table.new (walk index terms)) }
    ensures extends { Extends table.old table.new }
    ensures walking { Walks table.new program.now symbols.now shifts.new kept.new }
    ensures spends { SpendsResults table.new shifts.old shifts.new result }
{
    // Only the clauses speak of them.
    let _ = symbols;
    let _ = &kept;
    let mut fresh = PutMemo::new(table.allocator());
    walk(table, shifts, &mut fresh, program, fuel, index, after)
}

/// The formula that the walk from `target` holds if `taken` does, and the one from `next` if
/// `passed` does.
#[cycle(walking)]
fn walk_both(
    table: &mut Table,
    shifts: &mut Memo,
    kept: &mut PutMemo,
    program: &Program,
    fuel: u32,
    symbols: &Symbols,
    taken: (Id, u32),
    passed: (Id, u32),
) -> Result<Id, Exhausted>
    requires walking { Walks table.old program.now symbols.now shifts.old kept.old }
    requires target { taken.1 < length program.now.code.now }
    requires next { passed.1 < length program.now.code.now }
    requires taken { IsKnown table.old taken.0 }
    requires passed { IsKnown table.old passed.0 }
    ensures id { let t = table.old in
        let terms = machine_terms_at t (ids_of symbols.now) in
        let p = program.now in
        let walk = walked p.bound p.code.now (id_trees t p.invs.now) (tree_at t p.post) fuel in
        IfOk result (IsIdOf table.new (and_term
        (imp_term (tree_at t taken.0) (walk taken.1 terms))
        (imp_term (tree_at t passed.0) (walk passed.1 terms)))) }
    ensures extends { Extends table.old table.new }
    ensures walking { Walks table.new program.now symbols.now shifts.new kept.new }
    ensures spends { SpendsResults table.new shifts.old shifts.new result }
{
    let there = walk(table, shifts, kept, program, fuel, taken.1, symbols)?;
    let onward = walk(table, shifts, kept, program, fuel, passed.1, symbols)?;
    let first = app2(table, IMP, taken.0, there)?;
    let second = app2(table, IMP, passed.0, onward)?;
    Ok(app2(table, AND, first, second)?)
}

/// The formula that `allowed` holds, and that the walk from `index` with the terms of `after` does.
#[cycle(walking)]
fn walk_behind(
    table: &mut Table,
    shifts: &mut Memo,
    kept: &mut PutMemo,
    program: &Program,
    fuel: u32,
    index: u32,
    symbols: &Symbols,
    allowed: Id,
    after: &Symbols,
) -> Result<Id, Exhausted>
    requires walking { Walks table.old program.now symbols.now shifts.old kept.old }
    requires within { index < length program.now.code.now }
    requires allowed { IsKnown table.old allowed }
    requires after { AreMachineTerms table.old (ids_of after.now) }
    ensures id { let t = table.old in
        let terms = machine_terms_at t (ids_of after.now) in
        let p = program.now in
        let walk = walked p.bound p.code.now (id_trees t p.invs.now) (tree_at t p.post) fuel in
        IfOk result (IsIdOf table.new (and_term (tree_at t allowed) (walk index terms))) }
    ensures extends { Extends table.old table.new }
    ensures walking { Walks table.new program.now symbols.now shifts.new kept.new }
    ensures spends { SpendsResults table.new shifts.old shifts.new result }
{
    let rest = walk_with(table, shifts, kept, program, fuel, index, symbols, after)?;
    Ok(app2(table, AND, allowed, rest)?)
}

/// The term of the walk from the instruction at `index`, whether that is annotated or not; its own
/// step isn't counted.
#[cycle(walking)]
fn walk_insn(
    table: &mut Table,
    shifts: &mut Memo,
    kept: &mut PutMemo,
    program: &Program,
    fuel: u32,
    index: u32,
    symbols: &Symbols,
) -> Result<Id, Exhausted>
    requires walking { Walks table.old program.now symbols.now shifts.old kept.old }
    requires within { index < length program.now.code.now }
    ensures id { let t = table.old in
        let terms = machine_terms_at t (ids_of symbols.now) in
        let p = program.now in
        let post = tree_at t p.post in
        let walk = walked p.bound p.code.now (id_trees t p.invs.now) post fuel in
        let insn = slice_get p.code.now index in
        IfOk result (IsIdOf table.new (walked_at None walk post index insn terms)) }
    ensures extends { Extends table.old table.new }
    ensures walking { Walks table.new program.now symbols.now shifts.new kept.new }
    ensures spends { SpendsResults table.new shifts.old shifts.new result }
{
    let insn = program.code.insn(index);
    let next = index + 1;
    match effect_at(table, program.code, index, insn, symbols)? {
        Effect::Computed(after) => {
            walk_with(table, shifts, kept, program, fuel, next, symbols, &after)
        }
        Effect::Access(allowed, after) => {
            walk_behind(
                table, shifts, kept, program, fuel, next, symbols, allowed, &after,
            )
        }
        Effect::Split(taken, passed, target) => {
            let (taken, passed) = ((taken, target), (passed, next));
            walk_both(table, shifts, kept, program, fuel, symbols, taken, passed)
        }
        Effect::Jump(target) => walk(table, shifts, kept, program, fuel, target, symbols),
        Effect::Return => symbols.put(table, shifts, kept, program.post),
    }
}

/// Walks over the instruction with the terms of `after`, for which nothing stays cached beyond the
/// walk.
#[cycle(walking)]
fn walk_insn_with(
    table: &mut Table,
    shifts: &mut Memo,
    kept: &mut PutMemo,
    program: &Program,
    fuel: u32,
    index: u32,
    symbols: &Symbols,
    after: &Symbols,
) -> Result<Id, Exhausted>
    requires walking { Walks table.old program.now symbols.now shifts.old kept.old }
    requires within { index < length program.now.code.now }
    requires after { AreMachineTerms table.old (ids_of after.now) }
    ensures id { let t = table.old in
        let terms = machine_terms_at t (ids_of after.now) in
        let p = program.now in
        let post = tree_at t p.post in
        let walk = walked p.bound p.code.now (id_trees t p.invs.now) post fuel in
        let insn = slice_get p.code.now index in
        IfOk result (IsIdOf table.new (walked_at None walk post index insn terms)) }
    ensures extends { Extends table.old table.new }
    ensures walking { Walks table.new program.now symbols.now shifts.new kept.new }
    ensures spends { SpendsResults table.new shifts.old shifts.new result }
{
    // Only the clauses speak of them.
    let _ = symbols;
    let _ = &kept;
    let mut fresh = PutMemo::new(table.allocator());
    walk_insn(table, shifts, &mut fresh, program, fuel, index, after)
}

/// Walks over the instruction if steps are counted: one has to be left, and the walk goes on with
/// one less.
#[cycle(walking)]
fn walk_counted(
    table: &mut Table,
    shifts: &mut Memo,
    kept: &mut PutMemo,
    program: &Program,
    fuel: u32,
    index: u32,
    symbols: &Symbols,
) -> Result<Id, Exhausted>
    requires walking { Walks table.old program.now symbols.now shifts.old kept.old }
    requires within { index < length program.now.code.now }
    ensures id { let t = table.old in
        let terms = machine_terms_at t (ids_of symbols.now) in
        let p = program.now in
        let post = tree_at t p.post in
        let walk = walked p.bound p.code.now (id_trees t p.invs.now) post fuel in
        let insn = slice_get p.code.now index in
        let here = rel_term Ult (lit 0) terms.left in
        let rest = walked_at None walk post index insn (one_less terms) in
        IfOk result (IsIdOf table.new (and_term here rest)) }
    ensures extends { Extends table.old table.new }
    ensures walking { Walks table.new program.now symbols.now shifts.new kept.new }
    ensures spends { SpendsResults table.new shifts.old shifts.new result }
{
    let (here, after) = counted_step(table, symbols)?;
    let rest = walk_insn_with(table, shifts, kept, program, fuel, index, symbols, &after)?;
    Ok(app2(table, AND, here, rest)?)
}

/// The term of the walk from the instruction at `index`, whether that is annotated or not.
#[cycle(walking)]
pub(crate) fn walk_from(
    table: &mut Table,
    shifts: &mut Memo,
    kept: &mut PutMemo,
    program: &Program,
    fuel: u32,
    index: u32,
    symbols: &Symbols,
) -> Result<Id, Exhausted>
    requires walking { Walks table.old program.now symbols.now shifts.old kept.old }
    requires within { index < length program.now.code.now }
    ensures id { let t = table.old in
        let terms = machine_terms_at t (ids_of symbols.now) in
        let p = program.now in
        let post = tree_at t p.post in
        let walk = walked p.bound p.code.now (id_trees t p.invs.now) post fuel in
        let insn = slice_get p.code.now index in
        IfOk result (IsIdOf table.new (walked_at p.bound walk post index insn terms)) }
    ensures extends { Extends table.old table.new }
    ensures walking { Walks table.new program.now symbols.now shifts.new kept.new }
    ensures spends { SpendsResults table.new shifts.old shifts.new result }
{
    match program.bound {
        None => walk_insn(table, shifts, kept, program, fuel, index, symbols),
        Some(_) => walk_counted(table, shifts, kept, program, fuel, index, symbols),
    }
}

/// The term of the walk from index 0, with all steps left, if they are counted; `start` has each of
/// the machine's variables for itself.
pub(crate) fn walk_entry(
    table: &mut Table,
    shifts: &mut Memo,
    kept: &mut PutMemo,
    program: &Program,
    start: &Symbols,
) -> Result<Id, Exhausted>
    requires walking { Walks table.old program.now start.now shifts.old kept.old }
    requires start { machine_terms_at table.old (ids_of start.now) ≡ start_terms }
    ensures id { let t = table.old in
        let p = program.now in
        let all = length p.code.now in
        let walk = walked p.bound p.code.now (id_trees t p.invs.now) (tree_at t p.post) all in
        IfOk result (IsIdOf table.new (walk 0 (entry_terms p.bound))) }
    ensures extends { Extends table.old table.new }
    ensures walking { Walks table.new program.now start.now shifts.new kept.new }
    ensures spends { SpendsResults table.new shifts.old shifts.new result }
{
    let count = program.code.count();
    match program.bound {
        None => walk(table, shifts, kept, program, count, 0, start),
        Some(bound) => {
            let entry = start.bounded(table, bound)?;
            walk_with(table, shifts, kept, program, count, 0, start, &entry)
        }
    }
}
