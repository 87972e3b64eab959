//! Cached results of comparisons: results for the terms that a walk has now, and for terms of an
//! earlier walk.
//!
//! The obligations of many cut points make equal terms again, for example if each has one
//! instruction; then what is alike in the invariants is compared once.

ghost use Rattle.std.specs.Prelude.{◌≡◌, ◌↔◌, ◌<◌, ◌^◌, IfOk, IsTrue};
ghost use Rattle.term_table.specs.Table.{IsKnown, tree_at, Extends};
ghost use Rattle.term_table.specs.Measures.{height_of};
ghost use Rattle.hereditary_subst.specs.Kept.{IsMemo};
ghost use Rattle.hereditary_subst.specs.Limits.{SpendsResults};
ghost use Rattle.lf_encode.specs.PutTree.{machine_terms_at, put_tree};
ghost use Rattle.lf_encode.specs.Kept.{AreMachineTerms};
ghost use Rattle.vcgen.specs.Symbols.{ids_of};
ghost use Rattle.gate_match.specs.Inside.Comparisons.{AreComparisons};

use crate::uses::{Uses, stays};
use hereditary_subst::{Exhausted, Memo};
use lf_encode::{MachineIds, PutMemo, is_put_with};
use std::mem;
use term_table::{Id, Table};
use vcgen::Symbols;

/// Results of the terms of now, and of the last other terms with which anything was compared.
#[derive(Drop)]
pub(crate) struct Comparisons {
    puts: PutMemo,
    // whether anything was compared with the terms of now
    compared: bool,
    earlier: Symbols,
    before: PutMemo,
    // which variables terms lack
    uses: Uses,
}

impl Comparisons {
    /// No results yet.
    pub(crate) fn new(table: &Table, symbols: &Symbols) -> Comparisons
        requires { AreMachineTerms table.now (ids_of symbols.now) }
        ensures { AreComparisons table.now (ids_of symbols.now) result }
    {
        let alloc = table.allocator();
        Comparisons {
            puts: PutMemo::new(alloc),
            compared: false,
            earlier: *symbols,
            before: PutMemo::new(alloc),
            uses: Uses::new(alloc),
        }
    }

    /// The cache for a walk with the terms of `after`: the earlier results, if these are of those
    /// terms. The walk takes them along.
    pub(crate) fn inner(&mut self, table: &Table, symbols: &Symbols, after: &Symbols) -> Comparisons
        requires kept { AreComparisons table.now (ids_of symbols.now) self.old }
        requires after { AreMachineTerms table.now (ids_of after.now) }
        ensures inner { AreComparisons table.now (ids_of after.now) result }
        ensures kept { AreComparisons table.now (ids_of symbols.now) self.new }
    {
        let _ = symbols; // only the clauses speak of it
        let alloc = table.allocator();
        let before = mem::replace(&mut self.before, PutMemo::new(alloc));
        let uses = mem::replace(&mut self.uses, Uses::new(alloc));
        if self.earlier == *after {
            return Comparisons {
                puts: before,
                compared: false,
                earlier: *after,
                before: PutMemo::new(alloc),
                uses,
            };
        }
        Comparisons {
            puts: PutMemo::new(alloc),
            compared: false,
            earlier: self.earlier,
            before,
            uses,
        }
    }

    /// Takes over what a walk with the terms of `after` cached.
    pub(crate) fn resume(
        &mut self,
        table: &Table,
        symbols: &Symbols,
        after: &Symbols,
        inner: Comparisons,
    )
        requires kept { AreComparisons table.now (ids_of symbols.now) self.old }
        requires after { AreMachineTerms table.now (ids_of after.now) }
        requires inner { AreComparisons table.now (ids_of after.now) inner }
        ensures { AreComparisons table.now (ids_of symbols.now) self.new }
    {
        let _ = table; // only the clauses speak of it
        let _ = symbols; // only the clauses speak of it
        self.uses = inner.uses;
        if inner.compared {
            self.earlier = *after;
            self.before = inner.puts;
        } else {
            self.earlier = inner.earlier;
            self.before = inner.before;
        }
    }
}

/// Whether the substitution leaves a term unchanged, if the goal is this term; else nothing is
/// said.
fn is_left_alone(
    table: &Table,
    shifts: &mut Memo,
    kept: &mut Comparisons,
    id: Id,
    symbols: &Symbols,
    goal: Id,
) -> Result<bool, Exhausted>
    requires known { IsKnown table.now id }
    requires goal { IsKnown table.now goal }
    requires ready { AreMachineTerms table.now (ids_of symbols.now) }
    requires shifts { IsMemo table.now shifts.old }
    requires kept { AreComparisons table.now (ids_of symbols.now) kept.old }
    ensures exact { let t = table.now in
        let terms = machine_terms_at t (ids_of symbols.now) in
        let put = put_tree terms 0 (tree_at t id) in
        IfOk result (λ b. IsTrue b → tree_at t goal ≡ put) }
    ensures shifts { IsMemo table.now shifts.new }
    ensures kept { AreComparisons table.now (ids_of symbols.now) kept.new }
    ensures spends { SpendsResults table.now shifts.old shifts.new result }
{
    if !table.same(goal, id) {
        return Ok(false);
    }
    stays(table, shifts, &mut kept.uses, symbols, id)
}

/// `is_put_with` of the terms of now.
pub(crate) fn is_put_by(
    table: &mut Table,
    shifts: &mut Memo,
    kept: &mut Comparisons,
    id: Id,
    symbols: &Symbols,
    goal: Id,
) -> Result<bool, Exhausted>
    requires known { IsKnown table.old id }
    requires goal { IsKnown table.old goal }
    requires ready { AreMachineTerms table.old (ids_of symbols.now) }
    requires low { height_of (tree_at table.old id) < 2 ^ 31 }
    requires shifts { IsMemo table.old shifts.old }
    requires kept { AreComparisons table.old (ids_of symbols.now) kept.old }
    ensures exact { let t = table.old in
        let terms = machine_terms_at t (ids_of symbols.now) in
        let put = put_tree terms 0 (tree_at t id) in
        IfOk result (λ b. IsTrue b ↔ (tree_at t goal ≡ put)) }
    ensures extends { Extends table.old table.new }
    ensures shifts { IsMemo table.new shifts.new }
    ensures kept { AreComparisons table.new (ids_of symbols.now) kept.new }
    ensures spends { SpendsResults table.new shifts.old shifts.new result }
{
    if is_left_alone(table, shifts, kept, id, symbols, goal)? {
        return Ok(true);
    }
    kept.compared = true;
    let ids = MachineIds {
        regs: symbols.regs,
        memory: symbols.memory,
        left: symbols.left,
    };
    is_put_with(table, shifts, &mut kept.puts, id, &ids, goal)
}
