//! Which of the machine's variables a term lacks, cached for all terms of a substitution.

ghost use Rattle.std.specs.Prelude.{◌≡◌, ◌<◌, ◌+◌, ◌^◌, true, IfOk, IfSome, IsTrue, OnOk};
ghost use Rattle.term_table.specs.Tree.{App, Lam, Var};
ghost use Rattle.term_table.specs.Scope.{is_scoped};
ghost use Rattle.term_table.specs.Table.{TableView, IsKnown, tree_at};
ghost use Rattle.hereditary_subst.specs.Kept.{IsMemo};
ghost use Rattle.hereditary_subst.specs.Limits.{left_of, SpendsResults, charge};
ghost use Rattle.lf_encode.specs.PutTree.{machine_terms_at, put_for, put_tree};
ghost use Rattle.lf_encode.specs.Kept.{AreMachineTerms};
ghost use Rattle.vcgen.specs.Symbols.{ids_of};
ghost use Rattle.gate_match.specs.Inside.Uses.{IsFreeOf, IsIdle, AreIdleFrom, IsRow, AreUses};

use hereditary_subst::{Exhausted, Memo};
use std::alloc::Global;
use std::collections::BTreeMap;
use term_table::{Id, Node, Table};
use vcgen::Symbols;

/// The number of variables with other terms above which it isn't found out which of them a term
/// lacks: each takes a walk through the term, as a comparison does.
const MOST_CHANGED: u32 = 4;

/// A term and a variable outside it.
#[derive(Clone, Copy, PartialEq, Eq, PartialOrd, Ord)]
pub(crate) struct Place {
    id: u64,
    variable: u64,
}

/// Cached answers whether terms lack variables. They count in the limit of a `Memo`.
#[derive(Drop)]
pub(crate) struct Uses {
    rows: BTreeMap<Place, bool>,
}

impl Uses {
    /// Returns an empty cache, which allocates nothing yet.
    pub(crate) fn new(alloc: Global) -> Uses
        ensures { (t : TableView) → AreUses t result }
    {
        Uses {
            rows: BTreeMap::new(alloc),
        }
    }

    /// The cached answer.
    fn find(&self, table: &Table, place: &Place) -> Option<bool>
        requires { AreUses table.now self.now }
        ensures { IfSome result (IsRow table.now place.now) }
    {
        let _ = table; // only the clauses speak of it
        self.rows.get(place).copied()
    }

    /// Caches an answer.
    ///
    /// Errors: the limit of `shifts` is reached, or out of memory.
    fn keep(
        &mut self,
        table: &Table,
        shifts: &mut Memo,
        place: Place,
        lacks: bool,
    ) -> Result<(), Exhausted>
        requires shifts { IsMemo table.now shifts.old }
        requires uses { AreUses table.now self.old }
        requires row { IsRow table.now place lacks }
        ensures shifts { IsMemo table.now shifts.new }
        ensures left { OnOk result (left_of shifts.old ≡ left_of shifts.new + charge shifts.old 1) }
        ensures uses { AreUses table.now self.new }
        ensures spends { SpendsResults table.now shifts.old shifts.new result }
    {
        let _ = table; // only the clauses speak of it
        shifts.spend()?;
        self.rows.insert(place, lacks)?;
        Ok(())
    }
}

/// Whether the table knows that each variable of the term is bound or one of the `n` next outside.
pub(crate) fn is_within(table: &Table, id: Id, n: u64) -> bool
    requires { IsKnown table.now id }
    ensures { IsTrue result → is_scoped n (tree_at table.now id) ≡ true }
{
    let reach = table.reach(id);
    reach < u32::MAX && u64::from(reach) <= n
}

/// Whether it is found that the term lacks the variable.
#[cycle(lacking)]
pub(crate) fn lacks(
    table: &Table,
    shifts: &mut Memo,
    uses: &mut Uses,
    id: Id,
    variable: u64,
) -> Result<bool, Exhausted>
    requires known { IsKnown table.now id }
    requires room { variable + id < 2 ^ 64 }
    requires shifts { IsMemo table.now shifts.old }
    requires uses { AreUses table.now uses.old }
    ensures lacks { IfOk result (λ b. IsTrue b → IsFreeOf variable (tree_at table.now id)) }
    ensures shifts { IsMemo table.now shifts.new }
    ensures uses { AreUses table.now uses.new }
    ensures spends { SpendsResults table.now shifts.old shifts.new result }
{
    if is_within(table, id, variable) {
        return Ok(true);
    }
    match table.node(id) {
        Node::Var(m) => Ok(u64::from(m) != variable),
        Node::App(f, a) => lacks_both(table, shifts, uses, id, f, a, variable),
        Node::Lam(b) => lacks(table, shifts, uses, b, variable + 1),
        _ => Ok(false),
    }
}

/// Whether the application of f to a lacks the variable.
#[cycle(lacking)]
fn lacks_both(
    table: &Table,
    shifts: &mut Memo,
    uses: &mut Uses,
    id: Id,
    f: Id,
    a: Id,
    variable: u64,
) -> Result<bool, Exhausted>
    requires known { IsKnown table.now id }
    requires parts { (f < id) × (a < id) }
    requires is { App (tree_at table.now f) (tree_at table.now a) ≡ tree_at table.now id }
    requires room { variable + id < 2 ^ 64 }
    requires shifts { IsMemo table.now shifts.old }
    requires uses { AreUses table.now uses.old }
    ensures lacks { IfOk result (λ b. IsTrue b → IsFreeOf variable (tree_at table.now id)) }
    ensures shifts { IsMemo table.now shifts.new }
    ensures uses { AreUses table.now uses.new }
    ensures spends { SpendsResults table.now shifts.old shifts.new result }
{
    let place = Place {
        id: id.index() as u64,
        variable,
    };
    if let Some(answer) = uses.find(table, &place) {
        return Ok(answer);
    }
    let first = lacks(table, shifts, uses, f, variable)?;
    if !first {
        uses.keep(table, shifts, place, false)?;
        return Ok(false);
    }
    let second = lacks(table, shifts, uses, a, variable)?;
    uses.keep(table, shifts, place, second)?;
    Ok(second)
}

/// The term for the variable `k` of the context left, m, r0 to r30.
fn term_of(table: &Table, symbols: &Symbols, k: u32) -> Id
    requires ready { AreMachineTerms table.now (ids_of symbols.now) }
    requires low { k < 33 }
    ensures known { IsKnown table.now result }
    ensures is { let terms = machine_terms_at table.now (ids_of symbols.now) in
        tree_at table.now result ≡ put_for terms k }
{
    let _ = table; // only the clauses speak of it
    if k < 31 {
        return symbols.regs[(30 - k) as usize];
    }
    if k == 31 {
        symbols.memory
    } else {
        symbols.left
    }
}

/// Whether the term is this variable.
fn is_var(table: &Table, id: Id, k: u32) -> bool
    requires { IsKnown table.now id }
    ensures { IsTrue result → tree_at table.now id ≡ Var k }
{
    match table.node(id) {
        Node::Var(n) => n == k,
        _ => false,
    }
}

/// Whether it is found that the variable `k` of the context left, m, r0 to r30 has itself as its
/// term, or doesn't occur in the term.
fn is_idle(
    table: &Table,
    shifts: &mut Memo,
    uses: &mut Uses,
    symbols: &Symbols,
    id: Id,
    k: u32,
) -> Result<bool, Exhausted>
    requires ready { AreMachineTerms table.now (ids_of symbols.now) }
    requires known { IsKnown table.now id }
    requires low { k < 33 }
    requires shifts { IsMemo table.now shifts.old }
    requires uses { AreUses table.now uses.old }
    ensures idle { let t = table.now in
        let terms = machine_terms_at t (ids_of symbols.now) in
        IfOk result (λ b. IsTrue b → IsIdle k terms (tree_at t id)) }
    ensures shifts { IsMemo table.now shifts.new }
    ensures uses { AreUses table.now uses.new }
    ensures spends { SpendsResults table.now shifts.old shifts.new result }
{
    table.laws();
    let term = term_of(table, symbols, k);
    if is_var(table, term, k) {
        return Ok(true);
    }
    lacks(table, shifts, uses, id, u64::from(k))
}

/// How many of the variables of the context left, m, r0 to r30 from `k` on have other terms than
/// themselves.
fn changed_from(table: &Table, symbols: &Symbols, k: u32) -> u32
    requires { AreMachineTerms table.now (ids_of symbols.now) }
{
    if k >= 33 {
        return 0;
    }
    let later = changed_from(table, symbols, k + 1);
    if is_var(table, term_of(table, symbols, k), k) {
        return later;
    }
    later.saturating_add(1)
}

/// Whether each of these variables from `k` on is so.
#[tactic(auto, using(crate::proofs::Lacking::idle_none, crate::proofs::Lacking::idle_more))]
fn are_idle(
    table: &Table,
    shifts: &mut Memo,
    uses: &mut Uses,
    symbols: &Symbols,
    id: Id,
    k: u32,
) -> Result<bool, Exhausted>
    requires ready { AreMachineTerms table.now (ids_of symbols.now) }
    requires known { IsKnown table.now id }
    requires shifts { IsMemo table.now shifts.old }
    requires uses { AreUses table.now uses.old }
    ensures idle { let t = table.now in
        let terms = machine_terms_at t (ids_of symbols.now) in
        IfOk result (λ b. IsTrue b → AreIdleFrom k terms (tree_at t id)) }
    ensures shifts { IsMemo table.now shifts.new }
    ensures uses { AreUses table.now uses.new }
    ensures spends { SpendsResults table.now shifts.old shifts.new result }
{
    if k >= 33 {
        return Ok(true);
    }
    if !is_idle(table, shifts, uses, symbols, id, k)? {
        return Ok(false);
    }
    are_idle(table, shifts, uses, symbols, id, k + 1)
}

/// Whether it is found that the substitution for the machine's variables leaves the term unchanged.
#[tactic(auto, using(crate::proofs::Lacking::stays_whole))]
pub(crate) fn stays(
    table: &Table,
    shifts: &mut Memo,
    uses: &mut Uses,
    symbols: &Symbols,
    id: Id,
) -> Result<bool, Exhausted>
    requires ready { AreMachineTerms table.now (ids_of symbols.now) }
    requires known { IsKnown table.now id }
    requires shifts { IsMemo table.now shifts.old }
    requires uses { AreUses table.now uses.old }
    ensures same { let t = table.now in
        let terms = machine_terms_at t (ids_of symbols.now) in
        IfOk result (λ b. IsTrue b → put_tree terms 0 (tree_at t id) ≡ tree_at t id) }
    ensures shifts { IsMemo table.now shifts.new }
    ensures uses { AreUses table.now uses.new }
    ensures spends { SpendsResults table.now shifts.old shifts.new result }
{
    if !is_within(table, id, 33) {
        return Ok(false);
    }
    if changed_from(table, symbols, 0) > MOST_CHANGED {
        return Ok(false);
    }
    are_idle(table, shifts, uses, symbols, id, 0)
}
