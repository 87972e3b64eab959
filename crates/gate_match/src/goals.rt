//! Takes formulas apart: connectives, and quantifiers over the whole machine state.

ghost use Rattle.std.specs.Prelude.{◌≡◌, ◌↔◌, IsTrue};
ghost use Rattle.term_table.specs.Tree.{Con, Num, Lam};
ghost use Rattle.term_table.specs.Table.{IsKnown, tree_at};
ghost use Rattle.hereditary_subst.specs.Simples.{IsResult};
ghost use Rattle.lf_signature.specs.Terms.{app1, app2, imp_term, all_term};
ghost use Rattle.gate_match.specs.Inside.Goals.{AreSides};
ghost use Rattle.vcgen.specs.WalkTree.{all_terms, machine_term, closed_term};

use lf_signature::numbers::{ALL, ALLM, IMP};
use term_table::{Id, Node, Table};

/// Two parts of a formula, as the sides of a connective.
#[derive(Clone, Copy)]
pub(crate) struct Pair {
    pub(crate) first: Id,
    pub(crate) second: Id,
}

/// Whether the term is this numbered constant.
fn is_constant(table: &Table, id: Id, constant: u32) -> bool
    requires { IsKnown table.now id }
    ensures { IsTrue result ↔ (tree_at table.now id ≡ Con (Num constant)) }
{
    match table.node(id) {
        Node::Const(number) => number == constant,
        _ => false,
    }
}

/// The argument, if the term is this numbered constant applied to one.
fn argument(table: &Table, constant: u32, id: Id) -> Option<Id>
    requires { IsKnown table.now id }
    ensures { IsResult table.now (λ a. tree_at table.now id ≡ app1 constant a) result }
{
    let Node::App(head, last) = table.node(id) else {
        return None;
    };
    if is_constant(table, head, constant) {
        return Some(last);
    }
    None
}

/// The two arguments, if the term is this numbered constant applied to two, as a connective to its
/// sides.
pub(crate) fn sides(table: &Table, constant: u32, id: Id) -> Option<Pair>
    requires { IsKnown table.now id }
    ensures { AreSides (app2 constant) table.now (tree_at table.now id) result }
{
    let Node::App(front, last) = table.node(id) else {
        return None;
    };
    match argument(table, constant, front) {
        None => None,
        Some(first) => Some(Pair {
            first,
            second: last,
        }),
    }
}

/// The body of the quantifier, if the term is one.
fn body(table: &Table, quantifier: u32, id: Id) -> Option<Id>
    requires { IsKnown table.now id }
    ensures { IsResult table.now (λ b. tree_at table.now id ≡ app1 quantifier (Lam b)) result }
{
    let Some(abstraction) = argument(table, quantifier, id) else {
        return None;
    };
    match table.node(abstraction) {
        Node::Lam(inner) => Some(inner),
        _ => None,
    }
}

/// The body under `count` quantifiers over words, if the term has as many.
fn under_words(table: &Table, count: u32, id: Id) -> Option<Id>
    requires { IsKnown table.now id }
    ensures { IsResult table.now (λ b. tree_at table.now id ≡ all_terms count b) result }
{
    if count == 0 {
        return Some(id);
    }
    match body(table, ALL, id) {
        None => None,
        Some(inner) => under_words(table, count - 1, inner),
    }
}

/// The sides, if the formula is an implication under `count` quantifiers over words.
fn sides_under_words(table: &Table, count: u32, id: Id) -> Option<Pair>
    requires { IsKnown table.now id }
    ensures { AreSides (λ a b. all_terms count (imp_term a b)) table.now
        (tree_at table.now id) result }
{
    match under_words(table, count, id) {
        None => None,
        Some(implied) => sides(table, IMP, implied),
    }
}

/// The sides, if the formula is an implication for all memories and registers.
fn machine_sides(table: &Table, id: Id) -> Option<Pair>
    requires { IsKnown table.now id }
    ensures { AreSides (λ a b. machine_term (imp_term a b)) table.now
        (tree_at table.now id) result }
{
    match body(table, ALLM, id) {
        None => None,
        Some(words) => sides_under_words(table, 31, words),
    }
}

/// The sides, if the formula is an implication for all memories, registers and numbers of remaining
/// steps.
fn counted_sides(table: &Table, id: Id) -> Option<Pair>
    requires { IsKnown table.now id }
    ensures { AreSides (λ a b. all_term (machine_term (imp_term a b))) table.now
        (tree_at table.now id) result }
{
    match body(table, ALL, id) {
        None => None,
        Some(machine) => machine_sides(table, machine),
    }
}

/// The sides, if the formula is an implication for all memories and registers, and if steps are
/// counted for all numbers of remaining steps.
pub(crate) fn closed_sides(table: &Table, bound: Option<u32>, id: Id) -> Option<Pair>
    requires { IsKnown table.now id }
    ensures { AreSides (λ a b. closed_term bound (imp_term a b)) table.now
        (tree_at table.now id) result }
{
    match bound {
        None => machine_sides(table, id),
        Some(_) => counted_sides(table, id),
    }
}
