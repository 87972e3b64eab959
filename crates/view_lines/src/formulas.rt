//! Formulas, given as terms, as text.
//!
//! Errors: out of memory; every id keeps its tree.

ghost use Rattle.std.specs.Prelude.{◌≡◌, ◌≤◌, IfOk, IfSome, nat_le};
ghost use Rattle.std.specs.Option.{option_map};
ghost use Rattle.term_table.specs.Table.{IsKnown, PartsKnown, tree_at, Extends};
ghost use Rattle.formula_tree.specs.Views.{form_view};
ghost use Rattle.view_entries.specs.Sizes.{node_count};
ghost use Rattle.view_lines.specs.Formulas.{formula_in, text_within, small_form, short_text};
ghost use Rattle.view_lines.specs.Formulas.{is_false_form, is_false_term};
ghost use Rattle.view_lines.specs.Inside.Nodes.{rest_after_tree, rest_behind, rest_of_node};

use crate::limits::MAX_SHOWN;
use formula_text::print_form;
use formula_tree::Form;
use lf_encode::{form_of, left_context, machine_context};
use lf_signature::{LONGEST, typing_laws};
use std::alloc::{AllocError, Global};
use term_table::{Id, Node, Table};
use view_values::is_false;

/// Returns what is left of `budget` after the nodes of the trees of `a` and `b`.
#[cycle(counting)]
fn rest_of_both(table: &Table, a: Id, b: Id, budget: u32) -> Option<u32>
    requires a { IsKnown table.now a }
    requires b { IsKnown table.now b }
    ensures exact { let t = table.now in
        result ≡ rest_behind (rest_after_tree budget (tree_at t a)) (tree_at t b) }
    ensures less { IfSome result (λ rest. rest ≤ budget) }
{
    match rest_of(table, a, budget) {
        None => None,
        Some(rest) => rest_of(table, b, rest),
    }
}

/// Returns what is left of `budget`, which isn't 0, after a node and its parts.
#[cycle(counting)]
fn rest_of_node(table: &Table, node: Node, budget: u32) -> Option<u32>
    requires parts { PartsKnown table.now node }
    requires some { 1 ≤ budget }
    ensures exact { result ≡ rest_of_node table.now budget node }
    ensures less { IfSome result (λ rest. rest ≤ budget) }
{
    match node {
        Node::App(f, a) => rest_of_both(table, f, a, budget - 1),
        Node::TApp(p, a) => rest_of_both(table, p, a, budget - 1),
        Node::Pi(a, b) => rest_of_both(table, a, b, budget - 1),
        Node::Lam(b) => rest_of(table, b, budget - 1),
        _ => Some(budget - 1),
    }
}

/// Returns what is left of `budget` after the nodes of the tree of `id`: None if it isn't enough.
/// It looks at no more nodes than that.
#[cycle(counting)]
#[tactic(auto, using(crate::proofs::Nodes::none_left))]
fn rest_of(table: &Table, id: Id, budget: u32) -> Option<u32>
    requires { IsKnown table.now id }
    ensures exact { result ≡ rest_after_tree budget (tree_at table.now id) }
    ensures less { IfSome result (λ rest. rest ≤ budget) }
{
    if budget == 0 {
        return None;
    }
    let node = table.node(id);
    rest_of_node(table, node, budget)
}

/// Whether the tree of `id` has at most `MAX_SHOWN` nodes.
fn is_small(table: &Table, id: Id) -> bool
    requires { IsKnown table.now id }
    ensures { result ≡ nat_le (node_count (tree_at table.now id)) MAX_SHOWN }
{
    rest_of(table, id, MAX_SHOWN).is_some()
}

/// Returns the formula that the term encodes over the variables of code with that step bound, if it
/// is one.
fn formula_in(table: &mut Table, bound: Option<u32>, id: Id) -> Result<Option<Form>, AllocError>
    requires { IsKnown table.old id }
    ensures exact { IfOk result
        (λ o. option_map form_view o ≡ formula_in bound (tree_at table.old id)) }
    ensures extends { Extends table.old table.new }
{
    typing_laws();
    match bound {
        None => form_of(table, &LONGEST, id, &machine_context()),
        Some(_) => form_of(table, &LONGEST, id, &left_context()),
    }
}

/// Returns the formula's text if it has at most `MAX_SHOWN` bytes.
fn text_within(alloc: Global, formula: Option<Form>) -> Result<Option<Vec<u8>>, AllocError>
    ensures { IfOk result
        (λ o. option_map (λ v. v.items) o ≡ text_within (option_map form_view formula)) }
{
    let Some(form) = formula else {
        return Ok(None);
    };
    let text = print_form(alloc, &form)?;
    if text.len() as u64 <= u64::from(MAX_SHOWN) {
        Ok(Some(text))
    } else {
        Ok(None)
    }
}

/// Returns the formula that the term encodes, if the term has at most `MAX_SHOWN` nodes.
#[tactic(auto, unfolding(crate::specs::Formulas::small_form))]
fn small_form(table: &mut Table, bound: Option<u32>, id: Id) -> Result<Option<Form>, AllocError>
    requires { IsKnown table.old id }
    ensures exact { IfOk result
        (λ o. option_map form_view o ≡ small_form bound (tree_at table.old id)) }
    ensures extends { Extends table.old table.new }
{
    if !is_small(table, id) {
        return Ok(None);
    }
    formula_in(table, bound, id)
}

/// Returns the text of the formula that the term encodes, if the term has at most `MAX_SHOWN` nodes
/// and the text at most so many bytes.
#[tactic(auto, unfolding(crate::specs::Formulas::short_text))]
pub fn short_text(
    table: &mut Table,
    bound: Option<u32>,
    id: Id,
) -> Result<Option<Vec<u8>>, AllocError>
    requires { IsKnown table.old id }
    ensures exact { IfOk result
        (λ o. option_map (λ v. v.items) o ≡ short_text bound (tree_at table.old id)) }
    ensures extends { Extends table.old table.new }
{
    let formula = small_form(table, bound, id)?;
    text_within(table.allocator(), formula)
}

/// Whether a formula is there that is false by computing.
fn is_false_form(form: Option<Form>) -> bool
    ensures { result ≡ is_false_form (option_map form_view form) }
{
    match form {
        None => false,
        Some(form) => is_false(&form),
    }
}

/// Checks whether the term has at most `MAX_SHOWN` nodes and encodes a formula that is false by
/// computing.
#[tactic(auto, unfolding(crate::specs::Formulas::is_false_term))]
pub fn is_false_term(table: &mut Table, bound: Option<u32>, id: Id) -> Result<bool, AllocError>
    requires { IsKnown table.old id }
    ensures exact { IfOk result (λ b. b ≡ is_false_term bound (tree_at table.old id)) }
    ensures extends { Extends table.old table.new }
{
    let form = small_form(table, bound, id)?;
    Ok(is_false_form(form))
}
