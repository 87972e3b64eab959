//! The premises under which hypotheses give access to an address.
//!
//! Errors: out of memory, or the search's limit is reached; each id keeps its tree.

ghost use Rattle.std.specs.Prelude.{IfOk, IfSome, OnOk};
ghost use Rattle.term_table.specs.Table.{IsKnown, Extends};
ghost use Rattle.prover_goals.specs.Search.{IsSearch};

use crate::terms::{are_alike, exp_with, form_with};
use auto_candidates::known;
use hereditary_subst::Exhausted;
use prover_goals::{Search, normal_exp};
use prover_ids::{Access, ExpNode, FormNode, exp_node, form_node, literal, operands};
use prover_sums::{eighth, rest_of, summand_count};
use std::alloc::AllocError;
use term_table::{Id, Node, Table};
use word_ops::Op;

/// The most addresses of a hypothesis that are looked at.
const MOST_ADDRESSES: usize = 16;

/// The most parts of a hypothesis' conclusion that are looked at.
const MOST_PARTS: u32 = 64;

/// An access that is asked for.
#[derive(Clone, Copy)]
pub struct Wanted {
    /// Whether steps are counted.
    pub counted: bool,
    /// How many binders are outside.
    pub outside: u32,
    /// The kind of the access.
    pub access: Access,
    /// The address.
    pub address: Id,
}

/// Whether the given access is the one that is asked for.
fn is_asked(asked: Access, given: Access) -> bool {
    match asked {
        Access::Load => matches!(given, Access::Load),
        Access::Store => matches!(given, Access::Store),
    }
}

/// Adds the addresses to which the formula, a conjunction, gives access, and returns how many parts
/// of `left` are still to be looked at.
fn add_addresses(
    table: &Table,
    access: Access,
    form: Id,
    left: u32,
    found: &mut Vec<Id>,
) -> Result<u32, AllocError>
    requires form { IsKnown table.now form }
{
    if left == 0 {
        return Ok(0);
    }
    match form_node(table, form) {
        FormNode::And(a, b) => {
            let rest = add_addresses(table, access, a, left - 1, found)?;
            add_addresses(table, access, b, rest.min(left - 1), found)
        }
        FormNode::Right(given, address) => {
            if is_asked(access, given) && found.len() < MOST_ADDRESSES {
                found.push(address)?;
            }
            Ok(left - 1)
        }
        _ => Ok(left - 1),
    }
}

/// Whether the expression is variable 0.
fn is_variable(table: &Table, e: Id) -> bool
    requires { IsKnown table.now e }
{
    matches!(exp_node(table, e), ExpNode::Var(0))
}

/// A base plus variable 0, or plus 8 times that if scaled.
#[derive(Clone, Copy)]
struct Indexed {
    base: Id,
    scaled: bool,
}

/// The address as a base plus variable 0, or plus 8 times that; None if it is neither.
fn split_address(table: &Table, z: Id) -> Option<Indexed>
    requires { IsKnown table.now z }
    ensures { IfSome result (λ i. IsKnown table.now i.base) }
{
    let sum = operands(table, Op::Add, z)?;
    if is_variable(table, sum.right) {
        return Some(Indexed {
            base: sum.left,
            scaled: false,
        });
    }
    let shift = operands(table, Op::Sll, sum.right)?;
    if is_variable(table, shift.left) && literal(table, shift.right) == Some(3) {
        return Some(Indexed {
            base: sum.left,
            scaled: true,
        });
    }
    None
}

/// What to put for variable 0 of the address `z`, so that it is the address that is asked for.
#[tactic(auto, using(prover_goals::proofs::Kept::rows))]
fn index_at(
    table: &mut Table,
    search: &mut Search,
    wanted: &Wanted,
    z: Id,
) -> Result<Option<Id>, Exhausted>
    requires wanted { IsKnown table.old wanted.now.address }
    requires z { IsKnown table.old z }
    requires search { IsSearch table.old search.old }
    ensures known { IfOk result (λ o. IfSome o (IsKnown table.new)) }
    ensures extends { Extends table.old table.new }
    ensures search { OnOk result (IsSearch table.new search.new) }
{
    let Some(index) = split_address(table, z) else {
        return Ok(None);
    };
    let zero = table.intern(Node::Lit(0))?;
    let base = exp_with(table, search, index.base, zero)?;
    let whole = normal_exp(table, search, wanted.outside, wanted.address)?;
    let away = normal_exp(table, search, wanted.outside, base)?;
    let pairs = summand_count(table, whole).saturating_mul(summand_count(table, away));
    search.spend_steps(pairs)?;
    let Some(rest) = rest_of(table, whole, away)? else {
        return Ok(None);
    };
    if !index.scaled {
        return Ok(Some(rest));
    }
    Ok(eighth(table, rest)?)
}

/// The first of the addresses that is the one that is asked for if some word is put for variable 0;
/// that word.
#[tactic(auto, using(prover_goals::proofs::Kept::rows))]
fn first_index(
    table: &mut Table,
    search: &mut Search,
    wanted: &Wanted,
    addresses: &[Id],
) -> Result<Option<Id>, Exhausted>
    requires wanted { IsKnown table.old wanted.now.address }
    requires search { IsSearch table.old search.old }
    ensures known { IfOk result (λ o. IfSome o (IsKnown table.new)) }
    ensures extends { Extends table.old table.new }
    ensures search { OnOk result (IsSearch table.new search.new) }
{
    for i in 0..addresses.len() {
        if let Some(z) = known(table, addresses[i]) {
            if let Some(index) = index_at(table, search, wanted, z)? {
                return Ok(Some(index));
            }
        }
    }
    Ok(None)
}

/// Whether one of the addresses has the normal form of the one that is asked for.
#[tactic(auto, using(prover_goals::proofs::Kept::rows))]
fn has_address(
    table: &mut Table,
    search: &mut Search,
    wanted: &Wanted,
    addresses: &[Id],
) -> Result<bool, Exhausted>
    requires wanted { IsKnown table.old wanted.now.address }
    requires search { IsSearch table.old search.old }
    ensures extends { Extends table.old table.new }
    ensures search { OnOk result (IsSearch table.new search.new) }
{
    for i in 0..addresses.len() {
        if let Some(z) = known(table, addresses[i]) {
            if are_alike(table, search, wanted.outside, wanted.address, z)? {
                return Ok(true);
            }
        }
    }
    Ok(false)
}

/// The premise of a quantified implication, for the word by which it gives the access.
#[tactic(auto, using(prover_goals::proofs::Kept::rows))]
fn premise_for_all(
    table: &mut Table,
    search: &mut Search,
    wanted: &Wanted,
    body: Id,
) -> Result<Option<Id>, Exhausted>
    requires wanted { IsKnown table.old wanted.now.address }
    requires body { IsKnown table.old body }
    requires search { IsSearch table.old search.old }
    ensures known { IfOk result (λ o. IfSome o (IsKnown table.new)) }
    ensures extends { Extends table.old table.new }
    ensures search { OnOk result (IsSearch table.new search.new) }
{
    let FormNode::Imp(premise, conclusion) = form_node(table, body) else {
        return Ok(None);
    };
    let mut addresses = Vec::new(table.allocator());
    add_addresses(table, wanted.access, conclusion, MOST_PARTS, &mut addresses)?;
    match first_index(table, search, wanted, &addresses)? {
        Some(index) => {
            let put = form_with(table, search, premise, index)?;
            Ok(Some(put))
        }
        None => Ok(None),
    }
}

/// Returns the premise under which the formula, a hypothesis, gives the access that is asked for;
/// None if it is no implication, also under a quantifier, that could give it.
///
/// Errors: out of memory, or the limit of `search` is reached; each id keeps its tree.
#[tactic(auto, using(prover_goals::proofs::Kept::rows))]
pub fn premise_of(
    table: &mut Table,
    search: &mut Search,
    wanted: &Wanted,
    form: Id,
) -> Result<Option<Id>, Exhausted>
    requires wanted { IsKnown table.old wanted.now.address }
    requires form { IsKnown table.old form }
    requires search { IsSearch table.old search.old }
    ensures known { IfOk result (λ o. IfSome o (IsKnown table.new)) }
    ensures extends { Extends table.old table.new }
    ensures search { OnOk result (IsSearch table.new search.new) }
{
    match form_node(table, form) {
        FormNode::All(body) => premise_for_all(table, search, wanted, body),
        FormNode::Imp(premise, conclusion) => {
            let mut addresses = Vec::new(table.allocator());
            add_addresses(table, wanted.access, conclusion, MOST_PARTS, &mut addresses)?;
            if has_address(table, search, wanted, &addresses)? {
                Ok(Some(premise))
            } else {
                Ok(None)
            }
        }
        _ => Ok(None),
    }
}
