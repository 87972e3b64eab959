//! Instantiates the variable of a quantified hypothesis, so that an address of its conclusion is
//! the one that the goal names.
//!
//! Errors: out of memory, or the search's limit is reached; each id keeps its tree.

ghost use Rattle.std.specs.Prelude.{◌≡◌, true, Option, Some, IfOk, IfSome, OnOk};
ghost use Rattle.std.specs.Bool.{Decides};
ghost use Rattle.term_table.specs.Table.{IsKnown, tree_at, Extends};
ghost use Rattle.formula_tree.specs.Formulas.{Exp, EVar};
ghost use Rattle.lf_terms.specs.Encoding.{exp_encoding};
ghost use Rattle.prover_sums.specs.Sums.{IsExpOption, OccursInExp};
ghost use Rattle.prover_class.specs.Access.{instance_of};
ghost use Rattle.prover_goals.specs.Search.{IsSearch};
ghost use Rattle.prover_conditions.specs.Inside.Instances.{variable_index, rest_at, scaled_rest, index_at};
ghost use Rattle.prover_conditions.specs.Inside.AccessIds.{IfIndexed};
ghost use Rattle.hereditary_subst.specs.Limits.{SpendsResults};

use crate::access_moves::exp_with;
use hereditary_subst::Exhausted;
use prover_goals::{Search, normal_exp};
use prover_ids::{ExpNode, exp_node, literal, operands};
use prover_sums::{eighth, occurs, rest_of, summand_count};
use std::alloc::AllocError;
use term_table::{Id, Node, Table};
use word_ops::Op;

/// A base plus variable 0, or plus 8 times that if scaled.
#[derive(Clone, Copy)]
struct Indexed {
    base: Id,
    scaled: bool,
}

/// Whether the expression is variable 0.
fn is_variable(table: &Table, e: Id) -> bool
    requires { IsKnown table.now e }
    ensures { (x : Exp) → tree_at table.now e ≡ exp_encoding x → Decides result (x ≡ EVar 0) }
{
    match exp_node(table, e) {
        ExpNode::Var(n) => n == 0,
        ExpNode::Word(_) => false,
        ExpNode::Apply(_, _, _) => false,
        ExpNode::Sel(_, _) => false,
        ExpNode::Unbound => false,
    }
}

/// Whether the word is 3.
fn is_three(word: Option<u64>) -> bool
    ensures { Decides result (word ≡ Some 3) }
{
    match word {
        None => false,
        Some(w) => w == 3,
    }
}

/// Whether the expression is variable 0 shifted left by 3.
fn is_scaled(table: &Table, e: Id) -> bool
    requires { IsKnown table.now e }
    ensures { (x : Exp) → tree_at table.now e ≡ exp_encoding x
        → Decides result (x ≡ variable_index true) }
{
    match operands(table, Op::Sll, e) {
        None => false,
        Some(sides) => { is_variable(table, sides.left) && is_three(literal(table, sides.right)) }
    }
}

/// The address as a base plus variable 0, or plus 8 times that; None if it is neither.
fn split_address(table: &Table, z: Id) -> Option<Indexed>
    requires { IsKnown table.now z }
    ensures known { IfSome result (λ i. IsKnown table.now i.base) }
    ensures exact { (x : Exp) → tree_at table.now z ≡ exp_encoding x
        → IfIndexed table.now x result }
{
    match operands(table, Op::Add, z) {
        None => None,
        Some(sides) => {
            if is_variable(table, sides.right) {
                return Some(Indexed {
                    base: sides.left,
                    scaled: false,
                });
            }
            if is_scaled(table, sides.right) {
                return Some(Indexed {
                    base: sides.left,
                    scaled: true,
                });
            }
            None
        }
    }
}

/// Whether variable 0 occurs in the expression.
#[tactic(auto, using(prover_goals::proofs::Kept::rows))]
fn has_variable(table: &Table, search: &mut Search, e: Id) -> Result<bool, Exhausted>
    requires e { IsKnown table.now e }
    requires search { IsSearch table.now search.old }
    ensures exact { IfOk result (OccursInExp table.now e) }
    ensures search { OnOk result (IsSearch table.now search.new) }
    ensures spends { SpendsResults table.now search.old.memo search.new.memo result }
{
    occurs(table, &mut search.memo, &mut search.occurrences, e)
}

/// What remains of the address `a` without the base, with 0 put for the variable.
#[tactic(auto, using(prover_goals::proofs::Kept::rows))]
fn rest_at(
    table: &mut Table,
    search: &mut Search,
    outside: u32,
    a: Id,
    base: Id,
) -> Result<Option<Id>, Exhausted>
    requires a { IsKnown table.old a }
    requires base { IsKnown table.old base }
    requires search { IsSearch table.old search.old }
    ensures known { IfOk result (λ o. IfSome o (IsKnown table.new)) }
    ensures exact { (x b : Exp) → tree_at table.old a ≡ exp_encoding x
        → tree_at table.old base ≡ exp_encoding b
        → IfOk result (IsExpOption table.new (rest_at outside x b)) }
    ensures extends { Extends table.old table.new }
    ensures search { OnOk result (IsSearch table.new search.new) }
    ensures spends { SpendsResults table.new search.old.memo search.new.memo result }
{
    let zero = table.intern(Node::Lit(0))?;
    let start = exp_with(table, search, base, zero)?;
    let of_a = normal_exp(table, search, outside, a)?;
    let of_base = normal_exp(table, search, outside, start)?;
    let pairs = summand_count(table, of_a).saturating_mul(summand_count(table, of_base));
    search.spend_steps(pairs)?;
    let rest = rest_of(table, of_a, of_base)?;
    Ok(rest)
}

/// The rest, or an eighth of it if scaled.
fn scaled_rest(table: &mut Table, scaled: bool, rest: Option<Id>) -> Result<Option<Id>, AllocError>
    requires { IfSome rest (IsKnown table.old) }
    ensures known { IfOk result (λ o. IfSome o (IsKnown table.new)) }
    ensures exact { (o : Option Exp) → IsExpOption table.old o rest
        → IfOk result (IsExpOption table.new (scaled_rest scaled o)) }
    ensures extends { Extends table.old table.new }
{
    match rest {
        None => Ok(None),
        Some(id) => {
            if scaled {
                let part = eighth(table, id)?;
                Ok(part)
            } else {
                Ok(Some(id))
            }
        }
    }
}

/// The expression to put for the variable of an address with this base.
#[tactic(auto, using(prover_goals::proofs::Kept::rows))]
fn index_at(
    table: &mut Table,
    search: &mut Search,
    outside: u32,
    a: Id,
    base: Id,
    scaled: bool,
) -> Result<Option<Id>, Exhausted>
    requires a { IsKnown table.old a }
    requires base { IsKnown table.old base }
    requires search { IsSearch table.old search.old }
    ensures known { IfOk result (λ o. IfSome o (IsKnown table.new)) }
    ensures exact { (x b : Exp) → tree_at table.old a ≡ exp_encoding x
        → tree_at table.old base ≡ exp_encoding b
        → IfOk result (IsExpOption table.new (index_at outside x b scaled)) }
    ensures extends { Extends table.old table.new }
    ensures search { OnOk result (IsSearch table.new search.new) }
    ensures spends { SpendsResults table.new search.old.memo search.new.memo result }
{
    if has_variable(table, search, base)? {
        return Ok(None);
    }
    let rest = rest_at(table, search, outside, a, base)?;
    let index = scaled_rest(table, scaled, rest)?;
    Ok(index)
}

/// The expression to put for variable 0 of the address `z`, so that it means the address `a`. None
/// if `z` isn't a base plus variable 0, plain or times 8, or if `a` lacks a summand of the base.
#[tactic(auto, using(prover_goals::proofs::Kept::rows))]
pub(crate) fn instance_of(
    table: &mut Table,
    search: &mut Search,
    outside: u32,
    a: Id,
    z: Id,
) -> Result<Option<Id>, Exhausted>
    requires a { IsKnown table.old a }
    requires z { IsKnown table.old z }
    requires search { IsSearch table.old search.old }
    ensures known { IfOk result (λ o. IfSome o (IsKnown table.new)) }
    ensures exact { (x y : Exp) → tree_at table.old a ≡ exp_encoding x
        → tree_at table.old z ≡ exp_encoding y
        → IfOk result (IsExpOption table.new (instance_of outside x y)) }
    ensures extends { Extends table.old table.new }
    ensures search { OnOk result (IsSearch table.new search.new) }
    ensures spends { SpendsResults table.new search.old.memo search.new.memo result }
{
    match split_address(table, z) {
        None => Ok(None),
        Some(index) => {
            let put = index_at(table, search, outside, a, index.base, index.scaled)?;
            Ok(put)
        }
    }
}
