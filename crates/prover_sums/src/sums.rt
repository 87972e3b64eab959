//! Normal forms as sums: their summands, their literal, and the difference of two of them.

ghost use Rattle.std.specs.Prelude.{◌≡◌, List, ◌∷◌, [], IfOk, IfSome};
ghost use Rattle.term_table.specs.Table.{IsKnown, AllKnown, tree_at, Extends};
ghost use Rattle.lf_signature.specs.Nodes.{IsIdOf};
ghost use Rattle.formula_tree.specs.Formulas.{Exp};
ghost use Rattle.lf_terms.specs.Encoding.{exp_encoding};
ghost use Rattle.prover_class.specs.Access.{without, all_without, sum_with, rest_of, eighth};
ghost use Rattle.prover_sums.specs.Sums.{IsExpOption};
ghost use Rattle.prover_sums.specs.Inside.Sums.{AreExps, IsSumOf, IsFirstPlace, IsWithout};

use prover_ids::{literal, oper, operands};
use std::alloc::AllocError;
use term_table::{Id, Node, Table};
use word_ops::{Op, apply};

/// Appends the summands of a normal form; returns its literal.
fn add_summands(table: &Table, e: Id, list: &mut Vec<u64>) -> Result<u64, AllocError>
    requires e { IsKnown table.now e }
    requires list { AllKnown table.now list.old.items }
    ensures known { IfOk result (λ w. AllKnown table.now list.new.items) }
    ensures exact { (before : List Exp) (x : Exp) → AreExps table.now list.old.items before
        → tree_at table.now e ≡ exp_encoding x
        → IfOk result (IsSumOf table.now list.new.items before x) }
{
    if let Some(word) = literal(table, e) {
        return Ok(word);
    }
    if let Some(sides) = operands(table, Op::Add, e) {
        list.push(sides.left.index() as u64)?;
        return add_summands(table, sides.right, list);
    }
    list.push(e.index() as u64)?;
    Ok(0)
}

/// Returns how many summands the sum has that the id encodes, its last part among them; 1 if it
/// isn't a sum.
pub fn summand_count(table: &Table, e: Id) -> u64
    requires { IsKnown table.now e }
{
    match operands(table, Op::Add, e) {
        Some(sides) => summand_count(table, sides.right).saturating_add(1),
        None => 1,
    }
}

/// The first index of the number in the list, from `from` on.
fn place_of(list: &[u64], a: u64, from: usize) -> Option<usize>
    ensures { IsFirstPlace list.now a from result }
{
    if from >= list.len() {
        return None;
    }
    if list[from] == a {
        return Some(from);
    }
    place_of(list, a, from + 1)
}

/// Removes the first that is the expression; returns false if there is none.
fn take_away(table: &Table, list: &mut Vec<u64>, a: u64) -> bool
    requires list { AllKnown table.now list.old.items }
    requires a { IsKnown table.now a }
    ensures known { AllKnown table.now list.new.items }
    ensures exact { (before : List Exp) (x : Exp) → AreExps table.now list.old.items before
        → tree_at table.now a ≡ exp_encoding x
        → IsWithout table.now result list.new.items (without x before) }
{
    table.laws();
    match place_of(list.as_slice(), a, 0) {
        None => false,
        Some(place) => {
            list.remove(place);
            true
        }
    }
}

/// Removes each of the second list; returns false if one is missing.
fn take_all_away(table: &Table, list: &mut Vec<u64>, others: &[u64]) -> bool
    requires list { AllKnown table.now list.old.items }
    requires others { AllKnown table.now others.now }
    ensures known { AllKnown table.now list.new.items }
    ensures exact { (before away : List Exp) → AreExps table.now list.old.items before
        → AreExps table.now others.now away
        → IsWithout table.now result list.new.items (all_without away before) }
{
    match others {
        [] => true,
        [first, rest @ ..] => take_away(table, list, *first) && take_all_away(table, list, rest),
    }
}

/// The sum of an expression and a literal that isn't 0; of 0 the expression.
fn with_literal(table: &mut Table, summand: Id, literal: u64) -> Result<Id, AllocError>
    requires { IsKnown table.old summand }
    ensures known { IfOk result (IsKnown table.new) }
    ensures exact { (x : Exp) → tree_at table.old summand ≡ exp_encoding x
        → IfOk result (IsIdOf table.new (exp_encoding (sum_with (x ∷ []) literal))) }
    ensures extends { Extends table.old table.new }
{
    if literal == 0 {
        return Ok(summand);
    }
    let word = table.intern(Node::Lit(literal))?;
    oper(table, Op::Add, summand, word)
}

/// The sum of the summands and the literal.
fn sum_id(table: &mut Table, summands: &[u64], literal: u64) -> Result<Id, AllocError>
    requires { AllKnown table.old summands.now }
    ensures known { IfOk result (IsKnown table.new) }
    ensures exact { (l : List Exp) → AreExps table.old summands.now l
        → IfOk result (IsIdOf table.new (exp_encoding (sum_with l literal))) }
    ensures extends { Extends table.old table.new }
{
    match summands {
        [] => table.intern(Node::Lit(literal)),
        [first, rest @ ..] => {
            let summand = table.id(*first);
            if rest.is_empty() {
                return with_literal(table, summand, literal);
            }
            let others = sum_id(table, rest, literal)?;
            oper(table, Op::Add, summand, others)
        }
    }
}

/// Returns what remains of the normal form `a` after removing the summands of the normal form `b`
/// and subtracting its literal: None if a summand of `b` is missing in `a`.
///
/// Errors: out of memory alone; each id keeps its tree.
pub fn rest_of(table: &mut Table, a: Id, b: Id) -> Result<Option<Id>, AllocError>
    requires a { IsKnown table.old a }
    requires b { IsKnown table.old b }
    ensures known { IfOk result (λ o. IfSome o (IsKnown table.new)) }
    ensures exact { (x y : Exp) → tree_at table.old a ≡ exp_encoding x
        → tree_at table.old b ≡ exp_encoding y
        → IfOk result (IsExpOption table.new (rest_of x y)) }
    ensures extends { Extends table.old table.new }
{
    let alloc = table.allocator();
    let mut left = Vec::new(alloc);
    let of_a = add_summands(table, a, &mut left)?;
    let mut away = Vec::new(alloc);
    let of_b = add_summands(table, b, &mut away)?;
    if !take_all_away(table, &mut left, away.as_slice()) {
        return Ok(None);
    }
    Ok(Some(sum_id(table, left.as_slice(), apply(Op::Sub, of_a, of_b))?))
}

/// Returns t if the expression is t shifted left by 3, a literal shifted right by 3, and None for
/// any other expression.
///
/// Errors: out of memory alone; each id keeps its tree.
pub fn eighth(table: &mut Table, rest: Id) -> Result<Option<Id>, AllocError>
    requires { IsKnown table.old rest }
    ensures known { IfOk result (λ o. IfSome o (IsKnown table.new)) }
    ensures exact { (x : Exp) → tree_at table.old rest ≡ exp_encoding x
        → IfOk result (IsExpOption table.new (eighth x)) }
    ensures extends { Extends table.old table.new }
{
    if let Some(word) = literal(table, rest) {
        return Ok(Some(table.intern(Node::Lit(apply(Op::Srl, word, 3)))?));
    }
    let Some(sides) = operands(table, Op::Sll, rest) else {
        return Ok(None);
    };
    match literal(table, sides.right) {
        Some(3) => Ok(Some(sides.left)),
        _ => Ok(None),
    }
}
