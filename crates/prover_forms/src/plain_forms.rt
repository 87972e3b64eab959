//! Finds normal forms of expressions, in rounds.
//!
//! Errors: out of memory, or the limit of the memo is reached; each id keeps its tree.

ghost use Rattle.std.specs.Prelude.{◌≡◌, ◌≤◌, ◌<◌, ℕ, min, IfOk, IfSome, OnOk};
ghost use Rattle.term_table.specs.Table.{IsKnown, tree_at, Extends};
ghost use Rattle.hereditary_subst.specs.Kept.{IsMemo};
ghost use Rattle.hereditary_subst.specs.Limits.{SpendsResults};
ghost use Rattle.formula_tree.specs.Formulas.{Exp, EOp};
ghost use Rattle.lf_terms.specs.Encoding.{exp_encoding};
ghost use Rattle.prover_class.specs.NormalForms.{Rewritten, leaves, rewrite_at, redex, normalized, normal_form};
ghost use Rattle.prover_forms.specs.Rules.{IsRule, IsKnownRule};
ghost use Rattle.prover_forms.specs.Inside.Rounds.{IsRoundOf, StandsFor};
ghost use Rattle.prover_forms.specs.PlainForms.{ArePlainForms};

use crate::results::{
    cleared_bits, negated_sum, regrouped_sum, scaled_sum, swapped_sum, value_of, zero_word,
};
use crate::rules::{Rule, rule_at};
use hereditary_subst::{Exhausted, Memo};
use prover_ids::{ExpNode, Kept, Question, exp_node, number, oper};
use std::alloc::AllocError;
use term_table::{Id, Table};
use word_ops::Op;

/// A cache key: an expression, and how many binders are outside it.
#[derive(Clone, Copy, PartialEq, Eq, PartialOrd, Ord)]
pub struct ExpAt {
    id: u64,
    outside: u32,
}

impl Question for ExpAt {
    ghost use Rattle.std.proofs.Common.{rules};
    ghost use Rattle.prover_forms.specs.PlainForms.{IsPlainForm};
    ghost use Rattle.prover_forms.specs.Lasting.{plain-lasts};

    type Answer = Id;

    ghost is_right = { λ _. IsPlainForm };

    ghost same = { Prim.search rules };

    ghost lasts = { λ _ t u place form e _ h. plain-lasts t u place form e h };
}

/// Cached normal forms, by expression and number of binders outside. They count in the limit of a
/// `Memo`.
pub type PlainForms = Kept<ExpAt>;

/// Returns the number of leaves of the expression, at most `most`.
pub fn leaves_up_to(table: &Table, e: Id, most: u32) -> u32
    requires { IsKnown table.now e }
    ensures within { result ≤ most }
    ensures exact { (x : Exp) → tree_at table.now e ≡ exp_encoding x
        → result ≡ min (leaves x) most }
{
    if most == 0 {
        return 0;
    }
    match exp_node(table, e) {
        ExpNode::Apply(_, a, b) => {
            let left = leaves_up_to(table, a, most);
            let right = leaves_up_to(table, b, most - left);
            left + right
        }
        ExpNode::Var(_) => 1,
        ExpNode::Word(_) => 1,
        ExpNode::Sel(_, _) => 1,
        ExpNode::Unbound => 1,
    }
}

/// What the rule gives for the operator `op` at `a` and `b`; None if there is no rule.
fn given_by(table: &mut Table, rule: Rule, op: Op, a: Id, b: Id) -> Result<Option<Id>, AllocError>
    requires rule { IsKnownRule table.old rule }
    requires a { IsKnown table.old a }
    requires b { IsKnown table.old b }
    ensures known { IfOk result (λ o. IfSome o (IsKnown table.new)) }
    ensures exact { (out : ℕ) (x y : Exp) → tree_at table.old a ≡ exp_encoding x
        → tree_at table.old b ≡ exp_encoding y → IsRule table.old out op x y rule
        → IfOk result (IsRoundOf table.new (EOp op x y) (rewrite_at out op x y)) }
    ensures extends { Extends table.old table.new }
{
    match rule {
        Rule::Nothing => Ok(None),
        Rule::Value(v, w) => Ok(Some(value_of(table, op, v, w)?)),
        Rule::Negated => Ok(Some(negated_sum(table, a, b)?)),
        Rule::First(_) => Ok(Some(a)),
        Rule::Second(_) => Ok(Some(b)),
        Rule::Regrouped(p, q) => Ok(Some(regrouped_sum(table, p, q, b)?)),
        Rule::Turned(p, q) => Ok(Some(regrouped_sum(table, p, a, q)?)),
        Rule::Swapped => Ok(Some(swapped_sum(table, a, b)?)),
        Rule::Scaled(_, count) => Ok(Some(scaled_sum(table, a, b, count)?)),
        Rule::Complemented => Ok(Some(cleared_bits(table, a, b)?)),
        Rule::Cancelled => Ok(Some(zero_word(table)?)),
    }
}

/// The expression after one round, in which the first node that has a rule is rewritten; None if no
/// node has one.
#[cycle(rounds)]
fn after_round(table: &mut Table, outside: u32, e: Id) -> Result<Option<Id>, AllocError>
    requires e { IsKnown table.old e }
    ensures known { IfOk result (λ o. IfSome o (IsKnown table.new)) }
    ensures exact { (x : Exp) → tree_at table.old e ≡ exp_encoding x
        → IfOk result (IsRoundOf table.new x (redex outside x)) }
    ensures extends { Extends table.old table.new }
{
    match exp_node(table, e) {
        ExpNode::Apply(op, a, b) => after_round_in(table, outside, op, e, a, b),
        _ => Ok(None),
    }
}

/// The operator at `a` and `b`, which is `e`, after one round: in its parts, the left one first,
/// else by the rule of the operator itself; None if no node has a rule.
#[cycle(rounds)]
fn after_round_in(
    table: &mut Table,
    outside: u32,
    op: Op,
    e: Id,
    a: Id,
    b: Id,
) -> Result<Option<Id>, AllocError>
    requires e { IsKnown table.old e }
    requires a { a < e }
    requires b { b < e }
    ensures known { IfOk result (λ o. IfSome o (IsKnown table.new)) }
    ensures exact { (x y : Exp) → tree_at table.old a ≡ exp_encoding x
        → tree_at table.old b ≡ exp_encoding y
        → IfOk result (IsRoundOf table.new (EOp op x y) (redex outside (EOp op x y))) }
    ensures extends { Extends table.old table.new }
{
    match after_round(table, outside, a)? {
        Some(left) => {
            let whole = oper(table, op, left, b)?;
            Ok(Some(whole))
        }
        None => match after_round(table, outside, b)? {
            Some(right) => {
                let whole = oper(table, op, a, right)?;
                Ok(Some(whole))
            }
            None => {
                let rule = rule_at(table, outside, op, a, b);
                given_by(table, rule, op, a, b)
            }
        },
    }
}

/// The expression after at most `rounds` rounds.
fn after_rounds(table: &mut Table, outside: u32, rounds: u32, e: Id) -> Result<Id, AllocError>
    requires { IsKnown table.old e }
    ensures known { IfOk result (IsKnown table.new) }
    ensures exact { (x : Exp) (r : Rewritten) → StandsFor table.old r e
        → IfOk result (StandsFor table.new (normalized outside rounds x r)) }
    ensures extends { Extends table.old table.new }
{
    let mut now = e;
    for round in 0..rounds {
        match after_round(table, outside, now)? {
            None => return Ok(now),
            Some(next) => {
                now = next;
            }
        }
    }
    Ok(now)
}

/// The normal form, if none is cached.
fn fresh_form(table: &mut Table, outside: u32, e: Id) -> Result<Id, AllocError>
    requires { IsKnown table.old e }
    ensures known { IfOk result (IsKnown table.new) }
    ensures exact { (x : Exp) → tree_at table.old e ≡ exp_encoding x
        → IfOk result (StandsFor table.new (normal_form outside x)) }
    ensures extends { Extends table.old table.new }
{
    if 64 < leaves_up_to(table, e, 65) {
        return Ok(e);
    }
    after_rounds(table, outside, 65_536, e)
}

/// Returns the normal form of the expression `e`, which is under `outside` binders, without a proof
/// that they are equal. The outermost binder is that of the remaining steps; if no steps are
/// counted, it doesn't exist but is counted in `outside` all the same.
///
/// Errors: out of memory, or the limit of `memo` is reached.
#[tactic(auto, using(crate::proofs::Growing::plain))]
pub fn plain_form(
    table: &mut Table,
    memo: &mut Memo,
    kept: &mut PlainForms,
    outside: u32,
    e: Id,
) -> Result<Id, Exhausted>
    requires e { IsKnown table.old e }
    requires memo { IsMemo table.old memo.old }
    requires kept { ArePlainForms table.old kept.old }
    ensures known { IfOk result (IsKnown table.new) }
    ensures exact { (x : Exp) → tree_at table.old e ≡ exp_encoding x
        → IfOk result (λ f. tree_at table.new f ≡ exp_encoding (normal_form outside x).now) }
    ensures extends { Extends table.old table.new }
    ensures memo { IsMemo table.new memo.new }
    ensures kept { OnOk result (ArePlainForms table.new kept.new) }
    ensures spends { SpendsResults table.new memo.old memo.new result }
{
    let place = ExpAt {
        id: number(e),
        outside,
    };
    if let Some(found) = kept.get(table, &[], &place) {
        return Ok(found);
    }
    let found = fresh_form(table, outside, e)?;
    kept.keep(memo, table, &[], place, found)?;
    Ok(found)
}
