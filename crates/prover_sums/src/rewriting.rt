//! Single rewriting steps of expressions, with the proofs of their equations.
//!
//! Errors: out of memory, or the limit of the memo is reached; each id keeps its tree.

ghost use Rattle.std.specs.Prelude.{◌≡◌, ◌<◌, ℕ, IfOk, List};
ghost use Rattle.term_table.specs.Table.{IsKnown, tree_at, Extends};
ghost use Rattle.hereditary_subst.specs.Kept.{IsMemo};
ghost use Rattle.hereditary_subst.specs.Limits.{SpendsResults, NeverResults};
ghost use Rattle.word_ops.specs.Words.{word_of};
ghost use Rattle.word_ops.specs.declared.Op.TheVariants.{Add};
ghost use Rattle.formula_tree.specs.Formulas.{Exp, ELit, EOp};
ghost use Rattle.lf_terms.specs.Encoding.{exp_encoding};
ghost use Rattle.lf_terms.specs.ProofTerms.{up, calc};
ghost use Rattle.prover_class.specs.NormalForms.{Rewriting, turned, rewrite_at, in_left, in_right, redex};
ghost use Rattle.prover_forms.specs.Rules.{IsRule, IsKnownRule};
ghost use Rattle.prover_sums.specs.Inside.Rewrites.{
  IsKnownRewrite,
  IsRewrite,
  AreKnownRewrites,
  AreRewrites,
  whole_of,
  negated_of,
  scaled_of,
  complemented_of,
  cancelled_of,
  operand_of,
  regrouped_of,
  commuted_of,
  ungrouped_of,
  left_rewriting,
  right_rewriting,
  has_rewrites,
};

use hereditary_subst::{Exhausted, Memo};
use lf_signature::numbers::{ADD_ASSOC, ADD_COMM, BIC_DEF, SUB_NEG, XOR_SELF};
use lf_terms::rule_term;
use prover_forms::{
    Rule, cleared_bits, negated_sum, regrouped_sum, rule_at, scaled_sum, swapped_sum, value_of,
    zero_word,
};
use prover_ids::{ExpNode, calc, exp_node, oper, raised, swapped};
use term_table::{Id, Node, Table};
use word_ops::Op;

/// One rewriting: `into` is the expression with variable 0 in the place of what is rewritten,
/// `from` is rewritten to `to` by the proof, and `after` is the whole expression then.
#[derive(Clone, Copy)]
pub(crate) struct Rewrite {
    pub(crate) into: Id,
    pub(crate) from: Id,
    pub(crate) to: Id,
    pub(crate) proof: Id,
    pub(crate) after: Id,
}

/// The rewritings at one place, one after another.
#[derive(Clone, Copy)]
pub(crate) enum Rewrites {
    /// There is nothing to rewrite.
    Nothing,
    /// One rewriting.
    One(Rewrite),
    /// Three.
    Three(Rewrite, Rewrite, Rewrite),
}

/// The rewriting of the whole expression.
fn whole(table: &mut Table, from: Id, to: Id, proof: Id) -> Result<Rewrite, Exhausted>
    requires from { IsKnown table.old from }
    requires to { IsKnown table.old to }
    requires proof { IsKnown table.old proof }
    ensures known { IfOk result (IsKnownRewrite table.new) }
    ensures exact { (f g : Exp) → tree_at table.old from ≡ exp_encoding f
        → tree_at table.old to ≡ exp_encoding g
        → IfOk result (λ s. IsRewrite table.new s (whole_of f g (tree_at table.old proof))) }
    ensures extends { Extends table.old table.new }
    ensures memory { NeverResults result }
{
    let into = table.intern(Node::Var(0))?;
    Ok(Rewrite {
        into,
        from,
        to,
        proof,
        after: to,
    })
}

/// To what the operator gives of two words.
fn to_value(table: &mut Table, e: Id, op: Op, v: u64, w: u64) -> Result<Rewrite, Exhausted>
    requires { IsKnown table.old e }
    ensures known { IfOk result (IsKnownRewrite table.new) }
    ensures exact { (f : Exp) → tree_at table.old e ≡ exp_encoding f
        → IfOk result (λ s.
        IsRewrite table.new s (whole_of f (ELit (word_of op v w)) (calc op v w))) }
    ensures extends { Extends table.old table.new }
    ensures memory { NeverResults result }
{
    let value = value_of(table, op, v, w)?;
    let proof = calc(table, op, v, w)?;
    whole(table, e, value, proof)
}

/// From a difference to the sum with what is negative.
fn to_sum(table: &mut Table, e: Id, a: Id, b: Id) -> Result<Rewrite, Exhausted>
    requires e { IsKnown table.old e }
    requires a { IsKnown table.old a }
    requires b { IsKnown table.old b }
    ensures known { IfOk result (IsKnownRewrite table.new) }
    ensures exact { (f x y : Exp) → tree_at table.old e ≡ exp_encoding f
        → tree_at table.old a ≡ exp_encoding x → tree_at table.old b ≡ exp_encoding y
        → IfOk result (λ s. IsRewrite table.new s (negated_of f x y)) }
    ensures extends { Extends table.old table.new }
    ensures memory { NeverResults result }
{
    let sum = negated_sum(table, a, b)?;
    let proof = rule_term(table, SUB_NEG, &[a, b])?;
    whole(table, e, sum, proof)
}

/// To the sum of the first operand, shifted to the left by `count` bits, and the second, by the
/// rule of this number.
fn to_scaled(
    table: &mut Table,
    e: Id,
    a: Id,
    b: Id,
    number: u32,
    count: u64,
) -> Result<Rewrite, Exhausted>
    requires e { IsKnown table.old e }
    requires a { IsKnown table.old a }
    requires b { IsKnown table.old b }
    ensures known { IfOk result (IsKnownRewrite table.new) }
    ensures exact { (f x y : Exp) → tree_at table.old e ≡ exp_encoding f
        → tree_at table.old a ≡ exp_encoding x → tree_at table.old b ≡ exp_encoding y
        → IfOk result (λ s. IsRewrite table.new s (scaled_of number count f x y)) }
    ensures extends { Extends table.old table.new }
    ensures memory { NeverResults result }
{
    let sum = scaled_sum(table, a, b, count)?;
    let proof = rule_term(table, number, &[a, b])?;
    whole(table, e, sum, proof)
}

/// From bits cleared to the bitwise and with the complement.
fn to_complement(table: &mut Table, e: Id, a: Id, b: Id) -> Result<Rewrite, Exhausted>
    requires e { IsKnown table.old e }
    requires a { IsKnown table.old a }
    requires b { IsKnown table.old b }
    ensures known { IfOk result (IsKnownRewrite table.new) }
    ensures exact { (f x y : Exp) → tree_at table.old e ≡ exp_encoding f
        → tree_at table.old a ≡ exp_encoding x → tree_at table.old b ≡ exp_encoding y
        → IfOk result (λ s. IsRewrite table.new s (complemented_of f x y)) }
    ensures extends { Extends table.old table.new }
    ensures memory { NeverResults result }
{
    let masked = cleared_bits(table, a, b)?;
    let proof = rule_term(table, BIC_DEF, &[a, b])?;
    whole(table, e, masked, proof)
}

/// From an exclusive or of an operand with itself to 0.
fn to_zero(table: &mut Table, e: Id, a: Id) -> Result<Rewrite, Exhausted>
    requires e { IsKnown table.old e }
    requires a { IsKnown table.old a }
    ensures known { IfOk result (IsKnownRewrite table.new) }
    ensures exact { (f x : Exp) → tree_at table.old e ≡ exp_encoding f
        → tree_at table.old a ≡ exp_encoding x
        → IfOk result (λ s. IsRewrite table.new s (cancelled_of f x)) }
    ensures extends { Extends table.old table.new }
    ensures memory { NeverResults result }
{
    let zero = zero_word(table)?;
    let proof = rule_term(table, XOR_SELF, &[a])?;
    whole(table, e, zero, proof)
}

/// To an operand, by the rule of this number.
fn to_operand(table: &mut Table, e: Id, a: Id, number: u32) -> Result<Rewrite, Exhausted>
    requires e { IsKnown table.old e }
    requires a { IsKnown table.old a }
    ensures known { IfOk result (IsKnownRewrite table.new) }
    ensures exact { (f x : Exp) → tree_at table.old e ≡ exp_encoding f
        → tree_at table.old a ≡ exp_encoding x
        → IfOk result (λ s. IsRewrite table.new s (operand_of number f x)) }
    ensures extends { Extends table.old table.new }
    ensures memory { NeverResults result }
{
    let proof = rule_term(table, number, &[a])?;
    whole(table, e, a, proof)
}

/// From the sum of a sum of `a` and `b` with `c` to that of `a` with a sum.
fn regrouped(table: &mut Table, e: Id, a: Id, b: Id, c: Id) -> Result<Rewrite, Exhausted>
    requires e { IsKnown table.old e }
    requires a { IsKnown table.old a }
    requires b { IsKnown table.old b }
    requires c { IsKnown table.old c }
    ensures known { IfOk result (IsKnownRewrite table.new) }
    ensures exact { (f x y z : Exp) → tree_at table.old e ≡ exp_encoding f
        → tree_at table.old a ≡ exp_encoding x → tree_at table.old b ≡ exp_encoding y
        → tree_at table.old c ≡ exp_encoding z
        → IfOk result (λ s. IsRewrite table.new s (regrouped_of f x y z)) }
    ensures extends { Extends table.old table.new }
    ensures memory { NeverResults result }
{
    let sum = regrouped_sum(table, a, b, c)?;
    let proof = rule_term(table, ADD_ASSOC, &[a, b, c])?;
    whole(table, e, sum, proof)
}

/// From a sum to that of its parts in the other order.
fn commuted(table: &mut Table, e: Id, a: Id, b: Id) -> Result<Rewrite, Exhausted>
    requires e { IsKnown table.old e }
    requires a { IsKnown table.old a }
    requires b { IsKnown table.old b }
    ensures known { IfOk result (IsKnownRewrite table.new) }
    ensures exact { (f x y : Exp) → tree_at table.old e ≡ exp_encoding f
        → tree_at table.old a ≡ exp_encoding x → tree_at table.old b ≡ exp_encoding y
        → IfOk result (λ s. IsRewrite table.new s (commuted_of f x y)) }
    ensures extends { Extends table.old table.new }
    ensures memory { NeverResults result }
{
    let sum = swapped_sum(table, a, b)?;
    let proof = rule_term(table, ADD_COMM, &[a, b])?;
    whole(table, e, sum, proof)
}

/// From the sum `e` of `a` with a sum of `b` and `c` to that of `b` with a sum of `a` and `c`.
#[tactic(auto, using(hereditary_subst::proofs::Rows::rows))]
fn turned(
    table: &mut Table,
    memo: &mut Memo,
    e: Id,
    a: Id,
    b: Id,
    c: Id,
) -> Result<Rewrites, Exhausted>
    requires e { IsKnown table.old e }
    requires a { IsKnown table.old a }
    requires b { IsKnown table.old b }
    requires c { IsKnown table.old c }
    requires memo { IsMemo table.old memo.old }
    ensures known { IfOk result (AreKnownRewrites table.new) }
    ensures exact { (x y z : Exp)
        → tree_at table.old e ≡ exp_encoding (EOp Add x (EOp Add y z))
        → tree_at table.old a ≡ exp_encoding x → tree_at table.old b ≡ exp_encoding y
        → tree_at table.old c ≡ exp_encoding z
        → IfOk result (λ s. AreRewrites table.new s (turned x y z)) }
    ensures extends { Extends table.old table.new }
    ensures memo { IsMemo table.new memo.new }
    ensures spends { SpendsResults table.new memo.old memo.new result }
{
    let first = ungrouped(table, memo, e, a, b, c)?;
    let above = raised(table, memo, c)?;
    let sum = oper(table, Op::Add, a, b)?;
    let step = commuted(table, sum, a, b)?;
    let second = under_left(table, Op::Add, c, above, step)?;
    let third = regrouped(table, second.after, b, a, c)?;
    Ok(Rewrites::Three(first, second, third))
}

/// From the sum `e` of `a` with a sum of `b` and `c` to that of a sum with `c`.
#[tactic(auto, using(hereditary_subst::proofs::Rows::rows))]
fn ungrouped(
    table: &mut Table,
    memo: &mut Memo,
    e: Id,
    a: Id,
    b: Id,
    c: Id,
) -> Result<Rewrite, Exhausted>
    requires e { IsKnown table.old e }
    requires a { IsKnown table.old a }
    requires b { IsKnown table.old b }
    requires c { IsKnown table.old c }
    requires memo { IsMemo table.old memo.old }
    ensures known { IfOk result (IsKnownRewrite table.new) }
    ensures exact { (x y z : Exp)
        → tree_at table.old e ≡ exp_encoding (EOp Add x (EOp Add y z))
        → tree_at table.old a ≡ exp_encoding x → tree_at table.old b ≡ exp_encoding y
        → tree_at table.old c ≡ exp_encoding z
        → IfOk result (λ s. IsRewrite table.new s (ungrouped_of x y z)) }
    ensures extends { Extends table.old table.new }
    ensures memo { IsMemo table.new memo.new }
    ensures spends { SpendsResults table.new memo.old memo.new result }
{
    let sum = oper(table, Op::Add, a, b)?;
    let grouped = oper(table, Op::Add, sum, c)?;
    let equal = rule_term(table, ADD_ASSOC, &[a, b, c])?;
    let proof = swapped(table, memo, grouped, e, equal)?;
    whole(table, e, grouped, proof)
}

/// The rewriting in the left part, beside `right`, which is `above` under one more binder.
fn under_left(
    table: &mut Table,
    op: Op,
    right: Id,
    above: Id,
    step: Rewrite,
) -> Result<Rewrite, Exhausted>
    requires right { IsKnown table.old right }
    requires above { IsKnown table.old above }
    requires step { IsKnownRewrite table.old step }
    ensures known { IfOk result (IsKnownRewrite table.new) }
    ensures exact { (y : Exp) (s : Rewriting) → tree_at table.old right ≡ exp_encoding y
        → tree_at table.old above ≡ exp_encoding (up y) → IsRewrite table.old step s
        → IfOk result (λ r. IsRewrite table.new r (left_rewriting op y s)) }
    ensures extends { Extends table.old table.new }
    ensures memory { NeverResults result }
{
    let into = oper(table, op, step.into, above)?;
    let after = oper(table, op, step.after, right)?;
    Ok(Rewrite {
        into,
        from: step.from,
        to: step.to,
        proof: step.proof,
        after,
    })
}

/// The rewriting in the right part, beside `left`, which is `above` under one more binder.
fn under_right(
    table: &mut Table,
    op: Op,
    left: Id,
    above: Id,
    step: Rewrite,
) -> Result<Rewrite, Exhausted>
    requires left { IsKnown table.old left }
    requires above { IsKnown table.old above }
    requires step { IsKnownRewrite table.old step }
    ensures known { IfOk result (IsKnownRewrite table.new) }
    ensures exact { (y : Exp) (s : Rewriting) → tree_at table.old left ≡ exp_encoding y
        → tree_at table.old above ≡ exp_encoding (up y) → IsRewrite table.old step s
        → IfOk result (λ r. IsRewrite table.new r (right_rewriting op y s)) }
    ensures extends { Extends table.old table.new }
    ensures memory { NeverResults result }
{
    let into = oper(table, op, above, step.into)?;
    let after = oper(table, op, left, step.after)?;
    Ok(Rewrite {
        into,
        from: step.from,
        to: step.to,
        proof: step.proof,
        after,
    })
}

/// The rewritings in the left part, beside `right`.
#[tactic(auto, using(hereditary_subst::proofs::Rows::rows))]
fn all_under_left(
    table: &mut Table,
    memo: &mut Memo,
    op: Op,
    right: Id,
    steps: Rewrites,
) -> Result<Rewrites, Exhausted>
    requires right { IsKnown table.old right }
    requires steps { AreKnownRewrites table.old steps }
    requires memo { IsMemo table.old memo.old }
    ensures known { IfOk result (AreKnownRewrites table.new) }
    ensures exact { (y : Exp) (l : List Rewriting) → tree_at table.old right ≡ exp_encoding y
        → AreRewrites table.old steps l
        → IfOk result (λ s. AreRewrites table.new s (in_left op y l)) }
    ensures extends { Extends table.old table.new }
    ensures memo { IsMemo table.new memo.new }
    ensures spends { SpendsResults table.new memo.old memo.new result }
{
    let above = raised(table, memo, right)?;
    match steps {
        Rewrites::Nothing => Ok(Rewrites::Nothing),
        Rewrites::One(step) => {
            let step = under_left(table, op, right, above, step)?;
            Ok(Rewrites::One(step))
        }
        Rewrites::Three(first, second, third) => {
            let first = under_left(table, op, right, above, first)?;
            let second = under_left(table, op, right, above, second)?;
            let third = under_left(table, op, right, above, third)?;
            Ok(Rewrites::Three(first, second, third))
        }
    }
}

/// The rewritings in the right part, beside `left`.
#[tactic(auto, using(hereditary_subst::proofs::Rows::rows))]
fn all_under_right(
    table: &mut Table,
    memo: &mut Memo,
    op: Op,
    left: Id,
    steps: Rewrites,
) -> Result<Rewrites, Exhausted>
    requires left { IsKnown table.old left }
    requires steps { AreKnownRewrites table.old steps }
    requires memo { IsMemo table.old memo.old }
    ensures known { IfOk result (AreKnownRewrites table.new) }
    ensures exact { (y : Exp) (l : List Rewriting) → tree_at table.old left ≡ exp_encoding y
        → AreRewrites table.old steps l
        → IfOk result (λ s. AreRewrites table.new s (in_right op y l)) }
    ensures extends { Extends table.old table.new }
    ensures memo { IsMemo table.new memo.new }
    ensures spends { SpendsResults table.new memo.old memo.new result }
{
    let above = raised(table, memo, left)?;
    match steps {
        Rewrites::Nothing => Ok(Rewrites::Nothing),
        Rewrites::One(step) => {
            let step = under_right(table, op, left, above, step)?;
            Ok(Rewrites::One(step))
        }
        Rewrites::Three(first, second, third) => {
            let first = under_right(table, op, left, above, first)?;
            let second = under_right(table, op, left, above, second)?;
            let third = under_right(table, op, left, above, third)?;
            Ok(Rewrites::Three(first, second, third))
        }
    }
}

/// The rewritings of the operator `op` at `a` and `b`, which is `e`, by the rule.
#[tactic(auto, using(hereditary_subst::proofs::Rows::rows))]
fn rewrites_by(
    table: &mut Table,
    memo: &mut Memo,
    rule: Rule,
    op: Op,
    e: Id,
    a: Id,
    b: Id,
) -> Result<Rewrites, Exhausted>
    requires rule { IsKnownRule table.old rule }
    requires e { IsKnown table.old e }
    requires a { IsKnown table.old a }
    requires b { IsKnown table.old b }
    requires memo { IsMemo table.old memo.old }
    ensures known { IfOk result (AreKnownRewrites table.new) }
    ensures exact { (out : ℕ) (x y : Exp) → tree_at table.old e ≡ exp_encoding (EOp op x y)
        → tree_at table.old a ≡ exp_encoding x → tree_at table.old b ≡ exp_encoding y
        → IsRule table.old out op x y rule
        → IfOk result (λ s. AreRewrites table.new s (rewrite_at out op x y)) }
    ensures extends { Extends table.old table.new }
    ensures memo { IsMemo table.new memo.new }
    ensures spends { SpendsResults table.new memo.old memo.new result }
{
    match rule {
        Rule::Nothing => Ok(Rewrites::Nothing),
        Rule::Turned(p, q) => turned(table, memo, e, a, p, q),
        Rule::Value(v, w) => Ok(Rewrites::One(to_value(table, e, op, v, w)?)),
        Rule::Negated => Ok(Rewrites::One(to_sum(table, e, a, b)?)),
        Rule::First(number) => Ok(Rewrites::One(to_operand(table, e, a, number)?)),
        Rule::Second(number) => Ok(Rewrites::One(to_operand(table, e, b, number)?)),
        Rule::Regrouped(p, q) => Ok(Rewrites::One(regrouped(table, e, p, q, b)?)),
        Rule::Swapped => Ok(Rewrites::One(commuted(table, e, a, b)?)),
        Rule::Scaled(number, count) => {
            let step = to_scaled(table, e, a, b, number, count)?;
            Ok(Rewrites::One(step))
        }
        Rule::Complemented => Ok(Rewrites::One(to_complement(table, e, a, b)?)),
        Rule::Cancelled => Ok(Rewrites::One(to_zero(table, e, a)?)),
    }
}

/// The first rewriting in the expression, if there is one.
#[cycle(redex)]
#[tactic(auto, using(hereditary_subst::proofs::Rows::rows))]
pub(crate) fn redex(
    table: &mut Table,
    memo: &mut Memo,
    outside: u32,
    e: Id,
) -> Result<Rewrites, Exhausted>
    requires e { IsKnown table.old e }
    requires memo { IsMemo table.old memo.old }
    ensures known { IfOk result (AreKnownRewrites table.new) }
    ensures exact { (x : Exp) → tree_at table.old e ≡ exp_encoding x
        → IfOk result (λ s. AreRewrites table.new s (redex outside x)) }
    ensures extends { Extends table.old table.new }
    ensures memo { IsMemo table.new memo.new }
    ensures spends { SpendsResults table.new memo.old memo.new result }
{
    match exp_node(table, e) {
        ExpNode::Apply(op, a, b) => redex_of_parts(table, memo, outside, op, e, a, b),
        _ => Ok(Rewrites::Nothing),
    }
}

/// The first rewriting in the operator at `a` and `b`, which is `e`.
#[cycle(redex)]
#[tactic(auto, using(hereditary_subst::proofs::Rows::rows))]
fn redex_of_parts(
    table: &mut Table,
    memo: &mut Memo,
    outside: u32,
    op: Op,
    e: Id,
    a: Id,
    b: Id,
) -> Result<Rewrites, Exhausted>
    requires e { IsKnown table.old e }
    requires a { a < e }
    requires b { b < e }
    requires memo { IsMemo table.old memo.old }
    ensures known { IfOk result (AreKnownRewrites table.new) }
    ensures exact { (x y : Exp) → tree_at table.old e ≡ exp_encoding (EOp op x y)
        → tree_at table.old a ≡ exp_encoding x → tree_at table.old b ≡ exp_encoding y
        → IfOk result (λ s. AreRewrites table.new s (redex outside (EOp op x y))) }
    ensures extends { Extends table.old table.new }
    ensures memo { IsMemo table.new memo.new }
    ensures spends { SpendsResults table.new memo.old memo.new result }
{
    let left = redex(table, memo, outside, a)?;
    if has_rewrites(&left) {
        return all_under_left(table, memo, op, b, left);
    }
    let right = redex(table, memo, outside, b)?;
    if has_rewrites(&right) {
        return all_under_right(table, memo, op, a, right);
    }
    let rule = rule_at(table, outside, op, a, b);
    rewrites_by(table, memo, rule, op, e, a, b)
}

/// Whether there is something to rewrite.
pub(crate) fn has_rewrites(steps: &Rewrites) -> bool
    ensures { result ≡ has_rewrites steps.now }
{
    match steps {
        Rewrites::Nothing => false,
        Rewrites::One(_) => true,
        Rewrites::Three(_, _, _) => true,
    }
}
