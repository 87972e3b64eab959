//! The operands of an operator, themselves bounded, and the upper bounds that they give of it.
//!
//! Errors: out of memory, or the limit of the memo is reached; each id keeps its tree.

ghost use Rattle.std.specs.Prelude.{◌≡◌, ◌<◌, ◌≤◌, IfOk, IfSome, OnOk};
ghost use Rattle.term_table.specs.Table.{IsKnown, tree_at, Extends};
ghost use Rattle.hereditary_subst.specs.Kept.{IsMemo};
ghost use Rattle.hereditary_subst.specs.Limits.{SpendsResults, NeverResults};
ghost use Rattle.formula_tree.specs.Formulas.{Exp, ELit};
ghost use Rattle.lf_terms.specs.Encoding.{exp_encoding};
ghost use Rattle.prover_bounds.specs.BoundIds.{IsWordBound, bound_by_ids};
ghost use Rattle.prover_bounds.specs.Candidates.{limit, by_word, by_itself, by_side, by_left, by_right_shift, by_left_shift, by_sum, by_difference, capped_at, ceiling_of, by_ceiling};
ghost use Rattle.prover_bounds.specs.Choices.{AreParts, IsDifference};

use crate::bounds::{Bound, Side, fit_proof, folded, placed, word};
use hereditary_subst::{Exhausted, Memo};
use lf_signature::numbers::{
    ADD_LE, AND_COMM, AND_LE, CMP_LE1, EXTB_LE, EXTL_LE, EXTW_LE, MAX_LE, SLL_MONO, SRL_MONO,
    SUB_LO, ULE_REFL, ULE_TRANS, ZERO_LE,
};
use lf_terms::rule_term;
use prover_ids::{ExpNode, exp_node, fact, literal, moved, oper, operands};
use std::alloc::AllocError;
use term_table::{Id, Table};
use word_ops::{Op, Rel};

/// An operator and its two sides.
#[derive(Clone, Copy)]
pub(crate) struct Parts {
    pub(crate) op: Op,
    pub(crate) left: Id,
    pub(crate) right: Id,
}

/// A word that an operator never passes, whatever its sides are, and the number of the rule that
/// says so.
#[derive(Clone, Copy)]
pub(crate) struct Ceiling {
    pub(crate) word: u64,
    pub(crate) rule: u32,
}

/// A difference whose subtrahend is a word.
#[derive(Clone, Copy)]
pub(crate) struct Difference {
    /// The minuend.
    pub(crate) left: Id,
    pub(crate) word: u64,
}

/// How an operator is bounded by bounds of its parts: from above, but for differences.
#[derive(Clone, Copy)]
pub(crate) enum How {
    /// Bitwise and is at most its left side.
    AndLeft,
    /// Bitwise and is at most its right side.
    AndRight,
    /// A word with bits cleared is at most the word, its left side.
    Cleared,
    /// A shift of its left side to the right by so many bits.
    ShiftRight(u64),
    /// A shift of its left operand to the left by so many bits, if no bit is lost.
    ShiftLeft(u64),
    /// A sum of both operands, if it doesn't wrap.
    Sum,
    /// An operator that never passes a word.
    Capped(Ceiling),
    /// Its left operand minus this word, bounded from below, if it doesn't wrap.
    Difference(u64),
}

/// The operator and the sides of the expression that `e` encodes; None if it is no operator. If `e`
/// encodes no expression, the result says only that the sides' ids are lower.
pub(crate) fn parts_of(table: &Table, e: Id) -> Option<Parts>
    requires { IsKnown table.now e }
    ensures is { (x : Exp) → tree_at table.now e ≡ exp_encoding x → AreParts table.now x result }
    ensures below { IfSome result (λ p. (p.left < e) × (p.right < e)) }
{
    match exp_node(table, e) {
        ExpNode::Apply(op, left, right) => Some(Parts { op, left, right }),
        _ => None,
    }
}

/// The difference that `e` encodes, if the subtrahend is a word; else None. If `e` encodes no
/// expression, the result says only that the minuend has a lower id.
pub(crate) fn difference_of(table: &Table, e: Id) -> Option<Difference>
    requires { IsKnown table.now e }
    ensures is { (x : Exp) → tree_at table.now e ≡ exp_encoding x
        → IsDifference table.now x result }
    ensures below { IfSome result (λ d. d.left < e) }
{
    let Some(sides) = operands(table, Op::Sub, e) else {
        return None;
    };
    match literal(table, sides.right) {
        None => None,
        Some(word) => {
            let left = sides.left;
            Some(Difference { left, word })
        }
    }
}

/// No word is more than the greatest, and none is less than 0.
pub(crate) fn limit(table: &mut Table, side: Side, e: Id) -> Result<Bound, Exhausted>
    requires { IsKnown table.old e }
    ensures known { IfOk result (λ b. IsKnown table.new b.proof) }
    ensures is { (x : Exp) → tree_at table.old e ≡ exp_encoding x
        → IfOk result (IsWordBound table.new (limit side x)) }
    ensures extends { Extends table.old table.new }
    ensures memory { NeverResults result }
{
    match side {
        Side::Upper => {
            let proof = rule_term(table, MAX_LE, &[e])?;
            Ok(Bound {
                value: u64::MAX,
                proof,
            })
        }
        Side::Lower => {
            let proof = rule_term(table, ZERO_LE, &[e])?;
            Ok(Bound { value: 0, proof })
        }
    }
}

/// A word is its own bound.
fn by_word(table: &mut Table, e: Id, w: u64) -> Result<Bound, Exhausted>
    requires { IsKnown table.old e }
    ensures known { IfOk result (λ b. IsKnown table.new b.proof) }
    ensures is { tree_at table.old e ≡ exp_encoding (ELit w)
        → IfOk result (IsWordBound table.new (by_word w)) }
    ensures extends { Extends table.old table.new }
    ensures memory { NeverResults result }
{
    let proof = rule_term(table, ULE_REFL, &[e])?;
    Ok(Bound { value: w, proof })
}

/// A word by itself.
pub(crate) fn by_itself(table: &mut Table, side: Side, e: Id) -> Result<Bound, Exhausted>
    requires { IsKnown table.old e }
    ensures known { IfOk result (λ b. IsKnown table.new b.proof) }
    ensures is { (x : Exp) → tree_at table.old e ≡ exp_encoding x
        → IfOk result (IsWordBound table.new (by_itself side x)) }
    ensures extends { Extends table.old table.new }
    ensures memory { NeverResults result }
{
    match literal(table, e) {
        None => limit(table, side, e),
        Some(w) => by_word(table, e, w),
    }
}

/// Never past this word, by the rule of this number.
fn capped_at(word: u64, rule: u32) -> Option<Ceiling>
    ensures { result ≡ capped_at word rule }
{
    Some(Ceiling { word, rule })
}

/// The word that an operator never passes; None if it may be any word.
pub(crate) fn ceiling_of(op: Op) -> Option<Ceiling>
    ensures { result ≡ ceiling_of op }
{
    match op {
        Op::Cmpeq => capped_at(1, CMP_LE1),
        Op::Cmplt => capped_at(1, CMP_LE1 + 1),
        Op::Cmple => capped_at(1, CMP_LE1 + 2),
        Op::Cmpult => capped_at(1, CMP_LE1 + 3),
        Op::Cmpule => capped_at(1, CMP_LE1 + 4),
        Op::Extb => capped_at(255, EXTB_LE),
        Op::Extw => capped_at(65_535, EXTW_LE),
        Op::Extl => capped_at(4_294_967_295, EXTL_LE),
        _ => None,
    }
}

/// An operator by the word that it never passes.
pub(crate) fn by_ceiling(
    table: &mut Table,
    ceiling: Ceiling,
    a: Id,
    b: Id,
) -> Result<Bound, Exhausted>
    requires a { IsKnown table.old a }
    requires b { IsKnown table.old b }
    ensures known { IfOk result (λ b. IsKnown table.new b.proof) }
    ensures is { (x y : Exp) → tree_at table.old a ≡ exp_encoding x
        → tree_at table.old b ≡ exp_encoding y
        → IfOk result (IsWordBound table.new (by_ceiling ceiling x y)) }
    ensures extends { Extends table.old table.new }
    ensures memory { NeverResults result }
{
    let proof = rule_term(table, ceiling.rule, &[a, b])?;
    Ok(Bound {
        value: ceiling.word,
        proof,
    })
}

/// The operator `e` at `a` and `b`, which is at most its side `side` by the rule of this number: at
/// most what the side is.
pub(crate) fn by_side(
    table: &mut Table,
    number: u32,
    e: Id,
    a: Id,
    b: Id,
    side: Id,
    w: Bound,
) -> Result<Bound, Exhausted>
    requires e { IsKnown table.old e }
    requires a { IsKnown table.old a }
    requires b { IsKnown table.old b }
    requires side { IsKnown table.old side }
    requires w { IsKnown table.old w.proof }
    ensures known { IfOk result (λ b. IsKnown table.new b.proof) }
    ensures is { (x y z s : Exp) → tree_at table.old e ≡ exp_encoding x
        → tree_at table.old a ≡ exp_encoding y → tree_at table.old b ≡ exp_encoding z
        → tree_at table.old side ≡ exp_encoding s → IfOk result
        (IsWordBound table.new (by_side number x y z s (bound_by_ids table.old w))) }
    ensures extends { Extends table.old table.new }
    ensures memory { NeverResults result }
{
    let least = rule_term(table, number, &[a, b])?;
    let value = word(table, w.value)?;
    let proof = rule_term(table, ULE_TRANS, &[e, side, value, least, w.proof])?;
    Ok(Bound {
        value: w.value,
        proof,
    })
}

/// Bitwise and is at most what its left side is.
#[tactic(auto, using(hereditary_subst::proofs::Rows::rows))]
pub(crate) fn by_left(
    table: &mut Table,
    memo: &mut Memo,
    e: Id,
    a: Id,
    b: Id,
    v: Bound,
) -> Result<Bound, Exhausted>
    requires e { IsKnown table.old e }
    requires a { IsKnown table.old a }
    requires b { IsKnown table.old b }
    requires v { IsKnown table.old v.proof }
    requires memo { IsMemo table.old memo.old }
    ensures known { IfOk result (λ b. IsKnown table.new b.proof) }
    ensures is { (x y z : Exp) → tree_at table.old e ≡ exp_encoding x
        → tree_at table.old a ≡ exp_encoding y → tree_at table.old b ≡ exp_encoding z
        → IfOk result (IsWordBound table.new (by_left x y z (bound_by_ids table.old v))) }
    ensures extends { Extends table.old table.new }
    ensures memo { IsMemo table.new memo.new }
    ensures spends { SpendsResults table.new memo.old memo.new result }
{
    let form = placed(table, memo, Side::Lower, a)?;
    let turned = oper(table, Op::Band, b, a)?;
    let equal = rule_term(table, AND_COMM, &[b, a])?;
    let least = rule_term(table, AND_LE, &[b, a])?;
    let back = moved(table, form, turned, e, equal, least)?;
    let value = word(table, v.value)?;
    let proof = rule_term(table, ULE_TRANS, &[e, a, value, back, v.proof])?;
    Ok(Bound {
        value: v.value,
        proof,
    })
}

/// A right shift by a word.
#[tactic(auto, using(hereditary_subst::proofs::Rows::rows))]
pub(crate) fn by_right_shift(
    table: &mut Table,
    memo: &mut Memo,
    e: Id,
    a: Id,
    count: u64,
    v: Bound,
) -> Result<Bound, Exhausted>
    requires e { IsKnown table.old e }
    requires a { IsKnown table.old a }
    requires v { IsKnown table.old v.proof }
    requires memo { IsMemo table.old memo.old }
    ensures known { IfOk result (λ b. IsKnown table.new b.proof) }
    ensures is { (x y : Exp) → tree_at table.old e ≡ exp_encoding x
        → tree_at table.old a ≡ exp_encoding y → IfOk result
        (IsWordBound table.new (by_right_shift x y count (bound_by_ids table.old v))) }
    ensures extends { Extends table.old table.new }
    ensures memo { IsMemo table.new memo.new }
    ensures spends { SpendsResults table.new memo.old memo.new result }
{
    let value = word(table, v.value)?;
    let by = word(table, count)?;
    let proof = rule_term(table, SRL_MONO, &[a, value, by, v.proof])?;
    folded(table, memo, Side::Upper, e, Op::Srl, v.value, count, proof)
}

/// A left shift by a word, if no bit is lost.
#[tactic(auto, using(hereditary_subst::proofs::Rows::rows))]
pub(crate) fn by_left_shift(
    table: &mut Table,
    memo: &mut Memo,
    e: Id,
    a: Id,
    count: u64,
    v: Bound,
) -> Result<Bound, Exhausted>
    requires e { IsKnown table.old e }
    requires a { IsKnown table.old a }
    requires v { IsKnown table.old v.proof }
    requires memo { IsMemo table.old memo.old }
    ensures known { IfOk result (λ b. IsKnown table.new b.proof) }
    ensures is { (x y : Exp) → tree_at table.old e ≡ exp_encoding x
        → tree_at table.old a ≡ exp_encoding y → IfOk result
        (IsWordBound table.new (by_left_shift x y count (bound_by_ids table.old v))) }
    ensures extends { Extends table.old table.new }
    ensures memo { IsMemo table.new memo.new }
    ensures spends { SpendsResults table.new memo.old memo.new result }
{
    let fits = fit_proof(table, memo, v.value, Op::Srl, u64::MAX, count)?;
    let value = word(table, v.value)?;
    let by = word(table, count)?;
    let proof = rule_term(table, SLL_MONO, &[a, value, by, v.proof, fits])?;
    folded(table, memo, Side::Upper, e, Op::Sll, v.value, count, proof)
}

/// A sum, if it doesn't wrap.
#[tactic(auto, using(hereditary_subst::proofs::Rows::rows))]
pub(crate) fn by_sum(
    table: &mut Table,
    memo: &mut Memo,
    e: Id,
    a: Id,
    b: Id,
    v: Bound,
    w: Bound,
) -> Result<Bound, Exhausted>
    requires e { IsKnown table.old e }
    requires a { IsKnown table.old a }
    requires b { IsKnown table.old b }
    requires v { IsKnown table.old v.proof }
    requires w { IsKnown table.old w.proof }
    requires memo { IsMemo table.old memo.old }
    ensures known { IfOk result (λ b. IsKnown table.new b.proof) }
    ensures is { (x y z : Exp) → tree_at table.old e ≡ exp_encoding x
        → tree_at table.old a ≡ exp_encoding y → tree_at table.old b ≡ exp_encoding z
        → IfOk result (IsWordBound table.new
        (by_sum x y z (bound_by_ids table.old v) (bound_by_ids table.old w))) }
    ensures extends { Extends table.old table.new }
    ensures memo { IsMemo table.new memo.new }
    ensures spends { SpendsResults table.new memo.old memo.new result }
{
    let fits = fit_proof(table, memo, v.value, Op::Add, v.value, w.value)?;
    let left = word(table, v.value)?;
    let right = word(table, w.value)?;
    let proof = rule_term(table, ADD_LE, &[a, b, left, right, v.proof, w.proof, fits])?;
    folded(
        table,
        memo,
        Side::Upper,
        e,
        Op::Add,
        v.value,
        w.value,
        proof,
    )
}

/// `a` minus the word `w`, if `a` is at least `v`, and `v` at least `w`.
#[tactic(auto, using(hereditary_subst::proofs::Rows::rows))]
pub(crate) fn by_difference(
    table: &mut Table,
    memo: &mut Memo,
    e: Id,
    a: Id,
    w: u64,
    v: Bound,
) -> Result<Bound, Exhausted>
    requires e { IsKnown table.old e }
    requires a { IsKnown table.old a }
    requires v { IsKnown table.old v.proof }
    requires memo { IsMemo table.old memo.old }
    ensures known { IfOk result (λ b. IsKnown table.new b.proof) }
    ensures is { (x y : Exp) → tree_at table.old e ≡ exp_encoding x
        → tree_at table.old a ≡ exp_encoding y → IfOk result
        (IsWordBound table.new (by_difference x y w (bound_by_ids table.old v))) }
    ensures extends { Extends table.old table.new }
    ensures memo { IsMemo table.new memo.new }
    ensures spends { SpendsResults table.new memo.old memo.new result }
{
    let held = fact(table, Rel::Ule, w, v.value)?;
    let value = word(table, v.value)?;
    let taken = word(table, w)?;
    let proof = rule_term(table, SUB_LO, &[a, value, taken, v.proof, held])?;
    folded(table, memo, Side::Lower, e, Op::Sub, v.value, w, proof)
}
