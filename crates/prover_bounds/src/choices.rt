//! Chooses which candidate is the best bound: builds no term and leaves the table unchanged.

ghost use Rattle.std.specs.Prelude.{◌≡◌, ◌<◌, ◌+◌, ◌^◌, ◌++◌, true, [], ◌∷◌, if◌then◌else◌, nat_lt, nat_le, suc, drop, length};
ghost use Rattle.term_table.specs.Table.{IsKnown, tree_at};
ghost use Rattle.word_ops.specs.declared.Op.TheVariants.{Sub, Srl};
ghost use Rattle.word_ops.specs.Words.{word_of};
ghost use Rattle.formula_tree.specs.Formulas.{Exp, ELit, EOp};
ghost use Rattle.lf_terms.specs.Encoding.{exp_encoding};
ghost use Rattle.prover_ids.specs.Hypotheses.{AreKnownHyps, AreHyps};
ghost use Rattle.prover_ids.specs.Nodes.{IsApply};
ghost use Rattle.prover_class.specs.Hypotheses.{Hyps};
ghost use Rattle.prover_class.specs.Bounds.{WordBound, max_word, least_bound, greatest_bound, op_bounds, part_lowers, own_bounds, upper_bound, lower_bound};
ghost use Rattle.prover_bounds.specs.declared.bounds.Side.TheVariants.{Upper, Lower};
ghost use Rattle.prover_bounds.specs.Candidates.{limit, ceiling_of, ceiling_bounds};
ghost use Rattle.prover_bounds.specs.Choices.{better, best, all_say, chosen, IsChoice, IsDifferenceOf};

use crate::bounds::Side;
use crate::parts::{Difference, How, Parts, ceiling_of};
use crate::relations::{bound_word, relation_of};
use prover_ids::{Hypothesis, literal};
use term_table::{Id, Table};
use word_ops::{Op, apply};

/// The reason for a bound.
#[derive(Clone, Copy)]
pub(crate) enum By {
    /// No word is more than the greatest, and none is less than 0.
    Limit,
    /// It is a word itself.
    Itself,
    /// The hypothesis at this place, which relates it to a word.
    Hypothesis(usize),
    /// Its operator's parts.
    Parts(How),
}

/// A bound that was chosen: its word, and what it holds by.
#[derive(Clone, Copy)]
pub(crate) struct Choice {
    pub(crate) value: u64,
    pub(crate) by: By,
}

/// The first, unless the second is strictly better.
fn better(side: Side, first: Choice, second: Choice) -> Choice
    ensures { (Γ : Hyps) (x : Exp) (v w : WordBound) → IsChoice side Γ x v first
        → IsChoice side Γ x w second → IsChoice side Γ x (better side v w) result }
{
    match side {
        Side::Upper => {
            if second.value < first.value {
                second
            } else {
                first
            }
        }
        Side::Lower => {
            if first.value < second.value {
                second
            } else {
                first
            }
        }
    }
}

/// This candidate, unless the last is strictly better.
fn or_last(side: Side, by: By, value: u64, last: Choice) -> Choice
    ensures { (Γ : Hyps) (x : Exp) (w : WordBound) → value ≡ (chosen side Γ x by).value
        → IsChoice side Γ x w last
        → IsChoice side Γ x (better side (chosen side Γ x by) w) result }
{
    better(side, Choice { value, by }, last)
}

/// The limit of words.
fn limited(side: Side) -> Choice
    ensures { (Γ : Hyps) (x : Exp) → IsChoice side Γ x (limit side x) result }
{
    match side {
        Side::Upper => Choice {
            value: u64::MAX,
            by: By::Limit,
        },
        Side::Lower => Choice {
            value: 0,
            by: By::Limit,
        },
    }
}

/// The best of what the hypothesis at this place says of the expression, and what later ones say.
fn with_hyp(
    table: &Table,
    side: Side,
    hyps: &[Hypothesis],
    at: usize,
    e: Id,
    later: Choice,
) -> Choice
    requires hyps { AreKnownHyps table.now hyps.now }
    requires at { at < length hyps.now }
    requires e { IsKnown table.now e }
    ensures { (Γ : Hyps) (x : Exp) (w : WordBound) → AreHyps table.now hyps.now Γ
        → tree_at table.now e ≡ exp_encoding x
        → IsChoice side Γ x (best side (all_say side x (drop (suc at) Γ)) w) later
        → IsChoice side Γ x (best side (all_say side x (drop at Γ)) w) result }
{
    match relation_of(table, side, hyps[at].form, e) {
        None => later,
        Some(r) => or_last(
            side,
            By::Hypothesis(at),
            bound_word(side, r.kind, r.value),
            later,
        ),
    }
}

/// The best of what the hypotheses say of the expression, and the last. They are taken from the
/// last to the first, so that of equal bounds the first hypothesis' stays.
fn by_hyps(table: &Table, side: Side, hyps: &[Hypothesis], e: Id, last: Choice) -> Choice
    requires hyps { AreKnownHyps table.now hyps.now }
    requires e { IsKnown table.now e }
    ensures { (Γ : Hyps) (x : Exp) (w : WordBound) → AreHyps table.now hyps.now Γ
        → tree_at table.now e ≡ exp_encoding x → IsChoice side Γ x w last
        → IsChoice side Γ x (best side (all_say side x Γ) w) result }
{
    let count = hyps.len();
    let mut best = last;
    for i in 0..count {
        best = with_hyp(table, side, hyps, count - 1 - i, e, best);
    }
    best
}

/// The best bound of an expression by the hypotheses and by being a word.
pub(crate) fn choice_alone(table: &Table, side: Side, hyps: &[Hypothesis], e: Id) -> Choice
    requires hyps { AreKnownHyps table.now hyps.now }
    requires e { IsKnown table.now e }
    ensures { (Γ : Hyps) (x : Exp) → AreHyps table.now hyps.now Γ
        → tree_at table.now e ≡ exp_encoding x → IsChoice side Γ x
        (best side (own_bounds x ++ all_say side x Γ) (limit side x)) result }
{
    let best = by_hyps(table, side, hyps, e, limited(side));
    match literal(table, e) {
        None => best,
        Some(word) => or_last(side, By::Itself, word, best),
    }
}

/// This candidate if `fits`, unless the last is strictly better.
fn or_last_if(side: Side, fits: bool, by: By, value: u64, last: Choice) -> Choice
    ensures { (Γ : Hyps) (x : Exp) (w : WordBound) → value ≡ (chosen side Γ x by).value
        → IsChoice side Γ x w last → IsChoice side Γ x
        (best side (if fits then chosen side Γ x by ∷ [] else []) w) result }
{
    if fits {
        or_last(side, by, value, last)
    } else {
        last
    }
}

/// Whether the sum of two words doesn't wrap.
fn fits_sum(v: u64, w: u64) -> bool
    ensures { result ≡ nat_lt (v + w) (2 ^ 64) }
{
    v.checked_add(w).is_some()
}

/// Whether no bit is lost if the word is shifted to the left.
fn fits_shift(v: u64, count: u64) -> bool
    ensures { result ≡ nat_le v (word_of Srl max_word count) }
{
    v <= apply(Op::Srl, u64::MAX, count)
}

/// Whether a difference of two words doesn't wrap.
fn fits_difference(v: u64, w: u64) -> bool
    ensures { result ≡ nat_le w v }
{
    w <= v
}

/// The word that the operator never passes, unless the last is strictly better.
fn by_operator(op: Op, last: Choice) -> Choice
    ensures { (Γ : Hyps) (x y : Exp) → IsChoice Upper Γ (EOp op x y) (limit Upper (EOp op x y)) last
        → IsChoice Upper Γ (EOp op x y) (least_bound
        (ceiling_bounds (ceiling_of op) x y) (limit Upper (EOp op x y))) result }
{
    match ceiling_of(op) {
        None => last,
        Some(ceiling) => {
            let by = By::Parts(How::Capped(ceiling));
            or_last(Side::Upper, by, ceiling.word, last)
        }
    }
}

/// The least of what the operator's parts, whose upper bounds have the words `v` and `w`, say of
/// it.
fn by_parts(table: &Table, op: Op, b: Id, v: u64, w: u64) -> Choice
    requires { IsKnown table.now b }
    ensures { (Γ : Hyps) (x y : Exp) → tree_at table.now b ≡ exp_encoding y
        → v ≡ (upper_bound Γ x).value → w ≡ (upper_bound Γ y).value
        → IsChoice Upper Γ (EOp op x y) (least_bound
        (op_bounds op x y (upper_bound Γ x) (upper_bound Γ y)) (limit Upper (EOp op x y))) result }
{
    let last = limited(Side::Upper);
    match op {
        Op::Band => {
            let left = or_last(Side::Upper, By::Parts(How::AndLeft), v, last);
            or_last(Side::Upper, By::Parts(How::AndRight), w, left)
        }
        Op::Srl => match literal(table, b) {
            None => last,
            Some(n) => {
                let by = By::Parts(How::ShiftRight(n));
                or_last(Side::Upper, by, apply(Op::Srl, v, n), last)
            }
        },
        Op::Sll => match literal(table, b) {
            None => last,
            Some(n) => {
                let by = By::Parts(How::ShiftLeft(n));
                let fits = fits_shift(v, n);
                or_last_if(Side::Upper, fits, by, apply(Op::Sll, v, n), last)
            }
        },
        Op::Add => or_last_if(
            Side::Upper,
            fits_sum(v, w),
            By::Parts(How::Sum),
            apply(Op::Add, v, w),
            last,
        ),
        Op::Bic => or_last(Side::Upper, By::Parts(How::Cleared), v, last),
        _ => by_operator(op, last),
    }
}

/// The least upper bound of an operator at two expressions, whose upper bounds have the words `v`
/// and `w`.
pub(crate) fn choice_of_parts(
    table: &Table,
    hyps: &[Hypothesis],
    e: Id,
    parts: &Parts,
    v: u64,
    w: u64,
) -> Choice
    requires hyps { AreKnownHyps table.now hyps.now }
    requires e { IsKnown table.now e }
    requires right { IsKnown table.now parts.now.right }
    ensures { let q = parts.now in (Γ : Hyps) (x : Exp)
        (p : IsApply table.now x q.op q.left q.right) → AreHyps table.now hyps.now Γ
        → tree_at table.now e ≡ exp_encoding x → v ≡ (upper_bound Γ p.left).value
        → w ≡ (upper_bound Γ p.right).value → IsChoice Upper Γ x (upper_bound Γ x) result }
{
    let best = by_parts(table, parts.op, parts.right, v, w);
    by_hyps(table, Side::Upper, hyps, e, best)
}

/// The lower bound of a difference with the subtrahend `w`, if the minuend's lower bound is the
/// word `v`; else the limit.
fn by_difference(w: u64, v: u64) -> Choice
    ensures { (Γ : Hyps) (x : Exp) → v ≡ (lower_bound true Γ x).value
        → IsChoice Lower Γ (EOp Sub x (ELit w)) (greatest_bound
        (part_lowers true Sub x (ELit w) (lower_bound true Γ x)) (limit Lower (EOp Sub x (ELit w))))
        result }
{
    let last = limited(Side::Lower);
    let fits = fits_difference(v, w);
    let by = By::Parts(How::Difference(w));
    or_last_if(Side::Lower, fits, by, apply(Op::Sub, v, w), last)
}

/// The greatest lower bound of a difference from a word, whose left side's has the word `v`.
pub(crate) fn choice_of_difference(
    table: &Table,
    hyps: &[Hypothesis],
    e: Id,
    difference: &Difference,
    v: u64,
) -> Choice
    requires hyps { AreKnownHyps table.now hyps.now }
    requires e { IsKnown table.now e }
    ensures { let d = difference.now in (Γ : Hyps) (x : Exp)
        (p : IsDifferenceOf table.now x d) → AreHyps table.now hyps.now Γ
        → tree_at table.now e ≡ exp_encoding x → v ≡ (lower_bound true Γ p.left).value
        → IsChoice Lower Γ x (lower_bound true Γ x) result }
{
    let best = by_difference(difference.word, v);
    by_hyps(table, Side::Lower, hyps, e, best)
}
