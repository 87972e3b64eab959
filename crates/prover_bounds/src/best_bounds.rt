//! The best bound of an expression from a side: chosen first, by words alone, and built when its
//! proof is asked for. From below it is the lower bound for counted steps.
//!
//! Errors: out of memory, or the limit of the memo is reached; each id keeps its tree.

ghost use Rattle.std.specs.Prelude.{◌≡◌, ◌≤◌, ◌+◌, true, IfOk, OnOk, length};
ghost use Rattle.term_table.specs.Table.{IsKnown, tree_at, Extends};
ghost use Rattle.hereditary_subst.specs.Kept.{IsMemo};
ghost use Rattle.hereditary_subst.specs.Limits.{left_of, results_of, SpendsResults, charge};
ghost use Rattle.formula_tree.specs.Formulas.{Exp};
ghost use Rattle.lf_terms.specs.Encoding.{exp_encoding};
ghost use Rattle.prover_ids.specs.Hypotheses.{AreKnownHyps, AreHyps};
ghost use Rattle.prover_class.specs.Hypotheses.{Hyps};
ghost use Rattle.prover_class.specs.Bounds.{upper_bound, lower_bound};
ghost use Rattle.prover_bounds.specs.declared.bounds.Side.TheVariants.{Upper, Lower};
ghost use Rattle.prover_bounds.specs.BoundIds.{IsWordBound};
ghost use Rattle.prover_bounds.specs.Candidates.{by_parts};
ghost use Rattle.prover_bounds.specs.Choices.{IsChoice, chosen};
ghost use Rattle.prover_bounds.specs.KeptBounds.{AreBounds, bound_from};

use crate::bounds::{Bound, Side};
use crate::choices::{By, Choice, choice_alone, choice_of_difference, choice_of_parts};
use crate::kept_bounds::KeptBounds;
use crate::parts::{
    How, by_ceiling, by_difference, by_itself, by_left, by_left_shift, by_right_shift, by_side,
    by_sum, difference_of, limit, parts_of,
};
use crate::relations::by_hypothesis;
use hereditary_subst::{Exhausted, Memo};
use lf_signature::numbers::{AND_LE, BIC_LE};
use prover_ids::Hypothesis;
use term_table::{Id, Table};

/// The choice of the expression's bound, which is cached.
#[cycle(choosing)]
pub(crate) fn choice_of(
    table: &Table,
    memo: &mut Memo,
    kept: &mut KeptBounds,
    hyps: &[Hypothesis],
    side: Side,
    e: Id,
) -> Result<Choice, Exhausted>
    requires hyps { AreKnownHyps table.now hyps.now }
    requires e { IsKnown table.now e }
    requires memo { IsMemo table.now memo.old }
    requires kept { AreBounds table.now hyps.now kept.old }
    ensures exact { (Γ : Hyps) (x : Exp) → AreHyps table.now hyps.now Γ
        → tree_at table.now e ≡ exp_encoding x
        → IfOk result (IsChoice side Γ x (bound_from side Γ x)) }
    ensures memo { IsMemo table.now memo.new }
    ensures spends { SpendsResults table.now memo.old memo.new result }
    ensures kept { IfOk result (λ _. AreBounds table.now hyps.now kept.new) }
{
    if let Some(choice) = kept.choice(table, hyps, side, e) {
        return Ok(choice);
    }
    let choice = choice_anew(table, memo, kept, hyps, side, e)?;
    kept.keep(memo, table, hyps, side, e, choice, None)?;
    Ok(choice)
}

/// The choice for an expression that isn't cached yet.
#[cycle(choosing)]
fn choice_anew(
    table: &Table,
    memo: &mut Memo,
    kept: &mut KeptBounds,
    hyps: &[Hypothesis],
    side: Side,
    e: Id,
) -> Result<Choice, Exhausted>
    requires hyps { AreKnownHyps table.now hyps.now }
    requires e { IsKnown table.now e }
    requires memo { IsMemo table.now memo.old }
    requires kept { AreBounds table.now hyps.now kept.old }
    ensures exact { (Γ : Hyps) (x : Exp) → AreHyps table.now hyps.now Γ
        → tree_at table.now e ≡ exp_encoding x
        → IfOk result (IsChoice side Γ x (bound_from side Γ x)) }
    ensures memo { IsMemo table.now memo.new }
    ensures left { let counted = charge memo.old (results_of (length hyps.now)) in
        OnOk result (left_of memo.new + counted ≤ left_of memo.old) }
    ensures kept { IfOk result (λ _. AreBounds table.now hyps.now kept.new) }
    ensures spends { SpendsResults table.now memo.old memo.new result }
{
    memo.spend_steps(hyps.len() as u64)?;
    match side {
        Side::Upper => upper_choice(table, memo, kept, hyps, e),
        Side::Lower => lower_choice(table, memo, kept, hyps, e),
    }
}

/// The choice of the upper bound, by the upper bounds of an operator's parts.
#[cycle(choosing)]
fn upper_choice(
    table: &Table,
    memo: &mut Memo,
    kept: &mut KeptBounds,
    hyps: &[Hypothesis],
    e: Id,
) -> Result<Choice, Exhausted>
    requires hyps { AreKnownHyps table.now hyps.now }
    requires e { IsKnown table.now e }
    requires memo { IsMemo table.now memo.old }
    requires kept { AreBounds table.now hyps.now kept.old }
    ensures exact { (Γ : Hyps) (x : Exp) → AreHyps table.now hyps.now Γ
        → tree_at table.now e ≡ exp_encoding x
        → IfOk result (IsChoice Upper Γ x (upper_bound Γ x)) }
    ensures memo { IsMemo table.now memo.new }
    ensures spends { SpendsResults table.now memo.old memo.new result }
    ensures kept { IfOk result (λ _. AreBounds table.now hyps.now kept.new) }
{
    match parts_of(table, e) {
        None => Ok(choice_alone(table, Side::Upper, hyps, e)),
        Some(p) => {
            let v = choice_of(table, memo, kept, hyps, Side::Upper, p.left)?;
            let w = choice_of(table, memo, kept, hyps, Side::Upper, p.right)?;
            Ok(choice_of_parts(table, hyps, e, &p, v.value, w.value))
        }
    }
}

/// The choice of the lower bound, by the lower bound of a difference's minuend.
#[cycle(choosing)]
fn lower_choice(
    table: &Table,
    memo: &mut Memo,
    kept: &mut KeptBounds,
    hyps: &[Hypothesis],
    e: Id,
) -> Result<Choice, Exhausted>
    requires hyps { AreKnownHyps table.now hyps.now }
    requires e { IsKnown table.now e }
    requires memo { IsMemo table.now memo.old }
    requires kept { AreBounds table.now hyps.now kept.old }
    ensures exact { (Γ : Hyps) (x : Exp) → AreHyps table.now hyps.now Γ
        → tree_at table.now e ≡ exp_encoding x
        → IfOk result (IsChoice Lower Γ x (lower_bound true Γ x)) }
    ensures memo { IsMemo table.now memo.new }
    ensures spends { SpendsResults table.now memo.old memo.new result }
    ensures kept { IfOk result (λ _. AreBounds table.now hyps.now kept.new) }
{
    match difference_of(table, e) {
        None => Ok(choice_alone(table, Side::Lower, hyps, e)),
        Some(d) => {
            let v = choice_of(table, memo, kept, hyps, Side::Lower, d.left)?;
            Ok(choice_of_difference(table, hyps, e, &d, v.value))
        }
    }
}

/// The best bound of the expression from this side that is found by the hypotheses and by its
/// operators, with a proof.
#[cycle(bounding)]
#[tactic(auto, using(crate::proofs::BoundRows::rows))]
pub(crate) fn best_bound(
    table: &mut Table,
    memo: &mut Memo,
    kept: &mut KeptBounds,
    hyps: &[Hypothesis],
    side: Side,
    e: Id,
) -> Result<Bound, Exhausted>
    requires hyps { AreKnownHyps table.old hyps.now }
    requires e { IsKnown table.old e }
    requires memo { IsMemo table.old memo.old }
    requires kept { AreBounds table.old hyps.now kept.old }
    ensures known { IfOk result (λ b. IsKnown table.new b.proof) }
    ensures exact { (Γ : Hyps) (x : Exp) → AreHyps table.old hyps.now Γ
        → tree_at table.old e ≡ exp_encoding x
        → IfOk result (IsWordBound table.new (bound_from side Γ x)) }
    ensures extends { Extends table.old table.new }
    ensures memo { IsMemo table.new memo.new }
    ensures spends { SpendsResults table.new memo.old memo.new result }
    ensures kept { IfOk result (λ _. AreBounds table.new hyps.now kept.new) }
{
    let choice = choice_of(table, memo, kept, hyps, side, e)?;
    let value = choice.value;
    if let Some(proof) = kept.proof(table, hyps, side, e) {
        return Ok(Bound { value, proof });
    }
    let made = made(table, memo, kept, hyps, side, choice.by, e)?;
    let proof = made.proof;
    kept.keep(memo, table, hyps, side, e, choice, Some(proof))?;
    Ok(Bound { value, proof })
}

/// The bound that a choice names.
#[cycle(bounding)]
#[tactic(auto, using(crate::proofs::BoundRows::rows))]
pub(crate) fn made(
    table: &mut Table,
    memo: &mut Memo,
    kept: &mut KeptBounds,
    hyps: &[Hypothesis],
    side: Side,
    by: By,
    e: Id,
) -> Result<Bound, Exhausted>
    requires hyps { AreKnownHyps table.old hyps.now }
    requires e { IsKnown table.old e }
    requires memo { IsMemo table.old memo.old }
    requires kept { AreBounds table.old hyps.now kept.old }
    ensures known { IfOk result (λ b. IsKnown table.new b.proof) }
    ensures exact { (Γ : Hyps) (x : Exp) → AreHyps table.old hyps.now Γ
        → tree_at table.old e ≡ exp_encoding x
        → IfOk result (IsWordBound table.new (chosen side Γ x by)) }
    ensures extends { Extends table.old table.new }
    ensures memo { IsMemo table.new memo.new }
    ensures spends { SpendsResults table.new memo.old memo.new result }
    ensures kept { IfOk result (λ _. AreBounds table.new hyps.now kept.new) }
{
    match by {
        By::Limit => limit(table, side, e),
        By::Itself => by_itself(table, side, e),
        By::Hypothesis(at) => by_hypothesis(table, memo, side, hyps, at, e),
        By::Parts(how) => made_by_parts(table, memo, kept, hyps, how, e),
    }
}

/// The bound of an operator by the bounds of those operands that it needs, from one side.
#[cycle(bounding)]
#[tactic(auto, using(crate::proofs::BoundRows::rows))]
fn made_by_parts(
    table: &mut Table,
    memo: &mut Memo,
    kept: &mut KeptBounds,
    hyps: &[Hypothesis],
    how: How,
    e: Id,
) -> Result<Bound, Exhausted>
    requires hyps { AreKnownHyps table.old hyps.now }
    requires e { IsKnown table.old e }
    requires memo { IsMemo table.old memo.old }
    requires kept { AreBounds table.old hyps.now kept.old }
    ensures known { IfOk result (λ b. IsKnown table.new b.proof) }
    ensures exact { (Γ : Hyps) (x : Exp) → AreHyps table.old hyps.now Γ
        → tree_at table.old e ≡ exp_encoding x
        → IfOk result (IsWordBound table.new (by_parts Γ x how)) }
    ensures extends { Extends table.old table.new }
    ensures memo { IsMemo table.new memo.new }
    ensures spends { SpendsResults table.new memo.old memo.new result }
    ensures kept { IfOk result (λ _. AreBounds table.new hyps.now kept.new) }
{
    let Some(p) = parts_of(table, e) else {
        return limit(table, Side::Upper, e);
    };
    match how {
        How::AndLeft => {
            let v = best_bound(table, memo, kept, hyps, Side::Upper, p.left)?;
            by_left(table, memo, e, p.left, p.right, v)
        }
        How::AndRight => {
            let w = best_bound(table, memo, kept, hyps, Side::Upper, p.right)?;
            by_side(table, AND_LE, e, p.left, p.right, p.right, w)
        }
        How::Cleared => {
            let v = best_bound(table, memo, kept, hyps, Side::Upper, p.left)?;
            by_side(table, BIC_LE, e, p.left, p.right, p.left, v)
        }
        How::ShiftRight(count) => {
            let v = best_bound(table, memo, kept, hyps, Side::Upper, p.left)?;
            by_right_shift(table, memo, e, p.left, count, v)
        }
        How::ShiftLeft(count) => {
            let v = best_bound(table, memo, kept, hyps, Side::Upper, p.left)?;
            by_left_shift(table, memo, e, p.left, count, v)
        }
        How::Sum => {
            let v = best_bound(table, memo, kept, hyps, Side::Upper, p.left)?;
            let w = best_bound(table, memo, kept, hyps, Side::Upper, p.right)?;
            by_sum(table, memo, e, p.left, p.right, v, w)
        }
        How::Capped(ceiling) => by_ceiling(table, ceiling, p.left, p.right),
        How::Difference(word) => {
            let v = best_bound(table, memo, kept, hyps, Side::Lower, p.left)?;
            by_difference(table, memo, e, p.left, word, v)
        }
    }
}
