//! The calls for bounds: with their proofs, and the words alone.
//!
//! Errors: out of memory, or the limit of the memo is reached; each id keeps its tree.

ghost use Rattle.std.specs.Prelude.{◌≡◌, ◌≤◌, ◌+◌, IfOk, OnOk, length};
ghost use Rattle.term_table.specs.Table.{IsKnown, tree_at, Extends};
ghost use Rattle.hereditary_subst.specs.Kept.{IsMemo};
ghost use Rattle.hereditary_subst.specs.Limits.{left_of, results_of, SpendsResults, charge};
ghost use Rattle.formula_tree.specs.Formulas.{Exp};
ghost use Rattle.lf_terms.specs.Encoding.{exp_encoding};
ghost use Rattle.prover_ids.specs.Hypotheses.{AreKnownHyps, AreHyps};
ghost use Rattle.prover_class.specs.Hypotheses.{Hyps};
ghost use Rattle.prover_class.specs.Bounds.{lower_bound, upper_bound};
ghost use Rattle.prover_bounds.specs.BoundIds.{IsWordBound};
ghost use Rattle.prover_bounds.specs.KeptBounds.{AreBounds};

use crate::best_bounds::{best_bound, choice_of, made};
use crate::bounds::{Bound, Side};
use crate::choices::choice_alone;
use crate::kept_bounds::KeptBounds;
use hereditary_subst::{Exhausted, Memo};
use prover_ids::Hypothesis;
use term_table::{Id, Table};

/// An upper bound of one expression and a lower bound of another, as words.
#[derive(Clone, Copy)]
pub struct BoundWords {
    /// The upper bound.
    pub upper: u64,
    /// The lower bound.
    pub lower: u64,
}

/// The word of the lower bound.
fn lower_word(
    table: &Table,
    memo: &mut Memo,
    kept: &mut KeptBounds,
    hyps: &[Hypothesis],
    counted: bool,
    e: Id,
) -> Result<u64, Exhausted>
    requires hyps { AreKnownHyps table.now hyps.now }
    requires e { IsKnown table.now e }
    requires memo { IsMemo table.now memo.old }
    requires kept { AreBounds table.now hyps.now kept.old }
    ensures exact { (Γ : Hyps) (x : Exp) → AreHyps table.now hyps.now Γ
        → tree_at table.now e ≡ exp_encoding x
        → IfOk result (λ w. w ≡ (lower_bound counted Γ x).value) }
    ensures memo { IsMemo table.now memo.new }
    ensures spends { SpendsResults table.now memo.old memo.new result }
    ensures kept { IfOk result (λ _. AreBounds table.now hyps.now kept.new) }
{
    if counted {
        let choice = choice_of(table, memo, kept, hyps, Side::Lower, e)?;
        return Ok(choice.value);
    }
    let choice = choice_alone(table, Side::Lower, hyps, e);
    Ok(choice.value)
}

/// Returns the words of the upper bound of `a` and of the lower bound of `b` that `upper_bound` and
/// `lower_bound` would prove. `kept` has the bounds cached under these hypotheses. `counted` says
/// whether steps are counted.
///
/// Errors: out of memory, or the limit of `memo` is reached; then nothing is promised of `kept`.
pub fn bound_words(
    table: &Table,
    memo: &mut Memo,
    kept: &mut KeptBounds,
    hyps: &[Hypothesis],
    counted: bool,
    a: Id,
    b: Id,
) -> Result<BoundWords, Exhausted>
    requires hyps { AreKnownHyps table.now hyps.now }
    requires a { IsKnown table.now a }
    requires b { IsKnown table.now b }
    requires memo { IsMemo table.now memo.old }
    requires kept { AreBounds table.now hyps.now kept.old }
    ensures exact { (Γ : Hyps) (x y : Exp) → AreHyps table.now hyps.now Γ
        → tree_at table.now a ≡ exp_encoding x → tree_at table.now b ≡ exp_encoding y
        → IfOk result (λ w. (w.upper ≡ (upper_bound Γ x).value)
        × (w.lower ≡ (lower_bound counted Γ y).value)) }
    ensures memo { IsMemo table.now memo.new }
    ensures left { let counted = charge memo.old (results_of (length hyps.now)) in
        OnOk result (left_of memo.new + counted ≤ left_of memo.old) }
    ensures kept { IfOk result (λ _. AreBounds table.now hyps.now kept.new) }
    ensures spends { SpendsResults table.now memo.old memo.new result }
{
    memo.spend_steps(hyps.len() as u64)?;
    let upper = choice_of(table, memo, kept, hyps, Side::Upper, a)?;
    let lower = lower_word(table, memo, kept, hyps, counted, b)?;
    Ok(BoundWords {
        upper: upper.value,
        lower,
    })
}

/// Returns the least upper bound of the expression that is found by the hypotheses and by its
/// operators, with a proof: what the definition gives for the formulas and the expression that the
/// ids stand for. `kept` has the bounds cached under these hypotheses.
///
/// Errors: out of memory, or the limit of `memo` is reached; each id keeps its tree, and nothing is
/// promised of `kept`.
pub fn upper_bound(
    table: &mut Table,
    memo: &mut Memo,
    kept: &mut KeptBounds,
    hyps: &[Hypothesis],
    e: Id,
) -> Result<Bound, Exhausted>
    requires hyps { AreKnownHyps table.old hyps.now }
    requires e { IsKnown table.old e }
    requires memo { IsMemo table.old memo.old }
    requires kept { AreBounds table.old hyps.now kept.old }
    ensures known { IfOk result (λ b. IsKnown table.new b.proof) }
    ensures exact { (Γ : Hyps) (x : Exp) → AreHyps table.old hyps.now Γ
        → tree_at table.old e ≡ exp_encoding x
        → IfOk result (IsWordBound table.new (upper_bound Γ x)) }
    ensures extends { Extends table.old table.new }
    ensures memo { IsMemo table.new memo.new }
    ensures spends { SpendsResults table.new memo.old memo.new result }
    ensures kept { IfOk result (λ _. AreBounds table.new hyps.now kept.new) }
{
    best_bound(table, memo, kept, hyps, Side::Upper, e)
}

/// Returns the greatest lower bound of the expression that is found by the hypotheses and, if steps
/// are counted (`counted`), by the minuend of a difference, with a proof: what the definition gives
/// for the formulas and the expression that the ids stand for. `kept` has the bounds cached under
/// these hypotheses.
///
/// Errors: out of memory, or the limit of `memo` is reached; each id keeps its tree, and nothing is
/// promised of `kept`.
pub fn lower_bound(
    table: &mut Table,
    memo: &mut Memo,
    kept: &mut KeptBounds,
    hyps: &[Hypothesis],
    counted: bool,
    e: Id,
) -> Result<Bound, Exhausted>
    requires hyps { AreKnownHyps table.old hyps.now }
    requires e { IsKnown table.old e }
    requires memo { IsMemo table.old memo.old }
    requires kept { AreBounds table.old hyps.now kept.old }
    ensures known { IfOk result (λ b. IsKnown table.new b.proof) }
    ensures exact { (Γ : Hyps) (x : Exp) → AreHyps table.old hyps.now Γ
        → tree_at table.old e ≡ exp_encoding x
        → IfOk result (IsWordBound table.new (lower_bound counted Γ x)) }
    ensures extends { Extends table.old table.new }
    ensures memo { IsMemo table.new memo.new }
    ensures left { let counted = charge memo.old (results_of (length hyps.now)) in
        OnOk result (left_of memo.new + counted ≤ left_of memo.old) }
    ensures kept { IfOk result (λ _. AreBounds table.new hyps.now kept.new) }
    ensures spends { SpendsResults table.new memo.old memo.new result }
{
    memo.spend_steps(hyps.len() as u64)?;
    if counted {
        return best_bound(table, memo, kept, hyps, Side::Lower, e);
    }
    let choice = choice_alone(table, Side::Lower, hyps, e);
    made(table, memo, kept, hyps, Side::Lower, choice.by, e)
}
