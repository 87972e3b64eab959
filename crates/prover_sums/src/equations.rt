//! Normal forms of expressions, with proofs that the expressions equal them.
//!
//! Errors: out of memory, or the limit of the memo is reached; each id keeps its tree.

ghost use Rattle.std.specs.Prelude.{◌≡◌, IfOk, IfSome, OnOk, List};
ghost use Rattle.term_table.specs.Table.{IsKnown, tree_at, Extends};
ghost use Rattle.hereditary_subst.specs.Kept.{IsMemo};
ghost use Rattle.hereditary_subst.specs.Limits.{SpendsResults};
ghost use Rattle.formula_tree.specs.Formulas.{Exp};
ghost use Rattle.lf_terms.specs.Encoding.{exp_encoding};
ghost use Rattle.lf_terms.specs.ProofTerms.{up};
ghost use Rattle.prover_class.specs.NormalForms.{Rewriting, redex, after_steps, normalized, normal_form};
ghost use Rattle.prover_sums.specs.Inside.Rewrites.{IsKnownRewrite, IsRewrite, AreKnownRewrites, AreRewrites};
ghost use Rattle.prover_sums.specs.Inside.Rounds.{after_step, IsRound};
ghost use Rattle.prover_sums.specs.NormalForms.{RewrittenExp, IsKnownRewritten, IsRewritten, AreNormalForms};

use crate::rewriting::{Rewrite, Rewrites, has_rewrites, redex};
use hereditary_subst::{Exhausted, Memo};
use prover_forms::leaves_up_to;
use prover_ids::{Kept, Question, moved, number, raised, reflexive, relation};
use std::alloc::AllocError;
use term_table::{Id, Table};
use word_ops::Rel;

/// A rewritten expression and the id of a proof that the given expression equals it.
#[derive(Clone, Copy)]
pub struct Rewritten {
    /// The rewritten expression.
    pub now: Id,
    /// The proof of the equation.
    pub proof: Id,
}

/// A cache key: an expression whose normal form is proved, and how many binders are outside it.
#[derive(Clone, Copy, PartialEq, Eq, PartialOrd, Ord)]
pub struct Place {
    id: u64,
    outside: u32,
}

impl Question for Place {
    ghost use Rattle.std.proofs.Common.{rules};
    ghost use Rattle.prover_sums.specs.NormalForms.{IsNormalForm};
    ghost use Rattle.prover_sums.specs.Lasting.{form-lasts};

    type Answer = Rewritten;

    ghost is_right = { λ _. IsNormalForm };

    ghost same = { Prim.search rules };

    ghost lasts = { λ _ t u place r e _ h. form-lasts t u place r e h };
}

/// Cached normal forms with their proofs, by expression and number of binders outside. They count
/// in the limit of the `Memo` that caches the shifts.
pub type NormalForms = Kept<Place>;

/// The result after one step; `above` is the expression at first, under one more binder.
fn after_step(
    table: &mut Table,
    above: Id,
    step: Rewrite,
    here: Rewritten,
) -> Result<Rewritten, AllocError>
    requires above { IsKnown table.old above }
    requires step { IsKnownRewrite table.old step }
    requires here { IsKnownRewritten table.old here }
    ensures known { IfOk result (IsKnownRewritten table.new) }
    ensures exact { (x : Exp) (s : Rewriting) (r : RewrittenExp)
        → tree_at table.old above ≡ exp_encoding (up x) → IsRewrite table.old step s
        → IsRewritten table.old here r
        → IfOk result (λ q. IsRewritten table.new q (after_step x s r)) }
    ensures extends { Extends table.old table.new }
{
    let form = relation(table, Rel::Eq, above, step.into)?;
    let proof = moved(table, form, step.from, step.to, step.proof, here.proof)?;
    Ok(Rewritten {
        now: step.after,
        proof,
    })
}

/// The result after the steps.
fn after_steps(
    table: &mut Table,
    above: Id,
    steps: Rewrites,
    here: Rewritten,
) -> Result<Rewritten, AllocError>
    requires above { IsKnown table.old above }
    requires steps { AreKnownRewrites table.old steps }
    requires here { IsKnownRewritten table.old here }
    ensures known { IfOk result (IsKnownRewritten table.new) }
    ensures exact { (x : Exp) (l : List Rewriting) (r : RewrittenExp)
        → tree_at table.old above ≡ exp_encoding (up x) → AreRewrites table.old steps l
        → IsRewritten table.old here r
        → IfOk result (λ q. IsRewritten table.new q (after_steps x l r)) }
    ensures extends { Extends table.old table.new }
{
    match steps {
        Rewrites::Nothing => Ok(here),
        Rewrites::One(step) => after_step(table, above, step, here),
        Rewrites::Three(first, second, third) => {
            let one = after_step(table, above, first, here)?;
            let two = after_step(table, above, second, one)?;
            after_step(table, above, third, two)
        }
    }
}

/// The result after one more round, unless there is nothing to rewrite.
#[tactic(auto, using(hereditary_subst::proofs::Rows::rows))]
fn next(
    table: &mut Table,
    memo: &mut Memo,
    outside: u32,
    above: Id,
    here: Rewritten,
) -> Result<Option<Rewritten>, Exhausted>
    requires above { IsKnown table.old above }
    requires here { IsKnownRewritten table.old here }
    requires memo { IsMemo table.old memo.old }
    ensures known { IfOk result (λ next. IfSome next (IsKnownRewritten table.new)) }
    ensures exact { (x : Exp) (r : RewrittenExp)
        → tree_at table.old above ≡ exp_encoding (up x) → IsRewritten table.old here r
        → IfOk result (IsRound table.new x (redex outside r.now) r) }
    ensures extends { Extends table.old table.new }
    ensures memo { IsMemo table.new memo.new }
    ensures spends { SpendsResults table.new memo.old memo.new result }
{
    let steps = redex(table, memo, outside, here.now)?;
    if !has_rewrites(&steps) {
        return Ok(None);
    }
    let next = after_steps(table, above, steps, here)?;
    Ok(Some(next))
}

/// At most `rounds` rounds of rewriting.
#[tactic(auto, using(hereditary_subst::proofs::Rows::rows))]
fn normalized(
    table: &mut Table,
    memo: &mut Memo,
    outside: u32,
    rounds: u32,
    above: Id,
    start: Rewritten,
) -> Result<Rewritten, Exhausted>
    requires above { IsKnown table.old above }
    requires start { IsKnownRewritten table.old start }
    requires memo { IsMemo table.old memo.old }
    ensures known { IfOk result (IsKnownRewritten table.new) }
    ensures exact { (x : Exp) (r : RewrittenExp)
        → tree_at table.old above ≡ exp_encoding (up x) → IsRewritten table.old start r
        → IfOk result (λ q. IsRewritten table.new q (normalized outside rounds x r)) }
    ensures extends { Extends table.old table.new }
    ensures memo { IsMemo table.new memo.new }
    ensures spends { SpendsResults table.new memo.old memo.new result }
{
    let mut now = start.now;
    let mut proof = start.proof;
    for round in 0..rounds {
        match next(table, memo, outside, above, Rewritten { now, proof })? {
            None => return Ok(Rewritten { now, proof }),
            Some(next) => {
                now = next.now;
                proof = next.proof;
            }
        }
    }
    Ok(Rewritten { now, proof })
}

/// The normal form, if none is cached.
#[tactic(auto, using(hereditary_subst::proofs::Rows::rows))]
fn fresh_normal_form(
    table: &mut Table,
    memo: &mut Memo,
    outside: u32,
    e: Id,
) -> Result<Rewritten, Exhausted>
    requires e { IsKnown table.old e }
    requires memo { IsMemo table.old memo.old }
    ensures known { IfOk result (IsKnownRewritten table.new) }
    ensures exact { (x : Exp) → tree_at table.old e ≡ exp_encoding x
        → IfOk result (λ q. IsRewritten table.new q (normal_form outside x)) }
    ensures extends { Extends table.old table.new }
    ensures memo { IsMemo table.new memo.new }
    ensures spends { SpendsResults table.new memo.old memo.new result }
{
    let proof = reflexive(table, e)?;
    if 64 < leaves_up_to(table, e, 65) {
        return Ok(Rewritten { now: e, proof });
    }
    let above = raised(table, memo, e)?;
    normalized(
        table,
        memo,
        outside,
        65_536,
        above,
        Rewritten { now: e, proof },
    )
}

/// Returns the normal form of the expression `e`, which is under `outside` binders, with the proof
/// that they are equal. The outermost binder is that of the remaining steps; if no steps are
/// counted, it doesn't exist but is counted in `outside` all the same.
///
/// Errors: out of memory, or the limit of `memo` is reached.
#[tactic(auto, using(crate::proofs::Growing::forms))]
pub fn normal_form(
    table: &mut Table,
    memo: &mut Memo,
    kept: &mut NormalForms,
    outside: u32,
    e: Id,
) -> Result<Rewritten, Exhausted>
    requires e { IsKnown table.old e }
    requires memo { IsMemo table.old memo.old }
    requires kept { AreNormalForms table.old kept.old }
    ensures known { IfOk result (IsKnownRewritten table.new) }
    ensures exact { (x : Exp) → tree_at table.old e ≡ exp_encoding x
        → IfOk result (λ q. IsRewritten table.new q (normal_form outside x)) }
    ensures extends { Extends table.old table.new }
    ensures memo { IsMemo table.new memo.new }
    ensures kept { OnOk result (AreNormalForms table.new kept.new) }
    ensures spends { SpendsResults table.new memo.old memo.new result }
{
    let place = Place {
        id: number(e),
        outside,
    };
    if let Some(found) = kept.get(table, &[], &place) {
        return Ok(found);
    }
    let found = fresh_normal_form(table, memo, outside, e)?;
    let now = found.now;
    let proof = found.proof;
    kept.keep(memo, table, &[], place, Rewritten { now, proof })?;
    Ok(Rewritten { now, proof })
}
