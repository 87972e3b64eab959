//! Cached bounds, so that a shared expression is visited once, and the proof of its bound built
//! once.

ghost use Rattle.std.specs.Prelude.{◌≡◌, ◌+◌, IfOk, IfSome, List, OnOk};
ghost use Rattle.term_table.specs.Table.{TableView, IsKnown, tree_at};
ghost use Rattle.hereditary_subst.specs.Kept.{IsMemo};
ghost use Rattle.hereditary_subst.specs.Limits.{left_of, SpendsResults, charge};
ghost use Rattle.formula_tree.specs.Formulas.{Exp};
ghost use Rattle.lf_terms.specs.Encoding.{exp_encoding};
ghost use Rattle.prover_ids.specs.declared.hypotheses.Hypothesis.{Hypothesis as H};
ghost use Rattle.prover_ids.specs.Hypotheses.{AreHyps};
ghost use Rattle.prover_class.specs.Hypotheses.{Hyps};
ghost use Rattle.prover_bounds.specs.Choices.{IsChoice};
ghost use Rattle.prover_bounds.specs.KeptBounds.{AreBounds, IsKept, bound_from};

use crate::bounds::Side;
use crate::choices::Choice;
use hereditary_subst::{Exhausted, Memo};
use prover_ids::{Hypothesis, Kept, Question, number};
use std::alloc::Global;
use term_table::{Id, Table};

/// The expression that a row is of, and from which side it is bounded.
#[derive(Clone, Copy, PartialEq, Eq, PartialOrd, Ord)]
struct Subject {
    side: Side,
    exp: u64,
}

/// The choice of a bound, and the proof's id if it was built.
#[derive(Clone, Copy)]
struct Row {
    choice: Choice,
    proof: Option<Id>,
}

impl Question for Subject {
    ghost use Rattle.std.proofs.Common.{rules};
    ghost use Rattle.prover_bounds.specs.KeptBounds.{IsBoundRow};
    ghost use Rattle.prover_bounds.specs.Lasting.{row-lasts};

    type Answer = Row;

    ghost is_right = { λ l t. IsBoundRow t l };

    ghost same = { Prim.search rules };

    ghost lasts = { λ l t u s r e k h. row-lasts t u l s r k e h };
}

/// Cached bounds of expressions under one list of hypotheses: upper ones, and, if steps are
/// counted, lower ones. They count in the limit of the `Memo` that caches the shifts.
#[derive(Drop)]
pub struct KeptBounds {
    rows: Kept<Subject>,
}

impl KeptBounds {
    /// Returns an empty cache, which allocates nothing yet, for any hypotheses.
    pub fn new(alloc: Global) -> KeptBounds
        ensures { (t : TableView) (hyps : List H) → AreBounds t hyps result }
    {
        KeptBounds {
            rows: Kept::new(alloc),
        }
    }

    /// The cached choice for the expression.
    pub(crate) fn choice(
        &self,
        table: &Table,
        hyps: &[Hypothesis],
        side: Side,
        e: Id,
    ) -> Option<Choice>
        requires { AreBounds table.now hyps.now self.now }
        ensures { (Γ : Hyps) (x : Exp) → AreHyps table.now hyps.now Γ
            → tree_at table.now e ≡ exp_encoding x
            → IfSome result (IsChoice side Γ x (bound_from side Γ x)) }
    {
        let exp = number(e);
        match self.rows.get(table, hyps, &Subject { side, exp }) {
            None => None,
            Some(row) => Some(row.choice),
        }
    }

    /// The cached proof for the expression.
    pub(crate) fn proof(&self, table: &Table, hyps: &[Hypothesis], side: Side, e: Id) -> Option<Id>
        requires { AreBounds table.now hyps.now self.now }
        ensures known { IfSome result (IsKnown table.now) }
        ensures is { (Γ : Hyps) (x : Exp) → AreHyps table.now hyps.now Γ
            → tree_at table.now e ≡ exp_encoding x
            → IfSome result (λ p. tree_at table.now p ≡ (bound_from side Γ x).proof) }
    {
        let exp = number(e);
        match self.rows.get(table, hyps, &Subject { side, exp }) {
            None => None,
            Some(row) => row.proof,
        }
    }

    /// Caches the choice for the expression, and the proof if it was built.
    ///
    /// Errors: the limit of `memo` is reached, or out of memory.
    pub(crate) fn keep(
        &mut self,
        memo: &mut Memo,
        table: &Table,
        hyps: &[Hypothesis],
        side: Side,
        e: Id,
        choice: Choice,
        proof: Option<Id>,
    ) -> Result<(), Exhausted>
        requires memo { IsMemo table.now memo.old }
        requires kept { AreBounds table.now hyps.now self.old }
        requires e { IsKnown table.now e }
        requires known { IfSome proof (IsKnown table.now) }
        requires is { (Γ : Hyps) (x : Exp) → AreHyps table.now hyps.now Γ
            → tree_at table.now e ≡ exp_encoding x → IsKept table.now side Γ x choice proof }
        ensures memo { IsMemo table.now memo.new }
        ensures left { OnOk result (left_of memo.old ≡ left_of memo.new + charge memo.old 1) }
        ensures kept { IfOk result (λ _. AreBounds table.now hyps.now self.new) }
        ensures spends { SpendsResults table.now memo.old memo.new result }
    {
        let exp = number(e);
        let subject = Subject { side, exp };
        let row = Row { choice, proof };
        self.rows.keep(memo, table, hyps, subject, row)
    }
}
