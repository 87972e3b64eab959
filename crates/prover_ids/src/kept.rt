//! Cached answers, so that no question is decided twice.
//!
//! A kind of question is a key type with its [`Question`]: the type of its answers, when an answer
//! is right, and that a right answer stays right as the table grows. Rows are found by the order of
//! keys.

ghost use Rattle.std.specs.Prelude.{◌≡◌, ◌+◌, IfSome, List, OnOk};
ghost use Rattle.term_table.specs.Table.{TableView};
ghost use Rattle.hereditary_subst.specs.Kept.{IsMemo};
ghost use Rattle.hereditary_subst.specs.Limits.{left_of, SpendsResults, charge};
ghost use Rattle.prover_ids.specs.declared.hypotheses.Hypothesis.{Hypothesis as H};
ghost use Rattle.prover_ids.specs.Kept.{AreRight};

use crate::hypotheses::Hypothesis;
use hereditary_subst::{Exhausted, Memo};
use std::alloc::Global;
use std::collections::BTreeMap;
use term_table::{Id, Table};

/// A cache key: a question about a table, with all that its answer depends on except the
/// hypotheses. These are an empty list if the answer depends on no hypotheses.
pub trait Question: Copy + Drop + Ord {
    ghost use Rattle.std.specs.Prelude.{◌≡◌, true, List};
    ghost use Rattle.term_table.specs.Table.{TableView, Extends};
    ghost use Rattle.prover_ids.specs.declared.hypotheses.Hypothesis.{Hypothesis as H};
    ghost use Rattle.prover_ids.specs.Hypotheses.{AreKnownHyps};

    /// The type of answers.
    type Answer: Copy + Drop;

    // Under the hypotheses the answer is right of the table.
    ghost is_right: { List H → TableView → Self → Self.Answer → Type 0 };

    // Keys that are equal are the same.
    ghost same: { (a b : Self) → Self.PartialEq.eq a b ≡ true → a ≡ b };

    // A right answer stays right as the table grows.
    ghost lasts: { (hyps : List H) (t u : TableView) (q : Self) (r : Self.Answer) → Extends t u →
        AreKnownHyps t hyps → is_right hyps t q r → is_right hyps u q r };
}

/// Cached answers to questions of one kind, on one table and under one list of hypotheses.
#[derive(Drop)]
pub struct Kept<Q: Question> {
    rows: BTreeMap<Q, Q::Answer>,
}

/// Returns the id as a number, as keys have it.
pub fn number(id: Id) -> u64
    ensures { result ≡ id }
{
    id.index() as u64
}

impl<Q: Question> Kept<Q> {
    /// Returns an empty cache, which allocates nothing yet.
    pub fn new(alloc: Global) -> Kept<Q>
        ensures { (hyps : List H) (t : TableView) → AreRight Q.cmp (Q.is_right hyps) t result }
    {
        Kept {
            rows: BTreeMap::new(alloc),
        }
    }

    /// Returns the cached answer to the question under the hypotheses `hyps`, if there is one.
    pub fn get(&self, table: &Table, hyps: &[Hypothesis], question: &Q) -> Option<Q::Answer>
        requires { AreRight Q.cmp (Q.is_right hyps.now) table.now self.now }
        ensures { IfSome result (Q.is_right hyps.now table.now question.now) }
    {
        // Only the clauses speak of them.
        let _ = table;
        let _ = hyps;
        self.rows.get(question).copied()
    }

    /// Caches an answer to the question under the hypotheses `hyps`. It counts as a result of
    /// `memo`.
    ///
    /// Errors: past the limit of `memo`, and out of memory; then nothing more is cached.
    pub fn keep(
        &mut self,
        memo: &mut Memo,
        table: &Table,
        hyps: &[Hypothesis],
        question: Q,
        answer: Q::Answer,
    ) -> Result<(), Exhausted>
        requires memo { IsMemo table.now memo.old }
        requires kept { AreRight Q.cmp (Q.is_right hyps.now) table.now self.old }
        requires right { Q.is_right hyps.now table.now question answer }
        ensures memo { IsMemo table.now memo.new }
        ensures left { OnOk result (left_of memo.old ≡ left_of memo.new + charge memo.old 1) }
        ensures kept { AreRight Q.cmp (Q.is_right hyps.now) table.now self.new }
        ensures spends { SpendsResults table.now memo.old memo.new result }
    {
        // Only the clauses speak of them.
        let _ = table;
        let _ = hyps;
        memo.spend()?;
        self.rows.insert(question, answer)?;
        Ok(())
    }
}
