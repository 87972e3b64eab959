//! Dropping of formulas that aren't invariant.

use crate::containers::with_invariants;
use crate::heads::{Head, invariants, with_groups};
use crate::outcome::Stop;
use auto_candidates::{Facts, candidates_at, policy_parts};
use auto_rounds::{Manner, Missing, Round, ask_round};
use policy_set::Policy;
use std::alloc::{AllocError, Global};
use term_table::{Id, Table};

/// The results that each round counts, beside those that it caches and those for bytes and code.
const RESULTS_A_ROUND: usize = 1_000;

/// So many bytes of a container count as one result.
const BYTES_A_RESULT: usize = 8;

/// So many pairs of instructions count as one result: cycles are found in quadratic time.
const PAIRS_A_RESULT: usize = 256;

/// The most rounds in which formulas are dropped before the search gives up.
const MOST_ROUNDS: usize = 1_000;

/// A search over one container.
#[derive(Drop)]
pub(crate) struct Drafting {
    /// The container, without invariants and proof.
    pub(crate) bare: Vec<u8>,
    /// How many instructions its code has, and what they show.
    pub(crate) words: usize,
    pub(crate) facts: Facts,
    /// Whether its steps are bounded.
    pub(crate) counted: bool,
    /// Whether goals are easy too that `auto_proofs` proves, but not `prove`.
    pub(crate) wider: bool,
    /// The terms of candidates.
    pub(crate) table: Table,
    /// The results that may still be cached.
    pub(crate) left: usize,
}

/// Whether the conjunct isn't easy somewhere.
fn is_missing(missing: &[Missing], index: u32, conjunct: usize) -> bool {
    for one in missing {
        if one.index == index && one.conjunct as usize == conjunct {
            return true;
        }
    }
    false
}

/// The formulas of a head, but for those that aren't easy somewhere.
fn easy_forms(alloc: Global, head: &Head, missing: &[Missing]) -> Result<Vec<Id>, AllocError> {
    let mut forms = Vec::new(alloc);
    for k in 0..head.forms.len() {
        if !is_missing(missing, head.index, k) {
            forms.push(head.forms[k])?;
        }
    }
    Ok(forms)
}

/// The heads without the formulas that aren't easy somewhere.
fn easy_heads(alloc: Global, heads: &[Head], missing: &[Missing]) -> Result<Vec<Head>, AllocError> {
    let mut kept = Vec::new(alloc);
    for i in 0..heads.len() {
        kept.push(Head {
            index: heads[i].index,
            forms: easy_forms(alloc, &heads[i], missing)?,
        })?;
    }
    Ok(kept)
}

impl Drafting {
    /// Returns the bytes of the container with these heads.
    pub(crate) fn bytes_of(&mut self, alloc: Global, heads: &[Head]) -> Result<Vec<u8>, Stop> {
        let invs = invariants(alloc, &mut self.table, heads)?;
        match with_invariants(alloc, &self.bare, &self.table, &invs)? {
            Some(bytes) => Ok(bytes),
            None => Err(Stop::GivesUp),
        }
    }

    /// Returns the bytes of the container with these heads, and counts what a round over them takes.
    pub(crate) fn bytes_with(&mut self, alloc: Global, heads: &[Head]) -> Result<Vec<u8>, Stop> {
        let bytes = self.bytes_of(alloc, heads)?;
        let pairs = self.words.saturating_mul(self.words) / PAIRS_A_RESULT;
        let results = RESULTS_A_ROUND
            .saturating_add(bytes.len() / BYTES_A_RESULT)
            .saturating_add(pairs);
        if results > self.left {
            return Err(Stop::GivesUp);
        }
        self.left -= results;
        Ok(bytes)
    }

    /// Asks about the goals of the container with these heads; if `first`, up to the first that
    /// isn't easy.
    pub(crate) fn ask(
        &mut self,
        alloc: Global,
        policy: &Policy,
        heads: &[Head],
        first: bool,
    ) -> Result<Round, Stop> {
        let bytes = self.bytes_with(alloc, heads)?;
        let manner = Manner {
            steps: self.left,
            first,
            wider: self.wider,
        };
        let found = ask_round(alloc, policy, &bytes, manner)?;
        self.left = found.left.min(self.left);
        Ok(found)
    }

    /// Drops the formulas that aren't invariant while the others are supposed, until none is left
    /// to drop.
    pub(crate) fn settle(
        &mut self,
        alloc: Global,
        policy: &Policy,
        heads: &mut Vec<Head>,
    ) -> Result<(), Stop> {
        for _round in 0..MOST_ROUNDS {
            let found = self.ask(alloc, policy, heads, false)?;
            if found.missing.is_empty() {
                return Ok(());
            }
            *heads = easy_heads(alloc, heads, &found.missing)?;
        }
        Err(Stop::GivesUp)
    }

    /// Returns the candidates of each head, in groups.
    pub(crate) fn groups(
        &mut self,
        alloc: Global,
        policy: &Policy,
        heads: &[Head],
    ) -> Result<Vec<Vec<Vec<Id>>>, AllocError> {
        let parts = policy_parts(&mut self.table, policy)?;
        let mut all = Vec::new(alloc);
        for head in heads {
            let counted = self.counted;
            let made = candidates_at(&mut self.table, &self.facts, &parts, head.index, counted)?;
            all.push(made)?;
        }
        Ok(all)
    }

    /// Supposes more formulas at each head, group by group, and keeps those that stay. `groups` has
    /// those of each head.
    pub(crate) fn grow(
        &mut self,
        alloc: Global,
        policy: &Policy,
        heads: &mut Vec<Head>,
        groups: &[Vec<Vec<Id>>],
    ) -> Result<(), Stop> {
        let mut most = 0;
        for group in groups {
            most = group.len().max(most);
        }
        for number in 0..most {
            let mut more = with_groups(alloc, heads, groups, number)?;
            self.settle(alloc, policy, &mut more)?;
            *heads = more;
        }
        Ok(())
    }
}
