//! Proofs of a container's verification condition by the wider class.

ghost use Rattle.proof_container.specs.Views.{contents_of};
ghost use Rattle.pcc_gate.specs.Passing.{Passes};
ghost use Rattle.pcc_gate.specs.Answers.{IsHeld};

use crate::fault::RoundFault;
use auto_candidates::known;
use auto_proofs::condition_proof;
use hereditary_subst::Exhausted;
use pcc_gate::{GateFault, Passed, front};
use policy_set::Policy;
use prover_conditions::condition_in;
use prover_goals::Search;
use std::alloc::Global;
use term_table::{Id, Table};

/// A proof of a container's condition, and the container's invariants, as terms of a table.
#[derive(Drop)]
pub struct Found {
    /// The table.
    pub table: Table,
    /// The invariants with their indices.
    pub invs: Vec<(u32, Id)>,
    /// The proof.
    pub proof: Id,
}

/// The proof of the condition of what passed the checks before the proof.
fn found_in(
    policy: &Policy,
    bytes: &[u8],
    passed: Passed<'_>,
    steps: usize,
) -> Result<Option<Found>, Exhausted>
    requires passes { let contents = contents_of passed.container in
        Passes policy.now bytes.now contents passed.cut.code passed.cut.marks }
    requires held { IsHeld passed.container }
{
    let _ = bytes; // only the clauses speak of it
    let container = passed.container;
    let cut = passed.cut;
    let bound = container.bound;
    let mut table = container.table;
    let invs = container.invs;
    let condition = condition_in(&mut table, true, policy, &cut, &invs, bound)?;
    let Some(condition) = known(&table, condition) else {
        return Ok(None);
    };
    let mut search = Search::new(&table, steps);
    match condition_proof(&mut table, &mut search, bound.is_some(), condition)? {
        Some(proof) => Ok(Some(Found { table, invs, proof })),
        None => Ok(None),
    }
}

/// Returns a proof of the verification condition of the container in `bytes` under `policy`, by
/// what `auto_proofs` proves; None if it finds none. Caches at most `steps` results beside those of
/// the condition.
///
/// Errors: `Refused` names the first check before the proof that fails; `Memory` and `Steps` say
/// nothing about the bytes.
pub fn find_proof(
    alloc: Global,
    policy: &Policy,
    bytes: &[u8],
    steps: usize,
) -> Result<Option<Found>, RoundFault> {
    match front(alloc, policy, bytes) {
        Err(GateFault::Refused(refusal)) => Err(RoundFault::Refused(refusal)),
        Err(GateFault::Memory) => Err(RoundFault::Memory),
        Err(GateFault::Results) => Err(RoundFault::Steps),
        Ok(passed) => Ok(found_in(policy, bytes, passed, steps)?),
    }
}
